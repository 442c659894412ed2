// The commands.
use command_line::{Command, command_of, is_json};
use io_edge::Words;
use std::alloc::{AllocError, Global};
use std::test::Fail;

// The arguments, with one space between two.
fn words_of(alloc: Global, arguments: &str) -> Result<Words, AllocError> {
    let mut words = Words::empty(alloc);
    for word in arguments.split(' ') {
        words.push(word)?;
    }
    Ok(words)
}

// Whether the arguments are those of this command.
fn are_of(alloc: Global, arguments: &str, command: &Option<Command>) -> Result<bool, AllocError> {
    let words = words_of(alloc, arguments)?;
    Ok(command_of(&words) == *command)
}

// Each command, and next to it the arguments of none.
static COMMANDS: [(&str, Option<Command>); 51] = [
    ("generate d p c r", Some(Command::Generate)),
    ("generate d d c r.json", Some(Command::Generate)),
    ("solve c s", Some(Command::Solve)),
    ("solve s s", Some(Command::Solve)),
    (
        "loop d c s 0",
        Some(Command::Loop {
            turns: 0,
            disturbed: false,
        }),
    ),
    (
        "loop d c s 1000000 v",
        Some(Command::Loop {
            turns: 1000000,
            disturbed: true,
        }),
    ),
    ("split d l p c r", Some(Command::Split)),
    ("serve c s", Some(Command::Serve)),
    ("lean d p q c r", Some(Command::Lean)),
    (
        "lean d p q c r f",
        Some(Command::LeanStay { disturbed: false }),
    ),
    (
        "lean d p q c r f w",
        Some(Command::LeanStay { disturbed: true }),
    ),
    ("demo 0", Some(Command::Demo { number: 0 })),
    (
        "demo 4294967295",
        Some(Command::Demo { number: 4294967295 }),
    ),
    ("", None),
    ("solve", None),
    ("solve c", None),
    ("solve c s t", None),
    ("Solve c s", None),
    ("generate d p c", None),
    ("generate d p c r x", None),
    ("generate d p d r", None),
    ("generate d p p r", None),
    ("generate d p c d", None),
    ("generate d p c p", None),
    ("generate d p c c", None),
    ("loop d c s", None),
    ("loop d c s 1000001", None),
    ("loop d c s 01", None),
    ("loop d c s -1", None),
    ("loop d c s -0", None),
    ("loop d c s +1", None),
    ("loop d c s x", None),
    ("loop d c s ", None),
    ("loop d c s 1 v w", None),
    ("loop d c s v 1", None),
    ("split d l p c c", None),
    ("split d l p l r", None),
    ("split d l p c", None),
    ("serve c", None),
    ("lean d p q c r c", None),
    ("lean d p q c r f w x", None),
    ("demo", None),
    ("demo 4294967296", None),
    ("demo 00", None),
    ("demo 1 2", None),
    ("list c", None),
    ("list c c", None),
    ("play l", None),
    ("play l s s", None),
    ("stay d p c r c", None),
    ("run c s", None),
];

#[test]
fn commands(rt: HostRuntime) -> Result<(), Fail> {
    for (arguments, command) in &COMMANDS {
        assert!(rt; are_of(rt.alloc(), arguments, command)?);
    }
    Ok(())
}

#[test]
fn json_names(rt: HostRuntime) {
    assert!(rt; is_json("r.json") && is_json(".json") && !is_json("r.JSON") && !is_json("json"));
}
