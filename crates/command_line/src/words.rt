// Which command the arguments are.
ghost use Rattle.std.specs.Prelude.{ℕ, IsTrue, MatchOption, ◌↔◌, ◌≢◌, ◌<◌, ◌+◌, ◌^◌, Bool, if◌then◌else◌, length};
ghost use Rattle.command_line.specs.Words.{IsNamed, IsWriting, IsLoop, IsDemo, IsList, IsJson, IsCount, IsOwnName, IsC, IsSettle};
ghost use Rattle.command_line.specs.Commands.{IsUsage, IsNoWriter, AreOf, OneCommandLaw};

use crate::program_name::is_name;
use io_edge::Words;
use number_text::number_word;

/// A command, with its number where it has one.
#[derive(Clone, Copy, PartialEq, Eq)]
pub enum Command {
    Generate,
    Solve,
    /// With a file of disturbances, or without.
    Loop { turns: u32, disturbed: bool },
    Demo { number: u32 },
    List,
    /// With a file of disturbances, or without.
    Stay { disturbed: bool },
    Play,
    Lean,
    /// `lean` with a file of faces: with one of disturbances, or without.
    LeanStay { disturbed: bool },
    Split,
    Serve,
    C,
    /// With a file of disturbances, or without.
    Settle { disturbed: bool },
}

/// The most turns of a `loop`.
const MOST_TURNS: u32 = 1000000;

/// The greatest number of a `demo`.
const GREATEST_NUMBER: u32 = 4294967295;

/// The command whose arguments these are; none where they are those of no command.
pub fn command_of(words: &Words) -> Option<Command>
    ensures { MatchOption result (IsUsage words.now) (λ command. AreOf command words.now) }
{
    if let Some(command) = writer_of(words) {
        return Some(command);
    }
    if is_named(words, "solve", 3) {
        return Some(Command::Solve);
    }
    if let Some(turns) = turns_of(words, false) {
        return Some(Command::Loop {
            turns,
            disturbed: false,
        });
    }
    if let Some(turns) = turns_of(words, true) {
        return Some(Command::Loop {
            turns,
            disturbed: true,
        });
    }
    if let Some(number) = number_of(words) {
        return Some(Command::Demo { number });
    }
    if is_named(words, "play", 3) {
        return Some(Command::Play);
    }
    if is_named(words, "serve", 3) {
        return Some(Command::Serve);
    }
    if let Some(disturbed) = settle_disturbed_of(words) {
        return Some(Command::Settle { disturbed });
    }
    None
}

// The command that writes files whose arguments these are; none where they are those of no such command.
fn writer_of(words: &Words) -> Option<Command>
    ensures { MatchOption result (IsNoWriter words.now) (λ command. AreOf command words.now) }
{
    if is_writing(words, "generate", 5, 3, 4) {
        return Some(Command::Generate);
    }
    if is_list(words) {
        return Some(Command::List);
    }
    if let Some(disturbed) = disturbed_of(words, "stay", 6, 3, 4) {
        return Some(Command::Stay { disturbed });
    }
    if is_writing(words, "lean", 6, 4, 5) {
        return Some(Command::Lean);
    }
    if let Some(disturbed) = disturbed_of(words, "lean", 7, 4, 5) {
        return Some(Command::LeanStay { disturbed });
    }
    if is_writing(words, "split", 6, 4, 5) {
        return Some(Command::Split);
    }
    if is_c(words) {
        return Some(Command::C);
    }
    None
}

/// The arguments are those of one command at most, with one number.
pub fn one_command_law()
    ensures { OneCommandLaw }
{}

// Whether they are a command's name, and with it so many.
fn is_named(words: &Words, name: &str, many: usize) -> bool
    requires { 0 < many }
    ensures { IsTrue result ↔ IsNamed words.now name.now many }
{
    words.count() == many && words.at(0) == name
}

// The same, and the two names that are written are no other's.
fn is_writing(words: &Words, name: &str, many: usize, controller: usize, report: usize) -> bool
    requires controller { controller < many }
    requires report { report < many }
    ensures { IsTrue result ↔ IsWriting words.now name.now many controller report }
{
    if words.count() != many || words.at(0) != name {
        return false;
    }
    is_own_name(words, controller) && is_own_name(words, report)
}

// Whether a file of disturbances comes last, after as many words as the least; none where the arguments are those of no such command.
fn disturbed_of(
    words: &Words,
    name: &str,
    least: usize,
    controller: usize,
    report: usize,
) -> Option<bool>
    requires controller { controller < least }
    requires report { report < least }
    requires few { least < 2 ^ 32 }
    ensures { MatchOption result ((disturbed : Bool) → ¬ IsWriting words.now name.now (if disturbed then least + 1 else least) controller report)
        (λ disturbed. IsWriting words.now name.now (if disturbed then least + 1 else least) controller report) }
{
    if is_writing(words, name, least, controller, report) {
        return Some(false);
    }
    if is_writing(words, name, least + 1, controller, report) {
        return Some(true);
    }
    None
}

// Whether they are those that `list` needs.
fn is_list(words: &Words) -> bool
    ensures { IsTrue result ↔ IsList words.now }
{
    is_named(words, "list", 3) && words.at(2) != words.at(1)
}

// The turns of a `loop`, with a file of disturbances or without; none where the arguments are those of no such `loop`.
fn turns_of(words: &Words, disturbed: bool) -> Option<u32>
    ensures { MatchOption result ((turns : ℕ) → ¬ IsLoop words.now turns disturbed) (λ turns. IsLoop words.now turns disturbed) }
{
    let count = if disturbed { 6 } else { 5 };
    if !is_named(words, "loop", count) {
        return None;
    }
    count_of(words.at(4), MOST_TURNS)
}

// The number of a `demo`; none where the arguments are those of no `demo`.
fn number_of(words: &Words) -> Option<u32>
    ensures { MatchOption result ((number : ℕ) → ¬ IsDemo words.now number) (λ number. IsDemo words.now number) }
{
    if !is_named(words, "demo", 2) {
        return None;
    }
    count_of(words.at(1), GREATEST_NUMBER)
}

// Whether they are those that `c` needs.
fn is_c(words: &Words) -> bool
    ensures { IsTrue result ↔ IsC words.now }
{
    if !is_named(words, "c", 5) || !is_name(words.at(2)) {
        return false;
    }
    let (controller, source, header) = (words.at(1), words.at(3), words.at(4));
    source != controller && is_other(header, controller, source)
}

// Whether a `settle` has a file of disturbances; none where the arguments are those of no `settle`.
fn settle_disturbed_of(words: &Words) -> Option<bool>
    ensures { MatchOption result ((disturbed : Bool) → ¬ IsSettle words.now disturbed) (λ disturbed. IsSettle words.now disturbed) }
{
    if is_named(words, "settle", 4) {
        return Some(false);
    }
    if is_named(words, "settle", 5) {
        return Some(true);
    }
    None
}

// Whether the name at a position stands at no other.
fn is_own_name(words: &Words, position: usize) -> bool
    requires { position < length words.now }
    ensures { IsTrue result ↔ IsOwnName words.now position }
{
    for i in 1..words.count() {
        if i != position && words.at(i) == words.at(position) {
            return false;
        }
    }
    true
}

// The number from 0 to `most` that a word is in decimal; none where it is no such number.
fn count_of(word: &str, most: u32) -> Option<u32>
    ensures { MatchOption result ((n : ℕ) → ¬ IsCount most word.now n) (λ n. IsCount most word.now n) }
{
    match number_word(word.as_bytes()) {
        Some(number) if 0 <= number && number <= i128::from(most) => Some(number as u32),
        _ => None,
    }
}

// Whether a name is neither of two others.
fn is_other(name: &str, first: &str, second: &str) -> bool
    ensures { IsTrue result ↔ ((name.now ≢ first.now) × (name.now ≢ second.now)) }
{
    name != first && name != second
}

/// Whether a name asks for the JSON form of the report.
pub fn is_json(name: &str) -> bool
    ensures { IsTrue result ↔ IsJson name.now }
{
    name.ends_with(".json")
}
