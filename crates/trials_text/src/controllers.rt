// Texts of controllers.
use controller_file::{AnyController, read_any_controller, read_controller};
use controller_text::{BadController, write_controller, write_fast_controller};
use overflow_check::{Controller, FastController};
use qp_model::ControllerParts;
use std::alloc::{AllocError, Global};
use std::test::Fail;
use trials_worked::{
    CONTROLLER, CONTROLLER_OF_TWO, Changed, LEAN_CONTROLLER, changed_text, has_rows,
};

// The first text in version 2, with exponents that are not all the greatest.
const SECOND: Changed = (
    CONTROLLER,
    &[
        ("mpc-controller 1", "mpc-controller 2"),
        ("words 6\n", "words 6\nexps 0 1 1\n"),
    ],
);

// The worked text of the accelerated machine: the lean controller's under version 3.
const THIRD: Changed = (
    LEAN_CONTROLLER,
    &[
        ("mpc-controller 1", "mpc-controller 3"),
        ("words 6\n", "words 12\nexps 0 1 1\n"),
    ],
);

// Whether these are the numbers of the second text.
fn are_two(parts: &ControllerParts) -> bool {
    parts.lo.as_slice() == [-16, -3].as_slice()
        && parts.hi.as_slice() == [16, 5].as_slice()
        && has_rows(&parts.p_mat, &[&[-12, 7], &[0, 300]])
        && parts.t.as_slice() == [5, -9].as_slice()
        && parts.bound.as_slice() == [256, -512].as_slice()
}

// Whether this is written as the text of a controller.
fn is_written(alloc: Global, controller: &Controller, text: &str) -> Result<bool, BadController> {
    let written = write_controller(alloc, controller)?;
    Ok(written.as_slice() == text.as_bytes())
}

// Whether a controller has these numbers, and the second text.
fn is_two(alloc: Global, controller: &Controller) -> Result<bool, BadController> {
    Ok(are_two(controller.parts()) && is_written(alloc, controller, CONTROLLER_OF_TWO)?)
}

fn reads_two(alloc: Global) -> Result<bool, BadController> {
    let controller = read_controller(alloc, CONTROLLER_OF_TWO.as_bytes())?;
    is_two(alloc, &controller)
}

// The numbers of a text, each at its place.
#[test]
fn numbers(rt: HostRuntime) -> Result<(), Fail> {
    assert!(rt; reads_two(rt.alloc())?);
    Ok(())
}

// Whether this is written as the text of a controller of the accelerated machine.
fn is_fast_written(
    alloc: Global,
    controller: &FastController,
    text: &str,
) -> Result<bool, BadController> {
    let written = write_fast_controller(alloc, controller)?;
    Ok(written.as_slice() == text.as_bytes())
}

// Whether a controller is one of the accelerated machine or not, and written so.
fn is_any_written(
    alloc: Global,
    controller: &AnyController,
    text: &str,
    accelerated: bool,
) -> Result<bool, BadController> {
    match controller {
        AnyController::Fast(it) => Ok(accelerated && is_fast_written(alloc, it, text)?),
        AnyController::Plain(it) => Ok(!accelerated && is_written(alloc, it, text)?),
    }
}

// The same of a text, which is written as it was read.
fn is_written_back(alloc: Global, text: &str, accelerated: bool) -> Result<bool, BadController> {
    let controller = read_any_controller(alloc, text.as_bytes())?;
    is_any_written(alloc, &controller, text, accelerated)
}

// The same of a changed text.
fn are_written_back(alloc: Global, changed: Changed, accelerated: bool) -> Result<bool, Fail> {
    let text = changed_text(alloc, changed)?;
    Ok(is_written_back(alloc, &text, accelerated)?)
}

#[test]
fn written_back(rt: HostRuntime) -> Result<(), Fail> {
    assert!(rt; are_written_back(rt.alloc(), SECOND, false)?);
    assert!(rt; are_written_back(rt.alloc(), THIRD, true)?);
    Ok(())
}

// Why bytes are refused, none where they are a controller's text; an error where memory runs out, so that it is taken for no answer.
fn refusal_of(alloc: Global, bytes: &[u8]) -> Result<Option<BadController>, AllocError> {
    match read_any_controller(alloc, bytes).err() {
        Some(BadController::Memory) => Err(AllocError),
        refusal => Ok(refusal),
    }
}

// The same of a changed text with one part of it in another's place, wherever it stands.
fn refusal_with(
    alloc: Global,
    changed: Changed,
    old: &str,
    new: &str,
) -> Result<Option<BadController>, Fail> {
    let text = changed_text(alloc, changed)?.replace(alloc, old, new)?;
    Ok(refusal_of(alloc, text.as_bytes())?)
}

const FIRST: Changed = (CONTROLLER, &[]);

// A text, what stands in place of a part of it, and why it is refused then, none where it is a controller's text.
static CHANGES: [(Changed, &str, &str, Option<BadController>); 42] = [
    (FIRST, "steps 4", "steps 5", None),
    (FIRST, "bits 10 0 1 26", "bits 10 0 1 27", None),
    (
        FIRST,
        "bits 10 0 1 26",
        "bits 10 0 1 25",
        Some(BadController::Unsafe),
    ),
    (
        FIRST,
        "26\nsteps 4",
        "25\nsteps 04",
        Some(BadController::Line { line: 4 }),
    ),
    (
        FIRST,
        "end\n",
        "end",
        Some(BadController::Line { line: 19 }),
    ),
    (
        FIRST,
        "end\n",
        "end\n\n",
        Some(BadController::Line { line: 20 }),
    ),
    (
        FIRST,
        "end\n",
        "End\n",
        Some(BadController::Line { line: 19 }),
    ),
    (FIRST, "T 0", "T", Some(BadController::Line { line: 10 })),
    (
        FIRST,
        "T 0",
        "T 0 0",
        Some(BadController::Line { line: 10 }),
    ),
    (
        FIRST,
        "steps 4",
        "steps +4",
        Some(BadController::Line { line: 4 }),
    ),
    (
        FIRST,
        "steps 4",
        "steps -4",
        Some(BadController::Line { line: 4 }),
    ),
    (
        FIRST,
        "steps 4",
        "steps 4 ",
        Some(BadController::Line { line: 4 }),
    ),
    (
        FIRST,
        "steps 4",
        " steps 4",
        Some(BadController::Line { line: 4 }),
    ),
    (
        FIRST,
        "steps 4",
        "steps\t4",
        Some(BadController::Line { line: 4 }),
    ),
    (
        FIRST,
        "steps 4",
        "steps",
        Some(BadController::Line { line: 4 }),
    ),
    (
        FIRST,
        "hi 1",
        "hi -1",
        Some(BadController::Line { line: 8 }),
    ),
    (
        FIRST,
        "lo 0\nhi 1",
        "hi 1\nlo 0",
        Some(BadController::Line { line: 7 }),
    ),
    (
        FIRST,
        "P 512\nT 0",
        "T 0\nP 512",
        Some(BadController::Line { line: 9 }),
    ),
    (
        FIRST,
        "mpc-controller 1",
        "mpc-controller 0",
        Some(BadController::Line { line: 1 }),
    ),
    (
        FIRST,
        "clamp 32768",
        "clamp -1",
        Some(BadController::Line { line: 5 }),
    ),
    (
        FIRST,
        "G -1024\n",
        "",
        Some(BadController::Line { line: 14 }),
    ),
    (
        FIRST,
        "E 0\nE 0\n",
        "E 0\n",
        Some(BadController::Line { line: 17 }),
    ),
    (
        FIRST,
        "b 1024 1024 256",
        "b 1024 1024",
        Some(BadController::Line { line: 18 }),
    ),
    (
        FIRST,
        "P 512",
        "P 170141183460469231731687303715884105728",
        Some(BadController::Line { line: 9 }),
    ),
    (
        FIRST,
        "size 1",
        "size 5",
        Some(BadController::Line { line: 2 }),
    ),
    (
        FIRST,
        "size 1 1 1 3",
        "size 4294967297 1 1 3",
        Some(BadController::Line { line: 2 }),
    ),
    (
        FIRST,
        "size 1 1 1 3",
        "size 1 4294967295 4294967295 3",
        Some(BadController::Line { line: 2 }),
    ),
    (FIRST, "\n", "\r\n", Some(BadController::Line { line: 1 })),
    (FIRST, "\n", "\n\n", Some(BadController::Line { line: 2 })),
    (
        SECOND,
        "exps 0 1 1",
        "exps -1 1 1",
        Some(BadController::Line { line: 7 }),
    ),
    (
        SECOND,
        "exps 0 1 1\n",
        "exps 0 1 1\nexps 0 1 1\n",
        Some(BadController::Line { line: 8 }),
    ),
    (
        SECOND,
        "exps 0 1 1\nlo 0\nhi 1\nP 512",
        "lo 0\nhi 1\nP 512\nexps 0 1 1",
        Some(BadController::Line { line: 7 }),
    ),
    (
        SECOND,
        "hi 1",
        "hi -1",
        Some(BadController::Line { line: 9 }),
    ),
    (
        SECOND,
        "size 1 1 1 3",
        "size 5 1 1 3",
        Some(BadController::Line { line: 6 }),
    ),
    // At 10 steps the sum of the multipliers reached is 33280, above the 32767 of its width, and at 9 it is 27648.
    (THIRD, "steps 1", "steps 9", None),
    (THIRD, "steps 1", "steps 10", Some(BadController::Unsafe)),
    (THIRD, "steps 1", "steps 65534", Some(BadController::Unsafe)),
    (
        THIRD,
        "steps 1",
        "steps 65535",
        Some(BadController::Line { line: 4 }),
    ),
    (
        THIRD,
        "words 12",
        "words 6",
        Some(BadController::Line { line: 6 }),
    ),
    (
        THIRD,
        "exps 0 1 1\n",
        "",
        Some(BadController::Line { line: 7 }),
    ),
    (
        THIRD,
        "mpc-controller 3",
        "mpc-controller 4",
        Some(BadController::Line { line: 1 }),
    ),
    (
        THIRD,
        "mpc-controller 3",
        "mpc-controller 2",
        Some(BadController::Line { line: 6 }),
    ),
];

#[test]
fn changed(rt: HostRuntime) -> Result<(), Fail> {
    for (text, old, new, answer) in &CHANGES {
        assert!(rt; refusal_with(rt.alloc(), *text, old, new)? == *answer);
    }
    Ok(())
}

#[test]
fn other_bytes(rt: HostRuntime) -> Result<(), Fail> {
    assert!(rt; refusal_of(rt.alloc(), &[255])? == Some(BadController::Line { line: 1 }));
    Ok(())
}
