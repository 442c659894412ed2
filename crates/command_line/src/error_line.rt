// The line that tells of an answer.
ghost use Rattle.std.specs.Prelude.{◌≡◌, IfOk, string_bytes, codes, [], ◌∷◌};
ghost use Rattle.std.specs.List.{join_with_byte};
ghost use Rattle.std.specs.Fmt.{decimal, signed_decimal};
ghost use Rattle.qp_model.specs.refusal.Words.{refusal_words};
ghost use Rattle.command_line.specs.StatusLine.{field_name, fault_words, controller_words, status_words, status_line};

use crate::status::{Field, Status, status_number};
use controller_text::BadController;
use number_text::TextFault;
use qp_model::{Refusal, refusal_words};
use std::alloc::{AllocError, Global};

// The name of what a design and a controller differ in.
fn field_name(field: &Field) -> &'static str
    ensures { result.now ≡ field_name field.now }
{
    match field {
        Field::States => "states",
        Field::Inputs => "inputs",
        Field::Grid => "grid",
    }
}

// The fault of a text: its name, and where it is.
fn fault_words(alloc: Global, fault: &TextFault) -> Result<String, AllocError>
    ensures { IfOk result (λ text. string_bytes text ≡ join_with_byte 32 (fault_words fault.now)) }
{
    match fault {
        TextFault::NotToml => format!(in alloc; "not-toml"),
        TextFault::Key { place } => format!(in alloc; "key {place}"),
        TextFault::Shape { place } => format!(in alloc; "shape {place}"),
        TextFault::Range { place } => format!(in alloc; "range {place}"),
        TextFault::Fields { entry } => format!(in alloc; "fields {entry}"),
        TextFault::Number { entry, field } => format!(in alloc; "number {entry} {field}"),
        TextFault::Count { entries } => format!(in alloc; "count {entries}"),
        TextFault::Memory => format!(in alloc; "memory"),
    }
}

// Why bytes are no controller's text.
fn controller_words(alloc: Global, fault: &BadController) -> Result<String, AllocError>
    ensures { IfOk result (λ text. string_bytes text ≡ join_with_byte 32 (controller_words fault.now)) }
{
    match fault {
        BadController::Line { line } => format!(in alloc; "line {line}"),
        BadController::Unsafe => format!(in alloc; "unsafe"),
        BadController::Memory => format!(in alloc; "memory"),
    }
}

// A file's fault, where it is a text.
fn text_words(alloc: Global, file: u32, fault: &TextFault) -> Result<String, AllocError>
    ensures { IfOk result (λ text. string_bytes text ≡ join_with_byte 32 (codes "text" ∷ decimal file ∷ fault_words fault.now)) }
{
    let fault = fault_words(alloc, fault)?;
    format!(in alloc; "text {file} {fault}")
}

// A file's fault, where it is a controller.
fn file_words(alloc: Global, file: u32, fault: &BadController) -> Result<String, AllocError>
    ensures { IfOk result (λ text. string_bytes text ≡ join_with_byte 32 (codes "controller" ∷ decimal file ∷ controller_words fault.now)) }
{
    let fault = controller_words(alloc, fault)?;
    format!(in alloc; "controller {file} {fault}")
}

// What a design and a controller differ in, and both numbers.
fn mismatch_words(
    alloc: Global,
    field: &Field,
    design: i128,
    controller: i128,
) -> Result<String, AllocError>
    ensures { IfOk result (λ text. string_bytes text
        ≡ join_with_byte 32 (codes "mismatch" ∷ field_name field.now ∷ signed_decimal design ∷ signed_decimal controller ∷ [])) }
{
    let name = field_name(field);
    format!(in alloc; "mismatch {name} {design} {controller}")
}

// The cell whose design is refused, and why.
fn cell_words(alloc: Global, cell: u32, refusal: &Refusal) -> Result<String, AllocError>
    ensures { IfOk result (λ text. string_bytes text ≡ join_with_byte 32 (codes "cell" ∷ decimal cell ∷ refusal_words refusal.now)) }
{
    let refusal = refusal_words(alloc, refusal)?;
    format!(in alloc; "cell {cell} {refusal}")
}

// How far loops may go, below the name of what that breaks.
fn reach_words(
    alloc: Global,
    name: &str,
    turn: u32,
    coordinate: u32,
    bound: i128,
) -> Result<String, AllocError>
    ensures { IfOk result (λ text. string_bytes text
        ≡ join_with_byte 32 (name.now ∷ decimal turn ∷ decimal coordinate ∷ signed_decimal bound ∷ [])) }
{
    format!(in alloc; "{name} {turn} {coordinate} {bound}")
}

// The name of an answer, and its numbers.
fn status_words(alloc: Global, status: &Status) -> Result<String, AllocError>
    ensures { IfOk result (λ text. string_bytes text ≡ join_with_byte 32 (status_words status.now)) }
{
    match status {
        Status::Done => Ok(String::new(alloc)),
        Status::Memory => format!(in alloc; "memory"),
        Status::Usage => format!(in alloc; "usage"),
        Status::ReadFault { file } => format!(in alloc; "read-fault {file}"),
        Status::WriteFault { file } => format!(in alloc; "write-fault {file}"),
        Status::Text { file, fault } => text_words(alloc, *file, fault),
        Status::Refused { refusal } => refusal_words(alloc, refusal),
        Status::Controller { file, fault } => file_words(alloc, *file, fault),
        Status::OutsideBox {
            entry,
            turn,
            coordinate,
        } => format!(in alloc; "outside-box {entry} {turn} {coordinate}"),
        Status::Long { file } => format!(in alloc; "long {file}"),
        Status::Mismatch {
            field,
            design,
            controller,
        } => mismatch_words(alloc, field, *design, *controller),
        Status::Unequal {
            entry,
            input,
            left,
            right,
        } => format!(in alloc; "unequal {entry} {input} {left} {right}"),
        Status::NoStay { entry, bound } => format!(in alloc; "no-stay {entry} {bound}"),
        Status::Cell { cell, refusal } => cell_words(alloc, *cell, refusal),
        Status::Listing { file, line } => format!(in alloc; "listing {file} {line}"),
        Status::Trap { entry, step, place } => format!(in alloc; "trap {entry} {step} {place}"),
        Status::TooWideForC { width } => format!(in alloc; "too-wide-c {width}"),
        Status::Moves { row, left, right } => format!(in alloc; "moves {row} {left} {right}"),
        Status::Unsettled {
            turn,
            coordinate,
            bound,
        } => reach_words(alloc, "unsettled", *turn, *coordinate, *bound),
        Status::NoReturn {
            turn,
            coordinate,
            bound,
        } => reach_words(alloc, "no-return", *turn, *coordinate, *bound),
    }
}

/// The line that tells of an answer on standard error: `error`, the exit status, the answer's name and its numbers. There is none where all was done.
pub fn status_line(alloc: Global, status: &Status) -> Result<Vec<u8>, AllocError>
    ensures { IfOk result (λ v. v.items ≡ status_line status.now) }
{
    if matches!(status, Status::Done) {
        return Ok(Vec::new(alloc));
    }
    let number = status_number(status);
    let words = status_words(alloc, status)?;
    let line = format!(in alloc; "error {number} {words}\n")?;
    Ok(line.into_bytes())
}
