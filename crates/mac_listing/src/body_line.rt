// Which lines can stand after the head of a listing, and the instruction of a line.
ghost use Rattle.std.specs.Prelude.{◌≡◌, ◌↔◌, ◌≤◌, length, IsTrue};
ghost use Rattle.text_lines.specs.Lines.{view, views};
ghost use Rattle.mac_listing.specs.Listing.{IsOp};
ghost use Rattle.mac_listing.specs.Text.{op_keyed};
ghost use Rattle.mac_listing.specs.Reading.{same_bytes, shift_in, addressed_in, op_in};
ghost use Rattle.mac_listing.specs.Following.{IsOpLine, IsBodyLine};

use crate::head_line::{is_line, small_at, small_in};
use crate::instruction::Op;
use text_lines::{Line, number_at};

/// Whether a line can stand after these, which are nine or more and the first lines of a listing.
pub fn is_body_line(before: &[Line], line: &Line) -> bool
    requires { 9 ≤ length before.now }
    ensures { IsTrue result ↔ IsBodyLine (length before.now) (views before.now) (view line.now) }
{
    let place = before.len() - 9;
    let count = small_in(before, 7, 1) as usize;
    if place < count {
        is_op_line(line, small_in(before, 5, 0) as usize)
    } else {
        place == count && is_line(line, "end", &[])
    }
}

// Whether a line is that of an instruction for so many words.
fn is_op_line(line: &Line, words: usize) -> bool
    ensures { IsTrue result ↔ IsOpLine words (view line.now) }
{
    let op = op_of(line);
    is_line_of(line, op) && is_op(op, words)
}

// Whether an instruction's address is one of so many words, and its shift is in range.
fn is_op(op: Op, words: usize) -> bool
    ensures { IsTrue result ↔ IsOp words op }
{
    match op {
        Op::Load { a } | Op::Store { a } | Op::AddM { a } => a < words,
        Op::Mac { a, c: _, k } => a < words && k <= 126,
        Op::Con { c: _, k } | Op::Shl { k } | Op::Shr { k } => k <= 126,
        Op::Clear | Op::Neg | Op::Low | Op::Cap { c: _ } => true,
    }
}

// Whether a line is the one of an instruction.
fn is_line_of(line: &Line, op: Op) -> bool
    ensures { IsTrue result ↔ (view line.now ≡ op_keyed op) }
{
    match op {
        Op::Clear => is_line(line, "clear", &[]),
        Op::Load { a } => is_line(line, "load", &[a as i128]),
        Op::Store { a } => is_line(line, "store", &[a as i128]),
        Op::Mac { a, c, k } => is_line(line, "mac", &[a as i128, c, k as i128]),
        Op::Con { c, k } => is_line(line, "con", &[c, k as i128]),
        Op::AddM { a } => is_line(line, "addm", &[a as i128]),
        Op::Shl { k } => is_line(line, "shl", &[k as i128]),
        Op::Shr { k } => is_line(line, "shr", &[k as i128]),
        Op::Neg => is_line(line, "neg", &[]),
        Op::Low => is_line(line, "low", &[]),
        Op::Cap { c } => is_line(line, "cap", &[c]),
    }
}

// Whether a line has this word.
fn has_key(line: &Line, key: &str) -> bool
    ensures { result ≡ same_bytes (view line.now).key key.now }
{
    line.key == key.as_bytes()
}

/// The instruction of a line: what its word says, with its numbers as ones of 32 bits where they are addresses and shifts.
pub fn op_of(line: &Line) -> Op
    ensures { result ≡ op_in (view line.now) }
{
    if has_key(line, "clear") {
        Op::Clear
    } else if has_key(line, "neg") {
        Op::Neg
    } else if has_key(line, "low") {
        Op::Low
    } else {
        addressed_of(line)
    }
}

// That of a line whose word is none of these.
fn addressed_of(line: &Line) -> Op
    ensures { result ≡ addressed_in (view line.now) }
{
    let a = small_at(line, 0) as usize;
    if has_key(line, "load") {
        Op::Load { a }
    } else if has_key(line, "store") {
        Op::Store { a }
    } else if has_key(line, "addm") {
        Op::AddM { a }
    } else if has_key(line, "mac") {
        Op::Mac {
            a,
            c: number_at(&line.numbers, 1),
            k: small_at(line, 2),
        }
    } else {
        shift_of(line)
    }
}

// That of a line whose word is none of these either.
fn shift_of(line: &Line) -> Op
    ensures { result ≡ shift_in (view line.now) }
{
    let c = number_at(&line.numbers, 0);
    let k = small_at(line, 0);
    if has_key(line, "con") {
        Op::Con {
            c,
            k: small_at(line, 1),
        }
    } else if has_key(line, "shl") {
        Op::Shl { k }
    } else if has_key(line, "shr") {
        Op::Shr { k }
    } else {
        Op::Cap { c }
    }
}
