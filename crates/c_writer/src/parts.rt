// Numbers in two parts: without their last 16 bits, and these.
ghost use Rattle.std.specs.Prelude.{◌≡◌, ◌<◌, ◌≤◌, ◌^◌, ◌++◌, ℕ, OnOk, decimal, string_bytes, unsigned_abs};
ghost use Rattle.c_language.specs.Syntax.{variable};
ghost use Rattle.c_language.specs.Text.{kind_text, variable_text};
ghost use Rattle.c_program.specs.Of.{high_top, kind_for};
ghost use Rattle.c_writer.specs.Terms.{part_in, shift_in, entry_base_family, row_base_family, gradient_family, entry_family, high_line, low_line};

use crate::measured::Part;
use crate::words::{kind_word, push_declared, push_end, push_lowered_value, push_value};
use frac_scaled::{floor_shift, scaled};
use std::alloc::{AllocError, Global};

// A part of a number.
pub fn part_of(part: Part, z: i128) -> i128
    requires { unsigned_abs z < 2 ^ 127 }
    ensures value { result ≡ part_in part z }
    ensures small { unsigned_abs result < 2 ^ 127 }
{
    match part {
        Part::Whole => z,
        Part::High => floor_shift(z, 16),
        Part::Low => z - scaled(floor_shift(z, 16), 16),
    }
}

// By how many bits a sum is shifted that is made over `2^k`; in parts it is already over `2^16`.
pub fn shift_of(parted: bool, k: u32) -> u32
    ensures value { result ≡ shift_in parted k }
    ensures small { result ≤ 63 }
{
    if parted {
        k.saturating_sub(16).min(63)
    } else {
        k.min(63)
    }
}

// The letter of the bases of plan entries.
pub fn entry_base_letter(part: Part) -> &'static str
    ensures { (j : ℕ) → result.now ++ decimal j ≡ variable_text (variable (entry_base_family part) j) }
{
    match part {
        Part::High => "A",
        _ => "a",
    }
}

// Of the bases of rows.
pub fn row_base_letter(part: Part) -> &'static str
    ensures { (i : ℕ) → result.now ++ decimal i ≡ variable_text (variable (row_base_family part) i) }
{
    match part {
        Part::High => "R",
        _ => "r",
    }
}

// Of the products that a pair of rows shares.
pub fn gradient_letter(part: Part) -> &'static str
    ensures { (i : ℕ) → result.now ++ decimal i ≡ variable_text (variable (gradient_family part) i) }
{
    match part {
        Part::High => "G",
        _ => "g",
    }
}

// Of plan entries.
pub fn entry_letter(part: Part) -> &'static str
    ensures { (j : ℕ) → result.now ++ decimal j ≡ variable_text (variable (entry_family part) j) }
{
    match part {
        Part::Whole => "u",
        Part::High => "U",
        Part::Low => "w",
    }
}

// The type of what a number of at most this absolute value is without its last 16 bits.
pub fn high_kind(top: u128) -> &'static str
    ensures { result.now ≡ kind_text (kind_for (high_top top)) }
{
    kind_word((top >> 16) + 1)
}

// The line of what a variable is without its last 16 bits.
fn push_high(
    alloc: Global,
    text: &mut String,
    kind: &str,
    whole: &str,
    high: &str,
    number: usize,
) -> Result<(), AllocError>
    ensures { OnOk result (string_bytes text.new ≡ string_bytes text.old ++
        high_line kind.now (whole.now ++ decimal number) (high.now ++ decimal number)) }
{
    push_declared(alloc, text, "        ", kind, high, number)?;
    push_lowered_value(alloc, text, whole, number, 16)?;
    push_end(text)?;
    Ok(())
}

// The line of these bits.
fn push_low(
    alloc: Global,
    text: &mut String,
    whole: &str,
    high: &str,
    low: &str,
    number: usize,
) -> Result<(), AllocError>
    ensures { OnOk result (string_bytes text.new ≡ string_bytes text.old ++
        low_line (whole.now ++ decimal number) (high.now ++ decimal number) (low.now ++ decimal number)) }
{
    push_declared(alloc, text, "        ", "int32_t", low, number)?;
    push_value(alloc, text, whole, number)?;
    text.push_str(" - (INT64_C(65536) * ")?;
    push_value(alloc, text, high, number)?;
    text.push_str(")")?;
    push_end(text)?;
    Ok(())
}

// Both lines.
pub fn push_parts(
    alloc: Global,
    text: &mut String,
    kind: &str,
    whole: &str,
    high: &str,
    low: &str,
    number: usize,
) -> Result<(), AllocError>
    ensures { OnOk result (string_bytes text.new ≡ string_bytes text.old ++
        (high_line kind.now (whole.now ++ decimal number) (high.now ++ decimal number)
        ++ low_line (whole.now ++ decimal number) (high.now ++ decimal number) (low.now ++ decimal number))) }
{
    push_high(alloc, text, kind, whole, high, number)?;
    push_low(alloc, text, whole, high, low, number)?;
    Ok(())
}
