// The words of a program's text.
ghost use Rattle.std.specs.Prelude.{◌≡◌, ◌≢◌, ◌<◌, ◌≤◌, ◌*◌, ◌^◌, ◌++◌, pos, ◌*ℤ◌, OnOk, IfOk, map, codes, string_bytes, unsigned_abs, decimal};
ghost use Rattle.std.specs.Fmt.{signed_decimal};
ghost use Rattle.c_language.specs.Text.{constant_text, kind_text};
ghost use Rattle.c_program.specs.Of.{kind_for};
ghost use Rattle.c_writer.specs.Terms.{joined, lowered_text, term_text, product_text, part_in, given_text, given_end, declared_text, weight_open, weight_end};

use crate::measured::Part;
use crate::parts::part_of;
use frac_scaled::scaled;
use overflow_check::Machine;
use std::alloc::{AllocError, Global};

// A number.
pub fn push_number(alloc: Global, text: &mut String, z: i128) -> Result<(), AllocError>
    ensures { OnOk result (string_bytes text.new ≡ string_bytes text.old ++ signed_decimal z) }
{
    let word = z.to_string(alloc)?;
    text.push_str(word.as_str())
}

// A literal of 64 bits.
pub fn push_constant(alloc: Global, text: &mut String, z: i128) -> Result<(), AllocError>
    requires { unsigned_abs z < 2 ^ 127 }
    ensures { OnOk result (string_bytes text.new ≡ string_bytes text.old ++ constant_text z) }
{
    if z < 0 {
        text.push_str("(-INT64_C(")?;
        push_number(alloc, text, -z)?;
        text.push_str("))")
    } else {
        text.push_str("INT64_C(")?;
        push_number(alloc, text, z)?;
        text.push_str(")")
    }
}

// The same as a text of its own.
pub fn constant_word(alloc: Global, z: i128) -> Result<String, AllocError>
    requires { unsigned_abs z < 2 ^ 127 }
    ensures { IfOk result (λ word. string_bytes word ≡ constant_text z) }
{
    let mut word = String::new(alloc);
    push_constant(alloc, &mut word, z)?;
    Ok(word)
}

// A variable, whose family is a letter.
pub fn push_name(
    alloc: Global,
    text: &mut String,
    family: &str,
    number: usize,
) -> Result<(), AllocError>
    ensures { OnOk result (string_bytes text.new ≡ string_bytes text.old ++ (family.now ++ decimal number)) }
{
    text.push_str(family)?;
    push_number(alloc, text, number as i128)
}

// The value of a variable.
pub fn push_value(
    alloc: Global,
    text: &mut String,
    family: &str,
    number: usize,
) -> Result<(), AllocError>
    ensures { OnOk result (string_bytes text.new ≡ string_bytes text.old ++ (codes "(int64_t)" ++ (family.now ++ decimal number))) }
{
    text.push_str("(int64_t)")?;
    push_name(alloc, text, family, number)
}

// The same over `2^k`, where k is 0.
fn push_plain_value(
    alloc: Global,
    text: &mut String,
    family: &str,
    number: usize,
    k: u32,
) -> Result<(), AllocError>
    requires { k ≡ 0 }
    ensures { OnOk result (string_bytes text.new ≡ string_bytes text.old ++ lowered_text (family.now ++ decimal number) k) }
{
    push_value(alloc, text, family, number)?;
    Ok(())
}

// And where it isn't.
fn push_shifted_value(
    alloc: Global,
    text: &mut String,
    family: &str,
    number: usize,
    k: u32,
) -> Result<(), AllocError>
    requires { k ≢ 0 }
    ensures { OnOk result (string_bytes text.new ≡ string_bytes text.old ++ lowered_text (family.now ++ decimal number) k) }
{
    text.push_str("((")?;
    push_value(alloc, text, family, number)?;
    text.push_str(") >> ")?;
    push_number(alloc, text, k as i128)?;
    text.push_str(")")?;
    Ok(())
}

// The value of a variable over `2^k`, rounded down.
pub fn push_lowered_value(
    alloc: Global,
    text: &mut String,
    family: &str,
    number: usize,
    k: u32,
) -> Result<(), AllocError>
    ensures { OnOk result (string_bytes text.new ≡ string_bytes text.old ++ lowered_text (family.now ++ decimal number) k) }
{
    if k == 0 {
        push_plain_value(alloc, text, family, number, k)
    } else {
        push_shifted_value(alloc, text, family, number, k)
    }
}

// A product of a constant and a variable, added to what stands before it.
fn push_term(
    alloc: Global,
    text: &mut String,
    c: i128,
    family: &str,
    number: usize,
) -> Result<(), AllocError>
    requires { unsigned_abs c < 2 ^ 127 }
    ensures { OnOk result (string_bytes text.new ≡ string_bytes text.old ++ term_text c (family.now ++ decimal number)) }
{
    text.push_str(" + (")?;
    push_constant(alloc, text, c)?;
    text.push_str(" * (int64_t)")?;
    push_name(alloc, text, family, number)?;
    text.push_str(")")
}

// The same, left out where it is always 0.
fn push_product(
    alloc: Global,
    text: &mut String,
    c: i128,
    top: u128,
    family: &str,
    number: usize,
) -> Result<(), AllocError>
    requires { unsigned_abs c < 2 ^ 127 }
    ensures { OnOk result (string_bytes text.new ≡ string_bytes text.old ++ product_text c top (family.now ++ decimal number)) }
{
    if c != 0 && top != 0 {
        push_term(alloc, text, c, family, number)
    } else {
        Ok(())
    }
}

// The same of a part of the constant times `2^k`.
pub fn push_scaled(
    alloc: Global,
    text: &mut String,
    part: Part,
    x: i128,
    k: u32,
    top: u128,
    family: &str,
    number: usize,
) -> Result<(), AllocError>
    requires small { k ≤ 40 }
    requires room { unsigned_abs (x *ℤ pos (2 ^ k)) * top < 2 ^ 127 }
    ensures { OnOk result (string_bytes text.new ≡ string_bytes text.old ++
        product_text (part_in part (x *ℤ pos (2 ^ k))) top (family.now ++ decimal number)) }
{
    if top != 0 {
        push_product(
            alloc,
            text,
            part_of(part, scaled(x, k)),
            top,
            family,
            number,
        )
    } else {
        Ok(())
    }
}

// The type of 32 bits where it holds numbers of at most this absolute value, else that of 64.
pub fn kind_word(top: u128) -> &'static str
    ensures { result.now ≡ kind_text (kind_for top) }
{
    if top < 1 << 31 { "int32_t" } else { "int64_t" }
}

// What stands before the value that a variable is given.
pub fn push_open(
    alloc: Global,
    text: &mut String,
    kind: &str,
    family: &str,
    number: usize,
) -> Result<(), AllocError>
    ensures { OnOk result (string_bytes text.new ≡ string_bytes text.old ++ given_text kind.now (family.now ++ decimal number)) }
{
    push_name(alloc, text, family, number)?;
    text.push_str(" = (")?;
    text.push_str(kind)?;
    text.push_str(")(")
}

// What stands before the value of a variable that is declared.
pub fn push_declared(
    alloc: Global,
    text: &mut String,
    indent: &str,
    kind: &str,
    family: &str,
    number: usize,
) -> Result<(), AllocError>
    ensures { OnOk result (string_bytes text.new ≡ string_bytes text.old ++ declared_text indent.now kind.now (family.now ++ decimal number)) }
{
    text.push_str(indent)?;
    text.push_str(kind)?;
    text.push_str(" ")?;
    push_open(alloc, text, kind, family, number)
}

// What stands behind it.
pub fn push_end(text: &mut String) -> Result<(), AllocError>
    ensures { OnOk result (string_bytes text.new ≡ string_bytes text.old ++ given_end) }
{
    text.push_str(");\n")
}

// Pieces, one behind the other.
pub fn push_pieces(text: &mut String, pieces: &[&str]) -> Result<(), AllocError>
    ensures { OnOk result (string_bytes text.new ≡ string_bytes text.old ++ joined (map (λ x. x.now) pieces.now)) }
{
    for piece in pieces {
        text.push_str(piece)?;
    }
    Ok(())
}

// What stands before what is added by a step's weight.
pub fn weight_open(machine: Machine) -> &'static str
    ensures { result.now ≡ weight_open machine }
{
    match machine {
        Machine::Plain => "",
        Machine::Accelerated => "((int64_t)k0 * ",
    }
}

// And behind it.
pub fn weight_end(machine: Machine) -> &'static str
    ensures { result.now ≡ weight_end machine }
{
    match machine {
        Machine::Plain => "",
        Machine::Accelerated => ")",
    }
}
