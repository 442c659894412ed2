// Means without a division, where their divisor and their multipliers are short.
ghost use Rattle.std.specs.Prelude.{◌≡◌, ◌<◌, ◌≤◌, ◌++◌, ◌&&◌, OnOk, string_bytes};
ghost use Rattle.overflow_check.specs.declared.machine.Machine.TheVariants.{Accelerated};
ghost use Rattle.c_program.specs.Of.{is_row_needed, has_short_divisor, is_quick_within, is_quick, is_twice_quick, is_any_quick};
ghost use Rattle.c_program.specs.FastOf.{first_scale, scale_statements, near_statements, exact_statements, quick_mean_statements, first_round_statements, second_round_statements, rounds_statements, twice_mean_statements};
ghost use Rattle.c_writer.specs.Measured.{controller_in, held_family, row_count, loop_text, needed_start_text, needed_loop_text};

use crate::measured::{Held, Measured};
use crate::needed::{either, is_row_needed_at};
use crate::opposite::both;
use crate::start::held_letter;
use crate::tops::{divisor_top, fast_top_at, held_kind};
use crate::words::push_pieces;
use std::alloc::AllocError;

// Whether what means are divided by is short.
fn has_short_divisor_at(from: &Measured) -> bool
    requires { from.now.machine ≡ Accelerated }
    ensures { result ≡ has_short_divisor (controller_in from.now) }
{
    divisor_top(from) < 1 << 31
}

// Whether the mean of row `i` is made without a division where multipliers have at most so many bits.
fn is_quick_within(from: &Measured, bits: u32, i: usize) -> bool
    requires machine { from.now.machine ≡ Accelerated }
    requires few { bits ≤ 56 }
    requires in_range { i < row_count from.now }
    ensures { result ≡ is_quick_within bits (controller_in from.now) i }
{
    let low = fast_top_at(from, i).unsigned_abs() < 1 << bits;
    both(has_short_divisor_at(from), low)
}

// Whether it is made by one multiplication with the reciprocal.
pub fn is_quick_at(from: &Measured, i: usize) -> bool
    requires machine { from.now.machine ≡ Accelerated }
    requires in_range { i < row_count from.now }
    ensures { result ≡ is_quick (controller_in from.now) i }
{
    is_quick_within(from, 30, i)
}

// Whether it is by two.
pub fn is_twice_quick_at(from: &Measured, i: usize) -> bool
    requires machine { from.now.machine ≡ Accelerated }
    requires in_range { i < row_count from.now }
    ensures { result ≡ is_twice_quick (controller_in from.now) i }
{
    is_quick_within(from, 56, i)
}

// Whether that row is needed, too.
fn is_needed_quick_at(from: &Measured, i: usize) -> bool
    requires machine { from.now.machine ≡ Accelerated }
    requires in_range { i < row_count from.now }
    ensures { result ≡ (is_row_needed (controller_in from.now) i && is_twice_quick (controller_in from.now) i) }
{
    both(is_row_needed_at(from.c, i), is_twice_quick_at(from, i))
}

// Whether any row is so.
fn is_any_quick_at(from: &Measured) -> bool
    requires machine { from.now.machine ≡ Accelerated }
    ensures { result ≡ is_any_quick (controller_in from.now) }
{
    let mut found = false;
    for i in 0..from.c.bound.len() {
        let next = is_needed_quick_at(from, i);
        found = either(found, next);
    }
    found
}

// The lines of the first scale of the divisor.
pub fn push_first_scale(from: &Measured, text: &mut String) -> Result<(), AllocError>
    requires machine { from.now.machine ≡ Accelerated }
    ensures { OnOk result (string_bytes text.new ≡ string_bytes text.old ++ needed_start_text from.now (first_scale (controller_in from.now))) }
{
    if is_any_quick_at(from) {
        push_pieces(
            text,
            &[
                "    int32_t e0 = (int32_t)(INT64_C(1));\n",
                "    int64_t p0 = (int64_t)(INT64_C(8589934592));\n",
            ],
        )
    } else {
        Ok(())
    }
}

// The lines of a step's scale, and of the reciprocal.
pub fn push_scale(from: &Measured, text: &mut String) -> Result<(), AllocError>
    requires machine { from.now.machine ≡ Accelerated }
    ensures { OnOk result (string_bytes text.new ≡ string_bytes text.old ++ needed_loop_text from.now (scale_statements (controller_in from.now))) }
{
    if is_any_quick_at(from) {
        push_pieces(
            text,
            &[
                "        int32_t c0 = (int32_t)(INT64_C(1) + ((((int64_t)b0 * INT64_C(1073741824)) - (int64_t)p0) >> 63));\n",
                "        e0 = (int32_t)((int64_t)e0 + (int64_t)c0);\n",
                "        p0 = (int64_t)((int64_t)p0 + ((int64_t)c0 * (int64_t)p0));\n",
                "        int32_t q0 = (int32_t)((((int64_t)p0 - INT64_C(1)) / (int64_t)b0));\n",
            ],
        )
    } else {
        Ok(())
    }
}

// The lines that make the mean of row `i`, or one less.
fn push_near(from: &Measured, text: &mut String, i: usize) -> Result<(), AllocError>
    requires in_range { i < row_count from.now }
    ensures { OnOk result (string_bytes text.new ≡ string_bytes text.old ++ loop_text from.now (near_statements i)) }
{
    let word = i.to_string(from.alloc)?;
    let number = word.as_str();
    let kind = held_kind(from, Held::Planned, i);
    push_pieces(
        text,
        &[
            "        int64_t n",
            number,
            " = (int64_t)((int64_t)v",
            number,
            " + ((int64_t)k0 * (int64_t)m",
            number,
            "));\n        int32_t h",
            number,
            " = (int32_t)((((int64_t)n",
            number,
            ") >> (int64_t)e0));\n        l",
            number,
            " = (",
            kind,
            ")(((((int64_t)h",
            number,
            " * (int64_t)q0)) >> 32));\n",
        ],
    )?;
    Ok(())
}

// The lines that make what is near exact.
fn push_exact(from: &Measured, text: &mut String, held: Held, i: usize) -> Result<(), AllocError>
    requires in_range { i < row_count from.now }
    ensures { OnOk result (string_bytes text.new ≡ string_bytes text.old ++ loop_text from.now (exact_statements (held_family held) i)) }
{
    let word = i.to_string(from.alloc)?;
    let number = word.as_str();
    let letter = held_letter(held);
    let kind = held_kind(from, held, i);
    push_pieces(
        text,
        &[
            "        int32_t z",
            number,
            " = (int32_t)((int64_t)n",
            number,
            " - ((int64_t)",
            letter,
            number,
            " * (int64_t)b0) - (int64_t)b0);\n        ",
            letter,
            number,
            " = (",
            kind,
            ")((int64_t)",
            letter,
            number,
            " + INT64_C(1) + (((int64_t)z",
            number,
            ") >> 31));\n",
        ],
    )?;
    Ok(())
}

// All of these.
pub fn push_quick_mean(from: &Measured, text: &mut String, i: usize) -> Result<(), AllocError>
    requires in_range { i < row_count from.now }
    ensures { OnOk result (string_bytes text.new ≡ string_bytes text.old ++ loop_text from.now (quick_mean_statements i)) }
{
    push_near(from, text, i)?;
    push_exact(from, text, Held::Planned, i)?;
    Ok(())
}

// The lines that divide what is divided for the mean of row `i` without its last 26 bits.
fn push_first_round(from: &Measured, text: &mut String, i: usize) -> Result<(), AllocError>
    requires in_range { i < row_count from.now }
    ensures { OnOk result (string_bytes text.new ≡ string_bytes text.old ++ loop_text from.now (first_round_statements i)) }
{
    let word = i.to_string(from.alloc)?;
    let number = word.as_str();
    let kind = held_kind(from, Held::Planned, i);
    push_pieces(
        text,
        &[
            "        int64_t n",
            number,
            " = (int64_t)((int64_t)v",
            number,
            " + ((int64_t)k0 * (int64_t)m",
            number,
            "));\n        int32_t h",
            number,
            " = (int32_t)((((((int64_t)n",
            number,
            ") >> 26)) >> (int64_t)e0));\n        l",
            number,
            " = (",
            kind,
            ")((((((int64_t)h",
            number,
            " * (int64_t)q0)) >> 32) * INT64_C(67108864)));\n        n",
            number,
            " = (int64_t)((int64_t)n",
            number,
            " - ((int64_t)l",
            number,
            " * (int64_t)b0));\n",
        ],
    )?;
    Ok(())
}

// The lines that divide what that leaves.
fn push_second_round(from: &Measured, text: &mut String, i: usize) -> Result<(), AllocError>
    ensures { OnOk result (string_bytes text.new ≡ string_bytes text.old ++ loop_text from.now (second_round_statements i)) }
{
    let word = i.to_string(from.alloc)?;
    let number = word.as_str();
    push_pieces(
        text,
        &[
            "        h",
            number,
            " = (int32_t)((((int64_t)n",
            number,
            ") >> (int64_t)e0));\n        h",
            number,
            " = (int32_t)(((((int64_t)h",
            number,
            " * (int64_t)q0)) >> 32));\n",
        ],
    )?;
    Ok(())
}

// The line that adds both quotients.
fn push_rounds(from: &Measured, text: &mut String, i: usize) -> Result<(), AllocError>
    requires in_range { i < row_count from.now }
    ensures { OnOk result (string_bytes text.new ≡ string_bytes text.old ++ loop_text from.now (rounds_statements i)) }
{
    let word = i.to_string(from.alloc)?;
    let number = word.as_str();
    let kind = held_kind(from, Held::Planned, i);
    push_pieces(
        text,
        &[
            "        l",
            number,
            " = (",
            kind,
            ")((int64_t)l",
            number,
            " + (int64_t)h",
            number,
            ");\n",
        ],
    )?;
    Ok(())
}

// The lines of a mean in two rounds.
pub fn push_twice_mean(from: &Measured, text: &mut String, i: usize) -> Result<(), AllocError>
    requires in_range { i < row_count from.now }
    ensures { OnOk result (string_bytes text.new ≡ string_bytes text.old ++ loop_text from.now (twice_mean_statements i)) }
{
    push_first_round(from, text, i)?;
    push_second_round(from, text, i)?;
    push_exact(from, text, Held::Near, i)?;
    push_rounds(from, text, i)?;
    Ok(())
}
