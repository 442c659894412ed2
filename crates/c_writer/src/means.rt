// What only the accelerated machine has: the weight of a step, and the means that its plan is made at.
ghost use Rattle.std.specs.Prelude.{◌≡◌, ◌<◌, ◌++◌, [], ◌∷◌, OnOk, string_bytes};
ghost use Rattle.overflow_check.specs.declared.machine.Machine.TheVariants.{Accelerated};
ghost use Rattle.c_language.specs.Syntax.{variable, groups};
ghost use Rattle.c_language.specs.Syntax.Family.{Multiplier};
ghost use Rattle.c_language.specs.Syntax.Statement.{Assign};
ghost use Rattle.c_program.specs.Of.{any_below, is_row_needed};
ghost use Rattle.c_program.specs.FastOf.{first_weight, divisor_statement, mean_expression, mean_statements, next_weight};
ghost use Rattle.c_program.specs.ByMachine.{start_for, means_for, next_for};
ghost use Rattle.c_writer.specs.Measured.{controller_in, row_count, start_text, loop_text, needed_start_text, needed_loop_text, row_text};

use crate::measured::{Held, Measured};
use crate::needed::{is_any_row_needed, is_row_needed_at};
use crate::quick::{
    is_quick_at, is_twice_quick_at, push_first_scale, push_quick_mean, push_scale, push_twice_mean,
};
use crate::start::push_zeros;
use crate::tops::{divisor_top, held_kind};
use crate::words::{kind_word, push_pieces};
use overflow_check::Machine;
use std::alloc::AllocError;

// The line of the first weight.
fn push_first_weight(from: &Measured, text: &mut String) -> Result<(), AllocError>
    ensures { OnOk result (string_bytes text.new ≡ string_bytes text.old ++ start_text from.now (first_weight ∷ [])) }
{
    text.push_str("    int32_t k0 = (int32_t)(INT64_C(2));\n")?;
    Ok(())
}

// The line of the next weight.
fn push_next_weight(from: &Measured, text: &mut String) -> Result<(), AllocError>
    ensures { OnOk result (string_bytes text.new ≡ string_bytes text.old ++ loop_text from.now (next_weight ∷ [])) }
{
    text.push_str("        k0 = (int32_t)((int64_t)k0 + INT64_C(1));\n")?;
    Ok(())
}

// The line of what means are divided by.
fn push_divisor(from: &Measured, text: &mut String) -> Result<(), AllocError>
    ensures { OnOk result (string_bytes text.new ≡ string_bytes text.old ++ loop_text from.now (divisor_statement ∷ [])) }
{
    let kind = kind_word(divisor_top(from));
    push_pieces(
        text,
        &[
            "        ",
            kind,
            " b0 = (",
            kind,
            ")((((int64_t)k0 - INT64_C(1)) * ((int64_t)k0 + INT64_C(2))));\n",
        ],
    )?;
    Ok(())
}

// The same where a row is needed.
fn push_divisor_where(from: &Measured, text: &mut String) -> Result<(), AllocError>
    ensures { OnOk result (string_bytes text.new ≡ string_bytes text.old ++ needed_loop_text from.now (divisor_statement ∷ [])) }
{
    if is_any_row_needed(from) {
        push_divisor(from, text)
    } else {
        Ok(())
    }
}

// The line of the mean of row `i`, by a division.
fn push_divided_mean(from: &Measured, text: &mut String, i: usize) -> Result<(), AllocError>
    requires in_range { i < row_count from.now }
    ensures { OnOk result (string_bytes text.new ≡ string_bytes text.old ++
        loop_text from.now (Assign (variable Multiplier i) (mean_expression i) ∷ [])) }
{
    let number = i.to_string(from.alloc)?;
    let kind = held_kind(from, Held::Planned, i);
    push_pieces(
        text,
        &[
            "        ",
            "l",
            number.as_str(),
            " = (",
            kind,
            ")",
            "(",
            "(",
            "(",
            "(int64_t)",
            "v",
            number.as_str(),
            " + ",
            "((int64_t)k0 * ",
            "(int64_t)",
            "m",
            number.as_str(),
            ")",
            ")",
            " / (int64_t)b0",
            ")",
            ")",
            ";",
            "\n",
        ],
    )?;
    Ok(())
}

// The lines of that mean.
fn push_mean(from: &Measured, text: &mut String, i: usize) -> Result<(), AllocError>
    requires machine { from.now.machine ≡ Accelerated }
    requires in_range { i < row_count from.now }
    ensures { OnOk result (string_bytes text.new ≡ string_bytes text.old ++ loop_text from.now (mean_statements (controller_in from.now) i)) }
{
    if is_quick_at(from, i) {
        push_quick_mean(from, text, i)
    } else if is_twice_quick_at(from, i) {
        push_twice_mean(from, text, i)
    } else {
        push_divided_mean(from, text, i)
    }
}

// The same where the row is needed.
fn push_needed_mean(from: &Measured, text: &mut String, i: usize) -> Result<(), AllocError>
    requires machine { from.now.machine ≡ Accelerated }
    requires in_range { i < row_count from.now }
    ensures { OnOk result (string_bytes text.new ≡ string_bytes text.old ++
        row_text from.now i (loop_text from.now (mean_statements (controller_in from.now) i))) }
{
    if is_row_needed_at(from.c, i) {
        push_mean(from, text, i)
    } else {
        Ok(())
    }
}

// The lines of the means.
fn push_means(from: &Measured, text: &mut String) -> Result<(), AllocError>
    requires { from.now.machine ≡ Accelerated }
    ensures { OnOk result (string_bytes text.new ≡ string_bytes text.old ++
        needed_loop_text from.now (groups (mean_statements (controller_in from.now)) (row_count from.now))) }
{
    for i in 0..from.c.bound.len() {
        push_needed_mean(from, text, i)?;
    }
    Ok(())
}

// What is held of rows, the first weight and the first scale.
fn push_held(from: &Measured, text: &mut String) -> Result<(), AllocError>
    requires { from.now.machine ≡ Accelerated }
    ensures { OnOk result (string_bytes text.new ≡ string_bytes text.old ++
        needed_start_text from.now (start_for from.now.machine (controller_in from.now))) }
{
    push_zeros(from, text, Held::Kept)?;
    push_zeros(from, text, Held::Added)?;
    push_first_weight(from, text)?;
    push_first_scale(from, text)?;
    Ok(())
}

// What the machine has of its own before the loop.
pub fn push_held_where(from: &Measured, text: &mut String) -> Result<(), AllocError>
    ensures { OnOk result (string_bytes text.new ≡ string_bytes text.old ++
        needed_start_text from.now (start_for from.now.machine (controller_in from.now))) }
{
    match from.machine {
        Machine::Plain => Ok(()),
        Machine::Accelerated => push_held(from, text),
    }
}

// The lines that a step begins with.
fn push_step_means(from: &Measured, text: &mut String) -> Result<(), AllocError>
    requires { from.now.machine ≡ Accelerated }
    ensures { OnOk result (string_bytes text.new ≡ string_bytes text.old ++
        needed_loop_text from.now (means_for from.now.machine (controller_in from.now))) }
{
    push_divisor_where(from, text)?;
    push_scale(from, text)?;
    push_means(from, text)?;
    Ok(())
}

// What the machine has of its own before a step's plan.
pub fn push_means_where(from: &Measured, text: &mut String) -> Result<(), AllocError>
    ensures { OnOk result (string_bytes text.new ≡ string_bytes text.old ++
        needed_loop_text from.now (means_for from.now.machine (controller_in from.now))) }
{
    match from.machine {
        Machine::Plain => Ok(()),
        Machine::Accelerated => push_step_means(from, text),
    }
}

// And behind its rows.
pub fn push_next_where(from: &Measured, text: &mut String) -> Result<(), AllocError>
    ensures { OnOk result (string_bytes text.new ≡ string_bytes text.old ++
        needed_loop_text from.now (next_for from.now.machine)) }
{
    match from.machine {
        Machine::Plain => Ok(()),
        Machine::Accelerated => push_next_weight(from, text),
    }
}
