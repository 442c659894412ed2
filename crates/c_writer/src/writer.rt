// The whole text of a controller's program.
ghost use Rattle.std.specs.Prelude.{◌≡◌, ◌<◌, ◌≤◌, ◌++◌, [], ◌∷◌, length, OnOk, IfOk, codes, string_bytes};
ghost use Rattle.number_text.specs.Lines.{text_of};
ghost use Rattle.qp_model.specs.machine.Controller.{numbers};
ghost use Rattle.overflow_check.specs.Machines.{IsControllerFor};
ghost use Rattle.overflow_check.specs.declared.machine.Machine.TheVariants.{Plain, Accelerated};
ghost use Rattle.c_program.specs.Of.{program_of};
ghost use Rattle.c_program.specs.InParts.{HasProgram, written_program};
ghost use Rattle.c_language.specs.Text.{shift_line, head_text, refusal_line, program_text, opening_lines, repetition_line};
ghost use Rattle.c_writer.specs.Terms.{refusals_text};
ghost use Rattle.c_writer.specs.Measured.{program_in, both_before_in, before_in, step_in, body_in, needed_start_text, needed_loop_text};

use crate::averages::push_second;
use crate::ending::push_outputs;
use crate::lines::push_refusal;
use crate::means::{push_held_where, push_means_where, push_next_where};
use crate::measured::{Held, Measured};
use crate::measuring::{lists_of, measured};
use crate::plan::{push_differences, push_entries, push_gain_parts_where, push_sums};
use crate::rows::push_rows;
use crate::start::{push_entry_bases, push_loads, push_row_bases, push_start_sums, push_zeros};
use crate::words::push_pieces;
use overflow_check::{Controller, FastController, Machine};
use qp_model::ControllerParts;
use std::alloc::{AllocError, Global};

// The line that refuses number `i` of a state.
fn push_refusal_of(from: &Measured, text: &mut String, i: usize) -> Result<(), AllocError>
    requires in_range { i < length from.now.c.now.lo.items }
    ensures { OnOk result (string_bytes text.new ≡ string_bytes text.old ++ text_of (refusal_line (program_in from.now) i ∷ [])) }
{
    push_refusal(from.alloc, text, from.c.lo[i], from.c.hi[i], i)?;
    Ok(())
}

// The lines that refuse a state.
fn push_refusals(from: &Measured, text: &mut String) -> Result<(), AllocError>
    ensures { OnOk result (string_bytes text.new ≡ string_bytes text.old ++ refusals_text (program_in from.now)) }
{
    for i in 0..from.c.lo.len() {
        push_refusal_of(from, text, i)?;
    }
    Ok(())
}

// The lines before the loop that both machines have.
fn push_both_before(from: &Measured, text: &mut String) -> Result<(), AllocError>
    ensures { OnOk result (string_bytes text.new ≡ string_bytes text.old ++ needed_start_text from.now (both_before_in from.now)) }
{
    push_loads(from, text)?;
    push_entry_bases(from, text)?;
    push_row_bases(from, text)?;
    push_zeros(from, text, Held::Planned)?;
    push_start_sums(from, text)?;
    Ok(())
}

// The lines before the loop.
fn push_before(from: &Measured, text: &mut String) -> Result<(), AllocError>
    ensures { OnOk result (string_bytes text.new ≡ string_bytes text.old ++
        needed_start_text from.now (before_in from.now)) }
{
    push_both_before(from, text)?;
    push_held_where(from, text)?;
    Ok(())
}

// The lines of a step.
fn push_step(from: &Measured, text: &mut String) -> Result<(), AllocError>
    ensures { OnOk result (string_bytes text.new ≡ string_bytes text.old ++
        needed_loop_text from.now (step_in from.now)) }
{
    push_means_where(from, text)?;
    push_differences(from, text)?;
    push_gain_parts_where(from, text)?;
    push_entries(from, text)?;
    push_sums(from, text)?;
    push_rows(from, text)?;
    Ok(())
}

// The lines of the loop.
fn push_body(from: &Measured, text: &mut String) -> Result<(), AllocError>
    ensures { OnOk result (string_bytes text.new ≡ string_bytes text.old ++
        needed_loop_text from.now (body_in from.now)) }
{
    push_step(from, text)?;
    push_next_where(from, text)?;
    Ok(())
}

// The head of the first function.
pub fn push_head(
    alloc: Global,
    text: &mut String,
    c: &ControllerParts,
    name: &str,
) -> Result<(), AllocError>
    ensures { OnOk result (string_bytes text.new ≡ string_bytes text.old ++ head_text name.now (program_of (numbers c.now))) }
{
    let states = c.lo.len().to_string(alloc)?;
    let sums = c.t.len().to_string(alloc)?;
    push_pieces(
        text,
        &[
            "int ",
            name,
            "_solve(const int32_t state[",
            states.as_str(),
            "], int64_t sums[",
            sums.as_str(),
            "])",
        ],
    )?;
    Ok(())
}

// The lines that come first.
fn push_shifts(text: &mut String, name: &str) -> Result<(), AllocError>
    ensures { OnOk result (string_bytes text.new ≡ string_bytes text.old ++
        text_of ((codes "#include \"" ++ name.now ++ codes ".h\"") ∷ [] ∷ shift_line name.now ∷ [] ∷ [])) }
{
    push_pieces(
        text,
        &[
            "#include \"",
            name,
            ".h\"",
            "\n",
            "\n",
            "typedef char ",
            name,
            "_shifts_round_down[((-INT64_C(3)) >> 1) == (-INT64_C(2)) ? 1 : -1];",
            "\n",
            "\n",
        ],
    )?;
    Ok(())
}

// The lines up to the function's body.
fn push_opening(
    alloc: Global,
    text: &mut String,
    c: &ControllerParts,
    name: &str,
) -> Result<(), AllocError>
    ensures { OnOk result (string_bytes text.new ≡ string_bytes text.old ++ text_of (opening_lines name.now (program_of (numbers c.now)))) }
{
    push_shifts(text, name)?;
    push_head(alloc, text, c, name)?;
    text.push_str("\n{\n")?;
    Ok(())
}

// The line that opens the loop.
fn push_loop(alloc: Global, text: &mut String, c: &ControllerParts) -> Result<(), AllocError>
    ensures { OnOk result (string_bytes text.new ≡ string_bytes text.old ++ text_of (repetition_line (program_of (numbers c.now)) ∷ [])) }
{
    let steps = c.steps.to_string(alloc)?;
    push_pieces(
        text,
        &[
            "    for (int32_t step = 0; step < ",
            steps.as_str(),
            "; step++) {",
            "\n",
        ],
    )?;
    Ok(())
}

// The whole text.
fn push_program(from: &Measured, text: &mut String, name: &str) -> Result<(), AllocError>
    ensures { OnOk result (string_bytes text.new ≡ string_bytes text.old ++ program_text name.now (program_in from.now)) }
{
    push_opening(from.alloc, text, from.c, name)?;
    push_refusals(from, text)?;
    push_before(from, text)?;
    push_loop(from.alloc, text, from.c)?;
    push_body(from, text)?;
    text.push_str("    }\n")?;
    push_outputs(from.alloc, text, from.c.t.len())?;
    text.push_str("    return 0;\n}\n\n")?;
    push_second(from, text, name)?;
    Ok(())
}

// The text of the program of a controller of this machine.
fn write_for(
    alloc: Global,
    machine: Machine,
    c: &ControllerParts,
    name: &str,
) -> Result<String, AllocError>
    requires { IsControllerFor machine (numbers c.now) }
    ensures { IfOk result (λ text. string_bytes text ≡ program_text name.now (written_program machine (numbers c.now))) }
{
    let lists = lists_of(alloc, c)?;
    let from = measured(alloc, machine, c, &lists);
    let mut text = String::new(alloc);
    push_program(&from, &mut text, name)?;
    Ok(text)
}

/// The text of the program of a controller that has one, whose functions have this name. The text is C where the name is an identifier.
pub fn write_program(alloc: Global, c: &Controller, name: &str) -> Result<String, AllocError>
    requires { HasProgram Plain c.now }
    ensures { IfOk result (λ text. string_bytes text ≡ program_text name.now (written_program Plain c.now)) }
{
    let text = write_for(alloc, Machine::Plain, c.parts(), name)?;
    Ok(text)
}

/// That of a controller of the accelerated machine.
pub fn write_fast_program(
    alloc: Global,
    c: &FastController,
    name: &str,
) -> Result<String, AllocError>
    requires { HasProgram Accelerated c.now }
    ensures { IfOk result (λ text. string_bytes text ≡ program_text name.now (written_program Accelerated c.now)) }
{
    let text = write_for(alloc, Machine::Accelerated, c.parts(), name)?;
    Ok(text)
}
