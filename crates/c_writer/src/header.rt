// The header of a controller's program.
ghost use Rattle.std.specs.Prelude.{◌≡◌, ◌++◌, [], ◌∷◌, OnOk, IfOk, string_bytes};
ghost use Rattle.number_text.specs.Lines.{text_of};
ghost use Rattle.qp_model.specs.machine.Controller.{numbers};
ghost use Rattle.overflow_check.specs.declared.machine.Machine.{Machine};
ghost use Rattle.c_program.specs.ByMachine.{program_for};
ghost use Rattle.c_program.specs.InParts.{written_program};
ghost use Rattle.c_language.specs.Text.{guard_lines, size_line, size_lines, function_lines, header_text};

use crate::averages::push_average_head;
use crate::words::push_pieces;
use crate::writer::push_head;
use qp_model::ControllerParts;
use std::alloc::{AllocError, Global};

// The lines by which it is read once.
fn push_guard(text: &mut String, name: &str) -> Result<(), AllocError>
    ensures { OnOk result (string_bytes text.new ≡ string_bytes text.old ++ text_of (guard_lines name.now)) }
{
    push_pieces(
        text,
        &[
            "#ifndef ",
            name,
            "_H",
            "\n",
            "#define ",
            name,
            "_H",
            "\n",
            "\n#include <stdint.h>\n\n",
        ],
    )?;
    Ok(())
}

// The line of one number.
fn push_size(
    alloc: Global,
    text: &mut String,
    name: &str,
    word: &str,
    n: usize,
) -> Result<(), AllocError>
    ensures { OnOk result (string_bytes text.new ≡ string_bytes text.old ++ text_of (size_line name.now word.now n ∷ [])) }
{
    let number = n.to_string(alloc)?;
    push_pieces(text, &["#define ", name, word, " ", number.as_str(), "\n"])?;
    Ok(())
}

// The lines of the numbers.
fn push_sizes(
    alloc: Global,
    text: &mut String,
    c: &ControllerParts,
    name: &str,
) -> Result<(), AllocError>
    ensures { OnOk result (string_bytes text.new ≡ string_bytes text.old ++ text_of (size_lines name.now (numbers c.now))) }
{
    push_size(alloc, text, name, "_STATES", c.n)?;
    push_size(alloc, text, name, "_INPUTS", c.p)?;
    push_size(alloc, text, name, "_STAGES", c.stages)?;
    push_size(alloc, text, name, "_STEPS", c.steps as usize)?;
    push_size(alloc, text, name, "_BITS", c.f as usize)?;
    push_size(alloc, text, name, "_GRID", c.g as usize)?;
    Ok(())
}

// The lines of the functions.
fn push_functions(
    alloc: Global,
    text: &mut String,
    c: &ControllerParts,
    name: &str,
) -> Result<(), AllocError>
    ensures { OnOk result ((m : Machine) → string_bytes text.new ≡ string_bytes text.old ++
        text_of (function_lines name.now (program_for m (numbers c.now)))) }
{
    text.push_str("\n#ifdef __cplusplus\nextern \"C\" {\n#endif\n\n")?;
    text.push_str(
        "/* From a state over 2^GRID: 0, and the numerators of the averaged plan, as solve prints them; or the first number, from 1, outside the box, and nothing is written. */\n",
    )?;
    push_head(alloc, text, c, name)?;
    text.push_str(
        ";\n\n/* From these sums: the averaged first inputs over 2^BITS, to the nearest, ties upward. */\n",
    )?;
    push_average_head(alloc, text, c, name)?;
    text.push_str(";\n\n#ifdef __cplusplus\n}\n#endif\n\n#endif\n")?;
    Ok(())
}

/// The header of the program of a controller of these numbers, whose functions have this name: its numbers, and how they are called. It is the same for either machine, in parts or not.
pub fn write_header(alloc: Global, c: &ControllerParts, name: &str) -> Result<String, AllocError>
    ensures { IfOk result (λ text. (m : Machine) →
        string_bytes text ≡ header_text name.now (numbers c.now) (written_program m (numbers c.now))) }
{
    let mut text = String::new(alloc);
    push_guard(&mut text, name)?;
    push_sizes(alloc, &mut text, c, name)?;
    push_functions(alloc, &mut text, c, name)?;
    Ok(text)
}
