// The second function: the averaged first inputs.
ghost use Rattle.std.specs.Prelude.{◌≡◌, ◌<◌, ◌≤◌, ◌++◌, ◌^◌, ◌==◌, true, false, [], ◌∷◌, pos, OnOk, IfOk, string_bytes};
ghost use Rattle.std.specs.Int.{w32, trailing_zeros};
ghost use Rattle.number_text.specs.Lines.{text_of};
ghost use Rattle.qp_model.specs.machine.Controller.{numbers};
ghost use Rattle.overflow_check.specs.declared.machine.Machine.{Machine};
ghost use Rattle.c_language.specs.Syntax.{variable};
ghost use Rattle.c_language.specs.Syntax.Family.{Output};
ghost use Rattle.c_language.specs.Syntax.Expression.{Value};
ghost use Rattle.c_program.specs.Of.{doubled_rest, average_of};
ghost use Rattle.c_program.specs.ByMachine.{program_for};
ghost use Rattle.c_language.specs.Text.{constant_text, expression_text, average_line, average_head_text, second_lines, numbered_lines};
ghost use Rattle.c_writer.specs.Measured.{program_in};

use crate::measured::Measured;
use crate::tops::plans_of;
use crate::words::push_pieces;
use qp_model::ControllerParts;
use std::alloc::{AllocError, Global};

// `2^k`.
fn two_to(k: u32) -> u128
    requires { k ≤ 32 }
    ensures { result ≡ 2 ^ k }
{
    1 << k
}

// Whether so many steps are a power of two.
fn is_power_of_two(steps: u32) -> bool
    ensures { result ≡ (steps == 2 ^ trailing_zeros w32 steps) }
{
    u128::from(steps) == two_to(steps.trailing_zeros())
}

// A literal of a number that isn't negative.
fn count_word(alloc: Global, n: u32) -> Result<String, AllocError>
    ensures { IfOk result (λ word. string_bytes word ≡ constant_text (pos n)) }
{
    let number = n.to_string(alloc)?;
    let mut word = String::new(alloc);
    push_pieces(&mut word, &["INT64_C(", number.as_str(), ")"])?;
    Ok(word)
}

// The value of sum `j`.
fn output_word(alloc: Global, j: usize) -> Result<String, AllocError>
    ensures { IfOk result (λ word. string_bytes word ≡ expression_text (Value (variable Output j))) }
{
    let number = j.to_string(alloc)?;
    let mut word = String::new(alloc);
    push_pieces(&mut word, &["(int64_t)", "sums[", number.as_str(), "]"])?;
    Ok(word)
}

// Twice what is left of it when it is divided by the steps.
fn rest_word(alloc: Global, steps: u32, j: usize) -> Result<String, AllocError>
    ensures { IfOk result (λ word. string_bytes word ≡ expression_text (doubled_rest (Value (variable Output j)) steps)) }
{
    let sum = output_word(alloc, j)?;
    let count = count_word(alloc, steps)?;
    let mut word = String::new(alloc);
    push_pieces(
        &mut word,
        &[
            "(",
            "INT64_C(2)",
            " * ",
            "(",
            sum.as_str(),
            " % ",
            count.as_str(),
            ")",
            ")",
        ],
    )?;
    Ok(word)
}

// The line of average `j` over steps that are a power of two.
fn push_shifted(alloc: Global, text: &mut String, steps: u32, j: usize) -> Result<(), AllocError>
    requires { (steps == 2 ^ trailing_zeros w32 steps) ≡ true }
    ensures { OnOk result (string_bytes text.new ≡ string_bytes text.old ++ text_of (average_line j (average_of steps j) ∷ [])) }
{
    let number = j.to_string(alloc)?;
    let sum = output_word(alloc, j)?;
    let half = count_word(alloc, steps / 2)?;
    let bits = steps.trailing_zeros().to_string(alloc)?;
    push_pieces(
        text,
        &[
            "    inputs[",
            number.as_str(),
            "] = ",
            "(",
            "(",
            sum.as_str(),
            " + ",
            half.as_str(),
            ")",
            " >> ",
            bits.as_str(),
            ")",
            ";",
            "\n",
        ],
    )?;
    Ok(())
}

// The line of average `j` over any other steps.
fn push_divided(alloc: Global, text: &mut String, steps: u32, j: usize) -> Result<(), AllocError>
    requires some { 0 < steps }
    requires other { (steps == 2 ^ trailing_zeros w32 steps) ≡ false }
    ensures { OnOk result (string_bytes text.new ≡ string_bytes text.old ++ text_of (average_line j (average_of steps j) ∷ [])) }
{
    let number = j.to_string(alloc)?;
    let sum = output_word(alloc, j)?;
    let rest = rest_word(alloc, steps, j)?;
    let count = count_word(alloc, steps)?;
    let less = count_word(alloc, steps - 1)?;
    push_pieces(
        text,
        &[
            "    inputs[",
            number.as_str(),
            "] = (",
            sum.as_str(),
            " / ",
            count.as_str(),
            ") + ((",
            rest.as_str(),
            " + ",
            count.as_str(),
            ") >> 63) - ((",
            less.as_str(),
            " - ",
            rest.as_str(),
            ") >> 63);\n",
        ],
    )?;
    Ok(())
}

// The line of average `j` over these steps.
fn push_average(alloc: Global, text: &mut String, steps: u32, j: usize) -> Result<(), AllocError>
    requires { 0 < steps }
    ensures { OnOk result (string_bytes text.new ≡ string_bytes text.old ++ text_of (average_line j (average_of steps j) ∷ [])) }
{
    if is_power_of_two(steps) {
        push_shifted(alloc, text, steps, j)
    } else {
        push_divided(alloc, text, steps, j)
    }
}

// The lines of the averages.
fn push_averages(
    alloc: Global,
    text: &mut String,
    steps: u32,
    count: usize,
) -> Result<(), AllocError>
    requires { 0 < steps }
    ensures { OnOk result (string_bytes text.new ≡ string_bytes text.old ++
        text_of (numbered_lines (λ j. average_line j (average_of steps j)) count)) }
{
    for j in 0..count {
        push_average(alloc, text, steps, j)?;
    }
    Ok(())
}

// The head of the second function.
pub fn push_average_head(
    alloc: Global,
    text: &mut String,
    c: &ControllerParts,
    name: &str,
) -> Result<(), AllocError>
    ensures { OnOk result ((m : Machine) → string_bytes text.new ≡ string_bytes text.old ++ average_head_text name.now (program_for m (numbers c.now))) }
{
    let sums = c.t.len().to_string(alloc)?;
    let inputs = c.p.to_string(alloc)?;
    push_pieces(
        text,
        &[
            "void ",
            name,
            "_first_inputs(const int64_t sums[",
            sums.as_str(),
            "], int64_t inputs[",
            inputs.as_str(),
            "])",
        ],
    )?;
    Ok(())
}

// The second function.
pub fn push_second(from: &Measured, text: &mut String, name: &str) -> Result<(), AllocError>
    ensures { OnOk result (string_bytes text.new ≡ string_bytes text.old ++ text_of (second_lines name.now (program_in from.now))) }
{
    push_average_head(from.alloc, text, from.c, name)?;
    text.push_str("\n{\n")?;
    push_averages(from.alloc, text, plans_of(from), from.c.p)?;
    text.push_str("}\n")?;
    Ok(())
}
