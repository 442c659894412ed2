// Single lines.
ghost use Rattle.std.specs.Prelude.{◌≡◌, ◌<◌, ◌^◌, ◌++◌, [], ◌∷◌, OnOk, IfOk, string_bytes, unsigned_abs};
ghost use Rattle.number_text.specs.Lines.{text_of};
ghost use Rattle.c_program.specs.ByMachine.{sum_for};
ghost use Rattle.c_language.specs.Text.{comparison_text, above_text, refusal_text};
ghost use Rattle.c_writer.specs.Measured.{entry_count, loop_text};

use crate::measured::Measured;
use crate::tops::sum_top;
use crate::words::{constant_word, kind_word, push_pieces, weight_end, weight_open};
use std::alloc::{AllocError, Global};

// The greatest number of a state.
const GREATEST_STATE: i128 = 2147483647;

// The comparison of number `i` of the state with an upper bound, behind another.
fn comparison_word(alloc: Global, high: i128, i: usize) -> Result<String, AllocError>
    requires { unsigned_abs high < 2 ^ 127 }
    ensures { IfOk result (λ word. string_bytes word ≡ comparison_text high i) }
{
    let number = i.to_string(alloc)?;
    let highest = constant_word(alloc, high)?;
    let mut word = String::new(alloc);
    push_pieces(
        &mut word,
        &[
            " || ",
            "state[",
            number.as_str(),
            "]",
            " > ",
            highest.as_str(),
        ],
    )?;
    Ok(word)
}

// The same where a number of the state can be above it.
fn above_word(alloc: Global, high: i128, i: usize) -> Result<String, AllocError>
    requires { unsigned_abs high < 2 ^ 127 }
    ensures { IfOk result (λ word. string_bytes word ≡ above_text high i) }
{
    if high == GREATEST_STATE {
        Ok(String::new(alloc))
    } else {
        comparison_word(alloc, high, i)
    }
}

// The line that refuses number `i` of the state below `low` and above `high`.
pub fn push_refusal(
    alloc: Global,
    text: &mut String,
    low: i128,
    high: i128,
    i: usize,
) -> Result<(), AllocError>
    requires low { unsigned_abs low < 2 ^ 127 }
    requires high { unsigned_abs high < 2 ^ 127 }
    requires short { i < 1000 }
    ensures { OnOk result (string_bytes text.new ≡ string_bytes text.old ++ text_of (refusal_text low high i ∷ [])) }
{
    let number = i.to_string(alloc)?;
    let next = (i + 1).to_string(alloc)?;
    let lowest = constant_word(alloc, low)?;
    let above = above_word(alloc, high, i)?;
    push_pieces(
        text,
        &[
            "    if (",
            "state[",
            number.as_str(),
            "]",
            " < ",
            lowest.as_str(),
            above.as_str(),
            ") { return ",
            next.as_str(),
            "; }",
            "\n",
        ],
    )?;
    Ok(())
}

// The line that adds plan entry `j` to its sum by the step's weight.
pub fn push_sum(from: &Measured, text: &mut String, j: usize) -> Result<(), AllocError>
    requires in_range { j < entry_count from.now }
    ensures { OnOk result (string_bytes text.new ≡ string_bytes text.old ++ loop_text from.now (sum_for from.now.machine j)) }
{
    let number = j.to_string(from.alloc)?;
    let kind = kind_word(sum_top(from, j));
    let open = weight_open(from.machine);
    let end = weight_end(from.machine);
    push_pieces(
        text,
        &[
            "        ",
            "s",
            number.as_str(),
            " = (",
            kind,
            ")",
            "(",
            "(int64_t)",
            "s",
            number.as_str(),
            " + ",
            open,
            "(int64_t)",
            "u",
            number.as_str(),
            end,
            ")",
            ";",
            "\n",
        ],
    )?;
    Ok(())
}
