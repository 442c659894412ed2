// The lines behind the loop.
ghost use Rattle.std.specs.Prelude.{◌≡◌, ◌++◌, [], ◌∷◌, OnOk, string_bytes};
ghost use Rattle.number_text.specs.Lines.{text_of};
ghost use Rattle.c_language.specs.Syntax.{variable};
ghost use Rattle.c_language.specs.Syntax.Family.{Sum};
ghost use Rattle.c_language.specs.Text.{output_line, numbered_lines};

use crate::words::push_pieces;
use std::alloc::{AllocError, Global};

// The line that puts out sum `j`.
fn push_output(alloc: Global, text: &mut String, j: usize) -> Result<(), AllocError>
    ensures { OnOk result (string_bytes text.new ≡ string_bytes text.old ++ text_of (output_line j (variable Sum j) ∷ [])) }
{
    let number = j.to_string(alloc)?;
    push_pieces(
        text,
        &[
            "    sums[",
            number.as_str(),
            "] = ",
            "(int64_t)",
            "s",
            number.as_str(),
            ";",
            "\n",
        ],
    )?;
    Ok(())
}

// The lines that put out the sums.
pub fn push_outputs(alloc: Global, text: &mut String, count: usize) -> Result<(), AllocError>
    ensures { OnOk result (string_bytes text.new ≡ string_bytes text.old ++ text_of (numbered_lines (λ j. output_line j (variable Sum j)) count)) }
{
    for j in 0..count {
        push_output(alloc, text, j)?;
    }
    Ok(())
}
