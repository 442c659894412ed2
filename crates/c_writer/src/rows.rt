// The rows of a step: their sums, and how the multipliers move.
ghost use Rattle.std.specs.Prelude.{◌≡◌, ◌<◌, ◌≤◌, ◌++◌, true, false, [], ◌∷◌, OnOk, string_bytes};
ghost use Rattle.c_language.specs.Syntax.{variable, groups};
ghost use Rattle.c_language.specs.Syntax.Family.{RowSum, Moved, Reached};
ghost use Rattle.c_language.specs.Syntax.Expression.{Value};
ghost use Rattle.c_language.specs.Syntax.Statement.{Declare, Assign, AtLeastZero, AtMost};
ghost use Rattle.c_program.specs.Of.{is_first, is_second};
ghost use Rattle.c_program.specs.InParts.{parted_row};
ghost use Rattle.c_program.specs.FastOf.{reached_expression};
ghost use Rattle.c_program.specs.ByMachine.{top_for, moved_family, reached_for};
ghost use Rattle.c_language.specs.Text.{kind_text, expression_text};
ghost use Rattle.c_writer.specs.Terms.{factor_bits, plan_row_text, gradient_by, gradients_by, gradients_in, row_rest, row_by, row_in};
ghost use Rattle.c_writer.specs.Measured.{controller_in, kinds_in, held_family, row_count, moved_in, move_in, row_lines_in, loop_text, needed_loop_text, row_text};

use crate::measured::{Held, Measured, Part};
use crate::needed::is_row_needed_at;
use crate::opposite::{is_first_at, is_second_at, partner_at};
use crate::parts::{entry_letter, gradient_letter, row_base_letter, shift_of};
use crate::shared::row_bits_at;
use crate::start::held_letter;
use crate::sums::push_lowered_row;
use crate::tops::{held_kind, limit_at, move_bits_at, moved_top, row_kind};
use crate::words::{
    constant_word, kind_word, push_declared, push_end, push_lowered_value, push_number,
    push_pieces, push_value, weight_end, weight_open,
};
use overflow_check::Machine;
use std::alloc::AllocError;

// The power of two that the sum of row `i` is made without, where its factors are whole.
fn factor_bits(from: &Measured, part: Part, i: usize) -> u32
    requires in_range { i < row_count from.now }
    ensures value { result ≡ factor_bits (controller_in from.now) part i }
    ensures few { result ≤ from.now.c.now.f }
{
    match part {
        Part::Whole => row_bits_at(from, i),
        _ => 0,
    }
}

// The products of row `i` with a part of the plan.
fn push_plan_row(from: &Measured, text: &mut String, part: Part, i: usize) -> Result<(), AllocError>
    requires in_range { i < row_count from.now }
    ensures { OnOk result (string_bytes text.new ≡ string_bytes text.old ++ plan_row_text (controller_in from.now) part i) }
{
    let bits = factor_bits(from, part, i);
    let letter = entry_letter(part);
    push_lowered_row(
        from.alloc,
        text,
        from.c.g_mat.row(i),
        bits,
        from.plan,
        letter,
    )?;
    Ok(())
}

// The line of a part of the products that the pair of row `i` shares.
fn push_gradient(from: &Measured, text: &mut String, part: Part, i: usize) -> Result<(), AllocError>
    requires in_range { i < row_count from.now }
    ensures { OnOk result (string_bytes text.new ≡ string_bytes text.old ++
        loop_text from.now (gradient_by (controller_in from.now) part i ∷ [])) }
{
    push_declared(
        from.alloc,
        text,
        "        ",
        "int64_t",
        gradient_letter(part),
        i,
    )?;
    text.push_str("INT64_C(0)")?;
    push_plan_row(from, text, part, i)?;
    push_end(text)?;
    Ok(())
}

// The lines of both parts.
fn push_gradient_parts(from: &Measured, text: &mut String, i: usize) -> Result<(), AllocError>
    requires in_range { i < row_count from.now }
    ensures { OnOk result (string_bytes text.new ≡ string_bytes text.old ++
        loop_text from.now (gradients_by true (controller_in from.now) i)) }
{
    push_gradient(from, text, Part::High, i)?;
    push_gradient(from, text, Part::Low, i)?;
    Ok(())
}

// The line or the lines of these products.
fn push_gradients(from: &Measured, text: &mut String, i: usize) -> Result<(), AllocError>
    requires in_range { i < row_count from.now }
    ensures { OnOk result (string_bytes text.new ≡ string_bytes text.old ++
        loop_text from.now (gradients_by from.now.parted (controller_in from.now) i)) }
{
    if from.parted {
        push_gradient_parts(from, text, i)
    } else {
        push_gradient(from, text, Part::Whole, i)
    }
}

// The same where row `i` is the first one of a pair.
fn push_gradients_where(from: &Measured, text: &mut String, i: usize) -> Result<(), AllocError>
    requires in_range { i < row_count from.now }
    ensures { OnOk result (string_bytes text.new ≡ string_bytes text.old ++
        loop_text from.now (gradients_in from.now.parted (controller_in from.now) i)) }
{
    if is_first_at(from, i) {
        push_gradients(from, text, i)
    } else {
        Ok(())
    }
}

// What the first row of a pair adds to its base.
fn push_first_rest(
    from: &Measured,
    text: &mut String,
    part: Part,
    i: usize,
) -> Result<(), AllocError>
    requires { is_first (controller_in from.now) i ≡ true }
    ensures { OnOk result (string_bytes text.new ≡ string_bytes text.old ++ row_rest (controller_in from.now) part i) }
{
    text.push_str(" + ")?;
    push_value(from.alloc, text, gradient_letter(part), i)?;
    Ok(())
}

// What the second row takes from its base.
fn push_second_rest(
    from: &Measured,
    text: &mut String,
    part: Part,
    i: usize,
) -> Result<(), AllocError>
    requires in_range { i < row_count from.now }
    requires alone { is_first (controller_in from.now) i ≡ false }
    requires second { is_second (controller_in from.now) i ≡ true }
    ensures { OnOk result (string_bytes text.new ≡ string_bytes text.old ++ row_rest (controller_in from.now) part i) }
{
    text.push_str(" - ")?;
    push_value(from.alloc, text, gradient_letter(part), partner_at(from, i))?;
    Ok(())
}

// What any other row adds to its base.
fn push_alone_rest(
    from: &Measured,
    text: &mut String,
    part: Part,
    i: usize,
) -> Result<(), AllocError>
    requires in_range { i < row_count from.now }
    requires alone { is_first (controller_in from.now) i ≡ false }
    requires other { is_second (controller_in from.now) i ≡ false }
    ensures { OnOk result (string_bytes text.new ≡ string_bytes text.old ++ row_rest (controller_in from.now) part i) }
{
    push_plan_row(from, text, part, i)?;
    Ok(())
}

// What row `i` adds to its base.
fn push_rest(from: &Measured, text: &mut String, part: Part, i: usize) -> Result<(), AllocError>
    requires in_range { i < row_count from.now }
    ensures { OnOk result (string_bytes text.new ≡ string_bytes text.old ++ row_rest (controller_in from.now) part i) }
{
    if is_first_at(from, i) {
        push_first_rest(from, text, part, i)
    } else if is_second_at(from, i) {
        push_second_rest(from, text, part, i)
    } else {
        push_alone_rest(from, text, part, i)
    }
}

// A part of the sum of row `i`.
fn push_row_part(from: &Measured, text: &mut String, part: Part, i: usize) -> Result<(), AllocError>
    requires in_range { i < row_count from.now }
    ensures { OnOk result (string_bytes text.new ≡ string_bytes text.old ++ expression_text (row_by (controller_in from.now) part i)) }
{
    let bits = factor_bits(from, part, i);
    push_lowered_value(from.alloc, text, row_base_letter(part), i, bits)?;
    push_rest(from, text, part, i)?;
    Ok(())
}

// That sum from both parts.
fn push_parted_row(from: &Measured, text: &mut String, i: usize) -> Result<(), AllocError>
    requires in_range { i < row_count from.now }
    ensures { OnOk result (string_bytes text.new ≡ string_bytes text.old ++ expression_text (parted_row (controller_in from.now) i)) }
{
    text.push_str("((")?;
    push_row_part(from, text, Part::High, i)?;
    text.push_str(" + ((")?;
    push_row_part(from, text, Part::Low, i)?;
    text.push_str(") >> 16)) >> ")?;
    push_number(from.alloc, text, shift_of(true, from.c.f) as i128)?;
    text.push_str(")")?;
    Ok(())
}

// The same of either program.
fn push_row_value(from: &Measured, text: &mut String, i: usize) -> Result<(), AllocError>
    requires in_range { i < row_count from.now }
    ensures { OnOk result (string_bytes text.new ≡ string_bytes text.old ++
        expression_text (row_in from.now.parted (controller_in from.now) i)) }
{
    if from.parted {
        push_parted_row(from, text, i)
    } else {
        push_row_part(from, text, Part::Whole, i)
    }
}

// The line that declares it.
fn push_row_sum(from: &Measured, text: &mut String, i: usize) -> Result<(), AllocError>
    requires in_range { i < row_count from.now }
    ensures { OnOk result (string_bytes text.new ≡ string_bytes text.old ++
        loop_text from.now (Declare (variable RowSum i) (row_in from.now.parted (controller_in from.now) i) ∷ [])) }
{
    push_declared(from.alloc, text, "        ", row_kind(from, i), "y", i)?;
    push_row_value(from, text, i)?;
    push_end(text)?;
    Ok(())
}

// Where the multipliers that are moved are held.
fn moved_held(machine: Machine) -> Held
    ensures { held_family result ≡ moved_family machine }
{
    match machine {
        Machine::Plain => Held::Planned,
        Machine::Accelerated => Held::Kept,
    }
}

// Multiplier `i`, moved along its row by the step's weight.
fn push_moved_value(from: &Measured, text: &mut String, i: usize) -> Result<(), AllocError>
    requires in_range { i < row_count from.now }
    ensures { OnOk result (string_bytes text.new ≡ string_bytes text.old ++ expression_text (moved_in from.now i)) }
{
    let letter = held_letter(moved_held(from.machine));
    push_value(from.alloc, text, letter, i)?;
    text.push_str(" + ")?;
    text.push_str(weight_open(from.machine))?;
    push_lowered_value(from.alloc, text, "y", i, move_bits_at(from, i))?;
    text.push_str(weight_end(from.machine))?;
    Ok(())
}

// The line that declares it.
fn push_moved(from: &Measured, text: &mut String, kind: &str, i: usize) -> Result<(), AllocError>
    requires in_range { i < row_count from.now }
    requires kind { kind.now ≡ kind_text (kinds_in from.now (variable Moved i)) }
    ensures { OnOk result (string_bytes text.new ≡ string_bytes text.old ++
        loop_text from.now (Declare (variable Moved i) (moved_in from.now i) ∷ [])) }
{
    push_declared(from.alloc, text, "        ", kind, "t", i)?;
    push_moved_value(from, text, i)?;
    push_end(text)?;
    Ok(())
}

// The line that keeps it at least 0.
fn push_floor(from: &Measured, text: &mut String, i: usize) -> Result<(), AllocError>
    ensures { OnOk result (string_bytes text.new ≡ string_bytes text.old ++ loop_text from.now (AtLeastZero (variable Moved i) ∷ [])) }
{
    let number = i.to_string(from.alloc)?;
    push_pieces(
        text,
        &[
            "        ",
            "if (",
            "t",
            number.as_str(),
            " < 0) { ",
            "t",
            number.as_str(),
            " = 0; }",
            "\n",
        ],
    )?;
    Ok(())
}

// The line that keeps it at most the greatest.
fn push_ceiling(from: &Measured, text: &mut String, kind: &str, i: usize) -> Result<(), AllocError>
    requires in_range { i < row_count from.now }
    requires kind { kind.now ≡ kind_text (kinds_in from.now (variable Moved i)) }
    ensures { OnOk result (string_bytes text.new ≡ string_bytes text.old ++
        loop_text from.now (AtMost (variable Moved i) (top_for from.now.machine (controller_in from.now) i) ∷ [])) }
{
    let number = i.to_string(from.alloc)?;
    let top = constant_word(from.alloc, limit_at(from, i))?;
    push_pieces(
        text,
        &[
            "        ",
            "if (",
            "t",
            number.as_str(),
            " > ",
            top.as_str(),
            ") { ",
            "t",
            number.as_str(),
            " = (",
            kind,
            ")",
            "(",
            top.as_str(),
            ")",
            ";",
            " }",
            "\n",
        ],
    )?;
    Ok(())
}

// The line that makes it the multiplier.
fn push_back(from: &Measured, text: &mut String, i: usize) -> Result<(), AllocError>
    requires in_range { i < row_count from.now }
    ensures { OnOk result (string_bytes text.new ≡ string_bytes text.old ++
        loop_text from.now (Assign (variable (moved_family from.now.machine) i) (Value (variable Moved i)) ∷ [])) }
{
    let number = i.to_string(from.alloc)?;
    let held = moved_held(from.machine);
    let letter = held_letter(held);
    let kind = held_kind(from, held, i);
    push_pieces(
        text,
        &[
            "        ",
            letter,
            number.as_str(),
            " = (",
            kind,
            ")",
            "(",
            "(int64_t)",
            "t",
            number.as_str(),
            ")",
            ";",
            "\n",
        ],
    )?;
    Ok(())
}

// The line that adds it, by the step's weight, to what was reached.
fn push_reached(from: &Measured, text: &mut String, i: usize) -> Result<(), AllocError>
    requires in_range { i < row_count from.now }
    ensures { OnOk result (string_bytes text.new ≡ string_bytes text.old ++
        loop_text from.now (Assign (variable Reached i) (reached_expression i) ∷ [])) }
{
    let number = i.to_string(from.alloc)?;
    let kind = held_kind(from, Held::Added, i);
    push_pieces(
        text,
        &[
            "        ",
            "v",
            number.as_str(),
            " = (",
            kind,
            ")",
            "(",
            "(int64_t)",
            "v",
            number.as_str(),
            " + ",
            "((int64_t)k0 * ",
            "(int64_t)",
            "m",
            number.as_str(),
            ")",
            ")",
            ";",
            "\n",
        ],
    )?;
    Ok(())
}

// The same where the machine is the accelerated one.
fn push_reached_where(from: &Measured, text: &mut String, i: usize) -> Result<(), AllocError>
    requires in_range { i < row_count from.now }
    ensures { OnOk result (string_bytes text.new ≡ string_bytes text.old ++ loop_text from.now (reached_for from.now.machine i)) }
{
    match from.machine {
        Machine::Plain => Ok(()),
        Machine::Accelerated => push_reached(from, text, i),
    }
}

// The lines that move multiplier `i`.
fn push_move(from: &Measured, text: &mut String, i: usize) -> Result<(), AllocError>
    requires in_range { i < row_count from.now }
    ensures { OnOk result (string_bytes text.new ≡ string_bytes text.old ++ loop_text from.now (move_in from.now i)) }
{
    let kind = kind_word(moved_top(from, i));
    push_moved(from, text, kind, i)?;
    push_floor(from, text, i)?;
    push_ceiling(from, text, kind, i)?;
    push_back(from, text, i)?;
    push_reached_where(from, text, i)?;
    Ok(())
}

// The lines of row `i`.
fn push_row_lines(from: &Measured, text: &mut String, i: usize) -> Result<(), AllocError>
    requires in_range { i < row_count from.now }
    ensures { OnOk result (string_bytes text.new ≡ string_bytes text.old ++ loop_text from.now (row_lines_in from.now i)) }
{
    push_gradients_where(from, text, i)?;
    push_row_sum(from, text, i)?;
    push_move(from, text, i)?;
    Ok(())
}

// The same where the row is needed.
fn push_needed_row(from: &Measured, text: &mut String, i: usize) -> Result<(), AllocError>
    requires in_range { i < row_count from.now }
    ensures { OnOk result (string_bytes text.new ≡ string_bytes text.old ++
        row_text from.now i (loop_text from.now (row_lines_in from.now i))) }
{
    if is_row_needed_at(from.c, i) {
        push_row_lines(from, text, i)
    } else {
        Ok(())
    }
}

// The lines of the rows.
pub fn push_rows(from: &Measured, text: &mut String) -> Result<(), AllocError>
    ensures { OnOk result (string_bytes text.new ≡ string_bytes text.old ++
        needed_loop_text from.now (groups (row_lines_in from.now) (row_count from.now))) }
{
    for i in 0..from.c.bound.len() {
        push_needed_row(from, text, i)?;
    }
    Ok(())
}
