// The statements before the loop.
ghost use Rattle.std.specs.Prelude.{◌≡◌, ℕ, ◌<◌, ◌-◌, ◌^◌, ◌++◌, [], ◌∷◌, pos, length, OnOk, decimal, string_bytes, unsigned_abs};
ghost use Rattle.qp_model.specs.machine.Controller.{numbers};
ghost use Rattle.qp_model.specs.machine.AbsoluteSums.{IsController};
ghost use Rattle.overflow_check.specs.FastController.{with_last_version};
ghost use Rattle.c_language.specs.Syntax.{variable, groups};
ghost use Rattle.c_language.specs.Syntax.Family.{Sum};
ghost use Rattle.c_program.specs.Of.{loaded_expression, loaded_statements, zero_statements};
ghost use Rattle.c_program.specs.InParts.{parted_entry_base, parted_row_base};
ghost use Rattle.c_language.specs.Text.{variable_text, expression_text};
ghost use Rattle.c_writer.specs.Terms.{entry_base_by, row_base_by, entry_base_in, row_base_in};
ghost use Rattle.c_writer.specs.Measured.{controller_in, held_family, row_count, entry_count, start_text, needed_start_text, row_text, coordinate_text};

use crate::measured::{Held, Measured, Part};
use crate::needed::{is_coordinate_needed_at, is_row_needed_at};
use crate::parts::{entry_base_letter, part_of, row_base_letter};
use crate::sums::push_row;
use crate::tops::{bound_at, held_kind, offset_at, sum_top};
use crate::words::{kind_word, push_constant, push_declared, push_end, push_number};
use qp_model::ControllerParts;
use std::alloc::AllocError;

// `2^(f-g)`.
fn grid_step(c: &ControllerParts) -> i128
    requires { IsController (with_last_version (numbers c.now)) }
    ensures value { result ≡ pos (2 ^ (c.now.f - c.now.g)) }
    ensures small { unsigned_abs result < 2 ^ 127 }
{
    1 << (c.f - c.g)
}

// Coordinate `k` of the state, over `2^f`.
fn push_load(from: &Measured, text: &mut String, k: usize) -> Result<(), AllocError>
    ensures { OnOk result (string_bytes text.new ≡ string_bytes text.old ++ expression_text (loaded_expression (controller_in from.now) k)) }
{
    text.push_str("(")?;
    push_constant(from.alloc, text, grid_step(from.c))?;
    text.push_str(" * (int64_t)state[")?;
    push_number(from.alloc, text, k as i128)?;
    text.push_str("])")?;
    Ok(())
}

// The line that loads it.
fn push_loaded(from: &Measured, text: &mut String, k: usize) -> Result<(), AllocError>
    requires in_range { k < length from.now.states.now }
    ensures { OnOk result (string_bytes text.new ≡ string_bytes text.old ++ start_text from.now (loaded_statements (controller_in from.now) k)) }
{
    push_declared(from.alloc, text, "    ", kind_word(from.states[k]), "x", k)?;
    push_load(from, text, k)?;
    push_end(text)?;
    Ok(())
}

// The same where the coordinate is needed.
fn push_needed_loaded(from: &Measured, text: &mut String, k: usize) -> Result<(), AllocError>
    requires in_range { k < length from.now.states.now }
    ensures { OnOk result (string_bytes text.new ≡ string_bytes text.old ++
        coordinate_text from.now k (start_text from.now (loaded_statements (controller_in from.now) k))) }
{
    if is_coordinate_needed_at(from, k) {
        push_loaded(from, text, k)
    } else {
        Ok(())
    }
}

// The lines that load the state.
pub fn push_loads(from: &Measured, text: &mut String) -> Result<(), AllocError>
    ensures { OnOk result (string_bytes text.new ≡ string_bytes text.old ++
        needed_start_text from.now (groups (loaded_statements (controller_in from.now)) (length from.now.states.now))) }
{
    for k in 0..from.states.len() {
        push_needed_loaded(from, text, k)?;
    }
    Ok(())
}

// The line of a part of the base of plan entry `j`.
fn push_entry_base(
    from: &Measured,
    text: &mut String,
    part: Part,
    j: usize,
) -> Result<(), AllocError>
    requires in_range { j < entry_count from.now }
    ensures { OnOk result (string_bytes text.new ≡ string_bytes text.old ++
        start_text from.now (entry_base_by (controller_in from.now) part j ∷ [])) }
{
    push_declared(
        from.alloc,
        text,
        "    ",
        "int64_t",
        entry_base_letter(part),
        j,
    )?;
    push_constant(from.alloc, text, part_of(part, offset_at(from.c, j)))?;
    push_row(
        from.alloc,
        text,
        part,
        from.c.p_mat.row(j),
        from.c.s,
        from.states,
        "x",
    )?;
    push_end(text)?;
    Ok(())
}

// The lines of both parts.
fn push_entry_base_parts(from: &Measured, text: &mut String, j: usize) -> Result<(), AllocError>
    requires in_range { j < entry_count from.now }
    ensures { OnOk result (string_bytes text.new ≡ string_bytes text.old ++ start_text from.now (parted_entry_base (controller_in from.now) j)) }
{
    push_entry_base(from, text, Part::High, j)?;
    push_entry_base(from, text, Part::Low, j)?;
    Ok(())
}

// The line or the lines of that base.
fn push_entry_base_lines(from: &Measured, text: &mut String, j: usize) -> Result<(), AllocError>
    requires in_range { j < entry_count from.now }
    ensures { OnOk result (string_bytes text.new ≡ string_bytes text.old ++
        start_text from.now (entry_base_in from.now.parted (controller_in from.now) j)) }
{
    if from.parted {
        push_entry_base_parts(from, text, j)
    } else {
        push_entry_base(from, text, Part::Whole, j)
    }
}

// The lines of the bases of plan entries.
pub fn push_entry_bases(from: &Measured, text: &mut String) -> Result<(), AllocError>
    ensures { OnOk result (string_bytes text.new ≡ string_bytes text.old ++
        start_text from.now (groups (entry_base_in from.now.parted (controller_in from.now)) (entry_count from.now))) }
{
    for j in 0..from.c.t.len() {
        push_entry_base_lines(from, text, j)?;
    }
    Ok(())
}

// The line of a part of the base of row `i`.
fn push_row_base(from: &Measured, text: &mut String, part: Part, i: usize) -> Result<(), AllocError>
    requires in_range { i < row_count from.now }
    ensures { OnOk result (string_bytes text.new ≡ string_bytes text.old ++
        start_text from.now (row_base_by (controller_in from.now) part i ∷ [])) }
{
    push_declared(
        from.alloc,
        text,
        "    ",
        "int64_t",
        row_base_letter(part),
        i,
    )?;
    push_constant(from.alloc, text, part_of(part, bound_at(from.c, i)))?;
    push_row(
        from.alloc,
        text,
        part,
        from.c.e_mat.row(i),
        0,
        from.states,
        "x",
    )?;
    push_end(text)?;
    Ok(())
}

// The lines of both parts.
fn push_row_base_parts(from: &Measured, text: &mut String, i: usize) -> Result<(), AllocError>
    requires in_range { i < row_count from.now }
    ensures { OnOk result (string_bytes text.new ≡ string_bytes text.old ++ start_text from.now (parted_row_base (controller_in from.now) i)) }
{
    push_row_base(from, text, Part::High, i)?;
    push_row_base(from, text, Part::Low, i)?;
    Ok(())
}

// The line or the lines of that base.
fn push_row_base_lines(from: &Measured, text: &mut String, i: usize) -> Result<(), AllocError>
    requires in_range { i < row_count from.now }
    ensures { OnOk result (string_bytes text.new ≡ string_bytes text.old ++
        start_text from.now (row_base_in from.now.parted (controller_in from.now) i)) }
{
    if from.parted {
        push_row_base_parts(from, text, i)
    } else {
        push_row_base(from, text, Part::Whole, i)
    }
}

// The same where the row is needed.
fn push_needed_row_base(from: &Measured, text: &mut String, i: usize) -> Result<(), AllocError>
    requires in_range { i < row_count from.now }
    ensures { OnOk result (string_bytes text.new ≡ string_bytes text.old ++
        row_text from.now i (start_text from.now (row_base_in from.now.parted (controller_in from.now) i))) }
{
    if is_row_needed_at(from.c, i) {
        push_row_base_lines(from, text, i)
    } else {
        Ok(())
    }
}

// The lines of the bases of rows.
pub fn push_row_bases(from: &Measured, text: &mut String) -> Result<(), AllocError>
    ensures { OnOk result (string_bytes text.new ≡ string_bytes text.old ++
        needed_start_text from.now (groups (row_base_in from.now.parted (controller_in from.now)) (row_count from.now))) }
{
    for i in 0..from.c.bound.len() {
        push_needed_row_base(from, text, i)?;
    }
    Ok(())
}

// The letter of what is held of rows.
pub fn held_letter(held: Held) -> &'static str
    ensures { (i : ℕ) → result.now ++ decimal i ≡ variable_text (variable (held_family held) i) }
{
    match held {
        Held::Planned => "l",
        Held::Kept => "m",
        Held::Added => "v",
        Held::Near => "h",
    }
}

// The line of what is held of row `i`.
fn push_zero(from: &Measured, text: &mut String, held: Held, i: usize) -> Result<(), AllocError>
    requires in_range { i < row_count from.now }
    ensures { OnOk result (string_bytes text.new ≡ string_bytes text.old ++ start_text from.now (zero_statements (held_family held) i)) }
{
    let kind = held_kind(from, held, i);
    push_declared(from.alloc, text, "    ", kind, held_letter(held), i)?;
    text.push_str("INT64_C(0)")?;
    push_end(text)?;
    Ok(())
}

// The same where the row is needed.
fn push_needed_zero(
    from: &Measured,
    text: &mut String,
    held: Held,
    i: usize,
) -> Result<(), AllocError>
    requires in_range { i < row_count from.now }
    ensures { OnOk result (string_bytes text.new ≡ string_bytes text.old ++
        row_text from.now i (start_text from.now (zero_statements (held_family held) i))) }
{
    if is_row_needed_at(from.c, i) {
        push_zero(from, text, held, i)
    } else {
        Ok(())
    }
}

// The lines of what is held of rows.
pub fn push_zeros(from: &Measured, text: &mut String, held: Held) -> Result<(), AllocError>
    ensures { OnOk result (string_bytes text.new ≡ string_bytes text.old ++
        needed_start_text from.now (groups (zero_statements (held_family held)) (row_count from.now))) }
{
    for i in 0..from.c.bound.len() {
        push_needed_zero(from, text, held, i)?;
    }
    Ok(())
}

// The line of the sum of plan entry `j`.
fn push_start_sum(from: &Measured, text: &mut String, j: usize) -> Result<(), AllocError>
    requires in_range { j < entry_count from.now }
    ensures { OnOk result (string_bytes text.new ≡ string_bytes text.old ++ start_text from.now (zero_statements Sum j)) }
{
    push_declared(
        from.alloc,
        text,
        "    ",
        kind_word(sum_top(from, j)),
        "s",
        j,
    )?;
    text.push_str("INT64_C(0)")?;
    push_end(text)?;
    Ok(())
}

// The lines of the sums.
pub fn push_start_sums(from: &Measured, text: &mut String) -> Result<(), AllocError>
    ensures { OnOk result (string_bytes text.new ≡ string_bytes text.old ++
        start_text from.now (groups (zero_statements Sum) (entry_count from.now))) }
{
    for j in 0..from.c.t.len() {
        push_start_sum(from, text, j)?;
    }
    Ok(())
}
