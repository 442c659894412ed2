// The plan of a step: the differences of pairs, the entries and their sums.
ghost use Rattle.std.specs.Prelude.{◌≡◌, ◌<◌, ◌≤◌, ◌+◌, ◌^◌, ◌++◌, [], ◌∷◌, true, pos, ◌*ℤ◌, OnOk, string_bytes, decimal};
ghost use Rattle.qp_model.specs.machine.Controller.{numbers};
ghost use Rattle.qp_model.specs.machine.Machine.{lowering_of};
ghost use Rattle.qp_model.specs.machine.AbsoluteSums.{IsController};
ghost use Rattle.overflow_check.specs.FastController.{with_last_version};
ghost use Rattle.c_language.specs.Syntax.{variable, groups};
ghost use Rattle.c_language.specs.Syntax.Family.{Multiplier, Entry, MultiplierHigh, MultiplierLow, EntryHigh, EntryLow};
ghost use Rattle.c_language.specs.Syntax.Expression.{Value, Minus};
ghost use Rattle.c_language.specs.Syntax.Statement.{Declare};
ghost use Rattle.c_program.specs.Of.{is_first, gain_of, gain_variable, difference_statements};
ghost use Rattle.c_program.specs.ByMachine.{sum_for};
ghost use Rattle.c_program.specs.InParts.{part_statements, gain_parts};
ghost use Rattle.c_language.specs.Text.{variable_text, expression_text};
ghost use Rattle.c_writer.specs.Terms.{gain_factor, gain_text, gains_text, gain_parts_in, entry_sum_by, entry_sum_in, shift_in, entry_in, entry_parts_in, entry_lines_in};
ghost use Rattle.c_writer.specs.Measured.{controller_in, row_count, entry_count, loop_text, needed_loop_text, row_text};

use crate::lines::push_sum;
use crate::measured::{Measured, Part};
use crate::needed::{is_entry_needed_at, is_row_needed_at};
use crate::opposite::{is_first_at, is_second_at, partner_at};
use crate::parts::{entry_base_letter, entry_letter, high_kind, push_parts, shift_of};
use crate::tops::{lowering_at, multiplier_top};
use crate::words::{kind_word, push_declared, push_end, push_number, push_scaled, push_value};
use qp_model::ControllerParts;
use std::alloc::{AllocError, Global};

// The difference of the multipliers of rows `i` and `k`.
fn push_difference_value(
    alloc: Global,
    text: &mut String,
    i: usize,
    k: usize,
) -> Result<(), AllocError>
    ensures { OnOk result (string_bytes text.new ≡ string_bytes text.old ++
        expression_text (Minus (Value (variable Multiplier i)) (Value (variable Multiplier k)))) }
{
    push_value(alloc, text, "l", i)?;
    text.push_str(" - ")?;
    push_value(alloc, text, "l", k)?;
    Ok(())
}

// The line of that of row `i`.
fn push_difference(from: &Measured, text: &mut String, i: usize) -> Result<(), AllocError>
    requires in_range { i < row_count from.now }
    requires first { is_first (controller_in from.now) i ≡ true }
    ensures { OnOk result (string_bytes text.new ≡ string_bytes text.old ++ loop_text from.now (difference_statements (controller_in from.now) i)) }
{
    push_declared(
        from.alloc,
        text,
        "        ",
        kind_word(multiplier_top(from.c, i)),
        "d",
        i,
    )?;
    push_difference_value(from.alloc, text, i, partner_at(from, i))?;
    push_end(text)?;
    Ok(())
}

// The same where row `i` is the first one of a pair.
fn push_difference_where(from: &Measured, text: &mut String, i: usize) -> Result<(), AllocError>
    requires in_range { i < row_count from.now }
    ensures { OnOk result (string_bytes text.new ≡ string_bytes text.old ++ loop_text from.now (difference_statements (controller_in from.now) i)) }
{
    if is_first_at(from, i) {
        push_difference(from, text, i)
    } else {
        Ok(())
    }
}

// The same where the row is needed.
fn push_needed_difference(from: &Measured, text: &mut String, i: usize) -> Result<(), AllocError>
    requires in_range { i < row_count from.now }
    ensures { OnOk result (string_bytes text.new ≡ string_bytes text.old ++
        row_text from.now i (loop_text from.now (difference_statements (controller_in from.now) i))) }
{
    if is_row_needed_at(from.c, i) {
        push_difference_where(from, text, i)
    } else {
        Ok(())
    }
}

// The lines of the differences.
pub fn push_differences(from: &Measured, text: &mut String) -> Result<(), AllocError>
    ensures { OnOk result (string_bytes text.new ≡ string_bytes text.old ++
        needed_loop_text from.now (groups (difference_statements (controller_in from.now)) (row_count from.now))) }
{
    for i in 0..from.c.bound.len() {
        push_needed_difference(from, text, i)?;
    }
    Ok(())
}

// The lines of the parts of the multiplier of row `i`, or of the difference of its pair.
fn push_multiplier_parts(from: &Measured, text: &mut String, i: usize) -> Result<(), AllocError>
    requires in_range { i < row_count from.now }
    ensures { OnOk result (string_bytes text.new ≡ string_bytes text.old ++
        loop_text from.now (part_statements (gain_variable (controller_in from.now) i) (variable MultiplierHigh i) (variable MultiplierLow i))) }
{
    let kind = high_kind(multiplier_top(from.c, i));
    let whole = gain_family(from, Part::Whole, i);
    push_parts(from.alloc, text, kind, whole, "L", "j", i)?;
    Ok(())
}

// The same where row `i` isn't the second one of a pair.
fn push_gain_parts_at(from: &Measured, text: &mut String, i: usize) -> Result<(), AllocError>
    requires in_range { i < row_count from.now }
    ensures { OnOk result (string_bytes text.new ≡ string_bytes text.old ++ loop_text from.now (gain_parts (controller_in from.now) i)) }
{
    if !is_second_at(from, i) {
        push_multiplier_parts(from, text, i)
    } else {
        Ok(())
    }
}

// And where the row is needed.
fn push_needed_gain_parts(from: &Measured, text: &mut String, i: usize) -> Result<(), AllocError>
    requires in_range { i < row_count from.now }
    ensures { OnOk result (string_bytes text.new ≡ string_bytes text.old ++
        row_text from.now i (loop_text from.now (gain_parts (controller_in from.now) i))) }
{
    if is_row_needed_at(from.c, i) {
        push_gain_parts_at(from, text, i)
    } else {
        Ok(())
    }
}

// The lines of the parts of what gains are multiplied with.
fn push_gain_parts(from: &Measured, text: &mut String) -> Result<(), AllocError>
    ensures { OnOk result (string_bytes text.new ≡ string_bytes text.old ++
        needed_loop_text from.now (groups (gain_parts (controller_in from.now)) (row_count from.now))) }
{
    for i in 0..from.c.bound.len() {
        push_needed_gain_parts(from, text, i)?;
    }
    Ok(())
}

// The same where the program is in parts.
pub fn push_gain_parts_where(from: &Measured, text: &mut String) -> Result<(), AllocError>
    ensures { OnOk result (string_bytes text.new ≡ string_bytes text.old ++
        needed_loop_text from.now (gain_parts_in from.now.parted (controller_in from.now))) }
{
    if from.parted {
        push_gain_parts(from, text)
    } else {
        Ok(())
    }
}

// The gain of plan entry `j` on the multiplier of row `i`, 0 on the second one of a pair.
fn gain_base(from: &Measured, j: usize, i: usize) -> i128
    requires entry { j < entry_count from.now }
    requires row { i < row_count from.now }
    ensures { result *ℤ pos (2 ^ lowering_of (controller_in from.now) i) ≡ gain_of (controller_in from.now) j i }
{
    if is_second_at(from, i) {
        0
    } else {
        let row = from.c.w_mat.row(j);
        row[i]
    }
}

// The family of a part of what it is multiplied with.
fn gain_family(from: &Measured, part: Part, i: usize) -> &'static str
    requires in_range { i < row_count from.now }
    ensures { result.now ++ decimal i ≡ variable_text (gain_factor (controller_in from.now) part i) }
{
    match part {
        Part::Whole => { if is_first_at(from, i) { "d" } else { "l" } }
        Part::High => "L",
        Part::Low => "j",
    }
}

// That product.
fn push_gain(
    from: &Measured,
    text: &mut String,
    part: Part,
    j: usize,
    i: usize,
) -> Result<(), AllocError>
    requires entry { j < entry_count from.now }
    requires row { i < row_count from.now }
    ensures { OnOk result (string_bytes text.new ≡ string_bytes text.old ++ gain_text (controller_in from.now) part j i) }
{
    let gain = gain_base(from, j, i);
    let top = multiplier_top(from.c, i);
    let family = gain_family(from, part, i);
    push_scaled(
        from.alloc,
        text,
        Part::Whole,
        gain,
        lowering_at(from.c, i),
        top,
        family,
        i,
    )?;
    Ok(())
}

// All of plan entry `j`.
fn push_gains(from: &Measured, text: &mut String, part: Part, j: usize) -> Result<(), AllocError>
    requires entry { j < entry_count from.now }
    ensures { OnOk result (string_bytes text.new ≡ string_bytes text.old ++ gains_text (controller_in from.now) part j) }
{
    for i in 0..from.c.bound.len() {
        push_gain(from, text, part, j, i)?;
    }
    Ok(())
}

// With the base of the entry before them.
fn push_entry_sum(
    from: &Measured,
    text: &mut String,
    part: Part,
    j: usize,
) -> Result<(), AllocError>
    requires entry { j < entry_count from.now }
    ensures { OnOk result (string_bytes text.new ≡ string_bytes text.old ++ expression_text (entry_sum_by (controller_in from.now) part j)) }
{
    push_value(from.alloc, text, entry_base_letter(part), j)?;
    push_gains(from, text, part, j)?;
    Ok(())
}

// What is shifted for the entry, from both parts.
fn push_parted_entry_sum(from: &Measured, text: &mut String, j: usize) -> Result<(), AllocError>
    requires entry { j < entry_count from.now }
    ensures { OnOk result (string_bytes text.new ≡ string_bytes text.old ++ expression_text (entry_sum_in true (controller_in from.now) j)) }
{
    push_entry_sum(from, text, Part::High, j)?;
    text.push_str(" + ((")?;
    push_entry_sum(from, text, Part::Low, j)?;
    text.push_str(") >> 16)")?;
    Ok(())
}

// The same of either program.
fn push_entry_sum_where(from: &Measured, text: &mut String, j: usize) -> Result<(), AllocError>
    requires entry { j < entry_count from.now }
    ensures { OnOk result (string_bytes text.new ≡ string_bytes text.old ++
        expression_text (entry_sum_in from.now.parted (controller_in from.now) j)) }
{
    if from.parted {
        push_parted_entry_sum(from, text, j)
    } else {
        push_entry_sum(from, text, Part::Whole, j)
    }
}

// By how many bits it is shifted.
fn entry_shift(from: &Measured) -> u32
    ensures value { result ≡ shift_in from.now.parted ((controller_in from.now).fraction_bits + (controller_in from.now).step_exponent) }
    ensures small { result ≤ 63 }
{
    shift_of(from.parted, from.c.f + from.c.s)
}

// Plan entry `j`.
fn push_entry_value(from: &Measured, text: &mut String, j: usize) -> Result<(), AllocError>
    requires entry { j < entry_count from.now }
    ensures { OnOk result (string_bytes text.new ≡ string_bytes text.old ++
        expression_text (entry_in from.now.parted (controller_in from.now) j)) }
{
    text.push_str("INT64_C(0) - ((")?;
    push_entry_sum_where(from, text, j)?;
    text.push_str(") >> ")?;
    push_number(from.alloc, text, entry_shift(from) as i128)?;
    text.push_str(")")?;
    Ok(())
}

// The line of plan entry `j`.
fn push_entry(from: &Measured, text: &mut String, j: usize) -> Result<(), AllocError>
    requires in_range { j < entry_count from.now }
    ensures { OnOk result (string_bytes text.new ≡ string_bytes text.old ++
        loop_text from.now (Declare (variable Entry j) (entry_in from.now.parted (controller_in from.now) j) ∷ [])) }
{
    push_declared(
        from.alloc,
        text,
        "        ",
        kind_word(from.plan[j]),
        "u",
        j,
    )?;
    push_entry_value(from, text, j)?;
    push_end(text)?;
    Ok(())
}

// The lines of its parts.
fn push_entry_parts(from: &Measured, text: &mut String, j: usize) -> Result<(), AllocError>
    requires in_range { j < entry_count from.now }
    ensures { OnOk result (string_bytes text.new ≡ string_bytes text.old ++
        loop_text from.now (part_statements (variable Entry j) (variable EntryHigh j) (variable EntryLow j))) }
{
    let kind = high_kind(from.plan[j]);
    let high = entry_letter(Part::High);
    let low = entry_letter(Part::Low);
    push_parts(from.alloc, text, kind, "u", high, low, j)?;
    Ok(())
}

// The same where they are needed.
fn push_needed_entry_parts(from: &Measured, text: &mut String, j: usize) -> Result<(), AllocError>
    requires in_range { j < entry_count from.now }
    ensures { OnOk result (string_bytes text.new ≡ string_bytes text.old ++
        needed_loop_text from.now (part_statements (variable Entry j) (variable EntryHigh j) (variable EntryLow j))) }
{
    if is_entry_needed_at(from, j) {
        push_entry_parts(from, text, j)
    } else {
        Ok(())
    }
}

// And where the program is in parts.
fn push_entry_parts_where(from: &Measured, text: &mut String, j: usize) -> Result<(), AllocError>
    requires in_range { j < entry_count from.now }
    ensures { OnOk result (string_bytes text.new ≡ string_bytes text.old ++ needed_loop_text from.now (entry_parts_in from.now.parted j)) }
{
    if from.parted {
        push_needed_entry_parts(from, text, j)
    } else {
        Ok(())
    }
}

// The lines of plan entry `j`.
fn push_entry_lines(from: &Measured, text: &mut String, j: usize) -> Result<(), AllocError>
    requires in_range { j < entry_count from.now }
    ensures { OnOk result (string_bytes text.new ≡ string_bytes text.old ++
        needed_loop_text from.now (entry_lines_in from.now.parted (controller_in from.now) j)) }
{
    push_entry(from, text, j)?;
    push_entry_parts_where(from, text, j)?;
    Ok(())
}

// The lines of the plan entries.
pub fn push_entries(from: &Measured, text: &mut String) -> Result<(), AllocError>
    ensures { OnOk result (string_bytes text.new ≡ string_bytes text.old ++
        needed_loop_text from.now (groups (entry_lines_in from.now.parted (controller_in from.now)) (entry_count from.now))) }
{
    for j in 0..from.c.t.len() {
        push_entry_lines(from, text, j)?;
    }
    Ok(())
}

// The lines that add the plan to its sums.
pub fn push_sums(from: &Measured, text: &mut String) -> Result<(), AllocError>
    ensures { OnOk result (string_bytes text.new ≡ string_bytes text.old ++ loop_text from.now (groups (sum_for from.now.machine) (entry_count from.now))) }
{
    for j in 0..from.c.t.len() {
        push_sum(from, text, j)?;
    }
    Ok(())
}
