// One record of numbers.
ghost use Rattle.std.specs.Prelude.{◌≡◌, ◌⊎◌, ℤ, ◌≤◌, ◌^◌, IfOk, IfErr, IfSome, IsTrue, ◌↔◌, Some};
ghost use Rattle.integer_algebra.specs.Sums.{at};
ghost use Rattle.csv.specs.Records.{fields_of};
ghost use Rattle.policy_file.specs.Records.{HoldsNumbers, IsRecordFault, field_room};
ghost use Rattle.policy_file.specs.Layout.{rule_of, IsInRange};
ghost use Rattle.number_text.specs.declared.text_fault.TextFault.TheVariants.{Memory};

use crate::number::number_field;
use csv::ByteRecord;
use number_text::TextFault;
use std::alloc::Global;

/// The greatest denominator of a plan.
const MOST_DENOMINATOR: i128 = 1 << 40;

/// The greatest shift.
const GREATEST_SHIFT: i128 = 2147483647;

/// What the records of a text hold.
#[derive(Clone, Copy)]
pub enum Layout<'a> {
    /// The numbers of a state.
    States,
    /// A denominator, and the numerators of a plan.
    Policy,
    /// The factor of a face, and its weights.
    Face,
    /// The shifts of a state, each from its floor on.
    Shifts(&'a [i128]),
}

// The number that field `i` of a record, from 0, holds, where it is right there.
fn number_at(layout: Layout, i: usize, field: &[u8]) -> Option<i128>
    ensures found { IfSome result (rule_of layout.entry i field.now) }
    ensures only { (z : ℤ) → rule_of layout.entry i field.now z → result ≡ Some z }
{
    let Some(number) = number_field(field) else {
        return None;
    };
    if is_in_range(layout, i, number) {
        Some(number)
    } else {
        None
    }
}

// Whether a number lies in the range of field `i`.
fn is_in_range(layout: Layout, i: usize, number: i128) -> bool
    ensures { IsTrue result ↔ IsInRange layout.entry i number }
{
    match layout {
        Layout::States => true,
        Layout::Policy => i > 0 || (1 <= number && number <= MOST_DENOMINATOR),
        Layout::Face => (if i == 0 { 1 } else { 0 }) <= number && number < 1 << 31,
        Layout::Shifts(floors) => floor_at(floors, i) <= number && number <= GREATEST_SHIFT,
    }
}

// The floor of a field, 0 past the last.
fn floor_at(floors: &[i128], i: usize) -> i128
    ensures { result ≡ at floors.now i }
{
    if i < floors.len() { floors[i] } else { 0 }
}

/// The numbers of a record of `count` fields, which is entry number `entry` of the text, from 1.
pub fn numbers_of(
    alloc: Global,
    row: &ByteRecord,
    layout: Layout,
    count: usize,
    entry: u32,
) -> Result<Vec<i128>, TextFault>
    requires { field_room (fields_of row.now) ≤ 2 ^ 32 }
    ensures found { IfOk result (λ v. HoldsNumbers (rule_of layout.entry) count (fields_of row.now) v.items) }
    ensures fault { IfErr result (λ e. (e ≡ Memory) ⊎ IsRecordFault (rule_of layout.entry) count entry (fields_of row.now) e) }
{
    if row.len() != count {
        return Err(TextFault::Fields { entry });
    }
    let mut numbers = Vec::new(alloc);
    for i in 0..count {
        let Some(field) = row.get(i) else {
            unreachable!();
        };
        let Some(number) = number_at(layout, i, field) else {
            return Err(TextFault::Number {
                entry,
                field: i as u32 + 1,
            });
        };
        if numbers.push(number).is_err() {
            return Err(TextFault::Memory);
        }
    }
    Ok(numbers)
}
