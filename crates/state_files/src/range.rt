// A range of shifts: the least and the greatest of each coordinate.
ghost use Rattle.std.specs.Prelude.{◌≡◌, ◌⊎◌, ◌+◌, ◌≤◌, ◌<◌, ◌^◌, length, IfOk, IfErr, MatchResult};
ghost use Rattle.csv.specs.Records.{fields_of};
ghost use Rattle.mat_int.specs.Matrix.{Matrix, row_of};
ghost use Rattle.number_text.specs.declared.text_fault.TextFault.{TextFault};
ghost use Rattle.number_text.specs.declared.text_fault.TextFault.TheVariants.{Memory};
ghost use Rattle.policy_file.specs.Records.{HoldsNumbers, IsRecordFault, field_room};
ghost use Rattle.policy_file.specs.FloorRule.{floor_rule};
ghost use Rattle.state_files.specs.ShiftRule.{least_shifts};
ghost use Rattle.state_files.specs.RangeText.{range_floors, IsRangeText, IsRangeFault, IsShiftRange};

use csv::ByteRecord;
use mat_int::Mat;
use number_text::TextFault;
use policy_file::{Layout, all_records, numbers_of};
use std::alloc::Global;

/// The least shift.
pub const LEAST: i128 = -2147483647;

/// The range of shifts of a text of two records of `n` numbers each: the least, then the greatest, none of which is below the least of its field. Each is
/// at most 2147483647 in absolute value. The text has fewer than `2^32` bytes.
///
/// # Errors
/// The first fault: for the records in turn `Fields` where one has another number of fields, then `Number` for its first field that holds no such
/// number. After all records `Count` where there aren't two.
pub fn read_shift_range(alloc: Global, bytes: &[u8], n: usize) -> Result<Mat, TextFault>
    requires { length bytes.now < 2 ^ 32 }
    ensures found { IfOk result (IsRangeText bytes.now n) }
    ensures sized { IfOk result (IsShiftRange n) }
    ensures fault { IfErr result (λ e. (e ≡ Memory) ⊎ IsRangeFault bytes.now n e) }

    // The other way round, with nothing but out of memory in between.
    ensures right { (range : Matrix) → IsRangeText bytes.now n range → MatchResult result (λ m. m ≡ range) (λ e. e ≡ Memory) }
    ensures first { (told : TextFault) → IsRangeFault bytes.now n told → MatchResult result (λ _. ⊥) (λ e. (e ≡ told) ⊎ (e ≡ Memory)) }
{
    range_of(alloc, bytes, n)
}

// The shifts of the next record, where those before it are rows of a matrix.
fn next_shifts(
    alloc: Global,
    row: &ByteRecord,
    before: &Mat,
    least: &[i128],
) -> Result<Vec<i128>, TextFault>
    requires room { field_room (fields_of row.now) ≤ 2 ^ 32 }
    requires small { length before.now.rows + 1 < 2 ^ 32 }
    requires least { least.now ≡ least_shifts before.now.cols }
    ensures found { IfOk result (λ v. HoldsNumbers (floor_rule (range_floors before.now.cols (row_of before.now 0) (length before.now.rows)))
        before.now.cols (fields_of row.now) v.items) }
    ensures fault { IfErr result (λ e. (e ≡ Memory) ⊎ IsRecordFault (floor_rule (range_floors before.now.cols (row_of before.now 0) (length before.now.rows)))
        before.now.cols (length before.now.rows + 1) (fields_of row.now) e) }
{
    let count = before.rows();
    let floors = if count == 1 { before.row(0) } else { least };
    let shifts = Layout::Shifts(floors);
    numbers_of(alloc, row, shifts, before.cols(), count as u32 + 1)
}

// The same, said one way.
fn range_of(alloc: Global, bytes: &[u8], n: usize) -> Result<Mat, TextFault>
    requires { length bytes.now < 2 ^ 32 }
    ensures found { IfOk result (IsRangeText bytes.now n) }
    ensures fault { IfErr result (λ e. (e ≡ Memory) ⊎ IsRangeFault bytes.now n e) }
{
    let records = all_records(alloc, bytes)?;
    let least = vec![in alloc; LEAST; n]?;
    let mut range = Mat::zero(alloc, 0, n)?;
    for i in 0..records.len() {
        let numbers = next_shifts(alloc, &records[i], &range, &least)?;
        range.push_row(alloc, &numbers)?;
    }
    if records.len() != 2 {
        return Err(TextFault::Count {
            entries: records.len() as u32,
        });
    }
    Ok(range)
}
