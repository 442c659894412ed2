// Shifts turn by turn.
ghost use Rattle.std.specs.Prelude.{◌≡◌, ◌⊎◌, ℕ, ◌<◌, ◌^◌, length, unsigned_abs, IfOk, IfErr, MatchResult};
ghost use Rattle.mat_int.specs.Matrix.{Matrix, entry_of};
ghost use Rattle.number_text.specs.declared.text_fault.TextFault.{TextFault};
ghost use Rattle.number_text.specs.declared.text_fault.TextFault.TheVariants.{Memory};
ghost use Rattle.state_files.specs.TurnText.{IsShiftsText, IsShiftsFault};

use crate::range::LEAST;
use crate::states::read_rows;
use number_text::TextFault;
use packed_rows::PackedRows;
use policy_file::Layout;
use std::alloc::Global;

/// The shifts of a text of a record of `n` numbers for each of `turns` turns, a row each. Each is at most 2147483647 in absolute value. The text has fewer
/// than `2^32` bytes.
///
/// # Errors
/// The first fault: for the records in turn `Fields` where one has another number of fields, then `Number` for its first field that holds no such
/// number. After all records `Count` where there aren't so many as turns.
pub fn read_shifts(
    alloc: Global,
    bytes: &[u8],
    n: usize,
    turns: usize,
) -> Result<PackedRows, TextFault>
    requires { length bytes.now < 2 ^ 32 }
    ensures found { IfOk result (IsShiftsText bytes.now n turns) }
    ensures small { IfOk result (λ m. (k i : ℕ) → unsigned_abs (entry_of m k i) < 2 ^ 31) }
    ensures fault { IfErr result (λ e. (e ≡ Memory) ⊎ IsShiftsFault bytes.now n turns e) }

    // The other way round, with nothing but out of memory in between.
    ensures right { (shifts : Matrix) → IsShiftsText bytes.now n turns shifts → MatchResult result (λ m. m ≡ shifts) (λ e. e ≡ Memory) }
    ensures first { (told : TextFault) → IsShiftsFault bytes.now n turns told → MatchResult result (λ _. ⊥) (λ e. (e ≡ told) ⊎ (e ≡ Memory)) }
{
    shifts_in(alloc, bytes, n, turns)
}

// The same, said one way.
fn shifts_in(alloc: Global, bytes: &[u8], n: usize, turns: usize) -> Result<PackedRows, TextFault>
    requires { length bytes.now < 2 ^ 32 }
    ensures found { IfOk result (IsShiftsText bytes.now n turns) }
    ensures fault { IfErr result (λ e. (e ≡ Memory) ⊎ IsShiftsFault bytes.now n turns e) }
{
    let least = vec![in alloc; LEAST; n]?;
    let shifts = read_rows(alloc, bytes, Layout::Shifts(&least), n)?;
    let entries = shifts.rows();
    if entries != turns {
        return Err(TextFault::Count {
            entries: entries as u32,
        });
    }
    Ok(shifts)
}
