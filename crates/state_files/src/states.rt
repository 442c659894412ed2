// Texts of states, and of rows in any layout.
ghost use Rattle.std.specs.Prelude.{◌≡◌, ◌⊎◌, ◌+◌, ◌≤◌, ◌<◌, ◌^◌, length, IfOk, IfErr, IsOkAnd, OnOk, MatchResult};
ghost use Rattle.csv.specs.Records.{fields_of};
ghost use Rattle.mat_int.specs.Matrix.{Matrix};
ghost use Rattle.number_text.specs.declared.text_fault.TextFault.{TextFault};
ghost use Rattle.number_text.specs.declared.text_fault.TextFault.TheVariants.{Memory};
ghost use Rattle.policy_file.specs.Records.{IsRowsText, IsRecordFault, IsRecordsFault, records_of, field_room};
ghost use Rattle.policy_file.specs.Layout.{rule_of};
ghost use Rattle.policy_file.specs.StatesText.{IsStatesText, IsStatesFault};
ghost use Rattle.state_files.specs.RowAdded.{HasRowMore};

use csv::{ByteRecord, Error};
use number_text::TextFault;
use packed_rows::PackedRows;
use policy_file::{Layout, numbers_of, text_records};
use std::alloc::Global;

/// The states of a text of records of `n` numbers over `2^grid`, a row for each record. The text has fewer than `2^32` bytes.
///
/// # Errors
/// The first fault: for the records in turn `Fields` where one has another number of fields, then `Number` for its first field that
/// holds no number.
pub fn read_states(alloc: Global, bytes: &[u8], n: usize) -> Result<PackedRows, TextFault>
    requires { length bytes.now < 2 ^ 32 }
    ensures found { IfOk result (IsStatesText bytes.now n) }
    ensures count { IfOk result (λ m. length m.rows < 2 ^ 32) }
    ensures fault { IfErr result (λ e. (e ≡ Memory) ⊎ IsStatesFault bytes.now n e) }

    // The other way round, with nothing but out of memory in between.
    ensures right { (states : Matrix) → IsStatesText bytes.now n states → MatchResult result (λ m. m ≡ states) (λ e. e ≡ Memory) }
    ensures first { (told : TextFault) → IsStatesFault bytes.now n told → MatchResult result (λ _. ⊥) (λ e. (e ≡ told) ⊎ (e ≡ Memory)) }
{
    read_rows(alloc, bytes, Layout::States, n)
}

/// The numbers of a text of records of `width` numbers, a row for each record. The text has fewer than `2^32` bytes.
///
/// # Errors
/// The first fault: for the records in turn `Fields` where one has another number of fields, then `Number` for its first field that
/// holds no number of the layout.
pub fn read_rows(
    alloc: Global,
    bytes: &[u8],
    layout: Layout,
    width: usize,
) -> Result<PackedRows, TextFault>
    requires { length bytes.now < 2 ^ 32 }
    ensures found { IfOk result (IsRowsText (rule_of layout.entry) width bytes.now) }
    ensures fault { IfErr result (λ e. (e ≡ Memory) ⊎ IsRecordsFault (rule_of layout.entry) width (records_of bytes.now) e) }
{
    let mut packed = PackedRows::new(alloc, width);
    for record in text_records(alloc, bytes) {
        push_record(alloc, record, layout, &mut packed)?;
    }
    Ok(packed)
}

// The numbers of a record that was read, as one more row.
fn push_record(
    alloc: Global,
    read: Result<ByteRecord, Error>,
    layout: Layout,
    packed: &mut PackedRows,
) -> Result<(), TextFault>
    requires { IfOk read (λ r. (length packed.old.rows + 1 < 2 ^ 32) × (field_room (fields_of r) ≤ 2 ^ 32)) }
    ensures found { OnOk result (IsOkAnd read (λ r. HasRowMore (rule_of layout.entry) (fields_of r) packed.old packed.new)) }
    ensures fault { IfErr result (λ e. (e ≡ Memory) ⊎ IsOkAnd read (λ r. IsRecordFault (rule_of layout.entry) packed.old.cols (length packed.old.rows + 1) (fields_of r) e)) }
{
    let Ok(record) = read else {
        return Err(TextFault::Memory);
    };
    let width = packed.cols();
    let entry = packed.rows() as u32 + 1;
    let numbers = numbers_of(alloc, &record, layout, width, entry)?;
    packed.push_row(&numbers)?;
    Ok(())
}
