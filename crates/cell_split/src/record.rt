// One record of cuts.
ghost use Rattle.std.specs.Prelude.{◌≡◌, ◌⊎◌, ℕ, ℤ, pos, ◌-◌, ◌≤◌, ◌≤ℤ◌, ◌<ℤ◌, length, IfOk, IfErr, IfSome, Some};
ghost use Rattle.csv.specs.Records.{fields_of};
ghost use Rattle.number_text.specs.declared.text_fault.TextFault.TheVariants.{Memory};
ghost use Rattle.policy_file.specs.NumberField.{IsNumberField};
ghost use Rattle.cell_split.specs.CutsText.{IsCutCount, HoldsCuts, IsDisorder, IsCutsFault};

use csv::ByteRecord;
use number_text::TextFault;
use policy_file::number_field;
use std::alloc::Global;

/// The most cuts of a coordinate.
const MOST_CUTS: i128 = 63;

// The number of cuts that a field holds.
fn count_field(field: &[u8]) -> Option<usize>
    ensures found { IfSome result (λ n. IsNumberField field.now (pos n) × (n ≤ 63)) }
    ensures only { (n : ℕ) → IsNumberField field.now (pos n) → n ≤ 63 → result ≡ Some n }
{
    let Some(count) = number_field(field) else {
        return None;
    };
    if 0 <= count && count <= MOST_CUTS {
        Some(count as usize)
    } else {
        None
    }
}

// That of a record, which its first field holds.
fn cut_count(row: &ByteRecord) -> Option<usize>
    ensures found { IfSome result (IsCutCount (fields_of row.now)) }
    ensures only { (n : ℕ) → IsCutCount (fields_of row.now) n → result ≡ Some n }
{
    let Some(field) = row.get(0) else {
        return None;
    };
    count_field(field)
}

// The cut that a field holds, from `least` to `hi - 1`.
fn cut_field(field: &[u8], least: i128, hi: i128) -> Option<i128>
    ensures found { IfSome result (IsNumberField field.now) }
    ensures low { IfSome result (λ z. least ≤ℤ z) }
    ensures high { IfSome result (λ z. z <ℤ hi) }
    ensures only { (z : ℤ) → IsNumberField field.now z → least ≤ℤ z → z <ℤ hi → result ≡ Some z }
{
    let Some(cut) = number_field(field) else {
        return None;
    };
    if least <= cut && cut < hi {
        Some(cut)
    } else {
        None
    }
}

// The cuts of a record that has its count of fields.
fn cuts_behind(
    alloc: Global,
    row: &ByteRecord,
    lo: i128,
    hi: i128,
    entry: u32,
) -> Result<Vec<i128>, TextFault>
    requires counted { IsCutCount (fields_of row.now) (length (fields_of row.now) - 1) }
    requires some { 1 ≤ length (fields_of row.now) }
    ensures found { IfOk result (λ v. HoldsCuts lo hi (fields_of row.now) v.items) }
    ensures fault { IfErr result (λ e. (e ≡ Memory) ⊎ IsDisorder lo hi entry (fields_of row.now) e) }
{
    let mut cuts = Vec::new(alloc);
    let mut least = lo;
    for i in 1..row.len() {
        let Some(field) = row.get(i) else {
            unreachable!();
        };
        let Some(cut) = cut_field(field, least, hi) else {
            return Err(TextFault::Number {
                entry,
                field: i as u32 + 1,
            });
        };
        if cuts.push(cut).is_err() {
            return Err(TextFault::Memory);
        }
        least = cut + 1;
    }
    Ok(cuts)
}

/// The cuts of a coordinate from `lo` to `hi` that a record holds, which is entry number `entry` of the text, from 1.
pub(crate) fn cuts_in(
    alloc: Global,
    row: &ByteRecord,
    lo: i128,
    hi: i128,
    entry: u32,
) -> Result<Vec<i128>, TextFault>
    ensures found { IfOk result (λ v. HoldsCuts lo hi (fields_of row.now) v.items) }
    ensures fault { IfErr result (λ e. (e ≡ Memory) ⊎ IsCutsFault lo hi entry (fields_of row.now) e) }
{
    let Some(count) = cut_count(row) else {
        return Err(TextFault::Number { entry, field: 1 });
    };
    if row.len() != count + 1 {
        return Err(TextFault::Fields { entry });
    }
    cuts_behind(alloc, row, lo, hi, entry)
}
