// Sums of products.
ghost use Rattle.std.specs.Prelude.{◌≡◌, ◌<◌, ◌≤◌, ◌+◌, ◌*◌, ◌^◌, ◌++◌, ℕ, pos, ◌*ℤ◌, length, OnOk, string_bytes, unsigned_abs, slice_index_or};
ghost use Rattle.integer_algebra.specs.Division.{floor_of};
ghost use Rattle.integer_algebra.specs.Sums.{at};
ghost use Rattle.c_writer.specs.Terms.{family_text, part_in};

use crate::measured::Part;
use crate::words::push_scaled;
use frac_scaled::floor_shift;
use std::alloc::{AllocError, Global};

// A part of each number of a row times `2^s`, times the variables of a family.
pub fn push_row(
    alloc: Global,
    text: &mut String,
    part: Part,
    row: &[i128],
    s: u32,
    tops: &[u128],
    family: &str,
) -> Result<(), AllocError>
    requires small { s ≤ 40 }
    requires long { length row.now ≡ length tops.now }
    requires room { (k : ℕ) → k < length row.now → unsigned_abs (at row.now k *ℤ pos (2 ^ s)) * slice_index_or tops.now k 0 < 2 ^ 127 }
    ensures { OnOk result (string_bytes text.new ≡ string_bytes text.old ++
        family_text (λ k. part_in part (at row.now k *ℤ pos (2 ^ s))) tops.now family.now (length row.now)) }
{
    for k in 0..row.len() {
        push_scaled(alloc, text, part, row[k], s, tops[k], family, k)?;
    }
    Ok(())
}

// A row over `2^k`, rounded down, times the variables of a family.
pub fn push_lowered_row(
    alloc: Global,
    text: &mut String,
    row: &[i128],
    k: u32,
    tops: &[u128],
    family: &str,
) -> Result<(), AllocError>
    requires small { k ≤ 48 }
    requires long { length row.now ≡ length tops.now }
    requires room { (j : ℕ) → j < length row.now → unsigned_abs (at row.now j) * slice_index_or tops.now j 0 < 2 ^ 127 }
    ensures { OnOk result (string_bytes text.new ≡ string_bytes text.old ++
        family_text (λ j. floor_of (at row.now j) (2 ^ k)) tops.now family.now (length row.now)) }
{
    for j in 0..row.len() {
        let factor = floor_shift(row[j], k);
        push_scaled(alloc, text, Part::Whole, factor, 0, tops[j], family, j)?;
    }
    Ok(())
}
