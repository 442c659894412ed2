// The text of a certificate.
ghost use Rattle.std.specs.Prelude.{◌≡◌, ◌⊎◌, ◌+◌, ◌*◌, ◌<◌, ◌≤◌, ◌^◌, pos, ◌≤ℤ◌, length, IfOk, IfErr, IfSome, IfNone, MatchResult, IsTrue, ◌↔◌};
ghost use Rattle.integer_algebra.specs.Sums.{at};
ghost use Rattle.mat_int.specs.Matrix.{row_of, entry_of};
ghost use Rattle.number_text.specs.declared.text_fault.TextFault.{TextFault};
ghost use Rattle.number_text.specs.declared.text_fault.TextFault.TheVariants.{Memory};
ghost use Rattle.settle_check.specs.Still.{box_of, IsPartOf};
ghost use Rattle.settle_check.specs.Certificates.{IsCertificateFor};
ghost use Rattle.settle_check.specs.CertificateText.{CertificateNumbers, certificate_numbers, box_at, HasState, IsStartRecord, IsStillRecord, IsBoxOfRow, IsTurnCount, AreBoxesInRange, IsFirstOutOfRange, IsCertificateText, IsCertificateFault};

use crate::certificate::{CertificateParts, StateBox};
use mat_int::Mat;
use number_text::TextFault;
use policy_file::{Headed, Layout, read_headed};
use std::alloc::{AllocError, Global};

/// The most turns from a box to the box of rest.
const MOST_SETTLING_TURNS: i128 = 4096;

/// The certificate of a text of three records, each of a number of turns, the least number of each coordinate of a box and then the greatest, over `2^grid`:
/// the turns from the start box, 0 .. 4096, which holds a state; the turns from the box where no multiplier moves, a part of that from `low` to `high`, to the
/// rows of the cost, 0 .. 4096; the turns from the box of rest, 1 .. 4096. The text has fewer than `2^32` bytes.
///
/// # Errors
/// The first fault: for the records in turn `Fields` where one has another number of fields, then `Number` for its first field that holds no number. After
/// all records `Count` where there aren't three, and then `Range` with the number of the first record, from 1, whose turns or box are out of their range.
pub fn read_certificate(
    alloc: Global,
    bytes: &[u8],
    low: &[i128],
    high: &[i128],
) -> Result<CertificateParts, TextFault>
    requires small { length bytes.now < 2 ^ 32 }
    requires few { length low.now < 2 ^ 31 }
    requires high { length high.now ≡ length low.now }
    ensures found { IfOk result (λ p. IsCertificateText bytes.now (length low.now) (box_of low.now high.now) (certificate_numbers p)) }
    ensures sized { IfOk result (IsCertificateFor (length low.now)) }
    ensures fault { IfErr result (λ e. (e ≡ Memory) ⊎ IsCertificateFault bytes.now (length low.now) (box_of low.now high.now) e) }

    // The other way round, with nothing but out of memory in between.
    ensures right { (f : CertificateNumbers) → IsCertificateText bytes.now (length low.now) (box_of low.now high.now) f →
        MatchResult result (λ p. certificate_numbers p ≡ f) (λ e. e ≡ Memory) }
    ensures first { (told : TextFault) → IsCertificateFault bytes.now (length low.now) (box_of low.now high.now) told →
        MatchResult result (λ _. ⊥) (λ e. (e ≡ told) ⊎ (e ≡ Memory)) }
{
    certificate_in(alloc, bytes, low, high)
}

// The same, said one way.
fn certificate_in(
    alloc: Global,
    bytes: &[u8],
    low: &[i128],
    high: &[i128],
) -> Result<CertificateParts, TextFault>
    requires small { length bytes.now < 2 ^ 32 }
    requires few { length low.now < 2 ^ 31 }
    requires high { length high.now ≡ length low.now }
    ensures found { IfOk result (λ p. IsCertificateText bytes.now (length low.now) (box_of low.now high.now) (certificate_numbers p)) }
    ensures fault { IfErr result (λ e. (e ≡ Memory) ⊎ IsCertificateFault bytes.now (length low.now) (box_of low.now high.now) e) }
{
    let read = read_headed(alloc, bytes, Layout::States, 2 * low.len(), 3)?;
    if let Some(place) = place_out_of_range(&read, low, high) {
        return Err(TextFault::Range { place });
    }
    let parts = parts_in(alloc, &read, low.len());
    drop(read);
    Ok(parts?)
}

// The first record, from 1, whose turns or box are out of their range.
fn place_out_of_range(read: &Headed, low: &[i128], high: &[i128]) -> Option<u32>
    requires heads { length read.now.heads.items ≡ 3 }
    requires rows { length read.now.rows.rows ≡ 3 }
    requires cols { read.now.rows.cols ≡ 2 * length low.now }
    requires high { length high.now ≡ length low.now }
    ensures some { IfSome result (IsFirstOutOfRange (length low.now) (box_of low.now high.now) read.now.heads.items read.now.rows) }
    ensures none { IfNone result (AreBoxesInRange (length low.now) (box_of low.now high.now) read.now.heads.items read.now.rows) }
{
    if !is_start_record(read, low) {
        return Some(1);
    }
    if !is_still_record(read, low, high) {
        return Some(2);
    }
    if !has_return(read) {
        return Some(3);
    }
    None
}

// Whether the first record is of turns in their range and a box that holds a state, of as many coordinates as a list.
fn is_start_record(read: &Headed, low: &[i128]) -> bool
    requires heads { length read.now.heads.items ≡ 3 }
    requires rows { length read.now.rows.rows ≡ 3 }
    requires cols { read.now.rows.cols ≡ 2 * length low.now }
    ensures { IsTrue result ↔ IsStartRecord (length low.now) read.now.heads.items read.now.rows }
{
    is_turn_count(read, 0, 0) && has_state(low, &read.rows)
}

// Whether the box of the first row holds a state.
fn has_state(low: &[i128], rows: &Mat) -> bool
    requires rows { length rows.now.rows ≡ 3 }
    requires cols { rows.now.cols ≡ 2 * length low.now }
    ensures { IsTrue result ↔ HasState (length low.now) (box_at (length low.now) rows.now 0) }
{
    for i in 0..low.len() {
        if !is_ordered(low, rows, i) {
            return false;
        }
    }
    true
}

// Whether coordinate `i` of it has a number.
fn is_ordered(low: &[i128], rows: &Mat, i: usize) -> bool
    requires rows { length rows.now.rows ≡ 3 }
    requires cols { rows.now.cols ≡ 2 * length low.now }
    requires coordinate { i < length low.now }
    ensures { IsTrue result ↔ (entry_of rows.now 0 i ≤ℤ entry_of rows.now 0 (length low.now + i)) }
{
    rows.at(0, i) <= rows.at(0, low.len() + i)
}

// Whether those from the box of rest are.
fn has_return(read: &Headed) -> bool
    requires { length read.now.heads.items ≡ 3 }
    ensures { IsTrue result ↔ IsTurnCount (pos 1) (at read.now.heads.items 2) }
{
    is_turn_count(read, 2, 1)
}

// Whether the first number of record `e`, from 0, is one of turns, from a least one on.
fn is_turn_count(read: &Headed, e: usize, least: i128) -> bool
    requires { e < length read.now.heads.items }
    ensures { IsTrue result ↔ IsTurnCount least (at read.now.heads.items e) }
{
    let turns = read.heads[e];
    least <= turns && turns <= MOST_SETTLING_TURNS
}

// Whether the second record is of turns in their range and a part of the box between two lists.
fn is_still_record(read: &Headed, low: &[i128], high: &[i128]) -> bool
    requires heads { length read.now.heads.items ≡ 3 }
    requires rows { length read.now.rows.rows ≡ 3 }
    requires cols { read.now.rows.cols ≡ 2 * length low.now }
    requires high { length high.now ≡ length low.now }
    ensures { IsTrue result ↔ IsStillRecord (length low.now) (box_of low.now high.now) read.now.heads.items read.now.rows }
{
    is_turn_count(read, 1, 0) && is_part(low, high, &read.rows)
}

// Such a number as one of 32 bits.
fn turns_of(number: i128) -> u32
    requires low { pos 0 ≤ℤ number }
    requires high { number ≤ℤ pos 4096 }
    ensures { pos result ≡ number }
{
    number as u32
}

// Whether the box of the second row is part of that between two lists.
fn is_part(low: &[i128], high: &[i128], rows: &Mat) -> bool
    requires high { length high.now ≡ length low.now }
    requires rows { length rows.now.rows ≡ 3 }
    requires cols { rows.now.cols ≡ 2 * length low.now }
    ensures { IsTrue result ↔ IsPartOf (length low.now) (box_of low.now high.now) (box_at (length low.now) rows.now 1) }
{
    for i in 0..low.len() {
        if !is_inside(low, high, rows, i) {
            return false;
        }
    }
    true
}

// Whether coordinate `i` of it is.
fn is_inside(low: &[i128], high: &[i128], rows: &Mat, i: usize) -> bool
    requires high { length high.now ≡ length low.now }
    requires rows { length rows.now.rows ≡ 3 }
    requires cols { rows.now.cols ≡ 2 * length low.now }
    requires coordinate { i < length low.now }
    ensures { IsTrue result ↔ ((at low.now i ≤ℤ entry_of rows.now 1 i) × (entry_of rows.now 1 (length low.now + i) ≤ℤ at high.now i)) }
{
    low[i] <= rows.at(1, i) && rows.at(1, low.len() + i) <= high[i]
}

// The box of a row of `2n` numbers.
fn box_in_row(alloc: Global, row: &[i128], n: usize) -> Result<StateBox, AllocError>
    requires { n ≤ length row.now }
    ensures { IfOk result (IsBoxOfRow n row.now) }
{
    let low = row[..n].to_vec(alloc)?;
    let high = row[n..].to_vec(alloc)?;
    Ok(StateBox { low, high })
}

// The certificate of three numbers of turns and rows.
fn parts_in(alloc: Global, read: &Headed, n: usize) -> Result<CertificateParts, AllocError>
    requires heads { length read.now.heads.items ≡ 3 }
    requires rows { length read.now.rows.rows ≡ 3 }
    requires cols { read.now.rows.cols ≡ 2 * n }
    requires turns { IsTurnCount (pos 0) (at read.now.heads.items 0) }
    requires after { IsTurnCount (pos 0) (at read.now.heads.items 1) }
    requires back { IsTurnCount (pos 1) (at read.now.heads.items 2) }
    ensures turns { IfOk result (λ p. pos p.turns ≡ at read.now.heads.items 0) }
    ensures after { IfOk result (λ p. pos p.after ≡ at read.now.heads.items 1) }
    ensures back { IfOk result (λ p. pos p.back ≡ at read.now.heads.items 2) }
    ensures start { IfOk result (λ p. IsBoxOfRow n (row_of read.now.rows 0) p.start) }
    ensures still { IfOk result (λ p. IsBoxOfRow n (row_of read.now.rows 1) p.still) }
    ensures rest { IfOk result (λ p. IsBoxOfRow n (row_of read.now.rows 2) p.rest) }
{
    let start = box_in_row(alloc, read.rows.row(0), n)?;
    let still = box_in_row(alloc, read.rows.row(1), n)?;
    let rest = box_in_row(alloc, read.rows.row(2), n)?;
    Ok(CertificateParts {
        turns: turns_of(read.heads[0]),
        after: turns_of(read.heads[1]),
        back: turns_of(read.heads[2]),
        start,
        still,
        rest,
    })
}
