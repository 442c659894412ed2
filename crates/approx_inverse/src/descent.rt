// Single entries of a list move by whole steps, each of which lowers the value; the residual follows.
ghost use Rattle.std.specs.Prelude.{ℕ, ℤ, pos, ◌≡◌, ◌↔◌, ◌<◌, ◌≤◌, ◌+◌, ◌^◌, ◌≤ℤ◌, ◌<ℤ◌, ◌*ℤ◌, ◌+ℤ◌, ◌-ℤ◌, FitsSigned, unsigned_abs, length, IsTrue, MatchOption};
ghost use Rattle.std.specs.Int.{w128};
ghost use Rattle.integer_algebra.specs.Sums.{at};
ghost use Rattle.integer_algebra.specs.Bounds.{absolute};
ghost use Rattle.mat_int.specs.Matrix.{entry_of};
ghost use Rattle.word_region.specs.Words.{IsLive};
ghost use Rattle.approx_inverse.specs.Descent.{IsNearestQuotient, IsSettled, IsDescent, IsTask, aim, value};
ghost use Rattle.approx_inverse.specs.Spans.{IsSpanWritten, ArePlaced, AreKept, cells};

use crate::bits::bits;
use mat_int::Mat;
use word_region::{Region, Span};

// r / d to a nearest whole number
fn nearest(r: i128, d: i128) -> i128
    requires positive { pos 1 ≤ℤ d }
    requires doubled { FitsSigned w128 (pos 2 *ℤ d) }
    requires sum { FitsSigned w128 (pos 2 *ℤ r +ℤ d) }
    requires twice { FitsSigned w128 (pos 2 *ℤ r) }
    ensures { IsNearestQuotient r d result }
{
    (2 * r + d).div_euclid(2 * d)
}

// By how much entry j moves to where the value is least.
fn step_of(h: &Mat, region: &Region, r: &Span, j: usize) -> i128
    requires square { h.now.cols ≡ length h.now.rows }
    requires len { r.now.len ≡ length h.now.rows }
    requires live { IsLive region.now r.now }
    requires inside { j < r.now.len }
    requires positive { pos 1 ≤ℤ entry_of h.now j j }
    requires diagonal { entry_of h.now j j ≤ℤ pos (2 ^ 125) }
    requires small { unsigned_abs (cells region.now.words r.now.start j) ≤ 2 ^ 125 }
    ensures { IsNearestQuotient (cells region.now.words r.now.start j) (entry_of h.now j j) result }
{
    let rest = region.word(r, j);
    let diagonal = h.at(j, j);
    nearest(rest, diagonal)
}

// Whether 2 |r| is above d.
fn is_wide(r: i128, d: i128) -> bool
    requires { unsigned_abs r ≤ 2 ^ 125 }
    ensures { IsTrue result ↔ (d <ℤ (pos 2 *ℤ absolute r)) }
{
    let twice = 2 * r;
    d < twice || d < -twice
}

// How many bits to drop so that about 40 are left.
fn excess(x: u128) -> u32
    ensures { result ≤ 88 }
{
    bits(x).saturating_sub(40)
}

// Whether r^2 / d is above s^2 / e, as far as their upper bits tell.
fn gains_more(r: u128, d: u128, s: u128, e: u128) -> bool {
    let cut = excess(r | s);
    let low = excess(d | e);
    let a = r >> cut;
    let b = s >> cut;
    let mine = a.wrapping_mul(a).wrapping_mul(e >> low);
    let other = b.wrapping_mul(b).wrapping_mul(d >> low);
    mine > other
}

// The entry whose move lowers the value most, as far as upper bits tell, or none where each is good.
fn find_move(h: &Mat, region: &Region, r: &Span) -> Option<usize>
    requires square { h.now.cols ≡ length h.now.rows }
    requires len { r.now.len ≡ length h.now.rows }
    requires live { IsLive region.now r.now }
    requires small { (k : ℕ) → k < r.now.len → unsigned_abs (cells region.now.words r.now.start k) ≤ 2 ^ 125 }
    ensures { MatchOption result (IsSettled r.now.len (entry_of h.now) (cells region.now.words r.now.start))
        (λ j. (j < r.now.len) × (entry_of h.now j j <ℤ (pos 2 *ℤ absolute (cells region.now.words r.now.start j)))) }
{
    let mut best = None;
    let mut best_rest = 0u128;
    let mut best_diagonal = 1u128;
    for j in 0..r.len {
        let rest = region.word(r, j);
        let diagonal = h.at(j, j);
        if is_wide(rest, diagonal) {
            let size = rest.unsigned_abs();
            let weight = diagonal.unsigned_abs();
            if best.is_none() || gains_more(size, weight, best_rest, best_diagonal) {
                best = Some(j);
                best_rest = size;
                best_diagonal = weight;
            }
        }
    }
    best
}

// old - t v
fn less(old: i128, t: i128, v: i128) -> i128
    requires product { FitsSigned w128 (t *ℤ v) }
    requires difference { FitsSigned w128 (old -ℤ t *ℤ v) }
    ensures { result ≡ old -ℤ t *ℤ v }
{
    old - t * v
}

// Takes t times a row from the words of a span.
fn take_row(region: &mut Region, r: &Span, t: i128, row: &[i128])
    requires live { IsLive region.old r.now }
    requires len { length row.now ≡ r.now.len }
    requires products { (k : ℕ) → k < r.now.len → FitsSigned w128 (t *ℤ at row.now k) }
    requires results { (k : ℕ) → k < r.now.len → FitsSigned w128 (cells region.old.words r.now.start k -ℤ t *ℤ at row.now k) }
    ensures { IsSpanWritten region.old region.new r.now (λ k. cells region.old.words r.now.start k -ℤ t *ℤ at row.now k) }
{
    for (i, v) in row.iter().enumerate() {
        let old = region.word(r, i);
        let new = less(old, t, *v);
        region.set_word(r, i, new);
    }
}

// Moves entry j to where the value is least.
fn move_entry(
    h: &Mat,
    c: &[i128],
    floor: i128,
    f: u32,
    region: &mut Region,
    x: &Span,
    r: &Span,
    j: usize,
)
    requires task { IsTask h.now c.now floor f }
    requires placed { ArePlaced region.old x.now r.now (length c.now) }
    requires descent { IsDescent (length c.now) (entry_of h.now) (aim f c.now) (cells region.old.words x.now.start) (cells region.old.words r.now.start) }
    requires inside { j < length c.now }
    requires wide { entry_of h.now j j <ℤ (pos 2 *ℤ absolute (cells region.old.words r.now.start j)) }
    ensures descent { IsDescent (length c.now) (entry_of h.now) (aim f c.now) (cells region.new.words x.now.start) (cells region.new.words r.now.start) }
    ensures lower { value (length c.now) (entry_of h.now) (aim f c.now) (cells region.new.words x.now.start) <ℤ
        value (length c.now) (entry_of h.now) (aim f c.now) (cells region.old.words x.now.start) }
    ensures kept { AreKept region.old region.new x.now r.now }
{
    let t = step_of(h, region, r, j);
    let old = region.word(x, j);
    region.set_word(x, j, old - t);
    take_row(region, r, t, h.row(j));
}

// Moves entries until each is good.
pub fn settle(h: &Mat, c: &[i128], floor: i128, f: u32, region: &mut Region, x: &Span, r: &Span)
    requires task { IsTask h.now c.now floor f }
    requires placed { ArePlaced region.old x.now r.now (length c.now) }
    requires descent { IsDescent (length c.now) (entry_of h.now) (aim f c.now) (cells region.old.words x.now.start) (cells region.old.words r.now.start) }
    ensures descent { IsDescent (length c.now) (entry_of h.now) (aim f c.now) (cells region.new.words x.now.start) (cells region.new.words r.now.start) }
    ensures good { IsSettled (length c.now) (entry_of h.now) (cells region.new.words r.now.start) }
    ensures kept { AreKept region.old region.new x.now r.now }
{
    while let Some(j) = find_move(h, region, r) {
        move_entry(h, c, floor, f, region, x, r, j);
    }
}
