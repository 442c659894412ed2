// A guess as the start of a descent. It may be any numbers: it is taken where its value is shown not to be above 0.
ghost use Rattle.std.specs.Prelude.{ℕ, ℤ, pos, ◌≡◌, ◌<◌, ◌≤◌, ◌+◌, ◌*◌, ◌^◌, ◌≤ℤ◌, ◌*ℤ◌, ◌+ℤ◌, ◌-ℤ◌, length, IsTrue, IfSome};
ghost use Rattle.integer_algebra.specs.Sums.{at, dot, total};
ghost use Rattle.integer_algebra.specs.Bounds.{absolute};
ghost use Rattle.mat_int.specs.Matrix.{entry_of};
ghost use Rattle.approx_inverse.specs.Descent.{IsDescent, aim, system_residual};
ghost use Rattle.word_region.specs.Words.{IsLive};
ghost use Rattle.approx_inverse.specs.Spans.{ArePlaced, AreKept, IsSpanWritten, StaysOutside, cells};

use crate::bits::bits_of;
use frac_scaled::{floor_shift, shift_left};
use mat_int::{Mat, try_dot};
use word_region::{Region, Span};

// How many upper bits of a number the test of a start looks at.
const KEPT_BITS: u32 = 58;

// old - 2^f v, where it fits.
fn less_aim(old: i128, v: i128, f: u32) -> Option<i128>
    requires { f ≤ 48 }
    ensures { IfSome result (λ new. new ≡ old -ℤ pos (2 ^ f) *ℤ v) }
{
    old.checked_sub(shift_left(v, f)?)
}

// An entry of the residual of x, where it fits.
fn rest_entry(row: &[i128], x: &[i128], v: i128, f: u32) -> Option<i128>
    requires len { length row.now ≡ length x.now }
    requires bits { f ≤ 48 }
    ensures { IfSome result (λ rest. rest ≡ dot (length x.now) (at row.now) (at x.now) -ℤ pos (2 ^ f) *ℤ v) }
{
    less_aim(try_dot(row, x)?, v, f)
}

// Makes `rest` the residual of x. False where a number doesn't fit; then it holds anything.
fn make_rest(h: &Mat, c: &[i128], f: u32, x: &[i128], rest: &mut [i128]) -> bool
    requires rows { length h.now.rows ≡ length c.now }
    requires cols { h.now.cols ≡ length c.now }
    requires bits { f ≤ 48 }
    requires len { length x.now ≡ length c.now }
    requires rest_len { length rest.old ≡ length c.now }
    ensures { IsTrue result → (i : ℕ) → i < length c.now →
        at rest.new i ≡ system_residual (length c.now) (entry_of h.now) (aim f c.now) (at x.now) i }
{
    for (i, v) in c.iter().enumerate() {
        let Some(entry) = rest_entry(h.row(i), x, *v, f) else {
            return false;
        };
        rest[i] = entry;
    }
    true
}

// |a| + |b| + 1, where it fits.
fn wide_sizes(a: i128, b: i128) -> Option<i128>
    ensures { IfSome result (λ sizes. sizes ≡ absolute a +ℤ absolute b +ℤ pos 1) }
{
    a.checked_abs()?
        .checked_add(b.checked_abs()?)?
        .checked_add(1)
}

// a b + |a| + |b| + 1, where it fits.
fn wide_product(a: i128, b: i128) -> Option<i128>
    ensures { IfSome result (λ product. product ≡ a *ℤ b +ℤ (absolute a +ℤ absolute b +ℤ pos 1)) }
{
    a.checked_mul(b)?.checked_add(wide_sizes(a, b)?)
}

// At least x s / 2^(p + q), where it fits.
fn scaled_product(x: i128, s: i128, p: u32, q: u32) -> Option<i128>
    requires p_small { p ≤ 126 }
    requires q_small { q ≤ 126 }
    ensures { IfSome result (λ product. (x *ℤ s) ≤ℤ (pos (2 ^ p) *ℤ pos (2 ^ q) *ℤ product)) }
{
    wide_product(floor_shift(x, p), floor_shift(s, q))
}

// At least x (rest - 2^f v) / 2^(p + q), where it fits.
fn value_term(x: i128, rest: i128, v: i128, f: u32, p: u32, q: u32) -> Option<i128>
    requires bits { f ≤ 48 }
    requires p_small { p ≤ 126 }
    requires q_small { q ≤ 126 }
    ensures { IfSome result (λ term. (x *ℤ (rest -ℤ pos (2 ^ f) *ℤ v)) ≤ℤ (pos (2 ^ p) *ℤ pos (2 ^ q) *ℤ term)) }
{
    let s = less_aim(rest, v, f)?;
    scaled_product(x, s, p, q)
}

// Whether the value of x, whose residual is `rest`, is seen to be at most 0 where p bits of x are dropped, and q of the rest.
fn is_low_at(c: &[i128], f: u32, x: &[i128], rest: &[i128], p: u32, q: u32) -> bool
    requires bits { f ≤ 48 }
    requires len { length x.now ≡ length c.now }
    requires rest_len { length rest.now ≡ length c.now }
    requires p_small { p ≤ 126 }
    requires q_small { q ≤ 126 }
    ensures { IsTrue result → total (length c.now) (λ i. at x.now i *ℤ (at rest.now i -ℤ aim f c.now i)) ≤ℤ pos 0 }
{
    let mut sum = 0i128;
    for (i, v) in c.iter().enumerate() {
        let Some(term) = value_term(x[i], rest[i], *v, f, p, q) else {
            return false;
        };
        let Some(next) = sum.checked_add(term) else {
            return false;
        };
        sum = next;
    }
    sum <= 0
}

// The same, by the upper bits.
fn is_low(c: &[i128], f: u32, x: &[i128], rest: &[i128]) -> bool
    requires bits { f ≤ 48 }
    requires len { length x.now ≡ length c.now }
    requires rest_len { length rest.now ≡ length c.now }
    ensures { IsTrue result → total (length c.now) (λ i. at x.now i *ℤ (at rest.now i -ℤ aim f c.now i)) ≤ℤ pos 0 }
{
    let p = bits_of(x).saturating_sub(KEPT_BITS);
    let q = bits_of(rest).max(bits_of(c) + f).saturating_sub(KEPT_BITS);
    is_low_at(c, f, x, rest, p, q.min(126))
}

// Puts numbers into the words of a span.
fn put(region: &mut Region, s: &Span, numbers: &[i128])
    requires live { IsLive region.old s.now }
    requires len { length numbers.now ≡ s.now.len }
    ensures { IsSpanWritten region.old region.new s.now (at numbers.now) }
{
    region.cells_mut(s).copy_from_slice(numbers);
}

// Puts the residual of x into the words of a span. False where a number doesn't fit; then they hold anything.
fn put_rest(h: &Mat, c: &[i128], f: u32, x: &[i128], region: &mut Region, r: &Span) -> bool
    requires rows { length h.now.rows ≡ length c.now }
    requires cols { h.now.cols ≡ length c.now }
    requires bits { f ≤ 48 }
    requires len { length x.now ≡ length c.now }
    requires live { IsLive region.old r.now }
    requires rest_len { r.now.len ≡ length c.now }
    ensures rest { IsTrue result → (i : ℕ) → i < length c.now →
        cells region.new.words r.now.start i ≡ system_residual (length c.now) (entry_of h.now) (aim f c.now) (at x.now) i }
    ensures kept { StaysOutside region.old region.new r.now }
{
    make_rest(h, c, f, x, region.cells_mut(r))
}

// Puts a guess and its residual into x and r, if it is a start. Else they hold anything.
pub fn begin(
    h: &Mat,
    c: &[i128],
    f: u32,
    guess: &[i128],
    region: &mut Region,
    x: &Span,
    r: &Span,
) -> bool
    requires rows { length h.now.rows ≡ length c.now }
    requires cols { h.now.cols ≡ length c.now }
    requires bits { f ≤ 48 }
    requires placed { ArePlaced region.old x.now r.now (length c.now) }
    ensures descent { IsTrue result →
        IsDescent (length c.now) (entry_of h.now) (aim f c.now) (cells region.new.words x.now.start) (cells region.new.words r.now.start) }
    ensures kept { AreKept region.old region.new x.now r.now }
{
    if guess.len() != c.len() {
        return false;
    }
    let is_start = put_rest(h, c, f, guess, region, r) && is_low(c, f, guess, region.cells(r));
    put(region, x, guess);
    is_start
}
