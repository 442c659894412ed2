// One column.
ghost use Rattle.std.specs.Prelude.{ℕ, ℤ, pos, ◌≡◌, ◌↔◌, ◌<◌, ◌≤◌, ◌+◌, ◌-◌, ◌*◌, ◌^◌, ◌≤ℤ◌, ◌<ℤ◌, ◌*ℤ◌, neg_ℤ, FitsSigned, unsigned_abs, length, IfOk, IsOk, OnOk, OnErr, IfErr};
ghost use Rattle.std.specs.Int.{w128};
ghost use Rattle.integer_algebra.specs.Sums.{at};
ghost use Rattle.integer_algebra.specs.Sizes.{size};
ghost use Rattle.mat_int.specs.Matrix.{entry_of};
ghost use Rattle.word_region.specs.Words.{IsLive};
ghost use Rattle.approx_inverse.specs.System.{IsSystem};
ghost use Rattle.approx_inverse.specs.Descent.{IsSettled, IsDescent, IsTask, aim, system_residual};
ghost use Rattle.approx_inverse.specs.Spans.{IsSpanWritten, IsOnlyIn, ArePlaced, AreKept, cells};
ghost use Rattle.qp_model.specs.form.GoodSolution.{IsGood};
ghost use Rattle.qp_model.specs.declared.quantity.Quantity.TheVariants.{Descent};
ghost use Rattle.approx_inverse.specs.DescentSize.{entry_bound, descent_of_column, EachWithin};

use crate::descent::settle;
use crate::room::has_room;
use crate::start::begin;
use mat_int::Mat;
use qp_model::{Quantity, Wide};
use word_region::{Region, Span};

// Puts 0 into the words of a span.
fn clear(region: &mut Region, s: &Span)
    requires { IsLive region.old s.now }
    ensures { IsSpanWritten region.old region.new s.now (λ k. pos 0) }
{
    for i in 0..s.len {
        region.set_word(s, i, 0);
    }
}

// Puts the negated column there.
fn negate(region: &mut Region, s: &Span, c: &[i128])
    requires live { IsLive region.old s.now }
    requires len { length c.now ≡ s.now.len }
    requires fits { (k : ℕ) → k < s.now.len → FitsSigned w128 (neg_ℤ (at c.now k)) }
    ensures { IsSpanWritten region.old region.new s.now (λ k. neg_ℤ (at c.now k)) }
{
    for (i, v) in c.iter().enumerate() {
        region.set_word(s, i, -v);
    }
}

// Doubles each word.
fn double(region: &mut Region, s: &Span)
    requires live { IsLive region.old s.now }
    requires fits { (k : ℕ) → k < s.now.len → FitsSigned w128 (pos 2 *ℤ cells region.old.words s.now.start k) }
    ensures { IsSpanWritten region.old region.new s.now (λ k. pos 2 *ℤ cells region.old.words s.now.start k) }
{
    for i in 0..s.len {
        let old = region.word(s, i);
        region.set_word(s, i, 2 * old);
    }
}

// Goes to one bit more.
fn refine(h: &Mat, c: &[i128], floor: i128, l: u32, region: &mut Region, x: &Span, r: &Span)
    requires bits { l < 48 }
    requires task { IsTask h.now c.now floor (l + 1) }
    requires placed { ArePlaced region.old x.now r.now (length c.now) }
    requires descent { IsDescent (length c.now) (entry_of h.now) (aim l c.now) (cells region.old.words x.now.start) (cells region.old.words r.now.start) }
    ensures descent { IsDescent (length c.now) (entry_of h.now) (aim (l + 1) c.now) (cells region.new.words x.now.start) (cells region.new.words r.now.start) }
    ensures good { IsSettled (length c.now) (entry_of h.now) (cells region.new.words r.now.start) }
    ensures kept { AreKept region.old region.new x.now r.now }
{
    double(region, x);
    double(region, r);
    settle(h, c, floor, l + 1, region, x, r);
}

// Finds a good solution at f bits, through those at fewer bits; r is for the residual.
fn solve_within(h: &Mat, c: &[i128], floor: i128, f: u32, region: &mut Region, x: &Span, r: &Span)
    requires bits { f ≤ 48 }
    requires task { (l : ℕ) → l ≤ f → IsTask h.now c.now floor l }
    requires placed { ArePlaced region.old x.now r.now (length c.now) }
    requires column_small { size (length c.now) (at c.now) ≤ 2 ^ 126 }
    ensures descent { IsDescent (length c.now) (entry_of h.now) (aim f c.now) (cells region.new.words x.now.start) (cells region.new.words r.now.start) }
    ensures good { IsSettled (length c.now) (entry_of h.now) (cells region.new.words r.now.start) }
    ensures kept { AreKept region.old region.new x.now r.now }
{
    clear(region, x);
    negate(region, r, c);
    settle(h, c, floor, 0, region, x, r);
    for l in 0..f {
        refine(h, c, floor, l, region, x, r);
    }
}

// Finds a good solution at f bits, from a guess where that is a start.
fn descend(
    h: &Mat,
    c: &[i128],
    floor: i128,
    f: u32,
    guess: &[i128],
    region: &mut Region,
    x: &Span,
    r: &Span,
)
    requires bits { f ≤ 48 }
    requires task { (l : ℕ) → l ≤ f → IsTask h.now c.now floor l }
    requires placed { ArePlaced region.old x.now r.now (length c.now) }
    requires column_small { size (length c.now) (at c.now) ≤ 2 ^ 126 }
    ensures descent { IsDescent (length c.now) (entry_of h.now) (aim f c.now) (cells region.new.words x.now.start) (cells region.new.words r.now.start) }
    ensures good { IsSettled (length c.now) (entry_of h.now) (cells region.new.words r.now.start) }
    ensures kept { AreKept region.old region.new x.now r.now }
{
    if begin(h, c, f, guess, region, x, r) {
        settle(h, c, floor, f, region, x, r);
    } else {
        solve_within(h, c, floor, f, region, x, r);
    }
}

/// Puts whole numbers X into the words of x so that twice each entry of `h X - 2^f c` is at most the diagonal's entry, in absolute
/// value: from a guess, which may be any numbers, single entries move by whole steps, each of which lowers `X'h X - 2 2^f c'X`. The form of h
/// is at least `floor` times the sum of the squares. `Wide` exactly where the numbers of a descent might pass `2^126`; then nothing changes. It
/// takes no memory.
pub fn solve_column(
    h: &Mat,
    c: &[i128],
    floor: i128,
    f: u32,
    guess: &[i128],
    region: &mut Region,
    x: &Span,
) -> Result<(), Wide>
    requires system { IsSystem h.now (length c.now) floor }
    requires bits { f ≤ 48 }
    requires live { IsLive region.old x.now }
    requires len { x.now.len ≡ length c.now }
    requires free { length c.now ≤ length region.old.words - region.old.used }
    ensures good { OnOk result (IsGood (length c.now) (entry_of h.now) f (at c.now) (cells region.new.words x.now.start)) }
    ensures within { OnOk result (EachWithin (length c.now) (entry_bound (length c.now) (at c.now) floor f) (cells region.new.words x.now.start)) }
    ensures only { IsOnlyIn region.old region.new x.now }
    ensures fits { IsOk result ↔ (descent_of_column (length c.now) (entry_of h.now) (at c.now) floor f ≤ 2 ^ 126) }
    ensures wide { IfErr result (λ e. (e.0 ≡ Descent) × (2 ^ 126 < descent_of_column (length c.now) (entry_of h.now) (at c.now) floor f)) }
    ensures kept { OnErr result (region.new ≡ region.old) }
{
    if !has_room(h, c, floor, f) {
        return Err(Wide(Quantity::Descent));
    }
    let mark = region.mark();
    let Some(r) = region.take(c.len()) else {
        unreachable!();
    };
    descend(h, c, floor, f, guess, region, x, &r);
    region.release(mark);
    Ok(())
}
