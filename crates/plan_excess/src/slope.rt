// What one entry of a corner's plan and of its reference plan adds to the difference of their costs.
ghost use Rattle.std.specs.Prelude.{◌≡◌, ◌↔◌, ℕ, ◌<◌, ◌≤◌, ◌^◌, pos, ◌≤ℤ◌, neg_ℤ, length, unsigned_abs, IsSome, IfSome};
ghost use Rattle.integer_algebra.specs.Sums.{at};
ghost use Rattle.integer_algebra.specs.Division.{ceil_of};
ghost use Rattle.frac_scaled.specs.Enclosures.{magnitude};
ghost use Rattle.enclosure.specs.Values.{pair, pair_at};
ghost use Rattle.qp_model.specs.problem.Design.{Design};
ghost use Rattle.qp_model.specs.form.Form.{Form};
ghost use Rattle.qp_model.specs.bounds.Excess.{step_enclosure, sum_reach};
ghost use Rattle.frac_scaled.specs.Enclosures.{enclosed};
ghost use Rattle.plan_excess.specs.Rows.{IsGradientRow, gradient_by, gradient_size_by};
ghost use Rattle.plan_excess.specs.Slopes.{AreCornerPlans, IsFitting, IsSlope, slope_size_at};

use crate::corner::Corner;
use crate::rows::Row;
use enclosure::{Enc, add, combine, enclose, magnitude, mul};

/// What an entry adds to twice the difference of the costs, and the absolute value of the reference's gradient over `2^24`.
#[derive(Clone, Copy)]
pub(crate) struct Slope {
    pub(crate) value: Enc,
    pub(crate) steepness: u128,
}

// The gradient's entry that the row is of, at the state over `grid` and the plan over `over`.
fn gradient(row: &Row, state: &[i128], grid: i128, plan: &[i128], over: i128) -> Option<Enc>
    requires states { length state.now ≡ length row.now.state.items }
    requires entries { length plan.now ≡ length row.now.plan.items }
    requires grid { pos 1 ≤ℤ grid }
    requires over { pos 1 ≤ℤ over }
    ensures value { IfSome result (λ e. pair e ≡ gradient_by (length row.now.plan.items) (pair_at row.now.plan.items)
        (length row.now.state.items) (pair_at row.now.state.items) (pair row.now.constant)
        (at state.now) (unsigned_abs grid) (at plan.now) (unsigned_abs over)) }
    ensures room { IsSome result ↔ (gradient_size_by (length row.now.plan.items) (pair_at row.now.plan.items)
        (length row.now.state.items) (pair_at row.now.state.items) (pair row.now.constant)
        (at state.now) (unsigned_abs grid) (at plan.now) (unsigned_abs over) ≤ 2 ^ 126) }
{
    let of_plan = combine(plan, &row.plan, over)?;
    let of_state = combine(state, &row.state, grid)?;
    add(add(of_plan, of_state)?, row.constant)
}

// `num / den`.
fn fraction(num: i128, den: i128) -> Enc
    requires small { unsigned_abs num ≤ 2 ^ 63 }
    requires divisor { pos 1 ≤ℤ den }
    ensures { pair result ≡ enclosed num (unsigned_abs den) }
{
    let Some(number) = enclose(num, den) else {
        unreachable!();
    };
    number
}

// Entry `j` of the step from the reference plan to the plan.
fn step(corner: &Corner, j: usize) -> Option<Enc>
    requires plans { AreCornerPlans corner.now }
    requires entry { j < length corner.now.plan.now }
    ensures value { IfSome result (λ e. pair e ≡ step_enclosure (unsigned_abs corner.now.over) (at corner.now.plan.now)
        (unsigned_abs corner.now.under) (at corner.now.reference.now) j) }
    ensures room { IsSome result ↔ (sum_reach (enclosed (at corner.now.plan.now j) (unsigned_abs corner.now.over))
        (enclosed (neg_ℤ (at corner.now.reference.now j)) (unsigned_abs corner.now.under)) ≤ 2 ^ 126) }
{
    let plan = fraction(corner.plan[j], corner.over);
    let reference = fraction(-corner.reference[j], corner.under);
    add(plan, reference)
}

// The absolute value of an enclosure at most, over `2^24` and rounded up.
fn steepness(gradient: Enc) -> u128
    ensures { pos result ≡ ceil_of (magnitude (pair gradient)) (2 ^ 16) }
{
    magnitude(gradient).div_ceil(1 << 16)
}

/// Entry `j`, by its row.
pub(crate) fn slope_of(row: &Row, corner: &Corner, j: usize) -> Option<Slope>
    requires fits { IsFitting corner.now row.now }
    requires plans { AreCornerPlans corner.now }
    requires entry { j < length corner.now.plan.now }
    ensures value { (d : Design) (h : Form) → IsGradientRow d h j row.now →
        corner.now.grid ≡ pos (2 ^ d.grid) → IfSome result (IsSlope d h corner.now j) }
    ensures room { (d : Design) (h : Form) → IsGradientRow d h j row.now → corner.now.grid ≡ pos (2 ^ d.grid) →
        IsSome result ↔ (slope_size_at d h corner.now j ≤ 2 ^ 126) }
{
    let (state, grid) = (&corner.state, corner.grid);
    let here = gradient(row, state, grid, corner.plan, corner.over)?;
    let there = gradient(row, state, grid, corner.reference, corner.under)?;
    let both = add(here, there)?;
    let value = mul(both, step(corner, j)?)?;
    Some(Slope {
        value,
        steepness: steepness(there),
    })
}
