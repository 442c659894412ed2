// The quantities of the corners in both classes. None stands for a number above `2^126`.
ghost use Rattle.std.specs.Prelude.{◌≡◌, ◌↔◌, IsTrue, ℕ, ◌+◌, ◌*◌, ◌^◌, ◌<◌, ◌≤◌, length, unsigned_abs};
ghost use Rattle.std.specs.Option.{SomeIff};
ghost use Rattle.integer_algebra.specs.Division.{ceil_div};
ghost use Rattle.integer_algebra.specs.Sums.{at};
ghost use Rattle.qp_model.specs.problem.Parts.{design_of, IsDesign};
ghost use Rattle.qp_model.specs.problem.Policy.{plans_of, IsPolicyFor};
ghost use Rattle.qp_model.specs.form.Class.{prediction_in};
ghost use Rattle.qp_model.specs.form.Quantities.{greatest, cost_width, weight_sum};
ghost use Rattle.qp_model.specs.bounds.CornerClass.{corner_slack_in};
ghost use Rattle.qp_model.specs.bounds.CornerSizes.{first_reach};
ghost use Rattle.corner_margin.specs.Corner.{reach_in, states_in};

use frac_scaled::limited_product;
use qp_model::{
    DesignParts, Policy, box_magnitude, cost_width, limit_width, limited_area, policy_magnitude,
    prediction_size, weight_sum,
};
use scaled_run::last_reach;

// `size / over`, over `2^40` and rounded up.
fn ceil_brought(size: u128, over: u128) -> u128
    requires some { 1 ≤ over }
    requires over { over ≤ 2 ^ 40 }
    requires size { size ≤ 2 ^ 63 }
    ensures value { result ≡ ceil_div (2 ^ 40 * size) over }
    ensures small { result ≤ 2 ^ 104 }
{
    ((1 << 40) * size + (over - 1)) / over
}

// What the entries of a plan reach, over `2^40`.
fn plan_reach(numerators: &[i128], over: u128) -> u128
    requires some { 1 ≤ over }
    requires over { over ≤ 2 ^ 40 }
    requires numerators { (j : ℕ) → j < length numerators.now → unsigned_abs (at numerators.now j) ≤ 2 ^ 63 }
    ensures { result ≡ greatest (length numerators.now) (λ j. ceil_div (2 ^ 40 * unsigned_abs (at numerators.now j)) over + 2) }
{
    let mut most = 0u128;
    for number in numerators {
        most = most.max(ceil_brought(number.unsigned_abs(), over) + 2);
    }
    most
}

/// What all corners and their plans reach, over `2^40`.
pub fn first_reach(parts: &DesignParts, policy: &Policy) -> u128
    requires design { IsDesign parts.now }
    requires plans { IsPolicyFor (design_of parts.now) (plans_of policy.now) }
    ensures { result ≡ first_reach (design_of parts.now) (plans_of policy.now) }
{
    let state = ceil_brought(box_magnitude(parts), 1 << parts.grid);
    let mut most = state.max(1 << 40);
    for c in 0..policy.plans.rows() {
        let plan = plan_reach(policy.plans.row(c), policy.dens[c].unsigned_abs());
        most = most.max(plan);
    }
    most
}

// What the runs of all corners reach at the last stage. None where the numbers before the last division pass the limit.
fn reach_in(parts: &DesignParts, policy: &Policy, fine: bool) -> Option<u128>
    requires design { IsDesign parts.now }
    requires plans { IsPolicyFor (design_of parts.now) (plans_of policy.now) }
    ensures { let d = design_of parts.now in let s = plans_of policy.now in SomeIff result (states_in fine d s ≤ 2 ^ 126) (reach_in fine d s) }
{
    if fine {
        last_reach(parts, first_reach(parts, policy), 3)
    } else {
        limited_product(policy_magnitude(parts, policy), prediction_size(parts)?)
    }
}

/// What the runs of all corners reach at most, where the quantity `corner_slack` is within its limit.
pub fn corner_reach(parts: &DesignParts, policy: &Policy, fine: bool) -> Option<u128>
    requires design { IsDesign parts.now }
    requires plans { IsPolicyFor (design_of parts.now) (plans_of policy.now) }
    ensures { let d = design_of parts.now in let s = plans_of policy.now in SomeIff result (corner_slack_in fine d s ≤ 2 ^ 126) (reach_in fine d s) }
{
    let reach = reach_in(parts, policy, fine)?;
    let row = limited_product(limit_width(parts), reach)?;
    limited_product(1 << 17, row)?;
    Some(reach)
}

/// Whether the quantity `prediction` is within its limit.
pub fn is_prediction_limited(parts: &DesignParts, fine: bool) -> bool
    requires { IsDesign parts.now }
    ensures { IsTrue result ↔ (prediction_in fine (design_of parts.now) ≤ 2 ^ 126) }
{
    if fine {
        last_reach(parts, 1 << 40, 3).is_some()
    } else {
        prediction_size(parts).is_some()
    }
}

/// Whether the quantity `corner_cost` of corners whose runs reach `reach` is within its limit.
pub fn is_cost_limited(parts: &DesignParts, reach: u128) -> bool
    requires { IsDesign parts.now }
    ensures { let d = design_of parts.now in IsTrue result ↔ (weight_sum d * (cost_width d * reach) ^ 2 ≤ 2 ^ 126) }
{
    let Some(row) = limited_product(cost_width(parts), reach) else {
        return false;
    };
    limited_area(weight_sum(parts), row).is_some()
}
