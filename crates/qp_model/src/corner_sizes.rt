// The quantities of a design with a plan for each corner of its box, computed. None stands for a number above `2^126`.
ghost use Rattle.std.specs.Prelude.{◌≡◌, ℕ, ◌*◌, ◌^◌, ◌<◌, ◌≤◌, length, unsigned_abs};
ghost use Rattle.std.specs.Option.{SomeIff};
ghost use Rattle.integer_algebra.specs.Sums.{at};
ghost use Rattle.qp_model.specs.problem.Parts.{IsDesign, design_of};
ghost use Rattle.qp_model.specs.problem.Policy.{plans_of, IsPolicyFor};
ghost use Rattle.qp_model.specs.form.Quantities.{greatest};
ghost use Rattle.qp_model.specs.bounds.CornerSizes.{box_magnitude, corner_magnitude, policy_magnitude, corner_slack_size, corner_cost_size};

use crate::design_parts::DesignParts;
use crate::policy::Policy;
use crate::sizes::{cost_width, limit_width, limited_area, prediction_size, weight_sum};
use frac_scaled::limited_product;

// The greatest absolute value of some numbers.
fn greatest_size(xs: &[i128]) -> u128
    ensures { result ≡ greatest (length xs.now) (λ j. unsigned_abs (at xs.now j)) }
{
    let mut most = 0u128;
    for x in xs {
        most = most.max(x.unsigned_abs());
    }
    most
}

/// The greatest absolute value of a coordinate of the box, over `2^grid`.
pub fn box_magnitude(parts: &DesignParts) -> u128
    requires { IsDesign parts.now }
    ensures value { result ≡ box_magnitude (design_of parts.now) }
    ensures small { result < 2 ^ 31 }
{
    let mut most = 0u128;
    for i in 0..parts.states {
        most = most.max(parts.lo[i].unsigned_abs().max(parts.hi[i].unsigned_abs()));
    }
    most
}

// The greatest absolute value that the plan of corner `c`, from 0, brings: its denominator, the state times it, and the plan.
fn corner_magnitude(parts: &DesignParts, policy: &Policy, c: usize) -> u128
    requires design { IsDesign parts.now }
    requires plans { IsPolicyFor (design_of parts.now) (plans_of policy.now) }
    requires corner { c < 2 ^ parts.now.states }
    ensures { result ≡ corner_magnitude (design_of parts.now) (plans_of policy.now) c }
{
    let over = policy.dens[c].unsigned_abs();
    let grid = 1u128 << parts.grid;
    let entries = grid * greatest_size(policy.plans.row(c));
    (over * grid).max((over * box_magnitude(parts)).max(entries))
}

/// The greatest absolute value of the corners' plans, over the grid, and of their states, over the plans' denominators.
pub fn policy_magnitude(parts: &DesignParts, policy: &Policy) -> u128
    requires design { IsDesign parts.now }
    requires plans { IsPolicyFor (design_of parts.now) (plans_of policy.now) }
    ensures { result ≡ policy_magnitude (design_of parts.now) (plans_of policy.now) }
{
    let mut most = 0u128;
    for c in 0..policy.plans.rows() {
        most = most.max(corner_magnitude(parts, policy, c));
    }
    most
}

/// The quantity `corner_slack`.
pub fn corner_slack_size(parts: &DesignParts, policy: &Policy) -> Option<u128>
    requires design { IsDesign parts.now }
    requires plans { IsPolicyFor (design_of parts.now) (plans_of policy.now) }
    ensures { SomeIff result (corner_slack_size (design_of parts.now) (plans_of policy.now) ≤ 2 ^ 126)
        (corner_slack_size (design_of parts.now) (plans_of policy.now)) }
{
    let width = limited_product(1 << 17, limit_width(parts))?;
    let row = limited_product(width, prediction_size(parts)?)?;
    limited_product(row, policy_magnitude(parts, policy))
}

/// The quantity `corner_cost`.
pub fn corner_cost_size(parts: &DesignParts, policy: &Policy) -> Option<u128>
    requires design { IsDesign parts.now }
    requires plans { IsPolicyFor (design_of parts.now) (plans_of policy.now) }
    ensures { SomeIff result (corner_cost_size (design_of parts.now) (plans_of policy.now) ≤ 2 ^ 126)
        (corner_cost_size (design_of parts.now) (plans_of policy.now)) }
{
    let response = limited_product(cost_width(parts), prediction_size(parts)?)?;
    let row = limited_product(response, policy_magnitude(parts, policy))?;
    limited_area(weight_sum(parts), row)
}
