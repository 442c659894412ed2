// What the run of a corner is over.
ghost use Rattle.std.specs.Prelude.{◌≡◌, ◌+◌, ◌^◌, ◌<◌, ◌≤◌, unsigned_abs, false};
ghost use Rattle.qp_model.specs.form.Quantities.{prediction_size};
ghost use Rattle.qp_model.specs.problem.Parts.{design_of, IsDesign};
ghost use Rattle.qp_model.specs.problem.Policy.{plans_of, IsPolicyFor};
ghost use Rattle.corner_margin.specs.Corner.{unit_in};
ghost use Rattle.corner_margin.specs.Corners.{HasCornerRoomIn};

use qp_model::{DesignParts, Policy};

// `plant_den^N`.
fn power_of(parts: &DesignParts) -> u128
    requires design { IsDesign parts.now }
    requires fits { unsigned_abs parts.now.plant_den ^ parts.now.stages ≤ 2 ^ 126 }
    ensures { result ≡ unsigned_abs parts.now.plant_den ^ parts.now.stages }
{
    parts.plant_den.unsigned_abs().pow(parts.stages as u32)
}

/// What the run of corner `c`, from 0, is over: `2^40` in enclosures, and else so much that no division leaves a rest, what the plan is over times
/// `2^grid * plant_den^N`.
pub fn unit_of(parts: &DesignParts, policy: &Policy, fine: bool, c: usize) -> u128
    requires design { IsDesign parts.now }
    requires plans { IsPolicyFor (design_of parts.now) (plans_of policy.now) }
    requires room { HasCornerRoomIn fine (design_of parts.now) (plans_of policy.now) }
    requires corner { c < 2 ^ parts.now.states }
    ensures { result ≡ unit_in fine (design_of parts.now) (plans_of policy.now) (c + 1) }
{
    if fine {
        1 << 40
    } else {
        policy.dens[c].unsigned_abs() * (1 << parts.grid) * power_of(parts)
    }
}
