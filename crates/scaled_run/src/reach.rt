// How far a run in enclosures reaches. None stands for a number above `2^126`.
ghost use Rattle.std.specs.Prelude.{◌≡◌, ◌≤◌, ◌*◌, ◌^◌};
ghost use Rattle.std.specs.Option.{SomeIff};
ghost use Rattle.qp_model.specs.problem.Parts.{design_of, IsDesign};
ghost use Rattle.qp_model.specs.form.Quantities.{growth};
ghost use Rattle.scaled_run.specs.ScaledSizes.{scaled_reach_from};

use frac_scaled::limited_product;
use qp_model::{DesignParts, growth};

/// What a run whose first state and plan reach `first` reaches at the last stage at most, where `growth` times it is at most `2^126`. Rounding adds `slack` to a
/// state at most.
pub fn last_reach(parts: &DesignParts, first: u128, slack: u128) -> Option<u128>
    requires design { IsDesign parts.now }
    requires slack { slack ≤ 3 }
    ensures { SomeIff result (growth (design_of parts.now) * scaled_reach_from slack (design_of parts.now) first parts.now.stages ≤ 2 ^ 126)
        (scaled_reach_from slack (design_of parts.now) first parts.now.stages) }
{
    let growth = growth(parts);
    let den = parts.plant_den.unsigned_abs();
    let mut reach = first;
    for _ in 0..parts.stages {
        reach = (limited_product(growth, reach)? + (den - 1)) / den + slack;
    }
    limited_product(growth, reach)?;
    Some(reach)
}
