// The margin of a policy.
ghost use Rattle.std.specs.Prelude.{◌≡◌, ◌≢◌, ◌↔◌, ◌<◌, ◌+◌, ◌^◌, ℕ, pos, ◌≤ℤ◌, IfOk, OnOk, IsErr, Err};
ghost use Rattle.frac_scaled.specs.declared.fraction.Frac.{Frac};
ghost use Rattle.qp_model.specs.declared.quantity.Quantity.{Quantity};
ghost use Rattle.qp_model.specs.bounds.CornerClass.{shown_in, IsMarginIn};
ghost use Rattle.qp_model.specs.problem.Design.{rows};
ghost use Rattle.qp_model.specs.problem.Parts.{design_of, IsDesign};
ghost use Rattle.qp_model.specs.problem.Policy.{plans_of, IsPolicyFor};
ghost use Rattle.corner_margin.specs.Corner.{reach_in, IsSetting};
ghost use Rattle.corner_margin.specs.Corners.{HasCornerRoomIn, IsFirstWideCornerIn, IsFirstShortIn};
ghost use Rattle.corner_margin.specs.Simulation.{IsCornerMargin, IsShortRow};

use crate::corner::Corner;
use crate::fault::MarginFault;
use crate::sizes::{corner_reach, is_cost_limited, is_prediction_limited};
use crate::unit::unit_of;
use qp_model::{Design, DesignParts, Margin, Policy, Quantity};
use std::alloc::Global;

// What the runs of all corners reach at most. It refuses the first of `prediction`, `corner_slack` and `corner_cost` that is above its limit.
fn limited_reach(parts: &DesignParts, policy: &Policy, fine: bool) -> Result<u128, MarginFault>
    requires design { IsDesign parts.now }
    requires plans { IsPolicyFor (design_of parts.now) (plans_of policy.now) }
    ensures reach { IfOk result (λ reach. reach ≡ reach_in fine (design_of parts.now) (plans_of policy.now)) }
    ensures room { OnOk result (HasCornerRoomIn fine (design_of parts.now) (plans_of policy.now)) }
    ensures wide { (quantity : Quantity) → (result ≡ Err (MarginFault.TooWide quantity)) ↔
        IsFirstWideCornerIn fine (design_of parts.now) (plans_of policy.now) quantity }
    ensures margin { (corner row : ℕ) (slack : Frac) → result ≢ Err (MarginFault.NoMargin corner row slack) }
    ensures memory { result ≢ Err MarginFault.Memory }
{
    if !is_prediction_limited(parts, fine) {
        return Err(MarginFault::TooWide {
            quantity: Quantity::Prediction,
        });
    }
    let Some(reach) = corner_reach(parts, policy, fine) else {
        return Err(MarginFault::TooWide {
            quantity: Quantity::CornerSlack,
        });
    };
    if !is_cost_limited(parts, reach) {
        return Err(MarginFault::TooWide {
            quantity: Quantity::CornerCost,
        });
    }
    Ok(reach)
}

// The margin at corner `c`, from 0. `reach` is what the runs of all corners reach at most.
fn corner_margin(
    alloc: Global,
    parts: &DesignParts,
    policy: &Policy,
    fine: bool,
    reach: u128,
    c: usize,
) -> Result<Margin, MarginFault>
    requires setting { IsSetting fine parts.now (plans_of policy.now) reach }
    requires corner { c < 2 ^ parts.now.states }
    ensures margin { let d = design_of parts.now in IfOk result (IsCornerMargin (shown_in fine d (plans_of policy.now)) (rows d) (c + 1)) }
    ensures short { let d = design_of parts.now in (corner row : ℕ) (slack : Frac) → result ≡ Err (MarginFault.NoMargin corner row slack) →
        (corner ≡ c + 1) × IsShortRow (shown_in fine d (plans_of policy.now)) (rows d) (c + 1) row slack }
    ensures room { (quantity : Quantity) → result ≢ Err (MarginFault.TooWide quantity) }
{
    let unit = unit_of(parts, policy, fine, c);
    let corner = Corner::new(alloc, parts, policy, unit, reach, c)?;
    let units = corner.units(alloc)?;
    let cost = corner.cost(alloc)?;
    Ok(Margin { units, cost })
}

/// The margin of a policy of a design, which has one plan for each corner of the box: the least slack of all corners and rows, over `2^16` and rounded
/// down, and the greatest cost, rounded up. Each plan is run from its corner: in exact numbers, or where `fine` in enclosures over `2^40`. A slack is the
/// bound less the midpoint and the radius of its row's value, and a cost is that of the greatest absolute values of the rows' gaps and of the inputs. So
/// no true slack is less than these, and no true cost is more; the exact numbers have no radii, and are the true ones.
///
/// # Errors
/// `TooWide` with the first of `prediction`, `corner_slack` and `corner_cost` of the class that is above `2^126`; `NoMargin` with the first corner,
/// and in it the first row, whose slack is less than `2^-16`, and that slack.
pub fn margins_in(
    alloc: Global,
    design: &Design,
    policy: &Policy,
    fine: bool,
) -> Result<Margin, MarginFault>
    requires { IsPolicyFor (design_of design.now) (plans_of policy.now) }
    ensures room { OnOk result (HasCornerRoomIn fine (design_of design.now) (plans_of policy.now)) }
    ensures margin { IfOk result (λ m. IsMarginIn fine (design_of design.now) (plans_of policy.now) m) }
    ensures slack { IfOk result (λ m. pos 1 ≤ℤ m.units) }
    ensures cost { IfOk result (λ m. pos 0 ≤ℤ m.cost) }
    ensures wide { (quantity : Quantity) → (result ≡ Err (MarginFault.TooWide quantity)) ↔
        IsFirstWideCornerIn fine (design_of design.now) (plans_of policy.now) quantity }
    ensures short { let d = design_of design.now in (corner row : ℕ) (slack : Frac) → result ≡ Err (MarginFault.NoMargin corner row slack) →
        HasCornerRoomIn fine d (plans_of policy.now) × IsFirstShortIn fine d (plans_of policy.now) corner row slack }
    ensures no_give_up { (corner row : ℕ) (slack : Frac) →
        IsFirstShortIn fine (design_of design.now) (plans_of policy.now) corner row slack → IsErr result }
{
    let parts = design.parts();
    let reach = limited_reach(parts, policy, fine)?;
    let mut margin = corner_margin(alloc, parts, policy, fine, reach, 0)?;
    for c in 1..policy.plans.rows() {
        let next = corner_margin(alloc, parts, policy, fine, reach, c)?;
        margin = Margin {
            units: margin.units.min(next.units),
            cost: margin.cost.max(next.cost),
        };
    }
    Ok(margin)
}
