// What a policy shows at the corners of a design's box, in exact numbers or in enclosures.
ghost use Rattle.std.specs.Prelude.{◌≡◌, ◌↔◌, ℕ, pos, ◌≤ℤ◌, IfOk, OnOk, IsErr, Err};
ghost use Rattle.frac_scaled.specs.declared.fraction.Frac.{Frac};
ghost use Rattle.qp_model.specs.declared.quantity.Quantity.{Quantity};
ghost use Rattle.qp_model.specs.bounds.CornerClass.{IsMargin, ShownLaw};
ghost use Rattle.qp_model.specs.problem.Parts.{design_of};
ghost use Rattle.qp_model.specs.problem.Policy.{plans_of, IsPolicyFor};
ghost use Rattle.corner_margin.specs.Corners.{HasCornerRoom, IsFirstWideCorner, IsFirstShort};

use corner_margin::{MarginFault, margins_in};
use qp_model::{Design, Margin, Policy};
use std::alloc::Global;

/// What a policy shows at the corners, in the class that their size calls for, is no more than it truly shows there: the slacks are at most
/// the true ones, and the costs at least those.
pub fn shown_law()
    ensures { ShownLaw }
{}

/// The margin of a policy of a design, which has one plan for each corner of the box: the least slack of all corners and rows, over
/// `2^16` and rounded down, and the greatest cost, rounded up. Each plan is simulated from its corner: in exact numbers, or in enclosures
/// where a quantity of the exact ones, `prediction`, `corner_slack` or `corner_cost`, is above `2^126`.
///
/// # Errors
/// `TooWide` with the first of `prediction`, `corner_slack` and `corner_cost` of the enclosures that is above that too; `NoMargin` with the
/// first corner, and in it the first row, whose slack is less than `2^-16`.
pub fn margins(alloc: Global, design: &Design, policy: &Policy) -> Result<Margin, MarginFault>
    requires { IsPolicyFor (design_of design.now) (plans_of policy.now) }
    ensures room { OnOk result (HasCornerRoom (design_of design.now) (plans_of policy.now)) }
    ensures margin { IfOk result (λ m. IsMargin (design_of design.now) (plans_of policy.now) m) }
    ensures slack { IfOk result (λ m. pos 1 ≤ℤ m.units) }
    ensures cost { IfOk result (λ m. pos 0 ≤ℤ m.cost) }
    ensures wide { (quantity : Quantity) → (result ≡ Err (MarginFault.TooWide quantity)) ↔
        IsFirstWideCorner (design_of design.now) (plans_of policy.now) quantity }
    ensures short { (corner row : ℕ) (slack : Frac) → result ≡ Err (MarginFault.NoMargin corner row slack) →
        HasCornerRoom (design_of design.now) (plans_of policy.now) × IsFirstShort (design_of design.now) (plans_of policy.now) corner row slack }
    ensures no_give_up { (corner row : ℕ) (slack : Frac) →
        IsFirstShort (design_of design.now) (plans_of policy.now) corner row slack → IsErr result }
{
    match margins_in(alloc, design, policy, false) {
        Err(MarginFault::TooWide { .. }) => margins_in(alloc, design, policy, true),
        Ok(margin) => Ok(margin),
        Err(MarginFault::NoMargin { corner, row, slack }) => {
            Err(MarginFault::NoMargin { corner, row, slack })
        }
        Err(MarginFault::Memory) => Err(MarginFault::Memory),
    }
}
