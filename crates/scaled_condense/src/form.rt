// A design, condensed to enclosures.
ghost use Rattle.std.specs.Prelude.{◌≡◌, ◌⊎◌, ◌≤◌, ◌^◌, true, Err, IfOk, OnOk};
ghost use Rattle.qp_model.specs.declared.quantity.Quantity.{Quantity};
ghost use Rattle.qp_model.specs.problem.Parts.{design_of, IsDesign};
ghost use Rattle.qp_model.specs.form.FineForm.{FineLaw};
ghost use Rattle.qp_model.specs.form.FineSizes.{FineFormLaw, fine_prediction_size};
ghost use Rattle.qp_model.specs.declared.size_fault.SizeFault.{SizeFault};
ghost use Rattle.condensed_form.specs.Fault.{IsFirstWideIn};
ghost use Rattle.condensed_form.specs.Form.{IsFormIn};
ghost use Rattle.scaled_condense.specs.Lists.{mids, rads};
ghost use Rattle.scaled_condense.specs.Numbers.{AreFineCosts, AreFineLimits};

use crate::fine::{FineCosts, FineLimits, fine_costs, fine_limits};
use crate::hessian::brought_weight;
use crate::lists::{SplitList, split};
use crate::scales::bend_floor;
use condensed_form::{Condensed, least_of};
use frac_scaled::scaled;
use qp_model::{Design, DesignParts, Quantity, SizeFault};
use scaled_run::last_reach;
use std::alloc::{AllocError, Global};

/// Each exact condensed number of a design lies within the radius of the number that enclosures make of it.
pub fn fine_law()
    ensures { FineLaw }
{}

/// Where the quantity `hessian` of these numbers is within its limit, a controller may be made of them.
pub fn fine_form_law()
    ensures { FineFormLaw }
{}

// The condensed cost and the condensed limits.
#[derive(Drop)]
struct FineNumbers {
    costs: FineCosts,
    limits: FineLimits,
}

// Both, or the first of the quantities `prediction`, `hessian` and `rows` that is above `2^126`.
fn fine_numbers(alloc: Global, parts: &DesignParts) -> Result<FineNumbers, SizeFault>
    requires { IsDesign parts.now }
    ensures costs { IfOk result (λ f.
        AreFineCosts parts.now f.costs.numbers.hess.mid f.costs.numbers.hess.rad f.costs.numbers.lin.mid f.costs.numbers.lin.rad
        f.costs.numbers.off.items f.costs.radius f.costs.size) }
    ensures limits { IfOk result (λ f.
        AreFineLimits parts.now f.limits.numbers.g.mid f.limits.numbers.g.rad f.limits.numbers.e.mid f.limits.numbers.e.rad
        f.limits.numbers.bound.items f.limits.size) }
    ensures prediction { OnOk result (fine_prediction_size (design_of parts.now) ≤ 2 ^ 126) }
    ensures wide { (quantity : Quantity) → result ≡ Err (SizeFault.TooWide quantity) → IsFirstWideIn true (design_of parts.now) quantity }
{
    let Some(reach) = last_reach(parts, 1 << 40, 3) else {
        return Err(SizeFault::TooWide {
            quantity: Quantity::Prediction,
        });
    };
    let costs = fine_costs(alloc, parts, reach)?;
    match fine_limits(alloc, parts, reach) {
        Ok(limits) => Ok(FineNumbers { costs, limits }),
        Err(fault) => {
            drop(costs);
            Err(fault)
        }
    }
}

// The form of these numbers, where `off` is the constant.
fn assembled(parts: &DesignParts, numbers: FineNumbers, off: SplitList) -> Condensed
    requires design { IsDesign parts.now }
    requires costs { AreFineCosts parts.now numbers.costs.numbers.hess.mid numbers.costs.numbers.hess.rad numbers.costs.numbers.lin.mid
        numbers.costs.numbers.lin.rad numbers.costs.numbers.off.items numbers.costs.radius numbers.costs.size }
    requires limits { AreFineLimits parts.now numbers.limits.numbers.g.mid numbers.limits.numbers.g.rad numbers.limits.numbers.e.mid
        numbers.limits.numbers.e.rad numbers.limits.numbers.bound.items numbers.limits.size }
    requires mids { off.mids.items ≡ mids numbers.costs.numbers.off.items }
    requires rads { off.rads.items ≡ rads numbers.costs.numbers.off.items }
    ensures { IsFormIn true parts.now result }
{
    let radius = numbers.costs.radius;
    let hess_size = numbers.costs.size as i128;
    let rows_size = numbers.limits.size as i128;
    let costs = numbers.costs.numbers;
    let limits = numbers.limits.numbers;
    let input_floor = least_of(&parts.input_weights);
    Condensed {
        hess: costs.hess.mid,
        hess_rad: costs.hess.rad,
        lin: costs.lin.mid,
        lin_rad: costs.lin.rad,
        off: off.mids,
        off_rad: off.rads,
        hess_den: brought_weight(parts, 1 << 40, parts.cost_den),
        g: limits.g.mid,
        g_rad: limits.g.rad,
        e: limits.e.mid,
        e_rad: limits.e.rad,
        bound: limits.bound,
        row_den: scaled(parts.limit_den, 40),
        floor: bend_floor(parts, input_floor, radius),
        power: 1,
        weight_den: parts.cost_den,
        cost_row_den: parts.row_den,
        limit_den: parts.limit_den,
        input_floor,
        hess_size,
        rows_size,
        fine: true,
    }
}

// The form of these numbers.
fn form_of(
    alloc: Global,
    parts: &DesignParts,
    numbers: FineNumbers,
) -> Result<Condensed, AllocError>
    requires design { IsDesign parts.now }
    requires costs { AreFineCosts parts.now numbers.costs.numbers.hess.mid numbers.costs.numbers.hess.rad numbers.costs.numbers.lin.mid
        numbers.costs.numbers.lin.rad numbers.costs.numbers.off.items numbers.costs.radius numbers.costs.size }
    requires limits { AreFineLimits parts.now numbers.limits.numbers.g.mid numbers.limits.numbers.g.rad numbers.limits.numbers.e.mid
        numbers.limits.numbers.e.rad numbers.limits.numbers.bound.items numbers.limits.size }
    ensures { IfOk result (IsFormIn true parts.now) }
{
    // What is given back is dropped by one call: else each of its matrices and lists is dropped beside the others.
    match split(alloc, &numbers.costs.numbers.off) {
        Ok(off) => Ok(assembled(parts, numbers, off)),
        Err(fault) => {
            drop(numbers);
            Err(fault)
        }
    }
}

/// The condensed form of a design in enclosures. It refuses a design of which a quantity of these numbers, `prediction`, `hessian` or `rows`, is
/// above `2^126`, and names the first.
pub fn condense_fine(alloc: Global, design: &Design) -> Result<Condensed, SizeFault>
    ensures form { IfOk result (λ c. IsFormIn true design.now c) }
    ensures wide { (quantity : Quantity) → result ≡ Err (SizeFault.TooWide quantity) → IsFirstWideIn true (design_of design.now) quantity }
    ensures every_refusal { (quantity : Quantity) → IsFirstWideIn true (design_of design.now) quantity →
        (result ≡ Err (SizeFault.TooWide quantity)) ⊎ (result ≡ Err SizeFault.Memory) }
{
    let parts = design.parts();
    let numbers = fine_numbers(alloc, parts)?;
    Ok(form_of(alloc, parts, numbers)?)
}
