// A design, condensed to exact numbers: over the plant's denominator to the power of the stages every division comes out even, and no radius is left.
ghost use Rattle.std.specs.Prelude.{◌≡◌, ◌≢◌, ◌↔◌, ◌≤◌, ◌^◌, false, pos, unsigned_abs, IfOk, Err};
ghost use Rattle.qp_model.specs.declared.quantity.Quantity.{Quantity};
ghost use Rattle.qp_model.specs.problem.Parts.{design_of, IsDesign};
ghost use Rattle.qp_model.specs.form.Quantities.{prediction_size};
ghost use Rattle.condensed_form.specs.Form.{IsFormIn};
ghost use Rattle.condensed_form.specs.Fault.{IsFirstWideIn, AreEntrySizes};
ghost use Rattle.scaled_run.specs.ScaledForm.{exact_unit};
ghost use Rattle.scaled_condense.specs.Lists.{mids, rads};
ghost use Rattle.scaled_condense.specs.Numbers.{AreScaledCosts, AreScaledLimits};

use crate::costs::{CostNumbers, cost_numbers};
use crate::limits::{LimitNumbers, limit_numbers};
use crate::lists::{SplitList, split};
use condensed_form::{Condensed, bend_floor, least_input, square_scale};
use qp_model::{
    Design, DesignParts, Quantity, SizeFault, hessian_size, prediction_size, rows_size,
};
use std::alloc::{AllocError, Global};

// How far a response reaches, and the quantities `hessian` and `rows` of a design.
#[derive(Clone, Copy)]
struct Sizes {
    reach: u128,
    cost: i128,
    limit: i128,
}

// The quantities, or the first of `prediction`, `hessian` and `rows` that is above its limit.
fn sizes_of(parts: &DesignParts) -> Result<Sizes, SizeFault>
    requires { IsDesign parts.now }
    ensures reach { IfOk result (λ sizes. sizes.reach ≡ prediction_size (design_of parts.now)) }
    ensures sizes { IfOk result (λ sizes. AreEntrySizes (design_of parts.now) sizes.cost sizes.limit) }
    ensures wide { (quantity : Quantity) → (result ≡ Err (SizeFault.TooWide quantity)) ↔ IsFirstWideIn false (design_of parts.now) quantity }
    ensures memory { result ≢ Err SizeFault.Memory }
{
    let Some(reach) = prediction_size(parts) else {
        return Err(SizeFault::TooWide {
            quantity: Quantity::Prediction,
        });
    };
    let Some(cost) = hessian_size(parts) else {
        return Err(SizeFault::TooWide {
            quantity: Quantity::Hessian,
        });
    };
    let Some(limit) = rows_size(parts) else {
        return Err(SizeFault::TooWide {
            quantity: Quantity::Rows,
        });
    };
    Ok(Sizes {
        reach,
        cost: cost as i128,
        limit: limit as i128,
    })
}

// The plant's denominator to the power of the stages.
fn exact_unit(parts: &DesignParts) -> u128
    requires design { IsDesign parts.now }
    requires fits { unsigned_abs parts.now.plant_den ^ parts.now.stages ≤ 2 ^ 126 }
    ensures { result ≡ exact_unit (design_of parts.now) }
{
    let den = parts.plant_den.unsigned_abs();
    let mut power = 1u128;
    for _ in 0..parts.stages {
        power *= den;
    }
    power
}

// The condensed form of these numbers, where `off` is the constant. `power` is the plant's denominator to the power of the stages.
fn assembled(
    parts: &DesignParts,
    power: i128,
    sizes: Sizes,
    costs: CostNumbers,
    limits: LimitNumbers,
    off: SplitList,
) -> Condensed
    requires design { IsDesign parts.now }
    requires power { power ≡ pos (unsigned_abs parts.now.plant_den ^ parts.now.stages) }
    requires sizes { AreEntrySizes (design_of parts.now) sizes.cost sizes.limit }
    requires costs { AreScaledCosts (exact_unit (design_of parts.now)) 1 parts.now costs.hess.mid costs.hess.rad costs.lin.mid costs.lin.rad costs.off.items }
    requires limits { AreScaledLimits (exact_unit (design_of parts.now)) parts.now limits.g.mid limits.g.rad limits.e.mid limits.e.rad limits.bound.items }
    requires mids { off.mids.items ≡ mids costs.off.items }
    requires rads { off.rads.items ≡ rads costs.off.items }
    ensures { IsFormIn false parts.now result }
{
    let square = square_scale(parts, power);
    let input_floor = least_input(parts);
    Condensed {
        hess: costs.hess.mid,
        hess_rad: costs.hess.rad,
        lin: costs.lin.mid,
        lin_rad: costs.lin.rad,
        off: off.mids,
        off_rad: off.rads,
        hess_den: parts.cost_den * square,
        g: limits.g.mid,
        g_rad: limits.g.rad,
        e: limits.e.mid,
        e_rad: limits.e.rad,
        bound: limits.bound,
        row_den: parts.limit_den * power,
        floor: bend_floor(parts, square, input_floor),
        power,
        weight_den: parts.cost_den,
        cost_row_den: parts.row_den,
        limit_den: parts.limit_den,
        input_floor,
        hess_size: sizes.cost,
        rows_size: sizes.limit,
        fine: false,
    }
}

// The condensed form of a design of these sizes.
fn exact_form(alloc: Global, parts: &DesignParts, sizes: Sizes) -> Result<Condensed, AllocError>
    requires design { IsDesign parts.now }
    requires reach { sizes.reach ≡ prediction_size (design_of parts.now) }
    requires sizes { AreEntrySizes (design_of parts.now) sizes.cost sizes.limit }
    ensures { IfOk result (λ condensed. IsFormIn false parts.now condensed) }
{
    let power = exact_unit(parts);
    let limits = limit_numbers(alloc, parts, power, sizes.reach)?;
    let costs = cost_numbers(alloc, parts, power, 1, sizes.reach)?;
    let off = split(alloc, &costs.off)?;
    Ok(assembled(parts, power as i128, sizes, costs, limits, off))
}

/// The exact condensed form of a design: whole numbers that give the residuals and the cost of every plan at every state, and radii of
/// 0. It refuses a design of which a quantity of these numbers, `prediction`, `hessian` or `rows`, is above `2^126`, and names the first.
/// (Substituting the prediction into cost and limits, as in Rawlings, Mayne and Diehl, Model Predictive Control.)
pub fn condense_exact(alloc: Global, design: &Design) -> Result<Condensed, SizeFault>
    ensures form { IfOk result (λ condensed. IsFormIn false design.now condensed) }
    ensures wide { (quantity : Quantity) → (result ≡ Err (SizeFault.TooWide quantity)) ↔ IsFirstWideIn false (design_of design.now) quantity }
{
    let parts = design.parts();
    let sizes = sizes_of(parts)?;
    Ok(exact_form(alloc, parts, sizes)?)
}
