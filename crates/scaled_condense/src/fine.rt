// The condensed cost and limits in enclosures, within their quantities.
ghost use Rattle.std.specs.Prelude.{◌≡◌, ◌≤◌, ◌<◌, ◌*◌, ◌^◌, Err, IfOk};
ghost use Rattle.qp_model.specs.problem.Parts.{design_of, IsDesign};
ghost use Rattle.qp_model.specs.declared.quantity.Quantity.{Quantity};
ghost use Rattle.qp_model.specs.declared.size_fault.SizeFault.{SizeFault};
ghost use Rattle.qp_model.specs.form.FineForm.{hessian_row_radius, hessian_radius};
ghost use Rattle.qp_model.specs.form.FineSizes.{fine_reach, fine_prediction_size, fine_hessian_size, fine_rows_size};
ghost use Rattle.scaled_condense.specs.Lists.{IsScale};
ghost use Rattle.scaled_condense.specs.Numbers.{fine_cost_total, AreScaledCosts, IsFineHessian, AreFineCosts, AreFineLimits};

use crate::costs::{CostNumbers, cost_numbers};
use crate::limits::{LimitNumbers, limit_numbers};
use crate::sizes::{fine_cost_total, fine_rows_size};
use enclosure::EncMat;
use frac_scaled::limited_product;
use qp_model::{DesignParts, Quantity, SizeFault};
use std::alloc::Global;

/// The condensed cost in enclosures.
#[derive(Drop)]
pub struct FineCosts {
    pub numbers: CostNumbers,
    /// The greatest sum of the hessian's radii in a row.
    pub radius: u128,
    /// The quantity `hessian`.
    pub size: u128,
}

/// The condensed limits in enclosures.
#[derive(Drop)]
pub struct FineLimits {
    pub numbers: LimitNumbers,
    /// The quantity `rows`.
    pub size: u128,
}

// The sum of the hessian's radii in row `i`.
fn row_radius(parts: &DesignParts, hess: &EncMat, i: usize) -> u128
    requires hessian { IsFineHessian parts.now hess.now.mid hess.now.rad }
    requires row { i < parts.now.stages * parts.now.inputs }
    ensures { result ≡ hessian_row_radius (design_of parts.now) i }
{
    let Some(sum) = hess.rad.row_abs_sum(i) else {
        unreachable!();
    };
    sum.unsigned_abs()
}

// The greatest of these.
fn widest_row(parts: &DesignParts, hess: &EncMat) -> u128
    requires { IsFineHessian parts.now hess.now.mid hess.now.rad }
    ensures { result ≡ hessian_radius (design_of parts.now) }
{
    let mut most = 0u128;
    for i in 0..parts.stages * parts.inputs {
        most = most.max(row_radius(parts, hess, i));
    }
    most
}

// This cost with its quantity, or that the quantity `hessian` is above `2^126`. `total` is that of the absolute values of all its numbers.
fn within_size(
    parts: &DesignParts,
    numbers: CostNumbers,
    total: u128,
) -> Result<FineCosts, SizeFault>
    requires scale { IsScale parts.now (2 ^ 40) (fine_reach (design_of parts.now) parts.now.stages) }
    requires total { total ≡ fine_cost_total (design_of parts.now) }
    requires fits { fine_cost_total (design_of parts.now) ≤ 2 ^ 126 }
    requires numbers { AreScaledCosts (2 ^ 40) (2 ^ 40) parts.now numbers.hess.mid numbers.hess.rad numbers.lin.mid numbers.lin.rad numbers.off.items }
    ensures costs { IfOk result (λ c.
        AreFineCosts parts.now c.numbers.hess.mid c.numbers.hess.rad c.numbers.lin.mid c.numbers.lin.rad c.numbers.off.items c.radius c.size) }
    ensures wide { (quantity : Quantity) → result ≡ Err (SizeFault.TooWide quantity) →
        (quantity ≡ Quantity.Hessian) × (2 ^ 126 < fine_hessian_size (design_of parts.now)) }
{
    let radius = widest_row(parts, &numbers.hess);
    let Some(narrow) = limited_product(1 << 86, radius) else {
        return Err(SizeFault::TooWide {
            quantity: Quantity::Hessian,
        });
    };
    Ok(FineCosts {
        numbers,
        radius,
        size: total.max(narrow),
    })
}

/// The condensed cost, or that the quantity `hessian` is above `2^126`. `reach` is how far a response reaches at the last stage.
pub fn fine_costs(alloc: Global, parts: &DesignParts, reach: u128) -> Result<FineCosts, SizeFault>
    requires design { IsDesign parts.now }
    requires reach { reach ≡ fine_reach (design_of parts.now) parts.now.stages }
    requires prediction { fine_prediction_size (design_of parts.now) ≤ 2 ^ 126 }
    ensures costs { IfOk result (λ c.
        AreFineCosts parts.now c.numbers.hess.mid c.numbers.hess.rad c.numbers.lin.mid c.numbers.lin.rad c.numbers.off.items c.radius c.size) }
    ensures wide { (quantity : Quantity) → result ≡ Err (SizeFault.TooWide quantity) →
        (quantity ≡ Quantity.Hessian) × (2 ^ 126 < fine_hessian_size (design_of parts.now)) }
{
    let Some(total) = fine_cost_total(parts, reach) else {
        return Err(SizeFault::TooWide {
            quantity: Quantity::Hessian,
        });
    };
    let numbers = cost_numbers(alloc, parts, 1 << 40, 1 << 40, reach)?;
    within_size(parts, numbers, total)
}

/// The condensed limits, or that the quantity `rows` is above `2^126`. `reach` is how far a response reaches at the last stage.
pub fn fine_limits(alloc: Global, parts: &DesignParts, reach: u128) -> Result<FineLimits, SizeFault>
    requires design { IsDesign parts.now }
    requires reach { reach ≡ fine_reach (design_of parts.now) parts.now.stages }
    requires prediction { fine_prediction_size (design_of parts.now) ≤ 2 ^ 126 }
    ensures limits { IfOk result (λ l.
        AreFineLimits parts.now l.numbers.g.mid l.numbers.g.rad l.numbers.e.mid l.numbers.e.rad l.numbers.bound.items l.size) }
    ensures wide { (quantity : Quantity) → result ≡ Err (SizeFault.TooWide quantity) →
        (quantity ≡ Quantity.Rows) × (2 ^ 126 < fine_rows_size (design_of parts.now)) }
{
    let Some(size) = fine_rows_size(parts, reach) else {
        return Err(SizeFault::TooWide {
            quantity: Quantity::Rows,
        });
    };
    let numbers = limit_numbers(alloc, parts, 1 << 40, reach)?;
    Ok(FineLimits { numbers, size })
}
