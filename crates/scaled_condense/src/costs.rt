// The condensed cost over any unit.
ghost use Rattle.std.specs.Prelude.{◌≤◌, ◌*◌, ◌^◌, IfOk};
ghost use Rattle.qp_model.specs.problem.Parts.{design_of};
ghost use Rattle.qp_model.specs.form.Quantities.{cost_width, weight_sum};
ghost use Rattle.scaled_condense.specs.Lists.{IsScale};
ghost use Rattle.scaled_condense.specs.Numbers.{AreProducts, AreScaledCosts};

use crate::hessian::{constant_numbers, hessian_numbers, linear_numbers};
use crate::products::cost_products;
use enclosure::{Enc, EncMat};
use qp_model::DesignParts;
use std::alloc::{AllocError, Global};

/// The condensed cost: the hessian, nu by nu, the linear part, nu by n, and the constant, all times `weight_den * cost_row_den^2`.
#[derive(Drop)]
pub struct CostNumbers {
    pub hess: EncMat,
    pub lin: EncMat,
    pub off: Vec<Enc>,
}

// That of these products.
fn cost_of_products(
    alloc: Global,
    parts: &DesignParts,
    products: &EncMat,
    over: u128,
    den: u128,
) -> Result<CostNumbers, AllocError>
    requires { AreProducts over den parts.now products.now.mid products.now.rad }
    ensures { IfOk result (λ c. AreScaledCosts over den parts.now c.hess.mid c.hess.rad c.lin.mid c.lin.rad c.off.items) }
{
    let off = constant_numbers(alloc, parts, products, over, den)?;
    let lin = linear_numbers(alloc, parts, products, over, den)?;
    let hess = hessian_numbers(alloc, parts, products, over, den)?;
    Ok(CostNumbers { hess, lin, off })
}

/// The condensed cost, of whole numbers over `over`, their products over `den`. `reach` is how far a response reaches.
pub fn cost_numbers(
    alloc: Global,
    parts: &DesignParts,
    over: u128,
    den: u128,
    reach: u128,
) -> Result<CostNumbers, AllocError>
    requires scale { IsScale parts.now over reach }
    requires area { 4 * (weight_sum (design_of parts.now) * (cost_width (design_of parts.now) * reach) ^ 2) ≤ 2 ^ 126 }
    requires some { 1 ≤ den }
    requires small { den ≤ 2 ^ 126 }
    ensures { IfOk result (λ c. AreScaledCosts over den parts.now c.hess.mid c.hess.rad c.lin.mid c.lin.rad c.off.items) }
{
    let products = cost_products(alloc, parts, over, den, reach)?;
    cost_of_products(alloc, parts, &products, over, den)
}
