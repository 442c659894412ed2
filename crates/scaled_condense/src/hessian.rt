// The hessian over any unit, from the products of the cost rows.
ghost use Rattle.std.specs.Prelude.{◌≡◌, ◌≤◌, ◌<◌, ◌+◌, ◌*◌, ◌^◌, ℕ, pos, ◌+ℤ◌, ◌*ℤ◌, unsigned_abs, IfOk};
ghost use Rattle.qp_model.specs.problem.Design.{entries};
ghost use Rattle.qp_model.specs.problem.Parts.{design_of, IsDesign};
ghost use Rattle.qp_model.specs.problem.Range.{IsPositive};
ghost use Rattle.qp_model.specs.form.FineForm.{own_weight};
ghost use Rattle.scaled_run.specs.ScaledForm.{scaled_hessian, scaled_linear, scaled_constant};
ghost use Rattle.scaled_run.specs.Lists.{HoldsEnclosures};
ghost use Rattle.scaled_condense.specs.Lists.{HoldsEncMatrix};
ghost use Rattle.scaled_condense.specs.Numbers.{AreProducts};

use crate::columns::put_column;
use enclosure::{Enc, EncMat};
use qp_model::DesignParts;
use std::alloc::{AllocError, Global};

// Twice the sum of an enclosure and a number.
fn doubled(e: Enc, more: i128) -> Enc
    requires near { unsigned_abs e.mid + unsigned_abs e.rad ≤ 2 ^ 124 + 3 }
    requires small { unsigned_abs more ≤ 2 ^ 124 }
    ensures mid { result.mid ≡ pos 2 *ℤ (e.mid +ℤ more) }
    ensures rad { result.rad ≡ pos 2 *ℤ e.rad }
{
    Enc {
        mid: 2 * (e.mid + more),
        rad: 2 * e.rad,
    }
}

/// A weight, which is over `cost_den`, over what the condensed cost is over: times `row_den^2 * scale`.
pub fn brought_weight(parts: &DesignParts, scale: u128, weight: i128) -> i128
    requires design { IsDesign parts.now }
    requires weight { IsPositive weight }
    requires room { scale * (unsigned_abs weight * unsigned_abs parts.now.row_den ^ 2) ≤ 2 ^ 124 }
    ensures value { result ≡ pos scale *ℤ (weight *ℤ pos (unsigned_abs parts.now.row_den ^ 2)) }
    ensures small { unsigned_abs result ≤ 2 ^ 124 }
{
    scale as i128 * (weight * (parts.row_den * parts.row_den))
}

// What the inputs' own costs add to the products of the plan's entries `i` and `j`. `scale` is what these products are over.
fn own_cost(parts: &DesignParts, scale: u128, i: usize, j: usize) -> i128
    requires design { IsDesign parts.now }
    requires room { (l : ℕ) → l < parts.now.inputs →
        scale * (unsigned_abs ((design_of parts.now).input_weight l) * unsigned_abs parts.now.row_den ^ 2) ≤ 2 ^ 124 }
    ensures value { result ≡ pos scale *ℤ own_weight (design_of parts.now) i j }
    ensures small { unsigned_abs result ≤ 2 ^ 124 }
{
    if i == j {
        brought_weight(parts, scale, parts.input_weights[i % parts.inputs])
    } else {
        0
    }
}

// Column `j` of the hessian.
fn hessian_column(
    alloc: Global,
    parts: &DesignParts,
    products: &EncMat,
    over: u128,
    den: u128,
    j: usize,
) -> Result<Vec<Enc>, AllocError>
    requires products { AreProducts over den parts.now products.now.mid products.now.rad }
    requires column { j < parts.now.stages * parts.now.inputs }
    ensures { IfOk result (λ v. HoldsEnclosures v.items (entries (design_of parts.now)) (λ i. scaled_hessian over den (design_of parts.now) i j)) }
{
    let scale = over * over / den;
    let mut out = Vec::new(alloc);
    for i in 0..parts.stages * parts.inputs {
        out.push(doubled(products.at(i, j), own_cost(parts, scale, i, j)))?;
    }
    Ok(out)
}

/// The hessian, nu by nu, times `weight_den * cost_row_den^2`.
pub fn hessian_numbers(
    alloc: Global,
    parts: &DesignParts,
    products: &EncMat,
    over: u128,
    den: u128,
) -> Result<EncMat, AllocError>
    requires { AreProducts over den parts.now products.now.mid products.now.rad }
    ensures { let count = parts.now.stages * parts.now.inputs in
        IfOk result (λ m. HoldsEncMatrix m.mid m.rad count count count (scaled_hessian over den (design_of parts.now))) }
{
    let count = parts.stages * parts.inputs;
    let mut mat = EncMat::zero(alloc, count, count)?;
    for j in 0..count {
        put_column(
            &mut mat,
            j,
            hessian_column(alloc, parts, products, over, den, j),
        )?;
    }
    Ok(mat)
}

// Column `i` of the linear part.
fn linear_column(
    alloc: Global,
    parts: &DesignParts,
    products: &EncMat,
    over: u128,
    den: u128,
    i: usize,
) -> Result<Vec<Enc>, AllocError>
    requires products { AreProducts over den parts.now products.now.mid products.now.rad }
    requires column { i < parts.now.states }
    ensures { IfOk result (λ v. HoldsEnclosures v.items (entries (design_of parts.now)) (λ j. scaled_linear over den (design_of parts.now) j i)) }
{
    let count = parts.stages * parts.inputs;
    let mut out = Vec::new(alloc);
    for j in 0..count {
        out.push(doubled(products.at(j, count + i), 0))?;
    }
    Ok(out)
}

/// The constant: nu numbers, times `weight_den * cost_row_den^2`.
pub fn constant_numbers(
    alloc: Global,
    parts: &DesignParts,
    products: &EncMat,
    over: u128,
    den: u128,
) -> Result<Vec<Enc>, AllocError>
    requires { AreProducts over den parts.now products.now.mid products.now.rad }
    ensures { IfOk result (λ v. HoldsEnclosures v.items (entries (design_of parts.now)) (scaled_constant over den (design_of parts.now))) }
{
    let count = parts.stages * parts.inputs;
    let mut out = Vec::new(alloc);
    for j in 0..count {
        let twice = doubled(products.at(j, count + parts.states), 0);
        out.push(Enc {
            mid: -twice.mid,
            rad: twice.rad,
        })?;
    }
    Ok(out)
}

/// The linear part, nu by n, times `weight_den * cost_row_den^2`.
pub fn linear_numbers(
    alloc: Global,
    parts: &DesignParts,
    products: &EncMat,
    over: u128,
    den: u128,
) -> Result<EncMat, AllocError>
    requires { AreProducts over den parts.now products.now.mid products.now.rad }
    ensures { let count = parts.now.stages * parts.now.inputs in
        IfOk result (λ m. HoldsEncMatrix m.mid m.rad count parts.now.states parts.now.states (scaled_linear over den (design_of parts.now))) }
{
    let count = parts.stages * parts.inputs;
    let mut mat = EncMat::zero(alloc, count, parts.states)?;
    for i in 0..parts.states {
        put_column(
            &mut mat,
            i,
            linear_column(alloc, parts, products, over, den, i),
        )?;
    }
    Ok(mat)
}
