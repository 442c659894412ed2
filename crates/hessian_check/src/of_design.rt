// The exponents of a design's step.
ghost use Rattle.std.specs.Prelude.{◌≡◌, ◌⊎◌, ◌<◌, ◌≤◌, ◌^◌, ℕ, Bool, Err, IfErr, IfOk, IsOk};
ghost use Rattle.qp_model.specs.declared.design_parts.DesignParts.{DesignParts};
ghost use Rattle.qp_model.specs.form.Class.{curvature_quantity, product_row_in};
ghost use Rattle.qp_model.specs.form.Curvature.{IsExponent};
ghost use Rattle.qp_model.specs.problem.Parts.{design_of};
ghost use Rattle.condensed_form.specs.Form.{IsForm, IsFormIn, IsSomeForm};
ghost use Rattle.hessian_check.specs.DesignMatrices.{AreMatricesOf};
ghost use Rattle.hessian_check.specs.Lowering.{HasCostMatrix};
ghost use Rattle.hessian_check.specs.RowSums.{AreRowSums};
ghost use Rattle.hessian_check.specs.Refusals.{HasExponentCause, IsExponentRefused};
ghost use Rattle.hessian_check.specs.Steps.{IsPlainExponent, IsStepExponent, OfDesign};

use crate::choice::exponents_of;
use crate::fault::{CurvatureFault, StepExponents};
use crate::held::{cost_matrix, row_matrix};
use crate::matrices::StepMatrices;
use crate::sums::sums_once;
use condensed_form::{Condensed, is_curvature_limited, squares_exponent};
use enclosure::EncMat;
use qp_model::Quantity;
use std::alloc::{AllocError, Global};

/// The exponents of the step of a design's condensed form: for every plan the squares of the rows' changes are at most `2^s` times
/// the curvature of its cost, and at most `2^s1` times.
///
/// # Errors
/// `TooWide` with `curvature` where that quantity is above `2^126`; `NoStep` where it isn't and `s1` is above 40. `Memory` where memory
/// runs out before.
pub fn curvature(alloc: Global, c: &Condensed) -> Result<StepExponents, CurvatureFault>
    requires { IsForm c.now }
    ensures plain { OfDesign c.now (λ d. IfOk result (λ e. IsPlainExponent d e.s1)) }
    ensures certified { OfDesign c.now (λ d. IfOk result (λ e. IsStepExponent d e.s1 e.s)) }
    ensures exponents { OfDesign c.now (λ d. IfOk result (λ e. IsExponent d e.s × IsExponent d e.s1)) }
    ensures order { IfOk result (λ e. (e.s ≤ e.s1) × (e.s1 ≤ 40)) }

    // The cause of a refusal; and the other way round, with nothing but out of memory in between.
    ensures refused { OfDesign c.now (λ d. IfErr result (IsExponentRefused d)) }
    ensures every_refusal { OfDesign c.now (λ d.
        (e : CurvatureFault) → HasExponentCause d e → (result ≡ Err e) ⊎ (result ≡ Err CurvatureFault.Memory)) }
    ensures accepted { OfDesign c.now (λ d. (s1 : ℕ) → curvature_quantity d ≤ 2 ^ 126 → IsPlainExponent d s1 → s1 ≤ 40
        → IsOk result ⊎ (result ≡ Err CurvatureFault.Memory)) }

    // The quantity is tested before any memory is asked for.
    ensures wide { OfDesign c.now (λ d. 2 ^ 126 < curvature_quantity d → result ≡ Err (CurvatureFault.TooWide Quantity.Curvature)) }
{
    let squares = squares_exponent(c);
    if !is_curvature_limited(c) {
        return Err(CurvatureFault::TooWide {
            quantity: Quantity::Curvature,
        });
    }
    let matrices = matrices_of(alloc, c)?;
    exponents_of(alloc, &matrices, squares)
}

// The matrices of the cost and the rows.
fn matrices_of(alloc: Global, c: &Condensed) -> Result<StepMatrices, AllocError>
    requires { IsSomeForm c.now }
    ensures { (fine : Bool) (p : DesignParts) → IsFormIn fine p c.now →
        IfOk result (AreMatricesOf fine (design_of p) (λ l. 1) (product_row_in fine (design_of p))) }
{
    let sums = sums_once(alloc, c)?;
    matrices_by(alloc, c, &sums)
}

/// The same, where the sums of the rows' products are made.
pub fn matrices_by(alloc: Global, c: &Condensed, sums: &EncMat) -> Result<StepMatrices, AllocError>
    requires form { IsSomeForm c.now }
    requires sums { AreRowSums c.now (λ l. 1) sums.now.mid sums.now.rad }
    ensures matrices { (fine : Bool) (p : DesignParts) → IsFormIn fine p c.now →
        IfOk result (AreMatricesOf fine (design_of p) (λ l. 1) (product_row_in fine (design_of p))) }
    ensures cost { (fine : Bool) (p : DesignParts) → IsFormIn fine p c.now → IfOk result (HasCostMatrix fine (design_of p)) }
{
    Ok(StepMatrices {
        cost: cost_matrix(alloc, c)?,
        rows: row_matrix(alloc, c.fine, sums)?,
        cost_factor: c.limit_den * c.limit_den,
        row_factor: c.weight_den * (c.cost_row_den * c.cost_row_den),
    })
}
