// The step exponents of a design's rows.
ghost use Rattle.std.specs.Prelude.{◌≡◌, ◌↔◌, ◌+◌, ◌-◌, ◌<◌, ◌≤◌, length, IfOk, IsTrue};
ghost use Rattle.qp_model.specs.form.Class.{HasLoweringRoom};
ghost use Rattle.qp_model.specs.form.Curvature.{AreExponents};
ghost use Rattle.qp_model.specs.form.FineSizes.{is_fine};
ghost use Rattle.condensed_form.specs.Form.{IsForm};
ghost use Rattle.hessian_check.specs.Curvature.{IsAccepted};
ghost use Rattle.hessian_check.specs.Lowering.{AreSumsToTest, AreTestedSums, HasCostMatrix, IsReadyToLower};
ghost use Rattle.hessian_check.specs.MatrixRoom.{HasMatrixRoom, matrix_at};
ghost use Rattle.hessian_check.specs.RowExponents.{AreLowered, AreRowExponents, exponent_in, IsAcceptedAt, IsLowered};
ghost use Rattle.hessian_check.specs.RowSums.{AreRowSums};
ghost use Rattle.hessian_check.specs.Steps.{IsExponentOf, OfDesign};

use crate::certificate::has_passing_root;
use crate::held::row_matrix;
use crate::matrices::StepMatrices;
use crate::of_design::matrices_by;
use crate::sums::{sums_once, with_row};
use condensed_form::{Condensed, is_lowering_limited};
use enclosure::EncMat;
use std::alloc::{AllocError, Global};

/// The step exponents of the rows of a design's condensed form, whose own step exponent is `s`: the rows are taken in their order, and each exponent
/// is lowered from s by 1 as long as the matrix of the list is dominant or has a root that the test passes, at most 4 times and not below 0. Where
/// the numbers leave no room for that, each is s.
pub fn exponents(alloc: Global, c: &Condensed, s: u32) -> Result<Vec<u32>, AllocError>
    requires form { IsForm c.now }
    requires chosen { OfDesign c.now (λ d. IsExponentOf d s) }
    ensures list { OfDesign c.now (λ d. IfOk result (λ es. AreRowExponents d s es.items)) }
    ensures exponents { OfDesign c.now (λ d. IfOk result (λ es. AreExponents d (exponent_in es.items) s)) }
{
    if is_lowering_limited(c) {
        lowered_rows(alloc, c, s)
    } else {
        vec![in alloc; s; c.g.rows()]
    }
}

// Where there is room.
fn lowered_rows(alloc: Global, c: &Condensed, s: u32) -> Result<Vec<u32>, AllocError>
    requires form { IsForm c.now }
    requires chosen { OfDesign c.now (λ d. IsExponentOf d s) }
    requires room { OfDesign c.now (λ d. HasLoweringRoom (is_fine d) d) }
    ensures { OfDesign c.now (λ d. IfOk result (λ es. AreLowered d s es.items)) }
{
    let mut sums = sums_once(alloc, c)?;
    // By calls: else each matrix of these is dropped beside the others, on the way out and at the end.
    let mut matrices = match matrices_by(alloc, c, &sums) {
        Ok(matrices) => matrices,
        Err(fault) => {
            drop(sums);
            return Err(fault);
        }
    };
    let list = lowered_from(alloc, c, s, &mut matrices, &mut sums);
    drop(matrices);
    drop(sums);
    list
}

// The same from the sums in which each row counts once.
fn lowered_from(
    alloc: Global,
    c: &Condensed,
    s: u32,
    matrices: &mut StepMatrices,
    sums: &mut EncMat,
) -> Result<Vec<u32>, AllocError>
    requires form { IsForm c.now }
    requires chosen { OfDesign c.now (λ d. IsExponentOf d s) }
    requires room { OfDesign c.now (λ d. HasLoweringRoom (is_fine d) d) }
    requires cost { OfDesign c.now (λ d. HasCostMatrix (is_fine d) d matrices.old) }
    requires sums { AreRowSums c.now (λ l. 1) sums.old.mid sums.old.rad }
    ensures { OfDesign c.now (λ d. IfOk result (λ es. AreLowered d s es.items)) }
{
    let mut list = Vec::with_capacity(alloc, c.g.rows())?;
    for _ in 0..c.g.rows() {
        let exponent = lowered(alloc, c, &list, s, matrices, sums)?;
        list.push(exponent)?;
    }
    Ok(list)
}

// The exponent of the next row after those that have the exponents `before`. The sums, in which these rows count by their exponents and each other
// row once, are then those in which it counts by its own too.
fn lowered(
    alloc: Global,
    c: &Condensed,
    before: &[u32],
    s: u32,
    matrices: &mut StepMatrices,
    sums: &mut EncMat,
) -> Result<u32, AllocError>
    requires form { IsForm c.now }
    requires ready { IsReadyToLower c.now s before.now }
    requires cost { OfDesign c.now (λ d. HasCostMatrix (is_fine d) d matrices.old) }
    requires sums { AreTestedSums c.now before.now (length before.now) s s sums.old }
    ensures lowered { OfDesign c.now (λ d. IfOk result (IsLowered d s before.now (length before.now))) }
    ensures cost { OfDesign c.now (λ d. HasCostMatrix (is_fine d) d matrices.new) }
    ensures sums { IfOk result (λ e. AreTestedSums c.now before.now (length before.now) e s sums.new) }
{
    let most = s.min(4);
    for k in 0..most {
        if !try_lower(alloc, c, before, s, k, matrices, sums)? {
            return Ok(s - k);
        }
    }
    Ok(s - most)
}

// Lowers the exponent of that row from s - k by 1, where this is accepted; else the sums stay.
fn try_lower(
    alloc: Global,
    c: &Condensed,
    before: &[u32],
    s: u32,
    k: u32,
    matrices: &mut StepMatrices,
    sums: &mut EncMat,
) -> Result<bool, AllocError>
    requires form { IsForm c.now }
    requires ready { IsReadyToLower c.now s before.now }
    requires small { k < 4 }
    requires below { k < s }
    requires cost { OfDesign c.now (λ d. HasCostMatrix (is_fine d) d matrices.old) }
    requires sums { AreTestedSums c.now before.now (length before.now) (s - k) s sums.old }
    ensures cost { OfDesign c.now (λ d. HasCostMatrix (is_fine d) d matrices.new) }
    ensures accepted { OfDesign c.now (λ d. IfOk result (λ yes. IsTrue yes ↔ IsAcceptedAt d before.now (length before.now) (s - (k + 1)) s)) }
    ensures lowered { IfOk result (λ yes. IsTrue yes → AreTestedSums c.now before.now (length before.now) (s - (k + 1)) s sums.new) }
    ensures refused { IfOk result (λ yes. ¬ IsTrue yes → sums.new ≡ sums.old) }
{
    let i = before.len();
    let more = with_row(alloc, sums, &c.g, &c.g_rad, i, 1 << k)?;
    let accepted = is_list_accepted(alloc, c, &more, s, matrices);
    put_accepted(accepted, sums, more)
}

// Puts sums in the place of others where they are accepted.
fn put_accepted(
    accepted: Result<bool, AllocError>,
    sums: &mut EncMat,
    more: EncMat,
) -> Result<bool, AllocError>
    ensures same { result ≡ accepted }
    ensures put { IfOk result (λ yes. IsTrue yes → sums.new ≡ more) }
    ensures left { IfOk result (λ yes. ¬ IsTrue yes → sums.new ≡ sums.old) }
{
    if !accepted? {
        return Ok(false);
    }
    *sums = more;
    Ok(true)
}

// Whether the list of exponents is accepted whose sums these are. The matrix of its rows stays among the matrices.
fn is_list_accepted(
    alloc: Global,
    c: &Condensed,
    sums: &EncMat,
    s: u32,
    matrices: &mut StepMatrices,
) -> Result<bool, AllocError>
    requires form { IsForm c.now }
    requires tested { AreSumsToTest c.now s sums.now }
    requires cost { OfDesign c.now (λ d. HasCostMatrix (is_fine d) d matrices.old) }
    ensures cost { OfDesign c.now (λ d. HasCostMatrix (is_fine d) d matrices.new) }
    ensures accepted { (t : AreSumsToTest c.now s sums.now) →
        OfDesign c.now (λ d. IfOk result (λ yes. IsTrue yes ↔ IsAcceptedAt d t.before (length t.before) t.exponent s)) }
{
    matrices.rows = row_matrix(alloc, c.fine, sums)?;
    is_accepted(alloc, matrices, s)
}

// Whether the matrix of s is dominant, or has a root that the test passes.
fn is_accepted(alloc: Global, matrices: &StepMatrices, s: u32) -> Result<bool, AllocError>
    requires small { s ≤ 40 }
    requires room { HasMatrixRoom matrices.now s }
    ensures { IfOk result (λ yes. IsTrue yes ↔ IsAccepted (length matrices.now.cost.rows) (matrix_at matrices.now s)) }
{
    let matrix = matrices.at(alloc, s)?;
    if matrix.is_dominant().unwrap() {
        return Ok(true);
    }
    has_passing_root(alloc, &matrix)
}
