// The excess of a policy.
ghost use Rattle.std.specs.Prelude.{◌≡◌, ◌↔◌, ℕ, suc, ◌<◌, ◌≤◌, ◌^◌, pos, ◌≤ℤ◌, length, get_or, unsigned_abs, IfOk, OnOk, IfErr, IsSome, IfSome};
ghost use Rattle.integer_algebra.specs.Sums.{at};
ghost use Rattle.qp_model.specs.problem.Design.{entries};
ghost use Rattle.qp_model.specs.problem.Design as model;
ghost use Rattle.qp_model.specs.problem.Parts.{design_of, IsDesign};
ghost use Rattle.qp_model.specs.problem.Policy.{Plans, plans_of, IsPolicyFor};
ghost use Rattle.qp_model.specs.form.Form.{Form};
ghost use Rattle.qp_model.specs.form.Class.{form_of};
ghost use Rattle.qp_model.specs.form.Quantities.{input_floor};
ghost use Rattle.qp_model.specs.bounds.Excess.{corner_excess, excess_of, excess_size};
ghost use Rattle.condensed_form.specs.Form.{held, IsFormOf};
ghost use Rattle.plan_excess.specs.Fault.{IsExcessFault};
ghost use Rattle.plan_excess.specs.Rows.{AreGradientRows};
ghost use Rattle.plan_excess.specs.declared.rows.Row.{Row as RowNumbers};
ghost use Rattle.plan_excess.specs.Slopes.{AreCornerPlans, IsFitting, AreSlopeSums, HasWeights, corner_slope, steepness_at, slope_size_at, sums_size};
ghost use Rattle.plan_excess.specs.Slopes.{excess_by, excess_size_by, corner_size};

use crate::corner::{Corner, corner_of};
use crate::fault::too_wide;
use crate::rows::{Row, rows_of};
use crate::slope::slope_of;
use crate::sums::Sums;
use condensed_form::Condensed;
use qp_model::{Design, Policy, SizeFault};
use std::alloc::Global;

// What the entries of a corner's plans add, by their rows.
fn sums_of(rows: &[Row], corner: &Corner) -> Option<Sums>
    requires plans { AreCornerPlans corner.now }
    requires entries { length rows.now ≡ length corner.now.plan.now }
    requires fits { (j : ℕ) (row : RowNumbers) → j < length rows.now → IsFitting corner.now (get_or rows.now j row) }
    ensures value { (d : model.Design) (h : Form) → AreGradientRows d h (entries d) rows.now → corner.now.grid ≡ pos (2 ^ d.grid) →
        IfSome result (AreSlopeSums (entries d) (corner_slope d h corner.now) (steepness_at d h corner.now)) }
    ensures room { (d : model.Design) (h : Form) → AreGradientRows d h (entries d) rows.now → corner.now.grid ≡ pos (2 ^ d.grid) →
        IsSome result ↔ (sums_size (entries d) (slope_size_at d h corner.now) (corner_slope d h corner.now) (steepness_at d h corner.now) ≤ 2 ^ 126) }
{
    let mut sums = Sums::zero();
    for j in 0..rows.len() {
        sums = sums.more(slope_of(&rows[j], corner, j)?)?;
    }
    Some(sums)
}

// By how much more than any plan a corner's plan costs at most, over `2^16`.
fn corner_excess(rows: &[Row], corner: &Corner, weight_den: i128, input_floor: i128) -> Option<i128>
    requires plans { AreCornerPlans corner.now }
    requires entries { length rows.now ≡ length corner.now.plan.now }
    requires fits { (j : ℕ) (row : RowNumbers) → j < length rows.now → IsFitting corner.now (get_or rows.now j row) }
    requires weight { pos 1 ≤ℤ weight_den }
    requires some { pos 1 ≤ℤ input_floor }
    requires floor { input_floor ≤ℤ pos (2 ^ 31) }
    ensures value { (d : model.Design) (h : Form) → AreGradientRows d h (entries d) rows.now → HasWeights d corner.now weight_den input_floor →
        IfSome result (λ x. x ≡ excess_by d h corner.now) }
    ensures room { (d : model.Design) (h : Form) → AreGradientRows d h (entries d) rows.now → HasWeights d corner.now weight_den input_floor →
        IsSome result ↔ (excess_size_by d h corner.now ≤ 2 ^ 126) }
{
    sums_of(rows, corner)?.excess(weight_den, input_floor)
}

// The same of corner `number`, from 0, of a policy and its reference plans.
fn excess_at(
    alloc: Global,
    condensed: &Condensed,
    rows: &[Row],
    design: &Design,
    policy: &Policy,
    reference: &Policy,
    number: usize,
) -> Result<i128, SizeFault>
    requires form { IsFormOf design.now condensed.now }
    requires plans { IsPolicyFor (design_of design.now) (plans_of policy.now) }
    requires references { IsPolicyFor (design_of design.now) (plans_of reference.now) }
    requires rows { AreGradientRows (design_of design.now) (held condensed.now) (entries (design_of design.now)) rows.now }
    requires corner { number < 2 ^ (design_of design.now).states }
    ensures value { IfOk result (λ x. x ≡
        corner_excess (design_of design.now) (held condensed.now) (plans_of policy.now) (plans_of reference.now) (suc number)) }
    ensures room { OnOk result (corner_size (design_of design.now) (held condensed.now) (plans_of policy.now) (plans_of reference.now) number ≤ 2 ^ 126) }
    ensures refused { IfErr result (IsExcessFault
        (corner_size (design_of design.now) (held condensed.now) (plans_of policy.now) (plans_of reference.now) number)) }
{
    let corner = corner_of(alloc, design.parts(), policy, reference, number)?;
    match corner_excess(rows, &corner, condensed.weight_den, condensed.input_floor) {
        Some(excess) => Ok(excess),
        None => {
            drop(corner);
            Err(too_wide())
        }
    }
}

/// X, over `2^16`: by how much more than the best, over all plans and not only feasible ones, the plans of a policy cost at the corners of the box at
/// most, and at least 0. The reference plans, one for each corner, show it: where they are bad, it is larger, and never false.
///
/// # Errors
/// `TooWide` with `excess` where that quantity is above `2^126`.
pub fn excess(
    alloc: Global,
    condensed: &Condensed,
    design: &Design,
    policy: &Policy,
    reference: &Policy,
) -> Result<i128, SizeFault>
    requires form { IsFormOf design.now condensed.now }
    requires plans { IsPolicyFor (design_of design.now) (plans_of policy.now) }
    requires references { IsPolicyFor (design_of design.now) (plans_of reference.now) }
    ensures value { let d = design_of design.now in
        IfOk result (λ x. x ≡ pos (excess_of d (form_of d) (plans_of policy.now) (plans_of reference.now))) }
    ensures room { let d = design_of design.now in
        OnOk result (excess_size d (form_of d) (plans_of policy.now) (plans_of reference.now) ≤ 2 ^ 126) }
    ensures refused { let d = design_of design.now in
        IfErr result (IsExcessFault (excess_size d (form_of d) (plans_of policy.now) (plans_of reference.now))) }
{
    let rows = rows_of(alloc, condensed)?;
    let mut most = 0i128;
    for number in 0..policy.plans.rows() {
        let next = excess_at(alloc, condensed, &rows, design, policy, reference, number)?;
        most = most.max(next);
    }
    Ok(most)
}
