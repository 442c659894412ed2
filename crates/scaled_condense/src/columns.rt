// What the rows have of each entry of the plan and of each state, in enclosures, column by column.
ghost use Rattle.std.specs.Prelude.{◌≡◌, ◌≤◌, ◌<◌, ◌+◌, ◌*◌, ◌^◌, ℕ, ℤ, length, IfOk, OnOk};
ghost use Rattle.frac_scaled.specs.Enclosures.{Enclosure};
ghost use Rattle.qp_model.specs.problem.Design.{entries, rows};
ghost use Rattle.qp_model.specs.declared.design_parts.DesignParts.{DesignParts};
ghost use Rattle.qp_model.specs.problem.Parts.{design_of};
ghost use Rattle.qp_model.specs.problem.Runs.{counts};
ghost use Rattle.qp_model.specs.form.Quantities.{cost_width, limit_width};
ghost use Rattle.qp_model.specs.form.FineForm.{counted_row, fine_cost, fine_limit};
ghost use Rattle.scaled_run.specs.ScaledForm.{whole, wholes_over, scaled_costs, scaled_by_plan, scaled_by_state};
ghost use Rattle.condensed_form.specs.Lists.{with_column};
ghost use Rattle.scaled_run.specs.Lists.{HoldsEnclosures};
ghost use Rattle.scaled_condense.specs.Lists.{IsScale, IsRunOver, HoldsEncMatrix, mids, rads};

use crate::units::{run_of_plan, run_of_state, whole};
use condensed_form::{cost_count, limit_count, target_at};
use enclosure::{Enc, EncMat};
use qp_model::DesignParts;
use scaled_run::ScaledRun;
use std::alloc::{AllocError, Global};

/// Puts a list into column `j`.
pub fn set_column(mat: &mut EncMat, j: usize, column: &[Enc])
    requires rows { length column.now ≡ length mat.old.mid.rows }
    requires column { j < mat.old.mid.cols }
    ensures mid { mat.new.mid ≡ with_column (length column.now) mat.old.mid j (mids column.now) }
    ensures rad { mat.new.rad ≡ with_column (length column.now) mat.old.rad j (rads column.now) }
{
    for i in 0..column.len() {
        mat.set(i, j, column[i]);
    }
}

// Puts a list into column `j`, unless there was no memory for the list. It is handed the call's answer, so that a loop over columns drops no list.
pub fn put_column(
    mat: &mut EncMat,
    j: usize,
    column: Result<Vec<Enc>, AllocError>,
) -> Result<(), AllocError>
    requires rows { IfOk column (λ v. length v.items ≡ length mat.old.mid.rows) }
    requires column { j < mat.old.mid.cols }
    ensures { OnOk result ((height width : ℕ) → (f : ℕ → ℕ → Enclosure) →
        j < width → IfOk column (λ v. HoldsEnclosures v.items height (λ i. f i j)) →
        HoldsEncMatrix mat.old.mid mat.old.rad height width j f → HoldsEncMatrix mat.new.mid mat.new.rad height width (j + 1) f) }
{
    let column = column?;
    set_column(mat, j, &column);
    Ok(())
}

// The target of each counted cost row, times `row_den`.
fn targets(
    alloc: Global,
    parts: &DesignParts,
    over: u128,
    reach: u128,
) -> Result<Vec<Enc>, AllocError>
    requires scale { IsScale parts.now over reach }
    requires fits { cost_width (design_of parts.now) * reach ≤ 2 ^ 126 }
    ensures { IfOk result (λ v. HoldsEnclosures v.items (counts (design_of parts.now)) (λ c. whole over (counted_row (design_of parts.now) c).target)) }
{
    let mut out = Vec::new(alloc);
    for c in 0..cost_count(parts) {
        out.push(whole(over, target_at(parts, c)))?;
    }
    Ok(out)
}

// What the counted cost rows have of a run that was made.
fn costs_of<'a>(
    alloc: Global,
    run: Result<ScaledRun<'a>, AllocError>,
) -> Result<Vec<Enc>, AllocError>
    requires { IfOk run (λ r. cost_width (design_of r.parts.now) * r.reach ≤ 2 ^ 126) }
    ensures { (m reach : ℕ) → (p : DesignParts) → (x v : ℕ → ℤ) →
        IfOk run.entry (λ r. IsRunOver m reach p x v r.parts.now r.reach r.start.items r.plan.items) →
        IfOk result (λ c. HoldsEnclosures c.items (counts (design_of p)) (fine_cost (design_of p) (wholes_over m x) (wholes_over m v))) }
{
    let run = run?;
    run.costs(alloc)
}

// What the limit rows have of such a run.
fn limits_of<'a>(
    alloc: Global,
    run: Result<ScaledRun<'a>, AllocError>,
) -> Result<Vec<Enc>, AllocError>
    requires { IfOk run (λ r. limit_width (design_of r.parts.now) * r.reach ≤ 2 ^ 126) }
    ensures { (m reach : ℕ) → (p : DesignParts) → (x v : ℕ → ℤ) →
        IfOk run.entry (λ r. IsRunOver m reach p x v r.parts.now r.reach r.start.items r.plan.items) →
        IfOk result (λ c. HoldsEnclosures c.items (rows (design_of p)) (fine_limit (design_of p) (wholes_over m x) (wholes_over m v))) }
{
    let run = run?;
    run.limits(alloc)
}

// What the counted cost rows have of column `j`: of the plan's entries, then of the states, and then their targets.
fn cost_column(
    alloc: Global,
    parts: &DesignParts,
    over: u128,
    reach: u128,
    j: usize,
) -> Result<Vec<Enc>, AllocError>
    requires scale { IsScale parts.now over reach }
    requires fits { cost_width (design_of parts.now) * reach ≤ 2 ^ 126 }
    ensures { IfOk result (λ v. HoldsEnclosures v.items (counts (design_of parts.now)) (λ c. scaled_costs over (design_of parts.now) c j)) }
{
    let entries = parts.stages * parts.inputs;
    if j < entries {
        return costs_of(alloc, run_of_plan(alloc, parts, over, reach, j));
    }
    if j < entries + parts.states {
        return costs_of(alloc, run_of_state(alloc, parts, over, reach, j - entries));
    }
    targets(alloc, parts, over, reach)
}

/// What the counted cost rows have of each column, times `row_den`.
pub fn cost_columns(
    alloc: Global,
    parts: &DesignParts,
    over: u128,
    reach: u128,
) -> Result<EncMat, AllocError>
    requires scale { IsScale parts.now over reach }
    requires fits { cost_width (design_of parts.now) * reach ≤ 2 ^ 126 }
    ensures { let width = parts.now.stages * parts.now.inputs + parts.now.states + 1 in
        IfOk result (λ m. HoldsEncMatrix m.mid m.rad (counts (design_of parts.now)) width width (scaled_costs over (design_of parts.now))) }
{
    let width = parts.stages * parts.inputs + parts.states + 1;
    let mut mat = EncMat::zero(alloc, cost_count(parts), width)?;
    for j in 0..width {
        put_column(&mut mat, j, cost_column(alloc, parts, over, reach, j))?;
    }
    Ok(mat)
}

/// What the limit rows have of each entry of the plan, times `limit_den`.
pub fn plan_columns(
    alloc: Global,
    parts: &DesignParts,
    over: u128,
    reach: u128,
) -> Result<EncMat, AllocError>
    requires scale { IsScale parts.now over reach }
    requires fits { limit_width (design_of parts.now) * reach ≤ 2 ^ 126 }
    ensures { let width = parts.now.stages * parts.now.inputs in
        IfOk result (λ m. HoldsEncMatrix m.mid m.rad (rows (design_of parts.now)) width width (scaled_by_plan over (design_of parts.now))) }
{
    let width = parts.stages * parts.inputs;
    let mut mat = EncMat::zero(alloc, limit_count(parts), width)?;
    for j in 0..width {
        put_column(
            &mut mat,
            j,
            limits_of(alloc, run_of_plan(alloc, parts, over, reach, j)),
        )?;
    }
    Ok(mat)
}

/// What the limit rows have of each state, times `limit_den`.
pub fn state_columns(
    alloc: Global,
    parts: &DesignParts,
    over: u128,
    reach: u128,
) -> Result<EncMat, AllocError>
    requires scale { IsScale parts.now over reach }
    requires fits { limit_width (design_of parts.now) * reach ≤ 2 ^ 126 }
    ensures { IfOk result (λ m. HoldsEncMatrix m.mid m.rad (rows (design_of parts.now)) parts.now.states parts.now.states
        (scaled_by_state over (design_of parts.now))) }
{
    let mut mat = EncMat::zero(alloc, limit_count(parts), parts.states)?;
    for j in 0..parts.states {
        put_column(
            &mut mat,
            j,
            limits_of(alloc, run_of_state(alloc, parts, over, reach, j)),
        )?;
    }
    Ok(mat)
}
