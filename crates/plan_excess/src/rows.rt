// The numbers of a condensed form's cost as enclosures, brought over `2^40` once for all corners.
ghost use Rattle.std.specs.Prelude.{◌≡◌, ℕ, ◌<◌, ◌≤◌, ◌^◌, pos, ◌≤ℤ◌, length, unsigned_abs, IfOk, OnOk, IfErr, IsSome, IfSome, Some, None, ◌↔◌};
ghost use Rattle.integer_algebra.specs.Sums.{at};
ghost use Rattle.mat_int.specs.Matrix.{entry_of};
ghost use Rattle.enclosure.specs.Values.{pair};
ghost use Rattle.qp_model.specs.declared.quantity.Quantity.TheVariants.{Excess};
ghost use Rattle.qp_model.specs.problem.Design.{entries};
ghost use Rattle.qp_model.specs.problem.Parts.{design_of};
ghost use Rattle.qp_model.specs.declared.design_parts.DesignParts.{DesignParts};
ghost use Rattle.qp_model.specs.form.Quantities.{greatest};
ghost use Rattle.qp_model.specs.bounds.Excess.{brought, reach, number_size};
ghost use Rattle.condensed_form.specs.Form.{held, IsFormOf};
ghost use Rattle.scaled_run.specs.Lists.{HoldsEnclosures};
ghost use Rattle.plan_excess.specs.Fault.{IsExcessFault};
ghost use Rattle.plan_excess.specs.Rows.{line_at, line_size, IsGradientRow, AreGradientRows, AreRowsNear};
ghost use Rattle.qp_model.specs.declared.size_fault.SizeFault.TheVariants.{TooWide as excess_wide};

use crate::fault::too_wide;
use condensed_form::Condensed;
use enclosure::{Enc, enclose_within};
use mat_int::Mat;
use qp_model::SizeFault;
use std::alloc::Global;

/// What the plan's entries, the state's coordinates and 1 are times in one entry of the cost's gradient.
#[derive(Drop)]
pub(crate) struct Row {
    pub(crate) plan: Vec<Enc>,
    pub(crate) state: Vec<Enc>,
    pub(crate) constant: Enc,
}

// `mid / den` within `rad / den`.
fn number(mid: i128, rad: i128, den: i128) -> Option<Enc>
    requires divisor { pos 1 ≤ℤ den }
    requires radius { pos 0 ≤ℤ rad }
    ensures value { IfSome result (λ e. pair e ≡ brought (unsigned_abs den) mid (unsigned_abs rad)) }
    ensures room { IsSome result ↔ (reach (brought (unsigned_abs den) mid (unsigned_abs rad)) ≤ 2 ^ 126) }
{
    enclose_within(mid, rad, den)
}

// Midpoints within their radii, all over `den`.
fn numbers(alloc: Global, mids: &[i128], rads: &[i128], den: i128) -> Result<Vec<Enc>, SizeFault>
    requires lengths { length rads.now ≡ length mids.now }
    requires divisor { pos 1 ≤ℤ den }
    requires radii { (i : ℕ) → i < length mids.now → pos 0 ≤ℤ at rads.now i }
    ensures value { IfOk result (λ v. HoldsEnclosures v.items (length mids.now)
        (λ i. brought (unsigned_abs den) (at mids.now i) (unsigned_abs (at rads.now i)))) }
    ensures room { OnOk result
        (greatest (length mids.now) (λ i. reach (brought (unsigned_abs den) (at mids.now i) (unsigned_abs (at rads.now i)))) ≤ 2 ^ 126) }
    ensures refused { IfErr result (IsExcessFault
        (greatest (length mids.now) (λ i. reach (brought (unsigned_abs den) (at mids.now i) (unsigned_abs (at rads.now i)))))) }
{
    let mut out = Vec::new(alloc);
    for i in 0..mids.len() {
        let Some(number) = number(mids[i], rads[i], den) else {
            return Err(too_wide());
        };
        out.push(number)?;
    }
    Ok(out)
}

// Row `j` of a matrix within that of the radii, all over `den`.
fn line(alloc: Global, mids: &Mat, rads: &Mat, j: usize, den: i128) -> Result<Vec<Enc>, SizeFault>
    requires rows { length rads.now.rows ≡ length mids.now.rows }
    requires cols { rads.now.cols ≡ mids.now.cols }
    requires row { j < length mids.now.rows }
    requires divisor { pos 1 ≤ℤ den }
    requires radii { (i : ℕ) → i < mids.now.cols → pos 0 ≤ℤ entry_of rads.now j i }
    ensures value { IfOk result (λ v. HoldsEnclosures v.items mids.now.cols (line_at (unsigned_abs den) mids.now rads.now j)) }
    ensures room { OnOk result (line_size (unsigned_abs den) mids.now rads.now j ≤ 2 ^ 126) }
    ensures refused { IfErr result (IsExcessFault (line_size (unsigned_abs den) mids.now rads.now j)) }
{
    numbers(alloc, mids.row(j), rads.row(j), den)
}

// A row of these numbers, where the constant is none that is too long.
fn joined(plan: Vec<Enc>, state: Vec<Enc>, constant: Option<Enc>) -> Result<Row, SizeFault>
    ensures value { IfOk result (λ row. (row.plan.items ≡ plan.items) × (row.state.items ≡ state.items) × (constant ≡ Some row.constant)) }
    ensures refused { IfErr result (λ e. (e ≡ excess_wide Excess) × (constant ≡ None)) }
{
    match constant {
        Some(constant) => Ok(Row {
            plan,
            state,
            constant,
        }),
        None => {
            drop(plan);
            drop(state);
            Err(too_wide())
        }
    }
}

// Row `j`.
fn row_of(alloc: Global, c: &Condensed, j: usize) -> Result<Row, SizeFault>
    requires form { (p : DesignParts) × IsFormOf p c.now }
    requires row { j < length c.now.hess.rows }
    ensures value { (p : DesignParts) → IsFormOf p c.now → IfOk result (IsGradientRow (design_of p) (held c.now) j) }
    ensures room { (p : DesignParts) → IsFormOf p c.now → OnOk result (number_size (design_of p) (held c.now) j ≤ 2 ^ 126) }
    ensures refused { (p : DesignParts) → IsFormOf p c.now → IfErr result (IsExcessFault (number_size (design_of p) (held c.now) j)) }
{
    let plan = line(alloc, &c.hess, &c.hess_rad, j, c.hess_den)?;
    let state = line(alloc, &c.lin, &c.lin_rad, j, c.hess_den)?;
    joined(plan, state, number(c.off[j], c.off_rad[j], c.hess_den))
}

/// All rows.
pub(crate) fn rows_of(alloc: Global, c: &Condensed) -> Result<Vec<Row>, SizeFault>
    requires { (p : DesignParts) × IsFormOf p c.now }
    ensures value { (p : DesignParts) → IsFormOf p c.now → IfOk result (λ v. AreGradientRows (design_of p) (held c.now) (entries (design_of p)) v.items) }
    ensures room { (p : DesignParts) → IsFormOf p c.now → OnOk result (AreRowsNear (design_of p) (held c.now) (entries (design_of p))) }
    ensures refused { (p : DesignParts) → IsFormOf p c.now →
        IfErr result (IsExcessFault (greatest (entries (design_of p)) (number_size (design_of p) (held c.now)))) }
{
    let mut rows = Vec::new(alloc);
    for j in 0..c.hess.rows() {
        let row = row_of(alloc, c, j)?;
        rows.push(row)?;
    }
    Ok(rows)
}
