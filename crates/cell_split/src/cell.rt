// The box of a cell.
ghost use Rattle.std.specs.Prelude.{◌≡◌, ◌≤◌, ◌-◌, ℕ, ◌<◌, ◌^◌, ◌<ℤ◌, pos, length, slice_index_or, IfOk};
ghost use Rattle.integer_algebra.specs.Sums.{at};
ghost use Rattle.mat_int.specs.Lines.{lists};
ghost use Rattle.cell_split.specs.Cuts.{part_low, part_high};
ghost use Rattle.qp_model.specs.problem.Runs.{Holds};
ghost use Rattle.qp_model.specs.problem.Parts.{IsDesign, design_of};
ghost use Rattle.cell_split.specs.Cells.{cuts_of, cell_low, cell_high, AreCutsFor, IsCell};
ghost use Rattle.cell_split.specs.Parts.{AreParts, AreSized, AreBelow};

use crate::cuts::Cuts;
use crate::state_box::StateBox;
use qp_model::{Design, DesignParts};
use std::alloc::{AllocError, Global};

/// The parts of cell number `cell`, from 1: for each coordinate the number of its part, from 0.
pub(crate) fn parts_of(
    alloc: Global,
    cuts: &[Vec<i128>],
    cell: u32,
) -> Result<Vec<usize>, AllocError>
    requires { 1 ≤ cell }
    ensures { IfOk result (λ parts. AreParts (lists cuts.now) (cell - 1) parts.items) }
{
    let mut rest = cell as usize - 1;
    let mut parts = Vec::new(alloc);
    for i in 0..cuts.len() {
        let count = cuts[i].len() + 1;
        parts.push(rest % count)?;
        rest /= count;
    }
    Ok(parts)
}

/// The least number of part `part`, from 0, of a coordinate from `lo` with these cuts.
pub(crate) fn low_end(lo: i128, cuts: &[i128], part: usize) -> i128
    requires inside { part ≤ length cuts.now }
    requires below { (k : ℕ) → k < length cuts.now → at cuts.now k <ℤ pos (2 ^ 31) }
    ensures { result ≡ part_low lo cuts.now part }
{
    if part == 0 { lo } else { cuts[part - 1] + 1 }
}

/// Its greatest, of a coordinate to `hi`.
pub(crate) fn high_end(hi: i128, cuts: &[i128], part: usize) -> i128
    requires { part ≤ length cuts.now }
    ensures { result ≡ part_high hi cuts.now part }
{
    if part == cuts.len() { hi } else { cuts[part] }
}

// The least numbers of such parts.
fn low_ends(
    alloc: Global,
    lo: &[i128],
    cuts: &[Vec<i128>],
    parts: &[usize],
) -> Result<Vec<i128>, AllocError>
    requires sized { AreSized lo.now (lists cuts.now) parts.now }
    requires below { AreBelow (lists cuts.now) }
    ensures { IfOk result (λ v. Holds v.items (length lo.now) (λ i. part_low (at lo.now i) (cuts_of (lists cuts.now) i) (slice_index_or parts.now i 0))) }
{
    let mut out = Vec::new(alloc);
    for i in 0..lo.len() {
        out.push(low_end(lo[i], &cuts[i], parts[i]))?;
    }
    Ok(out)
}

// Their greatest.
fn high_ends(
    alloc: Global,
    hi: &[i128],
    cuts: &[Vec<i128>],
    parts: &[usize],
) -> Result<Vec<i128>, AllocError>
    requires { AreSized hi.now (lists cuts.now) parts.now }
    ensures { IfOk result (λ v. Holds v.items (length hi.now) (λ i. part_high (at hi.now i) (cuts_of (lists cuts.now) i) (slice_index_or parts.now i 0))) }
{
    let mut out = Vec::new(alloc);
    for i in 0..hi.len() {
        out.push(high_end(hi[i], &cuts[i], parts[i]))?;
    }
    Ok(out)
}

// The box of a cell, of a design's parts.
fn box_of(
    alloc: Global,
    parts: &DesignParts,
    cuts: &[Vec<i128>],
    cell: u32,
) -> Result<StateBox, AllocError>
    requires design { IsDesign parts.now }
    requires cuts { AreCutsFor (design_of parts.now) (lists cuts.now) }
    requires cell { 1 ≤ cell }
    ensures low { IfOk result (λ b. Holds b.lo.items parts.now.states (cell_low (at parts.now.lo.items) (lists cuts.now) cell)) }
    ensures high { IfOk result (λ b. Holds b.hi.items parts.now.states (cell_high (at parts.now.hi.items) (lists cuts.now) cell)) }
{
    let chosen = parts_of(alloc, cuts, cell)?;
    let lo = low_ends(alloc, &parts.lo, cuts, &chosen)?;
    let hi = high_ends(alloc, &parts.hi, cuts, &chosen)?;
    Ok(StateBox { lo, hi })
}

/// The box of cell number `cell`, from 1, of a design whose box is cut.
pub fn cell_box(
    alloc: Global,
    design: &Design,
    cuts: &Cuts,
    cell: u32,
) -> Result<StateBox, AllocError>
    requires cuts { AreCutsFor (design_of design.now) cuts.now }
    requires cell { IsCell cuts.now cell }
    ensures low { IfOk result (λ b. Holds b.lo.items design.now.states (cell_low (at design.now.lo.items) cuts.now cell)) }
    ensures high { IfOk result (λ b. Holds b.hi.items design.now.states (cell_high (at design.now.hi.items) cuts.now cell)) }
{
    box_of(alloc, design.parts(), cuts.each(), cell)
}
