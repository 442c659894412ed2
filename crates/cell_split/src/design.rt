// The design of a cell.
ghost use Rattle.std.specs.Prelude.{◌≡◌, IfOk};
ghost use Rattle.qp_model.specs.problem.Parts.{IsDesign, design_of, design_numbers};
ghost use Rattle.integer_algebra.specs.Sums.{at};
ghost use Rattle.qp_model.specs.problem.Runs.{Holds};
ghost use Rattle.cell_split.specs.Cells.{cell_low, cell_high, AreCutsFor, IsCell};
ghost use Rattle.cell_split.specs.NewBox.{IsNewBox};

use crate::cell::cell_box;
use crate::copies::copied_pair;
use crate::cuts::Cuts;
use crate::state_box::StateBox;
use qp_model::{Design, DesignParts};
use std::alloc::{AllocError, Global};

// The design with another box.
pub(crate) fn with_box(
    alloc: Global,
    parts: &DesignParts,
    held: StateBox,
) -> Result<Design, AllocError>
    requires design { IsDesign parts.now }
    requires right { IsNewBox parts.now held }
    ensures { IfOk result (λ d. design_numbers d ≡ record (design_numbers parts.now) { lo = held.lo.items; hi = held.hi.items }) }
{
    let plant = copied_pair(alloc, &parts.a, &parts.b)?;
    let costs = copied_pair(alloc, &parts.stage_cost, &parts.final_cost)?;
    let rows = copied_pair(alloc, &parts.stage_rows, &parts.final_rows)?;
    let input_weights = parts.input_weights.clone()?;
    Ok(Design::new(DesignParts {
        version: parts.version,
        states: parts.states,
        inputs: parts.inputs,
        stages: parts.stages,
        plant_den: parts.plant_den,
        a: plant.first,
        b: plant.second,
        cost_den: parts.cost_den,
        row_den: parts.row_den,
        input_weights,
        stage_cost: costs.first,
        final_cost: costs.second,
        limit_den: parts.limit_den,
        stage_rows: rows.first,
        final_rows: rows.second,
        grid: parts.grid,
        lo: held.lo,
        hi: held.hi,
        target_den: parts.target_den,
        violation: parts.violation,
        gap: parts.gap,
    }))
}

/// The design of cell number `cell`, from 1: the same with the cell's box.
pub fn cell_design(
    alloc: Global,
    design: &Design,
    cuts: &Cuts,
    cell: u32,
) -> Result<Design, AllocError>
    requires cuts { AreCutsFor (design_of design.now) cuts.now }
    requires cell { IsCell cuts.now cell }
    ensures numbers { IfOk result (λ d. design_numbers d ≡ record (design_numbers design.now) { lo = d.lo.items; hi = d.hi.items }) }
    ensures low { IfOk result (λ d. Holds d.lo.items design.now.states (cell_low (at design.now.lo.items) cuts.now cell)) }
    ensures high { IfOk result (λ d. Holds d.hi.items design.now.states (cell_high (at design.now.hi.items) cuts.now cell)) }
{
    let held = cell_box(alloc, design, cuts, cell)?;
    with_box(alloc, design.parts(), held)
}
