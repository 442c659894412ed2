// The controllers of all cells and their texts.
ghost use Rattle.std.specs.Prelude.{◌≡◌, ◌≢◌, ◌⊎◌, ◌≤◌, ◌<◌, ℕ, All, length, get_or, map, IfOk, IfErr, IfSome};
ghost use Rattle.std.specs.Option.{option_map};
ghost use Rattle.std.specs.List.{flat_map};
ghost use Rattle.qp_model.specs.problem.Parts.{design_of};
ghost use Rattle.qp_model.specs.problem.Policy.{plans_of, IsPolicyFor};
ghost use Rattle.qp_model.specs.bounds.Printed.{printed};
ghost use Rattle.bound_report.specs.Report.{report_text};
ghost use Rattle.cell_maker.specs.Controllers.AnyText.{any_numbers};
ghost use Rattle.cell_maker.specs.Controllers.declared.any_controller.AnyController.{AnyController};
ghost use Rattle.cell_split.specs.Cells.{cell_count, AreCutsFor};
ghost use Rattle.cell_split.specs.PoliciesText.{covered};
ghost use Rattle.cell_maker.specs.Made.{AreMadeCells};
ghost use Rattle.cell_file.specs.Cells.{AreAlike};
ghost use Rattle.cell_file.specs.Text.{IsCellsText};
ghost use Rattle.command_split.specs.Cells.{CellsCall};
ghost use Rattle.command_split.specs.Split.{AreCellTexts};
ghost use Rattle.command_generate.specs.Made.{Makes};

use bound_report::report_text;
use cell_file::write_cells;
use cell_maker::{CellRefusal, MadeCells, make_cells};
use cell_split::Cuts;
use command_design_files::Wanted;
use command_line::{Status, Texts};
use qp_model::{Bounds, Policy, Refusal};
use std::alloc::{AllocError, Global};

// The status that tells of the refusal of a cell.
fn cell_status(refused: CellRefusal) -> Status
    ensures { ((result ≡ Status.Memory) × (refused.refusal ≡ Refusal.Memory))
        ⊎ ((result ≡ Status.Cell refused.cell refused.refusal) × (refused.refusal ≢ Refusal.Memory)) }
{
    match refused.refusal {
        Refusal::Memory => Status::Memory,
        refusal => Status::Cell {
            cell: refused.cell,
            refusal,
        },
    }
}

// The controllers and the bounds of all cells, or the status that tells why there are none.
fn cells_made(
    alloc: Global,
    wanted: &Wanted,
    cuts: &Cuts,
    policies: &[Option<Policy>],
) -> Result<MadeCells, Status>
    requires cuts { AreCutsFor (design_of wanted.now.design) cuts.now }
    requires count { length policies.now ≡ cell_count cuts.now }
    requires sized { All (λ o. IfSome o (λ p. IsPolicyFor (design_of wanted.now.design) (plans_of p))) policies.now }
    ensures { Makes (CellsCall wanted.now.design wanted.now.fast cuts.now (map (option_map plans_of) policies.now))
        (AreMadeCells wanted.now.design wanted.now.fast cuts.now (map (option_map plans_of) policies.now)) result }
{
    match make_cells(alloc, &wanted.design, wanted.fast, cuts, policies) {
        Ok(made) => Ok(made),
        Err(refused) => Err(cell_status(refused)),
    }
}

// The texts of the reports of bounds, one after the other.
fn reports_of(alloc: Global, bounds: &[Bounds]) -> Result<Vec<u8>, AllocError>
    ensures { IfOk result (λ v. v.items ≡ flat_map (λ b. report_text (printed b)) bounds.now) }
{
    let mut reports = Vec::new(alloc);
    for own in bounds {
        let text = report_text(alloc, own)?;
        reports.extend_from_slice(&text)?;
    }
    Ok(reports)
}

// The text of controllers, and the reports of their bounds.
fn texts_made(alloc: Global, made: &MadeCells) -> Result<Texts, Status>
    requires some { 1 ≤ length made.now.controllers.items }
    requires few { length made.now.controllers.items ≤ 64 }
    requires alike { (i : ℕ) (c : AnyController) → i < length made.now.controllers.items →
        AreAlike (any_numbers (get_or made.now.controllers.items 0 c)) (any_numbers (get_or made.now.controllers.items i c)) }
    ensures texts { IfOk result (λ t. IsCellsText t.first.items made.now.controllers.items
        × (t.second.items ≡ flat_map (λ b. report_text (printed b)) made.now.bounds.items)) }
    ensures memory { IfErr result (λ e. e ≡ Status.Memory) }
{
    let first = write_cells(alloc, &made.controllers)?;
    let second = reports_of(alloc, &made.bounds)?;
    Ok(Texts { first, second })
}

/// Both texts of the cells of a design's box that have a policy, one at least; or the status that tells why there are none.
pub(crate) fn texts_of(
    alloc: Global,
    wanted: &Wanted,
    cuts: &Cuts,
    policies: &[Option<Policy>],
) -> Result<Texts, Status>
    requires cuts { AreCutsFor (design_of wanted.now.design) cuts.now }
    requires count { length policies.now ≡ cell_count cuts.now }
    requires sized { All (λ o. IfSome o (λ p. IsPolicyFor (design_of wanted.now.design) (plans_of p))) policies.now }
    requires some { 1 ≤ covered (map (option_map plans_of) policies.now) (cell_count cuts.now) }
    ensures { Makes (CellsCall wanted.now.design wanted.now.fast cuts.now (map (option_map plans_of) policies.now))
        (λ t. AreCellTexts wanted.now.design wanted.now.fast cuts.now (map (option_map plans_of) policies.now) t.first.items t.second.items) result }
{
    // A design keeps its rules, and the cuts make 1 to 64 cells; with these read, that is known on every way out.
    let _parts = wanted.design.parts();
    let _cells = cuts.cells();
    let made = cells_made(alloc, wanted, cuts, policies)?;
    texts_made(alloc, &made)
}
