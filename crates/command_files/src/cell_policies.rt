// A file of the policies of cells.
ghost use Rattle.std.specs.Prelude.{◌≡◌, ◌≤◌, length, map, All, IfOk, IfSome};
ghost use Rattle.std.specs.Option.{option_map};
ghost use Rattle.qp_model.specs.problem.Parts.{design_of};
ghost use Rattle.qp_model.specs.problem.Policy.{plans_of, IsPolicyFor};
ghost use Rattle.cell_split.specs.PoliciesText.{covered};
ghost use Rattle.command_line.specs.Kind.{ReadsFile};
ghost use Rattle.command_files.specs.Reading.{cell_policies_kind};

use cell_split::read_cell_policies;
use command_design_files::{FILE_LIMIT, read_bytes, told_text};
use command_line::Status;
use io_edge::Store;
use qp_model::{Design, Policy};
use std::alloc::Global;

/// The policies of that many cells of a design's box, none for a cell without a controller, under the name at a position among the arguments, or the status
/// that ends the run.
pub fn read_cell_policies_file<S: Store>(
    alloc: Global,
    file: u32,
    name: &str,
    design: &Design,
    cells: u32,
    store: &mut S,
) -> Result<Vec<Option<Policy>>, Status>
    requires { cells ≤ 64 }
    ensures read { ReadsFile S.Store (cell_policies_kind (design_of design.now) cells) file name.now (λ v. map (option_map plans_of) v.items) result store.old store.new }
    ensures count { IfOk result (λ v. length v.items ≡ cells) }
    ensures sized { IfOk result (λ v. All (λ o. IfSome o (λ p. IsPolicyFor (design_of design.now) (plans_of p))) v.items) }
    ensures some { IfOk result (λ v. 1 ≤ covered (map (option_map plans_of) v.items) cells) }
{
    let bytes = read_bytes(alloc, FILE_LIMIT, file, name, store)?;
    told_text(file, read_cell_policies(alloc, &bytes, design, cells))
}
