// The files of controllers, of states, of faces and disturbances, and of cuts.
ghost use Rattle.std.specs.Prelude.{◌≡◌, ◌<◌, ◌^◌, length, IfOk};
ghost use Rattle.qp_model.specs.problem.Parts.{design_of};
ghost use Rattle.stay_check.specs.FaceForms.{faces_of, AreFacesFor};
ghost use Rattle.state_files.specs.RangeText.{IsShiftRange};
ghost use Rattle.cell_split.specs.Cells.{AreCutsFor};
ghost use Rattle.command_line.specs.Kind.{ReadsFile};
ghost use Rattle.command_files.specs.Reading.{controller_kind, any_controller_kind, cells_kind, states_kind, faces_kind, range_kind, shifts_kind, cuts_kind};

use cell_file::read_cells;
use cell_split::{Cuts, read_cuts};
use command_design_files::{FILE_LIMIT, read_bytes, told_controller, told_text};
use command_line::Status;
use controller_file::{AnyController, read_any_controller, read_controller};
use io_edge::Store;
use mat_int::Mat;
use overflow_check::Controller;
use packed_rows::PackedRows;
use qp_model::Design;
use state_files::{read_shift_range, read_shifts, read_states};
use stay_check::{Faces, read_faces};
use std::alloc::Global;

/// The most bytes of a file that holds the text of cells.
pub const CELLS_LIMIT: usize = 268435456;

/// The controller under the name at a position among the arguments, or the status that ends the run.
pub fn read_controller_file<S: Store>(
    alloc: Global,
    file: u32,
    name: &str,
    store: &mut S,
) -> Result<Controller, Status>
    ensures { ReadsFile S.Store controller_kind file name.now (λ c. c) result store.old store.new }
{
    let bytes = read_bytes(alloc, FILE_LIMIT, file, name, store)?;
    told_controller(file, read_controller(alloc, &bytes))
}

/// The controller, of any version, under the name at a position among the arguments, or the status that ends the run.
pub fn read_any_controller_file<S: Store>(
    alloc: Global,
    file: u32,
    name: &str,
    store: &mut S,
) -> Result<AnyController, Status>
    ensures { ReadsFile S.Store any_controller_kind file name.now (λ k. k) result store.old store.new }
{
    let bytes = read_bytes(alloc, FILE_LIMIT, file, name, store)?;
    told_controller(file, read_any_controller(alloc, &bytes))
}

/// The controllers of the cells under the name at a position among the arguments, or the status that ends the run.
pub fn read_cells_file<S: Store>(
    alloc: Global,
    file: u32,
    name: &str,
    store: &mut S,
) -> Result<Vec<AnyController>, Status>
    ensures { ReadsFile S.Store cells_kind file name.now (λ v. v.items) result store.old store.new }
{
    let bytes = read_bytes(alloc, CELLS_LIMIT, file, name, store)?;
    told_controller(file, read_cells(alloc, &bytes))
}

/// The states of `n` numbers each, a row each, under the name at a position among the arguments, or the status that ends the run.
pub fn read_states_file<S: Store>(
    alloc: Global,
    file: u32,
    name: &str,
    n: usize,
    store: &mut S,
) -> Result<PackedRows, Status>
    ensures read { ReadsFile S.Store (states_kind n) file name.now (λ m. m) result store.old store.new }
    ensures width { IfOk result (λ m. m.cols ≡ n) }
    ensures count { IfOk result (λ m. length m.rows < 2 ^ 32) }
{
    let bytes = read_bytes(alloc, FILE_LIMIT, file, name, store)?;
    told_text(file, read_states(alloc, &bytes, n))
}

/// The faces of a design's box under the name at a position among the arguments, or the status that ends the run.
pub fn read_faces_file<S: Store>(
    alloc: Global,
    file: u32,
    name: &str,
    design: &Design,
    store: &mut S,
) -> Result<Faces, Status>
    ensures read { ReadsFile S.Store (faces_kind (design_of design.now)) file name.now faces_of result store.old store.new }
    ensures sized { IfOk result (λ f. AreFacesFor (design_of design.now) (faces_of f)) }
{
    let bytes = read_bytes(alloc, FILE_LIMIT, file, name, store)?;
    told_text(file, read_faces(alloc, &bytes, design))
}

/// The range of the shifts of `n` coordinates, its least and its greatest in a row each, under the name at a position among the arguments, or the status
/// that ends the run.
pub fn read_range_file<S: Store>(
    alloc: Global,
    file: u32,
    name: &str,
    n: usize,
    store: &mut S,
) -> Result<Mat, Status>
    ensures read { ReadsFile S.Store (range_kind n) file name.now (λ m. m) result store.old store.new }
    ensures sized { IfOk result (IsShiftRange n) }
{
    let bytes = read_bytes(alloc, FILE_LIMIT, file, name, store)?;
    told_text(file, read_shift_range(alloc, &bytes, n))
}

/// The shifts of `n` coordinates after each of `turns` turns, a row each, under the name at a position among the arguments, or the status that ends the run.
pub fn read_shifts_file<S: Store>(
    alloc: Global,
    file: u32,
    name: &str,
    n: usize,
    turns: usize,
    store: &mut S,
) -> Result<PackedRows, Status>
    ensures { ReadsFile S.Store (shifts_kind n turns) file name.now (λ m. m) result store.old store.new }
{
    let bytes = read_bytes(alloc, FILE_LIMIT, file, name, store)?;
    told_text(file, read_shifts(alloc, &bytes, n, turns))
}

/// The cuts of a design's box under the name at a position among the arguments, or the status that ends the run.
pub fn read_cuts_file<S: Store>(
    alloc: Global,
    file: u32,
    name: &str,
    design: &Design,
    store: &mut S,
) -> Result<Cuts, Status>
    ensures read { ReadsFile S.Store (cuts_kind (design_of design.now)) file name.now (λ c. c) result store.old store.new }
    ensures split { IfOk result (AreCutsFor (design_of design.now)) }
{
    let bytes = read_bytes(alloc, FILE_LIMIT, file, name, store)?;
    told_text(file, read_cuts(alloc, &bytes, design))
}
