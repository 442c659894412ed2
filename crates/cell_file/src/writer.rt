// The text of the controllers of cells.
ghost use Rattle.std.specs.Prelude.{◌≡◌, ◌≤◌, ◌<◌, ◌++◌, ℕ, All, length, get_or, IfOk, OnOk};
ghost use Rattle.std.specs.List.{flat_map};
ghost use Rattle.qp_model.specs.machine.Controller.{FitsWord};
ghost use Rattle.qp_model.specs.text.ControllerText.{controller_text};
ghost use Rattle.controller_file.specs.AnyText.{any_numbers, IsSafe, IsAnyControllerText};
ghost use Rattle.controller_file.specs.declared.any_controller.AnyController.{AnyController};
ghost use Rattle.cell_file.specs.Cells.{AreAlike};
ghost use Rattle.cell_file.specs.Text.{IsCellsText};

use controller_file::AnyController;
use controller_text::{write_controller, write_fast_controller};
use number_text::push_line;
use std::alloc::{AllocError, Global};

/// The one text of 1 to 64 controllers, each of which has the sizes and the grid of the first.
pub fn write_cells(alloc: Global, cells: &[AnyController]) -> Result<Vec<u8>, AllocError>
    requires some { 1 ≤ length cells.now }
    requires few { length cells.now ≤ 64 }
    requires alike { (i : ℕ) (c : AnyController) → i < length cells.now → AreAlike (any_numbers (get_or cells.now 0 c)) (any_numbers (get_or cells.now i c)) }
    ensures { IfOk result (λ v. IsCellsText v.items cells.now) }
{
    let mut text = String::new(alloc);
    push_line(alloc, &mut text, "mpc-cells", &[cells.len() as i128])?;
    let mut bytes = text.into_bytes();
    push_cells(alloc, &mut bytes, cells)?;
    bytes.extend_from_slice(b"end\n")?;
    Ok(bytes)
}

// The texts of controllers, one behind the other, at the end of bytes.
fn push_cells(alloc: Global, bytes: &mut Vec<u8>, cells: &[AnyController]) -> Result<(), AllocError>
    ensures text { OnOk result (bytes.new.items ≡ bytes.old.items ++ flat_map (λ k. controller_text (any_numbers k)) cells.now) }
    ensures safe { OnOk result (All IsSafe cells.now) }
    ensures word { OnOk result (All (λ k. FitsWord (any_numbers k)) cells.now) }
{
    for cell in cells {
        let text = any_text(alloc, cell)?;
        bytes.extend_from_slice(&text)?;
    }
    Ok(())
}

// The text of a controller of either machine.
fn any_text(alloc: Global, controller: &AnyController) -> Result<Vec<u8>, AllocError>
    ensures { IfOk result (λ v. IsAnyControllerText v.items controller.now) }
{
    match controller {
        AnyController::Plain(controller) => write_controller(alloc, controller),
        AnyController::Fast(controller) => write_fast_controller(alloc, controller),
    }
}
