// The kernels of cells at work.
ghost use Rattle.std.specs.Prelude.{◌≡◌, ◌<◌, length, get_or, IfOk, MatchOption};
ghost use Rattle.plan_lines.specs.ControllerFile.declared.any_controller.AnyController.{AnyController};
ghost use Rattle.plan_lines.specs.Making.{any_controller};
ghost use Rattle.command_serve.specs.Served.{HaveWidth, IsHeldBySome, controllers_of};
ghost use Rattle.command_serve.specs.Unserved.{IsHeldByNone};
ghost use Rattle.command_serve.specs.Lines.{IsServedLine};

use cell_file::find;
use command_line::Status;
use plan_lines::{AnyController, AnyKernel, PreparedMachine, kernel_of, line_from};
use std::alloc::{AllocError, Global};

/// Cells with a kernel for each, in order.
#[derive(Drop)]
pub struct Cells<'a> {
    cells: &'a [AnyController],
    kernels: Vec<AnyKernel<'a>>,
}

/// The kernels of cells.
pub fn cells_of(alloc: Global, cells: &[AnyController]) -> Result<Cells<'_>, AllocError>
    ensures cells { IfOk result (λ v. v.cells.now ≡ cells.now) }
    ensures kernels { IfOk result (λ v. controllers_of v.kernels.items ≡ cells.now) }
{
    let mut kernels = Vec::new(alloc);
    for cell in cells {
        let kernel = kernel_of(alloc, cell)?;
        kernels.push(kernel)?;
    }
    Ok(Cells { cells, kernels })
}

/// Cells put out the line of the first whose box holds the state.
impl<'a> PreparedMachine for Cells<'a> {
    ghost use Rattle.std.specs.Prelude.{List};
    ghost use Rattle.command_serve.specs.Making.{ArePreparedFor, making_of_cells};

    ghost Subject = { List AnyController };

    ghost subject = { λ s. s.cells.now };

    ghost makes = { making_of_cells };

    ghost is_for = { λ s n. ArePreparedFor s.cells.now s.kernels.items n };

    fn refused(&self, state: &[i128]) -> Option<u32> {
        outside_all(self.cells, &self.kernels[0], state)
    }

    fn line(&mut self, alloc: Global, _: u32, state: &[i128]) -> Result<Vec<u8>, Status> {
        Ok(served_line(alloc, self.cells, &mut self.kernels, state)?)
    }
}

// The line of a state that some cell's box holds, from the kernel of the first.
fn served_line(
    alloc: Global,
    cells: &[AnyController],
    kernels: &mut [AnyKernel],
    state: &[i128],
) -> Result<Vec<u8>, AllocError>
    requires kernels { controllers_of kernels.old ≡ cells.now }
    requires width { HaveWidth cells.now (length state.now) }
    requires held { IsHeldBySome cells.now state.now }
    ensures line { IfOk result (λ line. IsServedLine cells.now state.now line.items) }
    ensures kernels { controllers_of kernels.new ≡ controllers_of kernels.old }
{
    let Some(cell) = find(cells, state) else {
        unreachable!();
    };
    line_from(alloc, &mut kernels[cell], state)
}

// The first coordinate outside the first cell's box of a state that no cell's box holds. None exactly where one holds it.
fn outside_all(cells: &[AnyController], first: &AnyKernel, state: &[i128]) -> Option<u32>
    requires some { 0 < length cells.now }
    requires width { HaveWidth cells.now (length state.now) }
    requires first { (c : AnyController) → get_or cells.now 0 c ≡ any_controller first.now }
    ensures { MatchOption result (IsHeldBySome cells.now state.now) (IsHeldByNone cells.now state.now) }
{
    match find(cells, state) {
        Some(_) => None,
        None => first.refused(state),
    }
}
