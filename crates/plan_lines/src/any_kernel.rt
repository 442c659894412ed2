// A kernel of either machine.
ghost use Rattle.std.specs.Prelude.{◌≡◌, IfOk};
ghost use Rattle.qp_model.specs.machine.Machine.{IsAdmissible};
ghost use Rattle.controller_file.specs.AnyText.{any_numbers};
ghost use Rattle.plan_lines.specs.Lines.{any_plan_line};
ghost use Rattle.plan_lines.specs.Making.{any_controller};

use crate::machine::PreparedMachine;
use command_line::Status;
use controller_file::AnyController;
use fast_machine::FastKernel;
use fixed_kernel::{Kernel, first_outside};
use primal_average::{fast_plan_line, plan_line};
use std::alloc::{AllocError, Global};

/// A kernel of a controller of either machine.
#[derive(Drop)]
pub enum AnyKernel<'a> {
    /// Of version 1 or 2.
    Plain(Kernel<'a>),
    /// Of the accelerated machine.
    Fast(FastKernel<'a>),
}

/// A controller's kernel, with the least state of the box loaded and no step made.
pub fn kernel_of(alloc: Global, controller: &AnyController) -> Result<AnyKernel<'_>, AllocError>
    ensures { IfOk result (λ k. any_controller k ≡ controller.now) }
{
    Ok(match controller {
        AnyController::Plain(controller) => AnyKernel::Plain(Kernel::prepare(alloc, controller)?),
        AnyController::Fast(controller) => {
            AnyKernel::Fast(FastKernel::prepare(alloc, controller.parts())?)
        }
    })
}

/// The line of the averaged plan from a state of the box.
pub fn line_from(
    alloc: Global,
    kernel: &mut AnyKernel,
    state: &[i128],
) -> Result<Vec<u8>, AllocError>
    requires { IsAdmissible (any_numbers (any_controller kernel.old)) state.now }
    ensures line { IfOk result (λ line. line.items ≡ any_plan_line (any_controller kernel.old) state.now) }
    ensures controller { any_controller kernel.new ≡ any_controller kernel.old }
{
    match kernel {
        AnyKernel::Plain(kernel) => {
            kernel.run_inside(state);
            plan_line(alloc, kernel)
        }
        AnyKernel::Fast(kernel) => {
            kernel.run_inside(state);
            fast_plan_line(alloc, kernel)
        }
    }
}

/// A kernel puts out the lines of its controller's averaged plans.
impl<'a> PreparedMachine for AnyKernel<'a> {
    ghost use Rattle.controller_file.specs.declared.any_controller.AnyController.{AnyController};
    ghost use Rattle.plan_lines.specs.Making.{making_of_any};

    ghost Subject = { AnyController };

    ghost subject = { any_controller };

    ghost makes = { making_of_any };

    ghost is_for = { λ k n. n ≡ (any_numbers (any_controller k)).states };

    fn refused(&self, state: &[i128]) -> Option<u32> {
        match self {
            AnyKernel::Plain(kernel) => kernel.first_outside(state),
            AnyKernel::Fast(kernel) => first_outside(kernel.parts(), state),
        }
    }

    fn line(&mut self, alloc: Global, _: u32, state: &[i128]) -> Result<Vec<u8>, Status> {
        Ok(line_from(alloc, self, state)?)
    }
}
