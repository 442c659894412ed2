// How often a kernel asks for memory. Nothing here counts: `checks/faults/kernel_requests.py` runs each test alone, and compares how many requests each made.
ghost use Rattle.std.specs.Prelude.{◌≡◌};

use crate::controllers::controller;
use fixed_kernel::Kernel;
use overflow_check::Controller;
use std::alloc::Global;
use std::test::Fail;

// Clamp and width. The factors of the first machine pass 64 bits; a run of the second is made in words of 64.
static WIDE: (i128, u32) = (1 << 63, 80);

static NARROW: (i128, u32) = (32768, 26);

fn prepares(alloc: Global, controller: &Controller) -> Result<bool, Fail> {
    let kernel = Kernel::prepare(alloc, controller)?;
    Ok(kernel.controller().parts().words == 6)
}

fn prepares_and_runs(alloc: Global, controller: &Controller) -> Result<bool, Fail>
    requires { controller.now.states ≡ 1 }
{
    let mut kernel = Kernel::prepare(alloc, controller)?;
    Ok(kernel.run(&[1]).is_ok())
}

// Whether a controller is made.
fn makes(alloc: Global, (clamp, w): (i128, u32)) -> Result<bool, Fail> {
    let controller = controller(alloc, 1, clamp, w, [1, 1, 1])?;
    Ok(controller.parts().words == 6)
}

// And a kernel with it.
fn makes_kernel(alloc: Global, (clamp, w): (i128, u32)) -> Result<bool, Fail> {
    let controller = controller(alloc, 1, clamp, w, [1, 1, 1])?;
    prepares(alloc, &controller)
}

// And that makes a run.
fn makes_run(alloc: Global, (clamp, w): (i128, u32)) -> Result<bool, Fail> {
    let controller = controller(alloc, 1, clamp, w, [1, 1, 1])?;
    prepares_and_runs(alloc, &controller)
}

#[test]
fn wide_controller(rt: HostRuntime) -> Result<(), Fail> {
    assert!(rt; makes(rt.alloc(), WIDE)?);
    Ok(())
}

#[test]
fn wide_kernel(rt: HostRuntime) -> Result<(), Fail> {
    assert!(rt; makes_kernel(rt.alloc(), WIDE)?);
    Ok(())
}

#[test]
fn wide_run(rt: HostRuntime) -> Result<(), Fail> {
    assert!(rt; makes_run(rt.alloc(), WIDE)?);
    Ok(())
}

#[test]
fn narrow_controller(rt: HostRuntime) -> Result<(), Fail> {
    assert!(rt; makes(rt.alloc(), NARROW)?);
    Ok(())
}

#[test]
fn narrow_kernel(rt: HostRuntime) -> Result<(), Fail> {
    assert!(rt; makes_kernel(rt.alloc(), NARROW)?);
    Ok(())
}

#[test]
fn narrow_run(rt: HostRuntime) -> Result<(), Fail> {
    assert!(rt; makes_run(rt.alloc(), NARROW)?);
    Ok(())
}
