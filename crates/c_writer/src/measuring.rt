// What is made of a controller before its text.
ghost use Rattle.std.specs.Prelude.{◌≡◌, IfOk};
ghost use Rattle.qp_model.specs.machine.Controller.{numbers};
ghost use Rattle.qp_model.specs.machine.AbsoluteSums.{IsController};
ghost use Rattle.overflow_check.specs.FastController.{with_last_version};
ghost use Rattle.overflow_check.specs.Machines.{IsControllerFor};
ghost use Rattle.c_program.specs.InParts.{is_parted};
ghost use Rattle.c_writer.specs.Measured.{AreListsOf};

use crate::measured::{Lists, Measured};
use crate::opposite::partners;
use crate::tops::{plan_tops, state_tops};
use overflow_check::Machine;
use qp_model::ControllerParts;
use std::alloc::{AllocError, Global};

// Whether the sums of a controller's program are made in two parts.
fn is_parted(c: &ControllerParts) -> bool
    ensures { result ≡ is_parted (numbers c.now) }
{
    c.w > 64
}

/// The greatest absolute values, and the partner of each row.
pub fn lists_of(alloc: Global, c: &ControllerParts) -> Result<Lists, AllocError>
    requires { IsController (with_last_version (numbers c.now)) }
    ensures { IfOk result (AreListsOf (numbers c.now)) }
{
    let states = state_tops(alloc, c)?;
    let plan = plan_tops(alloc, c)?;
    let partners = partners(alloc, c)?;
    Ok(Lists {
        states,
        plan,
        partners,
    })
}

/// A controller with these.
pub fn measured<'a>(
    alloc: Global,
    machine: Machine,
    c: &'a ControllerParts,
    lists: &'a Lists,
) -> Measured<'a>
    requires controller { IsControllerFor machine (numbers c.now) }
    requires lists { AreListsOf (numbers c.now) lists.now }
    ensures machine { result.machine ≡ machine }
    ensures controller { numbers result.c.now ≡ numbers c.now }
{
    Measured {
        alloc,
        machine,
        parted: is_parted(c),
        c,
        states: &lists.states,
        plan: &lists.plan,
        partners: &lists.partners,
    }
}
