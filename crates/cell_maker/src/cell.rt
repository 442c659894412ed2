// The controller of one cell.
ghost use Rattle.std.specs.Prelude.{true, false};
ghost use Rattle.qp_model.specs.problem.Parts.{design_of};
ghost use Rattle.qp_model.specs.problem.Policy.{plans_of, IsPolicyFor};
ghost use Rattle.cell_split.specs.Cells.{AreCutsFor, IsCell};
ghost use Rattle.cell_maker.specs.Made.{GeneratesBy, GeneratesCell};

use cell_split::{Cuts, cell_design};
use controller_file::AnyController;
use design_engine::generate;
use fast_bounds::generate_fast_by_margin;
use qp_model::{Bounds, Design, Policy, Refusal};
use std::alloc::Global;

/// A controller of either machine and its bounds.
#[derive(Drop)]
pub(crate) struct MadeCell {
    pub controller: AnyController,
    pub bounds: Bounds,
}

// What `generate` makes of a design with a policy, by the plain machine.
fn made_plainly(alloc: Global, design: &Design, policy: &Policy) -> Result<MadeCell, Refusal>
    requires { IsPolicyFor (design_of design.now) (plans_of policy.now) }
    ensures { GeneratesBy false design.now (plans_of policy.now) result }
{
    match generate(alloc, design, policy) {
        Ok(made) => Ok(MadeCell {
            controller: AnyController::Plain(made.controller),
            bounds: made.bounds,
        }),
        Err(refusal) => Err(refusal),
    }
}

// The same by the accelerated machine.
fn made_fast(alloc: Global, design: &Design, policy: &Policy) -> Result<MadeCell, Refusal>
    requires { IsPolicyFor (design_of design.now) (plans_of policy.now) }
    ensures { GeneratesBy true design.now (plans_of policy.now) result }
{
    match generate_fast_by_margin(alloc, design, policy) {
        Ok(made) => Ok(MadeCell {
            controller: AnyController::Fast(made.controller),
            bounds: made.bounds,
        }),
        Err(refusal) => Err(refusal),
    }
}

// By the machine that is asked for.
fn made_by(alloc: Global, design: &Design, fast: bool, policy: &Policy) -> Result<MadeCell, Refusal>
    requires { IsPolicyFor (design_of design.now) (plans_of policy.now) }
    ensures { GeneratesBy fast design.now (plans_of policy.now) result }
{
    if fast {
        made_fast(alloc, design, policy)
    } else {
        made_plainly(alloc, design, policy)
    }
}

/// What `generate` makes of the design of a cell, from 1, with a policy, by the machine that is asked for.
pub(crate) fn make_cell(
    alloc: Global,
    design: &Design,
    fast: bool,
    cuts: &Cuts,
    policy: &Policy,
    cell: u32,
) -> Result<MadeCell, Refusal>
    requires cuts { AreCutsFor (design_of design.now) cuts.now }
    requires cell { IsCell cuts.now cell }
    requires policy { IsPolicyFor (design_of design.now) (plans_of policy.now) }
    ensures { GeneratesCell design.now fast cuts.now cell (plans_of policy.now) result }
{
    let part = cell_design(alloc, design, cuts, cell)?;
    let made = made_by(alloc, &part, fast, policy);
    drop(part);
    made
}
