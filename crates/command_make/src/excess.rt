// By how much the plans of a controller exceed the rows.
ghost use Rattle.std.specs.Prelude.{◌≡◌, ◌≤ℤ◌, pos, ◌^◌, true, false, IfOk};
ghost use Rattle.qp_model.specs.problem.Runs.{Holds};
ghost use Rattle.command_generate.specs.Engine.Targets.{targets_of};
ghost use Rattle.command_make.specs.Checking.{AreSmall};
ghost use Rattle.command_make.specs.Excess.{made_excess, target_by};
ghost use Rattle.command_make.specs.Made.{reference_of};

use command_generate::{Made, violations_after};
use fast_bounds::{FastMade, Run, fast_violations_after};
use lean_engine::violation_target;
use qp_model::{Design, Policy};
use std::alloc::{AllocError, Global};

// The violation that a repair is known for, where that isn't known for all.
fn known_target(design: &Design, reference: &Option<Policy>) -> Option<i128>
    ensures { result ≡ target_by (targets_of design.now) (reference_of reference.now) }
{
    match reference {
        Some(_) => Some(violation_target(design.parts())),
        None => None,
    }
}

/// By how much each row is exceeded at most, over `2^40`, whichever good solutions the controller's gains are.
pub fn row_excess(
    alloc: Global,
    design: &Design,
    reference: &Option<Policy>,
    made: &Made,
) -> Result<Vec<i128>, AllocError>
    requires { AreSmall made.now.bounds.multiplier made.now.eps }
    ensures { IfOk result (λ v. Holds v.items made.now.controller.rows
        (made_excess false (target_by (targets_of design.now) (reference_of reference.now)) made.now.controller made.now.bounds.multiplier made.now.eps)) }
{
    let c = made.controller.parts();
    let run = Run {
        s: c.s,
        r: made.bounds.multiplier,
        k: c.steps,
        eps: made.eps,
        target: known_target(design, reference),
    };
    violations_after(alloc, &c.exps, run)
}

/// That of a controller of the accelerated machine.
pub fn fast_excess(
    alloc: Global,
    design: &Design,
    reference: &Option<Policy>,
    made: &FastMade,
) -> Result<Vec<i128>, AllocError>
    requires small { AreSmall made.now.bounds.multiplier made.now.eps }
    requires narrow { made.now.bounds.multiplier ≤ℤ pos (2 ^ 42) }
    ensures { IfOk result (λ v. Holds v.items made.now.controller.rows
        (made_excess true (target_by (targets_of design.now) (reference_of reference.now)) made.now.controller made.now.bounds.multiplier made.now.eps)) }
{
    let c = made.controller.parts();
    let run = Run {
        s: c.s,
        r: made.bounds.multiplier,
        k: c.steps,
        eps: made.eps,
        target: known_target(design, reference),
    };
    fast_violations_after(alloc, &c.exps, run)
}
