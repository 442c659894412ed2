// The bounds of a controller of the accelerated machine.
ghost use Rattle.std.specs.Prelude.{◌^◌, pos, ◌≤ℤ◌, unsigned_abs, IfOk};
ghost use Rattle.qp_model.specs.bounds.Printed.{printed};
ghost use Rattle.lean_engine.specs.Engine.Terms.{AreTerms};
ghost use Rattle.fast_bounds.specs.FastTerms.{HasFastUndercutRoom, AreFastPrintedOf};

use dual_bounds::undercut;
use lean_engine::{Run, Terms, fast_violation, fast_violations_after};
use overflow_check::FastController;
use qp_model::Bounds;
use std::alloc::{AllocError, Global};

/// The bounds of a controller of the accelerated machine with these terms, the errors of whose runs cost so much over `2^40`.
pub fn fast_bounds_of(
    alloc: Global,
    terms: Terms,
    controller: &FastController,
    eps: i128,
) -> Result<Bounds, AllocError>
    requires terms { AreTerms terms }
    requires narrow { terms.aim.r ≤ℤ pos (2 ^ 42) }
    requires errors { pos 0 ≤ℤ eps }
    requires small { eps ≤ℤ pos (2 ^ 114) }
    requires fits { HasFastUndercutRoom terms controller.now (unsigned_abs eps) }
    ensures { IfOk result (λ bounds. AreFastPrintedOf terms controller.now (unsigned_abs eps) (printed bounds)) }
{
    let parts = controller.parts();
    let run = Run {
        s: parts.s,
        r: terms.aim.r,
        k: parts.steps,
        eps,
        target: terms.target,
    };
    let violation = fast_violation(run);
    let rows = fast_violations_after(alloc, &parts.exps, run)?;
    Ok(Bounds {
        version: parts.version,
        margin: terms.units,
        lean: terms.target.is_some(),
        cost: terms.cost,
        multiplier: terms.aim.r,
        step: parts.s,
        steps: parts.steps,
        bits: parts.f,
        width: parts.w,
        words: parts.words,
        violation,
        rows,
        gap: eps,
        undercut: undercut(terms.aim.r, terms.target.unwrap_or(violation)),
    })
}
