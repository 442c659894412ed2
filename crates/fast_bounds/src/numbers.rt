// The numbers of a run of the accelerated machine.
ghost use Rattle.std.specs.Prelude.{◌≤◌, unsigned_abs, IfOk, IfErr};
ghost use Rattle.qp_model.specs.problem.Parts.{design_of};
ghost use Rattle.qp_model.specs.form.Curvature.{AreExponents};
ghost use Rattle.lean_engine.specs.Engine.RowExponents.{exponent_in, AreExponentsOf};
ghost use Rattle.overflow_check.specs.FastController.{most_fast_steps};
ghost use Rattle.lean_engine.specs.Engine.Aims.{IsAim, IsSteppedFormOf};
ghost use Rattle.fast_bounds.specs.FastRefusals.{AreStepsFor, HasFastAimCause};
ghost use Rattle.fast_bounds.specs.FastTerms.{AreRunNumbersOf};

use lean_engine::{Aim, SteppedForm};
use qp_model::{Design, Refusal};
use step_error::{Choice, ErrorSums, choose_bits, error_sums, run_sums};

/// The sums of the errors of a run, and the fraction bits with what these cost by them.
#[derive(Clone, Copy)]
pub struct RunNumbers {
    pub sums: ErrorSums,
    pub choice: Choice,
}

/// The fraction bits of a run of `steps` steps, where the rows have these step exponents. It takes no memory.
///
/// # Errors
/// `TooWide` with `error`; `TooFine`.
pub fn run_numbers(
    design: &Design,
    stepped: &SteppedForm,
    aim: Aim,
    steps: u32,
    exps: &[u32],
) -> Result<RunNumbers, Refusal>
    requires stepped { IsSteppedFormOf design.now stepped.now }
    requires aim { IsAim aim }
    requires steps { AreStepsFor aim stepped.now.s steps }
    requires few { steps ≤ most_fast_steps }
    requires exponents { AreExponentsOf (design_of design.now) stepped.now.s exps.now }
    requires curved { AreExponents (design_of design.now) (exponent_in exps.now) stepped.now.s }
    ensures chosen { IfOk result (AreRunNumbersOf design.now aim stepped.now.s steps exps.now) }
    ensures refused { IfErr result (HasFastAimCause (design_of design.now) aim stepped.now.s) }
{
    let step = error_sums(&stepped.condensed, design, aim.r)?;
    let sums = run_sums(
        &stepped.condensed,
        design,
        &step,
        aim.r,
        steps,
        stepped.s,
        exps,
    )?;
    let choice = choose_bits(&sums, design.parts().grid, aim.error_target)?;
    Ok(RunNumbers { sums, choice })
}
