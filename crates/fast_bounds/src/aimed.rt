// A controller of the accelerated machine that is made with an aim: its steps, the exponents of its rows, its bits, and what the errors of a run of it cost.
ghost use Rattle.std.specs.Prelude.{◌^◌, pos, ◌≤ℤ◌, unsigned_abs, IfOk, IfErr};
ghost use Rattle.qp_model.specs.problem.Parts.{design_of};
ghost use Rattle.lean_engine.specs.Engine.Aims.{IsAim, IsSteppedFormOf};
ghost use Rattle.lean_engine.specs.Engine.Tests.{IsRefusedFor};
ghost use Rattle.fast_bounds.specs.FastAnswers.{IsRunForAim, IsFastAimedOf, TellsOf};
ghost use Rattle.fast_bounds.specs.FastRefusals.{HasFastAimCause, PassesSomeFastAim};

use crate::controller::fast_controller_with;
use crate::numbers::{RunNumbers, run_numbers};
use crate::residuals::fast_real_cost;
use dual_bounds::fast_steps;
use lean_engine::{Aim, SteppedForm, row_exponents};
use overflow_check::FastController;
use qp_model::{Design, Refusal};
use std::alloc::Global;

// A run as an aim asks for it: its steps, the step exponents of its rows, and its numbers.
#[derive(Drop)]
pub(crate) struct FastRun {
    pub(crate) steps: u32,
    pub(crate) exps: Vec<u32>,
    pub(crate) numbers: RunNumbers,
}

// A controller that is made with an aim.
#[derive(Drop)]
pub(crate) struct FastAimed {
    pub(crate) controller: FastController,
    // What the errors of a run of it cost at most, over `2^40`, by the residuals that its gains leave.
    pub(crate) cost: i128,
    // The same whichever good solutions the gains are, on which the steps and the fraction bits rest.
    pub(crate) eps: i128,
}

// The run that an aim asks for.
fn fast_run(
    alloc: Global,
    design: &Design,
    stepped: &SteppedForm,
    aim: Aim,
) -> Result<FastRun, Refusal>
    requires stepped { IsSteppedFormOf design.now stepped.now }
    requires aim { IsAim aim }
    requires narrow { aim.r ≤ℤ pos (2 ^ 42) }
    ensures chosen { IfOk result (IsRunForAim design.now aim stepped.now.s) }
    ensures refused { IfErr result (IsRefusedFor (HasFastAimCause (design_of design.now) aim stepped.now.s)) }
{
    let steps = fast_steps(stepped.s, aim.r, aim.step_target)?;
    let exps = row_exponents(alloc, design, &stepped.condensed, stepped.s)?;
    let numbers = run_numbers(design, stepped, aim, steps, &exps)?;
    Ok(FastRun {
        steps,
        exps,
        numbers,
    })
}

// The controller of a design that is made with an aim, and what the errors of a run of it cost.
pub(crate) fn fast_controller_for(
    alloc: Global,
    design: &Design,
    stepped: &SteppedForm,
    aim: Aim,
) -> Result<FastAimed, Refusal>
    requires stepped { IsSteppedFormOf design.now stepped.now }
    requires aim { IsAim aim }
    requires narrow { aim.r ≤ℤ pos (2 ^ 42) }
    ensures { TellsOf FastAimed (IsFastAimedOf design.now aim) (PassesSomeFastAim (design_of design.now) aim stepped.now.s)
        (HasFastAimCause (design_of design.now) aim stepped.now.s) result }
{
    let chosen = fast_run(alloc, design, stepped, aim)?;
    let numbers = chosen.numbers;
    let controller = fast_controller_with(
        alloc,
        design,
        stepped,
        aim,
        chosen.steps,
        chosen.exps,
        numbers.choice.f,
    )?;
    let cost = fast_real_cost(design, &stepped.condensed, &numbers.sums, &controller);
    Ok(FastAimed {
        controller,
        cost,
        eps: numbers.choice.eps,
    })
}
