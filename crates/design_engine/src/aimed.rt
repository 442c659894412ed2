// A controller of a design that is made with an aim: the tests of the form, of the steps, the bits and the sums.
ghost use Rattle.std.specs.Prelude.{ℕ, unsigned_abs, IfOk, IfErr, OnOk};
ghost use Rattle.qp_model.specs.machine.AbsoluteSums.{IsController};
ghost use Rattle.controller_maker.specs.Assembled.{IsAssembled};
ghost use Rattle.qp_model.specs.problem.Parts.{design_of};
ghost use Rattle.qp_model.specs.form.Curvature.{AreExponents, IsExponent};
ghost use Rattle.condensed_form.specs.Form.{IsFormOf};
ghost use Rattle.hessian_check.specs.Steps.{IsExponentOf, OfDesign};
ghost use Rattle.hessian_check.specs.RowExponents.{exponent_in, AreExponentsOf};
ghost use Rattle.design_engine.specs.Aims.{IsAim, IsSteppedFormOf, IsAimedOf};
ghost use Rattle.design_engine.specs.Tests.{PassesForm, HasFormCause, PassesAim, HasAimCause, IsRefusedFor};
ghost use Rattle.design_engine.specs.StepsAndBits.{AreStepsAndBitsOf};

use crate::condensing::condense;
use crate::residuals::real_cost;
use approx_inverse::solve_all;
use condensed_form::Condensed;
use controller_maker::{Settings, controller_of};
use dual_bounds::steps;
use hessian_check::{curvature, exponents};
use overflow_check::Controller;
use qp_model::{Design, FIRST_VERSION, Refusal};
use std::alloc::{AllocError, Global};
use step_error::{Choice, ErrorSums, choose_bits, error_sums};

/// What a controller is made with beside its design: R, which bounds the multipliers; what the steps may leave of the violation, and what the errors of a
/// step may cost, both over `2^40`.
#[derive(Clone, Copy)]
pub struct Aim {
    pub r: i128,
    pub step_target: i128,
    pub error_target: i128,
}

/// A design's condensed form and its step exponent.
#[derive(Drop)]
pub struct SteppedForm {
    pub condensed: Condensed,
    pub s: u32,
}

// The number of steps, the sums of the rounding errors, and the fraction bits with what the errors of a step cost by these.
#[derive(Clone, Copy)]
pub(crate) struct StepsAndBits {
    pub(crate) steps: u32,
    pub(crate) sums: ErrorSums,
    pub(crate) choice: Choice,
}

/// A controller that is made with an aim.
#[derive(Drop)]
pub(crate) struct Aimed {
    pub controller: Controller,
    /// What the errors of a step cost at most, over `2^40`, by the residuals that its gains leave.
    pub cost: i128,
    /// The same whichever good solutions the gains are, on which the steps and the fraction bits rest.
    pub eps: i128,
}

/// The condensed form of a design, and its step exponent.
///
/// # Errors
/// The first test that they fail: `TooWide` with `prediction`, `hessian`, `rows` or `curvature` of the condensed form; `Curvature`. `Memory` where memory
/// runs out before.
pub fn stepped_form(alloc: Global, design: &Design) -> Result<SteppedForm, Refusal>
    ensures stepped { IfOk result (IsSteppedFormOf design.now) }
    ensures passes { OnOk result (PassesForm (design_of design.now)) }
    ensures refused { IfErr result (IsRefusedFor (HasFormCause (design_of design.now))) }
{
    let condensed = condense(alloc, design)?;
    match curvature(alloc, &condensed) {
        Ok(exponents) => Ok(SteppedForm {
            condensed,
            s: exponents.s,
        }),
        Err(fault) => {
            drop(condensed);
            Err(Refusal::from(fault))
        }
    }
}

// The number of steps and the fraction bits. It takes no memory.
fn steps_and_bits(design: &Design, stepped: &SteppedForm, aim: Aim) -> Result<StepsAndBits, Refusal>
    requires stepped { IsSteppedFormOf design.now stepped.now }
    requires aim { IsAim aim }
    ensures chosen { IfOk result (AreStepsAndBitsOf design.now aim stepped.now) }
    ensures refused { IfErr result (HasAimCause (design_of design.now) aim stepped.now.s) }
{
    let steps = steps(stepped.s, aim.r, aim.step_target)?;
    let sums = error_sums(&stepped.condensed, design, aim.r)?;
    let choice = choose_bits(&sums, design.parts().grid, aim.error_target)?;
    Ok(StepsAndBits {
        steps,
        sums,
        choice,
    })
}

/// The step exponents of the rows of a design with the step exponent `s`, by its version: in the first all of them are `s`.
pub fn row_exponents(
    alloc: Global,
    design: &Design,
    condensed: &Condensed,
    s: u32,
) -> Result<Vec<u32>, AllocError>
    requires form { IsFormOf design.now condensed.now }
    requires chosen { OfDesign condensed.now (λ d. IsExponentOf d s) }
    requires curved { IsExponent (design_of design.now) s }
    ensures list { IfOk result (λ es. AreExponentsOf (design_of design.now) s es.items) }
    ensures curved { IfOk result (λ es. AreExponents (design_of design.now) (exponent_in es.items) s) }
{
    if design.parts().version == FIRST_VERSION {
        vec![in alloc; s; condensed.g.rows()]
    } else {
        exponents(alloc, condensed, s)
    }
}

// The last tests, and the controller.
fn controller_by(
    alloc: Global,
    design: &Design,
    stepped: &SteppedForm,
    chosen: &StepsAndBits,
    aim: Aim,
) -> Result<Controller, Refusal>
    requires stepped { IsSteppedFormOf design.now stepped.now }
    requires aim { IsAim aim }
    requires chosen { AreStepsAndBitsOf design.now aim stepped.now chosen.now }
    ensures sound { IfOk result IsController }
    ensures made { IfOk result (λ c.
        IsAssembled (design_of design.now) (unsigned_abs aim.r) stepped.now.s c.exponents chosen.now.steps chosen.now.choice.f c) }
    ensures exponents { IfOk result (λ c. AreExponentsOf (design_of design.now) stepped.now.s c.exponents) }
    ensures curved { IfOk result (λ c. AreExponents (design_of design.now) (exponent_in c.exponents) stepped.now.s) }
    ensures passes { OnOk result (PassesAim (design_of design.now) aim stepped.now.s chosen.now.choice.f) }
    ensures refused { IfErr result (IsRefusedFor (HasAimCause (design_of design.now) aim stepped.now.s)) }
{
    let gains = solve_all(alloc, &stepped.condensed, chosen.choice.f)?;
    let Ok(exps) = row_exponents(alloc, design, &stepped.condensed, stepped.s) else {
        drop(gains);
        return Err(Refusal::Memory);
    };
    let settings = Settings {
        s: stepped.s,
        f: chosen.choice.f,
        steps: chosen.steps,
        r: aim.r,
    };
    Ok(controller_of(alloc, design, &stepped.condensed, settings, exps, gains)?)
}

/// The controller of a design that is made with an aim, and what the errors of its steps cost.
///
/// # Errors
/// The first test that they fail: `TooManySteps`; `TooWide` with `error`; `TooFine`; `TooWide` with `descent` or `width`. `Memory` where memory runs out
/// before.
pub(crate) fn controller_for(
    alloc: Global,
    design: &Design,
    stepped: &SteppedForm,
    aim: Aim,
) -> Result<Aimed, Refusal>
    requires stepped { IsSteppedFormOf design.now stepped.now }
    requires aim { IsAim aim }
    ensures made { IfOk result (IsAimedOf design.now aim) }
    ensures passes { OnOk result ((f : ℕ) × PassesAim (design_of design.now) aim stepped.now.s f) }
    ensures refused { IfErr result (IsRefusedFor (HasAimCause (design_of design.now) aim stepped.now.s)) }
{
    let chosen = steps_and_bits(design, stepped, aim)?;
    let controller = controller_by(alloc, design, stepped, &chosen, aim)?;
    let cost = real_cost(&stepped.condensed, &chosen.sums, &controller);
    Ok(Aimed {
        controller,
        cost,
        eps: chosen.choice.eps,
    })
}
