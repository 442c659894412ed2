// From a design and a policy to a controller and its bounds.
ghost use Rattle.std.specs.Prelude.{◌≡◌, ◌⊎◌, ◌≤ℤ◌, ◌≤◌, ◌^◌, ℕ, pos, unsigned_abs, IfOk, IfErr, IsOk, Err};
ghost use Rattle.qp_model.specs.problem.Parts.{IsDesign, design_of};
ghost use Rattle.qp_model.specs.problem.Policy.{plans_of, IsPolicyFor};
ghost use Rattle.qp_model.specs.bounds.Choices.{multiplier_of, multiplier_size_of};
ghost use Rattle.qp_model.specs.bounds.Printed.{printed};
ghost use Rattle.qp_model.specs.bounds.Certified.{IsCertified};
ghost use Rattle.qp_model.specs.declared.bounds.Margin.{Margin};
ghost use Rattle.design_engine.specs.Targets.{targets_of, half_target, gap_target, error_limit, IsWithinTargets};
ghost use Rattle.design_engine.specs.Aims.{IsSteppedFormOf};
ghost use Rattle.design_engine.specs.Tests.{PassesAim, HasAimCause};
ghost use Rattle.design_engine.specs.Terms.{plain_terms, AreTerms, IsMadeBy, Tells};
ghost use Rattle.design_engine.specs.Bounds.{printed_multiplier, stated_cost};
ghost use Rattle.design_engine.specs.Built.{IsBuilt, IsBuiltAs};
ghost use Rattle.design_engine.specs.Refusals.{HasCause, PassesAll, PassesSome};

use crate::aimed::{Aim, SteppedForm, controller_for, stepped_form};
use crate::bounds::{Terms, bounds_of};
use crate::corners::margins;
use dual_bounds::multiplier;
use overflow_check::Controller;
use qp_model::{Bounds, Design, DesignParts, Margin, Policy, Refusal};
use std::alloc::Global;

/// A controller and its bounds.
#[derive(Drop)]
pub struct Made {
    pub controller: Controller,
    pub bounds: Bounds,
    /// What the errors of a step cost at most, over `2^40`, whichever good solutions the gains are: the steps and the fraction bits rest on it. The
    /// bounds rest on what these gains leave.
    pub eps: i128,
}

/// What is made of a design with these terms: the tests after the step exponent, the controller, and its bounds.
///
/// # Errors
/// The first test that they fail: `TooManySteps`; `TooWide` with `error`; `TooFine`; `TooWide` with `descent` or `width`. `Memory` where memory runs out
/// before.
pub fn made_with(
    alloc: Global,
    design: &Design,
    stepped: &SteppedForm,
    terms: Terms,
) -> Result<Made, Refusal>
    requires stepped { IsSteppedFormOf design.now stepped.now }
    requires terms { AreTerms terms }
    ensures { Tells (IsMadeBy design.now terms) ((f : ℕ) × PassesAim (design_of design.now) terms.aim stepped.now.s f)
        (HasAimCause (design_of design.now) terms.aim stepped.now.s) result }
{
    let aimed = controller_for(alloc, design, stepped, terms.aim)?;
    match bounds_of(alloc, terms, &aimed.controller, aimed.cost) {
        Ok(bounds) => Ok(Made {
            controller: aimed.controller,
            bounds,
            eps: aimed.eps,
        }),
        Err(_) => {
            drop(aimed);
            Err(Refusal::Memory)
        }
    }
}

// Half the target of the violation, over `2^40`, rounded down.
fn half_target(parts: &DesignParts) -> i128
    requires { IsDesign parts.now }
    ensures { result ≡ pos (half_target (targets_of parts.now)) }
{
    (parts.violation << 39) / parts.target_den
}

/// The target of the gap, over `2^40`, rounded down.
pub fn gap_target(parts: &DesignParts) -> i128
    requires { IsDesign parts.now }
    ensures { result ≡ pos (gap_target (targets_of parts.now)) }
{
    (parts.gap << 40) / parts.target_den
}

// What the errors of a step may cost, over `2^40`.
fn error_limit(parts: &DesignParts, r: i128) -> i128
    requires design { IsDesign parts.now }
    requires some { pos 1 ≤ℤ r }
    requires narrow { r ≤ℤ pos (2 ^ 44) }
    ensures { result ≡ pos (error_limit (targets_of parts.now) (unsigned_abs r)) }
{
    gap_target(parts).min(r * half_target(parts))
}

/// What the targets ask for with a margin and its R.
pub fn plain_terms(parts: &DesignParts, margin: &Margin, r: i128) -> Terms
    requires design { IsDesign parts.now }
    requires bound { r ≡ pos (multiplier_of margin.now) }
    requires room { multiplier_size_of margin.now ≤ 2 ^ 126 }
    ensures { result ≡ plain_terms (targets_of parts.now) margin.now }
{
    let aim = Aim {
        r,
        step_target: half_target(parts),
        error_target: error_limit(parts, r),
    };
    Terms {
        aim,
        units: margin.units,
        cost: margin.cost,
        target: None,
    }
}

// All of the tests, in their order, and what is made.
fn made_plainly(alloc: Global, design: &Design, policy: &Policy) -> Result<Made, Refusal>
    requires { IsPolicyFor (design_of design.now) (plans_of policy.now) }
    ensures { Tells (IsBuiltAs design.now (plans_of policy.now))
        (PassesSome (design_of design.now) (targets_of design.now) (plans_of policy.now))
        (HasCause (design_of design.now) (targets_of design.now) (plans_of policy.now)) result }
{
    let margin = margins(alloc, design, policy)?;
    let r = multiplier(&margin)?;
    let stepped = stepped_form(alloc, design)?;
    let terms = plain_terms(design.parts(), &margin, r);
    let made = made_with(alloc, design, &stepped, terms);
    // By a call: at the end of the function each of its matrices would be dropped beside what is made.
    drop(stepped);
    made
}

/// The controller of a design with a policy, which has one plan for each corner of the box, and its bounds.
///
/// # Errors
/// The first test that they fail, in this order: `TooWide` with `prediction`, `corner_slack` or `corner_cost` of the corners; `NoMargin`;
/// `TooWide` with `multiplier`, or with `prediction`, `hessian`, `rows` or `curvature` of the condensed form; `Curvature`; `TooManySteps`;
/// `TooWide` with `error`; `TooFine`; `TooWide` with `descent` or `width`. `Memory` where memory runs out before.
pub fn generate(alloc: Global, design: &Design, policy: &Policy) -> Result<Made, Refusal>
    requires { IsPolicyFor (design_of design.now) (plans_of policy.now) }

    // What is made, and what it is certified for.
    ensures built { IfOk result (λ made. IsBuilt design.now (plans_of policy.now) made.controller (printed made.bounds)) }
    ensures certified { IfOk result (λ made. IsCertified (design_of design.now) made.controller (printed made.bounds)) }
    ensures targets { IfOk result (λ made. IsWithinTargets (targets_of design.now) (printed made.bounds)) }
    ensures errors { IfOk result (λ made.
        made.eps ≡ pos (stated_cost (design_of design.now) (printed_multiplier (printed made.bounds)) made.controller.fraction_bits)) }

    // The cause of a refusal; and the other way round, with nothing but out of memory in between.
    ensures refused { IfErr result (λ e. (e ≡ Refusal.Memory) ⊎ HasCause (design_of design.now) (targets_of design.now) (plans_of policy.now) e) }
    ensures every_refusal { (e : Refusal) → HasCause (design_of design.now) (targets_of design.now) (plans_of policy.now) e
        → (result ≡ Err e) ⊎ (result ≡ Err Refusal.Memory) }
    ensures accepted { (m : Margin) (s f : ℕ) → PassesAll (design_of design.now) (targets_of design.now) (plans_of policy.now) m s f
        → IsOk result ⊎ (result ≡ Err Refusal.Memory) }
{
    // A design keeps its rules; with its numbers read, that is known.
    let _parts = design.parts();
    made_plainly(alloc, design, policy)
}
