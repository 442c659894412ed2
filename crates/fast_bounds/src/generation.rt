// From a design, a policy and reference plans to a controller of the accelerated machine and its bounds.
ghost use Rattle.std.specs.Prelude.{◌≡◌, ◌⊎◌, ◌≤ℤ◌, ◌^◌, ℕ, List, pos, unsigned_abs, IfOk, OnOk, IfErr, IsOk, Err};
ghost use Rattle.qp_model.specs.problem.Parts.{design_of};
ghost use Rattle.qp_model.specs.problem.Policy.{plans_of, IsPolicyFor};
ghost use Rattle.qp_model.specs.bounds.Printed.{printed};
ghost use Rattle.qp_model.specs.declared.bounds.Margin.{Margin};
ghost use Rattle.lean_engine.specs.Engine.Targets.{targets_of, IsWithinTargets};
ghost use Rattle.lean_engine.specs.Engine.Aims.{IsSteppedFormOf};
ghost use Rattle.lean_engine.specs.Engine.Terms.{AreTerms};
ghost use Rattle.lean_engine.specs.Refusals.{PassesScaling};
ghost use Rattle.fast_bounds.specs.FastAnswers.{stated_cost_for, IsFastMadeBy, IsFastBuiltAs, TellsOf};
ghost use Rattle.fast_bounds.specs.FastCertified.{IsFastBuilt, IsFastCertified};
ghost use Rattle.fast_bounds.specs.FastRefusals.{HasFastAimCause, HasFastCause, PassesFast, PassesSomeFastAim, PassesSomeFast};

use crate::aimed::fast_controller_for;
use crate::bounds::fast_bounds_of;
use dual_bounds::fast_multiplier;
use lean_engine::{SteppedForm, Terms, excess, floor_target, lean_terms, margins, stepped_form};
use overflow_check::FastController;
use qp_model::{Bounds, Design, Margin, Policy, Refusal};
use std::alloc::Global;

/// A controller of the accelerated machine and its bounds.
#[derive(Drop)]
pub struct FastMade {
    pub controller: FastController,
    pub bounds: Bounds,
    /// What the errors of a run cost at most, over `2^40`, whichever good solutions the gains are: the fraction bits rest on it. The bounds rest on what
    /// these gains leave.
    pub eps: i128,
}

// What is made of a design with these terms: the tests after the step exponent, the controller, and its bounds.
pub(crate) fn fast_made_with(
    alloc: Global,
    design: &Design,
    stepped: &SteppedForm,
    terms: Terms,
) -> Result<FastMade, Refusal>
    requires stepped { IsSteppedFormOf design.now stepped.now }
    requires terms { AreTerms terms }
    requires narrow { terms.aim.r ≤ℤ pos (2 ^ 42) }
    ensures { TellsOf FastMade (IsFastMadeBy design.now terms) (PassesSomeFastAim (design_of design.now) terms.aim stepped.now.s)
        (HasFastAimCause (design_of design.now) terms.aim stepped.now.s) result }
{
    let aimed = fast_controller_for(alloc, design, stepped, terms.aim)?;
    match fast_bounds_of(alloc, terms, &aimed.controller, aimed.cost) {
        Ok(bounds) => Ok(FastMade {
            controller: aimed.controller,
            bounds,
            eps: aimed.eps,
        }),
        Err(_) => {
            drop(aimed);
            Err(Refusal::Memory)
        }
    }
}

// The tests after the step exponent, and what is made.
fn fast_priced(
    alloc: Global,
    design: &Design,
    policy: &Policy,
    reference: &Policy,
    margin: Margin,
    stepped: &SteppedForm,
) -> Result<FastMade, Refusal>
    requires plans { IsPolicyFor (design_of design.now) (plans_of policy.now) }
    requires references { IsPolicyFor (design_of design.now) (plans_of reference.now) }
    requires stepped { IsSteppedFormOf design.now stepped.now }
    requires scaled { PassesScaling (design_of design.now) (targets_of design.now) (plans_of policy.now) margin stepped.now.s }
    ensures { TellsOf FastMade (IsFastBuiltAs design.now (plans_of policy.now) (plans_of reference.now))
        (PassesSomeFast (design_of design.now) (targets_of design.now) (plans_of policy.now) (plans_of reference.now))
        (HasFastCause (design_of design.now) (targets_of design.now) (plans_of policy.now) (plans_of reference.now)) result }
{
    let excess = excess(alloc, &stepped.condensed, design, policy, reference)?;
    let parts = design.parts();
    let r = fast_multiplier(margin.units, excess, floor_target(parts))?;
    let terms = lean_terms(parts, margin.units, excess, r);
    fast_made_with(alloc, design, stepped, terms)
}

// All of the tests, in their order, and what is made.
fn made_fast(
    alloc: Global,
    design: &Design,
    policy: &Policy,
    reference: &Policy,
) -> Result<FastMade, Refusal>
    requires plans { IsPolicyFor (design_of design.now) (plans_of policy.now) }
    requires references { IsPolicyFor (design_of design.now) (plans_of reference.now) }
    ensures { TellsOf FastMade (IsFastBuiltAs design.now (plans_of policy.now) (plans_of reference.now))
        (PassesSomeFast (design_of design.now) (targets_of design.now) (plans_of policy.now) (plans_of reference.now))
        (HasFastCause (design_of design.now) (targets_of design.now) (plans_of policy.now) (plans_of reference.now)) result }
{
    // (a `corner_margin::MarginFault` becomes a refusal here)
    let margin = margins(alloc, design, policy)?;
    let stepped = stepped_form(alloc, design)?;
    let made = fast_priced(alloc, design, policy, reference, margin, &stepped);
    // By a call: at the end of the function each of its matrices would be dropped beside what is made.
    drop(stepped);
    made
}

/// The lean controller of the accelerated machine of a design with a policy and reference plans, each of which has one plan for each corner of the box, and
/// its bounds. The reference plans show how little the policy's cost more than the best without limits: where they are bad, R is larger, and no bound is false.
///
/// # Errors
/// The first test that they fail, in this order: `TooWide` with `prediction`, `corner_slack` or `corner_cost` of the corners; `NoMargin`;
/// `TooWide` with `prediction`, `hessian`, `rows` or `curvature` of the condensed form; `Curvature`; `TooWide` with `excess`, then with `multiplier`;
/// `TooManySteps`; `TooWide` with `error`; `TooFine`; `TooWide` with `descent` or `width`. `Memory` where memory runs out before.
pub fn generate_fast(
    alloc: Global,
    design: &Design,
    policy: &Policy,
    reference: &Policy,
) -> Result<FastMade, Refusal>
    requires plans { IsPolicyFor (design_of design.now) (plans_of policy.now) }
    requires references { IsPolicyFor (design_of design.now) (plans_of reference.now) }

    // What is made, and what it is certified for.
    ensures built { IfOk result (λ made. IsFastBuilt design.now (plans_of policy.now) (plans_of reference.now) made.controller (printed made.bounds)) }
    ensures certified { IfOk result (λ made. IsFastCertified (design_of design.now) made.controller (printed made.bounds)) }
    ensures targets { IfOk result (λ made. IsWithinTargets (targets_of design.now) (printed made.bounds)) }
    ensures errors { IfOk result (λ made.
        made.eps ≡ pos (stated_cost_for (design_of design.now) (unsigned_abs made.bounds.multiplier) made.controller)) }

    ensures passes { OnOk result (PassesSomeFast (design_of design.now) (targets_of design.now) (plans_of policy.now) (plans_of reference.now)) }

    // The cause of a refusal; and the other way round, with nothing but out of memory in between.
    ensures refused { IfErr result (λ e. (e ≡ Refusal.Memory) ⊎
        HasFastCause (design_of design.now) (targets_of design.now) (plans_of policy.now) (plans_of reference.now) e) }
    ensures every_refusal { (e : Refusal) → HasFastCause (design_of design.now) (targets_of design.now) (plans_of policy.now) (plans_of reference.now) e
        → (result ≡ Err e) ⊎ (result ≡ Err Refusal.Memory) }
    ensures accepted { (m : Margin) (s k : ℕ) (exponents : List ℕ) (f : ℕ) →
        PassesFast (design_of design.now) (targets_of design.now) (plans_of policy.now) (plans_of reference.now) m s k exponents f
        → IsOk result ⊎ (result ≡ Err Refusal.Memory) }
{
    // A design keeps its rules; with its numbers read, that is known.
    let _parts = design.parts();
    made_fast(alloc, design, policy, reference)
}
