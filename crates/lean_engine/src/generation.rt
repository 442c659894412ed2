// From a design, a policy and reference plans to a lean controller and its bounds.
ghost use Rattle.std.specs.Prelude.{◌≡◌, ◌⊎◌, ◌≤ℤ◌, ◌≤◌, ◌^◌, ℕ, pos, unsigned_abs, IfOk, OnOk, IfErr, IsOk, Err};
ghost use Rattle.qp_model.specs.problem.Parts.{IsDesign, design_of};
ghost use Rattle.qp_model.specs.problem.Policy.{plans_of, IsPolicyFor};
ghost use Rattle.qp_model.specs.bounds.Choices.{lean_multiplier_size};
ghost use Rattle.qp_model.specs.bounds.Printed.{printed};
ghost use Rattle.qp_model.specs.bounds.Certified.{IsCertified};
ghost use Rattle.qp_model.specs.declared.bounds.Margin.{Margin};
ghost use Rattle.design_engine.specs.Targets.{targets_of, floor_target, IsWithinTargets};
ghost use Rattle.design_engine.specs.Aims.{IsSteppedFormOf};
ghost use Rattle.design_engine.specs.Terms.{Tells};
ghost use Rattle.design_engine.specs.Bounds.{stated_cost};
ghost use Rattle.lean_engine.specs.Lean.{bound_of, lean_terms, IsLeanBuilt, IsLeanBuiltAs};
ghost use Rattle.lean_engine.specs.Refusals.{HasLeanCause, PassesScaling, PassesLean, PassesSomeLean};

use crate::targets::{floor_target, rest_target, step_target, violation_target};
use design_engine::{
    Aim, Made, Refusal, SteppedForm, Terms, gap_target, made_with, margins, stepped_form,
};
use dual_bounds::lean_multiplier;
use plan_excess::excess;
use qp_model::{Design, DesignParts, Margin, Policy};
use std::alloc::Global;

/// What the targets ask for with a slack, an excess and their R.
pub fn lean_terms(parts: &DesignParts, units: i128, excess: i128, r: i128) -> Terms
    requires design { IsDesign parts.now }
    requires units { pos 1 ≤ℤ units }
    requires excess { pos 0 ≤ℤ excess }
    requires bound { r ≡ pos (bound_of (targets_of parts.now) (unsigned_abs units) (unsigned_abs excess)) }
    requires room { lean_multiplier_size (unsigned_abs units) (unsigned_abs excess) (floor_target (targets_of parts.now)) ≤ 2 ^ 126 }
    ensures { result ≡ lean_terms (targets_of parts.now) (unsigned_abs units) (unsigned_abs excess) }
{
    let aim = Aim {
        r,
        step_target: step_target(parts),
        error_target: gap_target(parts).min(r * rest_target(parts)),
    };
    Terms {
        aim,
        units,
        cost: excess,
        target: Some(violation_target(parts)),
    }
}

// The tests after the step exponent, and what is made.
fn priced(
    alloc: Global,
    design: &Design,
    policy: &Policy,
    reference: &Policy,
    margin: Margin,
    stepped: &SteppedForm,
) -> Result<Made, Refusal>
    requires plans { IsPolicyFor (design_of design.now) (plans_of policy.now) }
    requires references { IsPolicyFor (design_of design.now) (plans_of reference.now) }
    requires stepped { IsSteppedFormOf design.now stepped.now }
    requires scaled { PassesScaling (design_of design.now) (targets_of design.now) (plans_of policy.now) margin stepped.now.s }
    ensures { Tells (IsLeanBuiltAs design.now (plans_of policy.now) (plans_of reference.now))
        (PassesSomeLean (design_of design.now) (targets_of design.now) (plans_of policy.now) (plans_of reference.now))
        (HasLeanCause (design_of design.now) (targets_of design.now) (plans_of policy.now) (plans_of reference.now)) result }
{
    let excess = excess(alloc, &stepped.condensed, design, policy, reference)?;
    let parts = design.parts();
    let r = lean_multiplier(margin.units, excess, floor_target(parts))?;
    let terms = lean_terms(parts, margin.units, excess, r);
    made_with(alloc, design, stepped, terms)
}

// All of the tests, in their order, and what is made.
fn made_leanly(
    alloc: Global,
    design: &Design,
    policy: &Policy,
    reference: &Policy,
) -> Result<Made, Refusal>
    requires plans { IsPolicyFor (design_of design.now) (plans_of policy.now) }
    requires references { IsPolicyFor (design_of design.now) (plans_of reference.now) }
    ensures { Tells (IsLeanBuiltAs design.now (plans_of policy.now) (plans_of reference.now))
        (PassesSomeLean (design_of design.now) (targets_of design.now) (plans_of policy.now) (plans_of reference.now))
        (HasLeanCause (design_of design.now) (targets_of design.now) (plans_of policy.now) (plans_of reference.now)) result }
{
    // (a `corner_margin::MarginFault` becomes a refusal here)
    let margin = margins(alloc, design, policy)?;
    let stepped = stepped_form(alloc, design)?;
    let made = priced(alloc, design, policy, reference, margin, &stepped);
    // By a call: at the end of the function each of its matrices would be dropped beside what is made.
    drop(stepped);
    made
}

/// The lean controller of a design with a policy and reference plans, each of which has one plan for each corner of the box, and its bounds. The reference
/// plans show how little the policy's cost more than the best without limits: where they are bad, R is larger, and no bound is false.
///
/// # Errors
/// The first test that they fail, in this order: `TooWide` with `prediction`, `corner_slack` or `corner_cost` of the corners; `NoMargin`;
/// `TooWide` with `prediction`, `hessian`, `rows` or `curvature` of the condensed form; `Curvature`; `TooWide` with `excess`, then with `multiplier`;
/// `TooManySteps`; `TooWide` with `error`; `TooFine`; `TooWide` with `descent` or `width`. `Memory` where memory runs out before.
pub fn generate_lean(
    alloc: Global,
    design: &Design,
    policy: &Policy,
    reference: &Policy,
) -> Result<Made, Refusal>
    requires plans { IsPolicyFor (design_of design.now) (plans_of policy.now) }
    requires references { IsPolicyFor (design_of design.now) (plans_of reference.now) }

    // What is made, and what it is certified for.
    ensures built { IfOk result (λ made. IsLeanBuilt design.now (plans_of policy.now) (plans_of reference.now) made.controller (printed made.bounds)) }
    ensures certified { IfOk result (λ made. IsCertified (design_of design.now) made.controller (printed made.bounds)) }
    ensures targets { IfOk result (λ made. IsWithinTargets (targets_of design.now) (printed made.bounds)) }
    ensures errors { IfOk result (λ made.
        made.eps ≡ pos (stated_cost (design_of design.now) (unsigned_abs made.bounds.multiplier) made.controller.fraction_bits)) }

    ensures passes { OnOk result (PassesSomeLean (design_of design.now) (targets_of design.now) (plans_of policy.now) (plans_of reference.now)) }

    // The cause of a refusal; and the other way round, with nothing but out of memory in between.
    ensures refused { IfErr result (λ e. (e ≡ Refusal.Memory) ⊎
        HasLeanCause (design_of design.now) (targets_of design.now) (plans_of policy.now) (plans_of reference.now) e) }
    ensures every_refusal { (e : Refusal) → HasLeanCause (design_of design.now) (targets_of design.now) (plans_of policy.now) (plans_of reference.now) e
        → (result ≡ Err e) ⊎ (result ≡ Err Refusal.Memory) }
    ensures accepted { (m : Margin) (s f : ℕ) →
        PassesLean (design_of design.now) (targets_of design.now) (plans_of policy.now) (plans_of reference.now) m s f
        → IsOk result ⊎ (result ≡ Err Refusal.Memory) }
{
    // A design keeps its rules; with its numbers read, that is known.
    let _parts = design.parts();
    made_leanly(alloc, design, policy, reference)
}
