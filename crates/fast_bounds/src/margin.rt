// From a design and a policy alone to a controller of the accelerated machine and its bounds.
ghost use Rattle.std.specs.Prelude.{◌≡◌, ◌⊎◌, ◌≤ℤ◌, ◌≤◌, ◌^◌, ℕ, List, pos, IfOk, OnOk, IfErr, IsOk, Err};
ghost use Rattle.std.specs.Result.{OkIff};
ghost use Rattle.qp_model.specs.problem.Parts.{design_of};
ghost use Rattle.qp_model.specs.problem.Policy.{plans_of, IsPolicyFor};
ghost use Rattle.qp_model.specs.bounds.Choices.{multiplier_of};
ghost use Rattle.qp_model.specs.bounds.Printed.{printed};
ghost use Rattle.qp_model.specs.declared.bounds.Margin.{Margin};
ghost use Rattle.qp_model.specs.declared.quantity.Quantity.TheVariants.{Multiplier};
ghost use Rattle.lean_engine.specs.Engine.Targets.{targets_of, IsWithinTargets};
ghost use Rattle.lean_engine.specs.Engine.Bounds.{printed_multiplier};
ghost use Rattle.fast_bounds.specs.FastAnswers.{stated_cost_for, TellsOf};
ghost use Rattle.fast_bounds.specs.FastCertified.{IsFastCertified};
ghost use Rattle.fast_bounds.specs.FastMargin.{fast_margin_size, HasFastMarginCause, PassesFastMargin, PassesSomeFastMargin, IsFastMarginBuilt, IsFastMarginBuiltAs};

use crate::generation::{FastMade, fast_made_with};
use dual_bounds::multiplier;
use lean_engine::{margins, plain_terms, stepped_form};
use qp_model::{Design, Margin, Policy, Quantity, Refusal, Wide};
use std::alloc::Global;

// R of a margin, where it is low enough for this machine's steps.
fn narrow_multiplier(margin: &Margin) -> Result<i128, Wide>
    requires units { pos 1 ≤ℤ margin.now.units }
    requires cost { pos 0 ≤ℤ margin.now.cost }
    ensures value { OkIff result (fast_margin_size margin.now ≤ 2 ^ 126) (pos (multiplier_of margin.now)) }
    ensures named { IfErr result (λ e. e.0 ≡ Multiplier) }
{
    let bound = multiplier(margin)?;
    if bound > 1 << 42 {
        return Err(Wide(Quantity::Multiplier));
    }
    Ok(bound)
}

// All of the tests, in their order, and what is made.
fn made_by_margin(alloc: Global, design: &Design, policy: &Policy) -> Result<FastMade, Refusal>
    requires { IsPolicyFor (design_of design.now) (plans_of policy.now) }
    ensures { TellsOf FastMade (IsFastMarginBuiltAs design.now (plans_of policy.now))
        (PassesSomeFastMargin (design_of design.now) (targets_of design.now) (plans_of policy.now))
        (HasFastMarginCause (design_of design.now) (targets_of design.now) (plans_of policy.now)) result }
{
    let margin = margins(alloc, design, policy)?;
    let r = narrow_multiplier(&margin)?;
    let stepped = stepped_form(alloc, design)?;
    let terms = plain_terms(design.parts(), &margin, r);
    let made = fast_made_with(alloc, design, &stepped, terms);
    // By a call: at the end of the function each of its matrices would be dropped beside what is made.
    drop(stepped);
    made
}

/// The controller of the accelerated machine of a design with a policy, which has one plan for each corner of the box, and its bounds: R is that of the
/// policy's margin, as `design_engine::generate` takes it.
///
/// # Errors
/// The first test that they fail, in this order: `TooWide` with `prediction`, `corner_slack` or `corner_cost` of the corners; `NoMargin`;
/// `TooWide` with `multiplier`, or with `prediction`, `hessian`, `rows` or `curvature` of the condensed form; `Curvature`; `TooManySteps`;
/// `TooWide` with `error`; `TooFine`; `TooWide` with `descent` or `width`. `Memory` where memory runs out before.
pub fn generate_fast_by_margin(
    alloc: Global,
    design: &Design,
    policy: &Policy,
) -> Result<FastMade, Refusal>
    requires { IsPolicyFor (design_of design.now) (plans_of policy.now) }

    // What is made, and what it is certified for.
    ensures built { IfOk result (λ made. IsFastMarginBuilt design.now (plans_of policy.now) made.controller (printed made.bounds)) }
    ensures certified { IfOk result (λ made. IsFastCertified (design_of design.now) made.controller (printed made.bounds)) }
    ensures targets { IfOk result (λ made. IsWithinTargets (targets_of design.now) (printed made.bounds)) }
    ensures errors { IfOk result (λ made.
        made.eps ≡ pos (stated_cost_for (design_of design.now) (printed_multiplier (printed made.bounds)) made.controller)) }

    ensures passes { OnOk result (PassesSomeFastMargin (design_of design.now) (targets_of design.now) (plans_of policy.now)) }

    // The cause of a refusal; and the other way round, with nothing but out of memory in between.
    ensures refused { IfErr result (λ e. (e ≡ Refusal.Memory) ⊎ HasFastMarginCause (design_of design.now) (targets_of design.now) (plans_of policy.now) e) }
    ensures every_refusal { (e : Refusal) → HasFastMarginCause (design_of design.now) (targets_of design.now) (plans_of policy.now) e
        → (result ≡ Err e) ⊎ (result ≡ Err Refusal.Memory) }
    ensures accepted { (m : Margin) (s k : ℕ) (exponents : List ℕ) (f : ℕ) →
        PassesFastMargin (design_of design.now) (targets_of design.now) (plans_of policy.now) m s k exponents f
        → IsOk result ⊎ (result ≡ Err Refusal.Memory) }
{
    // A design keeps its rules; with its numbers read, that is known.
    let _parts = design.parts();
    made_by_margin(alloc, design, policy)
}
