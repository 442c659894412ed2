// A controller and its bounds, lean where there are reference plans.
ghost use Rattle.std.specs.Prelude.{◌≡◌, pos, unsigned_abs, false, Some, IfOk, IfSome};
ghost use Rattle.qp_model.specs.problem.Parts.{design_of};
ghost use Rattle.qp_model.specs.problem.Policy.{plans_of, IsPolicyFor};
ghost use Rattle.qp_model.specs.bounds.Printed.{printed};
ghost use Rattle.command_generate.specs.Engine.Bounds.{stated_cost};
ghost use Rattle.command_generate.specs.Engine.Targets.{targets_of};
ghost use Rattle.command_make.specs.Made.{MakingCallsWith, IsLeanMadeOf, IsMadeByPlans, reference_of};
ghost use Rattle.command_generate.specs.Made.{Makes};

use command_generate::{Made, make_controller};
use command_line::Status;
use lean_engine::generate_lean;
use qp_model::{Design, Policy};
use std::alloc::Global;

// The lean controller and the bounds of a design with a policy and reference plans, or the status that tells why there are none.
fn make_lean(
    alloc: Global,
    design: &Design,
    policy: &Policy,
    reference: &Policy,
) -> Result<Made, Status>
    requires plans { IsPolicyFor (design_of design.now) (plans_of policy.now) }
    requires references { IsPolicyFor (design_of design.now) (plans_of reference.now) }
    ensures made { Makes (MakingCallsWith (design_of design.now) (targets_of design.now) (plans_of policy.now) (reference_of (Some reference.now)) false)
        (λ m. IsLeanMadeOf design.now (plans_of policy.now) (plans_of reference.now) m.controller (printed m.bounds)) result }
    ensures errors { IfOk result (λ m.
        m.eps ≡ pos (stated_cost (design_of design.now) (unsigned_abs m.bounds.multiplier) m.controller.fraction_bits)) }
{
    match generate_lean(alloc, design, policy, reference) {
        Ok(made) => Ok(made),
        Err(refusal) => Err(Status::from(refusal)),
    }
}

/// The controller and the bounds of a design with a policy, and with reference plans where there are any; or the status that tells why there are none.
pub fn make(
    alloc: Global,
    design: &Design,
    policy: &Policy,
    reference: &Option<Policy>,
) -> Result<Made, Status>
    requires plans { IsPolicyFor (design_of design.now) (plans_of policy.now) }
    requires references { IfSome reference.now (λ r. IsPolicyFor (design_of design.now) (plans_of r)) }
    ensures made { Makes (MakingCallsWith (design_of design.now) (targets_of design.now) (plans_of policy.now) (reference_of reference.now) false)
        (λ m. IsMadeByPlans design.now (plans_of policy.now) (reference_of reference.now) false m.controller (printed m.bounds)) result }
    ensures errors { IfOk result (λ m.
        m.eps ≡ pos (stated_cost (design_of design.now) (unsigned_abs m.bounds.multiplier) m.controller.fraction_bits)) }
{
    match reference {
        Some(reference) => make_lean(alloc, design, policy, reference),
        None => make_controller(alloc, design, policy),
    }
}
