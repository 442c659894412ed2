// A controller and its bounds.
ghost use Rattle.std.specs.Prelude.{◌≡◌, pos, IfOk};
ghost use Rattle.qp_model.specs.problem.Parts.{design_of};
ghost use Rattle.qp_model.specs.problem.Policy.{plans_of, IsPolicyFor};
ghost use Rattle.qp_model.specs.bounds.Printed.{printed};
ghost use Rattle.design_engine.specs.Bounds.{printed_multiplier, stated_cost};
ghost use Rattle.command_generate.specs.Made.{MakingCalls, IsMadeOf, Makes};

use command_line::Status;
use design_engine::{Made, generate};
use qp_model::{Design, Policy};
use std::alloc::Global;

/// The controller and the bounds of a design with a policy, or the status that tells why there are none.
pub fn make_controller(alloc: Global, design: &Design, policy: &Policy) -> Result<Made, Status>
    requires { IsPolicyFor (design_of design.now) (plans_of policy.now) }
    ensures made { Makes (MakingCalls design.now (plans_of policy.now)) (λ made. IsMadeOf design.now (plans_of policy.now) made.controller (printed made.bounds)) result }
    ensures errors { IfOk result (λ made.
        made.eps ≡ pos (stated_cost (design_of design.now) (printed_multiplier (printed made.bounds)) made.controller.fraction_bits)) }
{
    match generate(alloc, design, policy) {
        Ok(made) => Ok(made),
        Err(refusal) => Err(Status::from(refusal)),
    }
}
