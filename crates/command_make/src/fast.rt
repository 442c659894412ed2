// A controller of the accelerated machine and its bounds, and both texts of them.
ghost use Rattle.std.specs.Prelude.{◌≡◌, pos, unsigned_abs, true, IfOk, IfErr, IfSome};
ghost use Rattle.qp_model.specs.problem.Parts.{design_of};
ghost use Rattle.qp_model.specs.problem.Policy.{plans_of, IsPolicyFor};
ghost use Rattle.qp_model.specs.bounds.Printed.{printed};
ghost use Rattle.controller_text.specs.TextForm.{IsFastControllerText};
ghost use Rattle.command_line.specs.Status.{status_of};
ghost use Rattle.command_design_files.specs.Texts.{IsToldBy};
ghost use Rattle.command_generate.specs.Engine.Targets.{targets_of};
ghost use Rattle.command_generate.specs.Made.{IsReport, Makes};
ghost use Rattle.fast_bounds.specs.FastAnswers.{stated_cost_for};
ghost use Rattle.command_make.specs.Made.{MakingCallsWith, IsFastMadeOf, reference_of};

use command_generate::report_for;
use command_line::{Status, Texts};
use controller_text::write_fast_controller;
use fast_bounds::{FastMade, generate_fast, generate_fast_by_margin};
use qp_model::{Design, Policy, Refusal};
use std::alloc::Global;

/// The controller and the bounds of a design with a policy, and with reference plans where there are any; or the status that tells why there are none.
pub fn make_fast(
    alloc: Global,
    design: &Design,
    policy: &Policy,
    reference: &Option<Policy>,
) -> Result<FastMade, Status>
    requires plans { IsPolicyFor (design_of design.now) (plans_of policy.now) }
    requires references { IfSome reference.now (λ r. IsPolicyFor (design_of design.now) (plans_of r)) }
    ensures made { Makes (MakingCallsWith (design_of design.now) (targets_of design.now) (plans_of policy.now) (reference_of reference.now) true)
        (λ m. IsFastMadeOf design.now (plans_of policy.now) (reference_of reference.now) m.controller (printed m.bounds)) result }
    ensures errors { IfOk result (λ m. m.eps ≡ pos (stated_cost_for (design_of design.now) (unsigned_abs m.bounds.multiplier) m.controller)) }
{
    match reference {
        Some(reference) => told_fast(generate_fast(alloc, design, policy, reference)),
        None => told_fast(generate_fast_by_margin(alloc, design, policy)),
    }
}

// What was made, or the status that tells of the refusal.
fn told_fast(made: Result<FastMade, Refusal>) -> Result<FastMade, Status>
    ensures { IsToldBy (λ refusal s. s ≡ status_of refusal) made result }
{
    match made {
        Ok(made) => Ok(made),
        Err(refusal) => Err(Status::from(refusal)),
    }
}

/// Both texts of what was made. It is borrowed here, so that it ends on one path alone.
pub fn texts_of_fast(alloc: Global, made: &FastMade, report_name: &str) -> Result<Texts, Status>
    ensures texts { IfOk result (λ t. IsFastControllerText t.first.items made.now.controller
        × IsReport report_name.now (printed made.now.bounds) t.second.items) }
    ensures memory { IfErr result (λ e. e ≡ Status.Memory) }
{
    let first = write_fast_controller(alloc, &made.controller)?;
    let second = report_for(alloc, report_name, &made.bounds)?;
    Ok(Texts { first, second })
}
