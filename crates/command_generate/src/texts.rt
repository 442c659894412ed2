// The texts that are written.
ghost use Rattle.std.specs.Prelude.{◌≡◌, IfOk, IfErr};
ghost use Rattle.qp_model.specs.problem.Parts.{design_of};
ghost use Rattle.qp_model.specs.problem.Policy.{plans_of, IsPolicyFor};
ghost use Rattle.qp_model.specs.bounds.Printed.{printed};
ghost use Rattle.qp_model.specs.text.ControllerText.{IsControllerText};
ghost use Rattle.command_generate.specs.Made.{MakingCalls, IsMadeOf, IsReport, MakesTexts};

use crate::made::make_controller;
use bound_report::{report_json, report_text};
use command_line::{Status, Texts, is_json};
use controller_text::write_controller;
use design_engine::Made;
use qp_model::{Bounds, Design, Policy};
use std::alloc::{AllocError, Global};

/// The report in the form that its name asks for.
pub fn report_for(alloc: Global, name: &str, bounds: &Bounds) -> Result<Vec<u8>, AllocError>
    ensures { IfOk result (λ v. IsReport name.now (printed bounds.now) v.items) }
{
    if is_json(name) {
        report_json(alloc, bounds)
    } else {
        report_text(alloc, bounds)
    }
}

/// Both texts of a controller and its bounds, the report in the form that its name asks for. They are borrowed here, so that they end on one path alone.
pub fn texts_made(alloc: Global, made: &Made, report_name: &str) -> Result<Texts, Status>
    ensures texts { IfOk result (λ t.
        IsControllerText t.first.items made.now.controller × IsReport report_name.now (printed made.now.bounds) t.second.items) }
    ensures memory { IfErr result (λ e. e ≡ Status.Memory) }
{
    let first = write_controller(alloc, &made.controller)?;
    let second = report_for(alloc, report_name, &made.bounds)?;
    Ok(Texts { first, second })
}

/// Both texts of a design with a policy, or the status that tells why there are none.
pub fn texts_of(
    alloc: Global,
    design: &Design,
    policy: &Policy,
    report_name: &str,
) -> Result<Texts, Status>
    requires { IsPolicyFor (design_of design.now) (plans_of policy.now) }
    ensures { MakesTexts IsControllerText (MakingCalls design.now (plans_of policy.now)) (IsMadeOf design.now (plans_of policy.now)) report_name.now result }
{
    let made = make_controller(alloc, design, policy)?;
    texts_made(alloc, &made, report_name)
}
