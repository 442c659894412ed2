// A controller of the accelerated machine of a design, whose numbers are chosen.
ghost use Rattle.std.specs.Prelude.{unsigned_abs, IfOk, IfErr, OnOk};
ghost use Rattle.qp_model.specs.problem.Parts.{design_of};
ghost use Rattle.controller_maker.specs.Assembled.{IsFastAssembled};
ghost use Rattle.lean_engine.specs.Engine.Aims.{IsAim, IsSteppedFormOf};
ghost use Rattle.lean_engine.specs.Engine.Tests.{IsRefusedFor};
ghost use Rattle.fast_bounds.specs.FastCertified.{IsFastMadeWith};
ghost use Rattle.fast_bounds.specs.FastRefusals.{PassesFastAim, HasFastAimCause};
ghost use Rattle.fast_bounds.specs.FastTerms.{PassesFastBits};

use approx_inverse::solve_all;
use controller_maker::fast_controller_of;
use lean_engine::{Aim, Settings, SteppedForm};
use overflow_check::FastController;
use qp_model::{Design, Refusal};
use std::alloc::Global;

/// The last tests, and the controller of a design that is made with an aim: with `steps` steps and `f` fraction bits, where the rows have these step
/// exponents.
///
/// # Errors
/// `TooWide` with `descent` or `width`. `Memory` where memory runs out before.
pub fn fast_controller_with(
    alloc: Global,
    design: &Design,
    stepped: &SteppedForm,
    aim: Aim,
    steps: u32,
    exps: Vec<u32>,
    f: u32,
) -> Result<FastController, Refusal>
    requires stepped { IsSteppedFormOf design.now stepped.now }
    requires aim { IsAim aim }
    requires chosen { PassesFastBits (design_of design.now) aim stepped.now.s steps exps.items f }
    ensures made { IfOk result (IsFastMadeWith design.now aim) }
    ensures assembled { IfOk result (IsFastAssembled (design_of design.now) (unsigned_abs aim.r) stepped.now.s exps.items steps f) }
    ensures passes { OnOk result (PassesFastAim (design_of design.now) aim stepped.now.s steps exps.items f) }
    ensures refused { IfErr result (IsRefusedFor (HasFastAimCause (design_of design.now) aim stepped.now.s)) }
{
    let gains = solve_all(alloc, &stepped.condensed, f)?;
    let settings = Settings {
        s: stepped.s,
        f,
        steps,
        r: aim.r,
    };
    Ok(fast_controller_of(alloc, design, &stepped.condensed, settings, exps, gains)?)
}
