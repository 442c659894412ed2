// Controllers whose values stay within their width.
ghost use Rattle.std.specs.Prelude.{◌≡◌, ◌↔◌, ◌≤◌, ◌^◌, Some, None, IsTrue, IsOk, IfOk, OnOk, IsSome, IfSome};
ghost use Rattle.qp_model.specs.machine.Controller.{numbers, IsInForm, IsSized};
ghost use Rattle.qp_model.specs.machine.AbsoluteSums.{IsController, greatest_sum};
ghost use Rattle.overflow_check.specs.FastController.{IsFastSized, IsFastInForm, IsFastController, greatest_fast_sum};
ghost use Rattle.overflow_check.specs.Machines.{IsInFormFor, IsControllerFor};
ghost use Rattle.overflow_check.specs.Width.{IsWidth};

use crate::absolute_sums::{greatest_for, two_to};
use crate::form::is_in_form;
use crate::machine::Machine;
use crate::word_width::width_for;
use qp_model::ControllerParts;
use std::marker::Model;
use thiserror::Error;

/// Why numbers are no controller.
#[derive(Clone, Copy, Debug, PartialEq, Eq, Error)]
pub enum BadParts {
    /// A shape or a range is broken.
    #[error("form")]
    Form,
    /// The greatest absolute sum is above `2^(w-1) - 1` or above `2^126`.
    #[error("unsafe")]
    Unsafe,
}

/// Numbers of a controller, none of whose values leaves its width in a run from a state of its box.
#[derive(Drop)]
pub struct Controller {
    parts: ControllerParts,
}

/// Numbers of a controller of the accelerated machine, none of whose values leaves its width in a run from a state of its box.
#[derive(Drop)]
pub struct FastController {
    parts: ControllerParts,
}

// Whether no value of these numbers leaves its width: their greatest absolute sum is at most `2^(w-1) - 1` and at most `2^126`.
fn is_safe(parts: &ControllerParts, machine: Machine) -> bool
    requires { IsInFormFor machine (numbers parts.now) }
    ensures { IsTrue result ↔ IsControllerFor machine (numbers parts.now) }
{
    match greatest_for(parts, machine) {
        Some(greatest) => greatest.unsigned_abs() < two_to(parts.w - 1),
        None => false,
    }
}

// Why numbers are no controller of this machine. None where they are one.
fn fault_of(parts: &ControllerParts, machine: Machine) -> Option<BadParts>
    ensures sound { (result ≡ None) ↔ IsControllerFor machine (numbers parts.now) }
    ensures form { (result ≡ Some BadParts.Form) ↔ (¬ IsInFormFor machine (numbers parts.now)) }
    ensures wide { (result ≡ Some BadParts.Unsafe) ↔ (IsInFormFor machine (numbers parts.now) × (¬ IsControllerFor machine (numbers parts.now))) }
{
    if !is_in_form(parts, machine) {
        return Some(BadParts::Form);
    }
    if is_safe(parts, machine) {
        None
    } else {
        Some(BadParts::Unsafe)
    }
}

impl Model for Controller {
    ghost use Rattle.qp_model.specs.machine.Controller.{Numbers, numbers};
    ghost use Rattle.qp_model.specs.machine.AbsoluteSums.{IsController};

    ghost Value = { Numbers };

    ghost view = { λ c. numbers c.parts };

    ghost invariant = { λ c. IsController (numbers c.parts) };
}

impl Controller {
    /// The controller of these numbers. `Form` where a shape or a range is broken, else `Unsafe` where the greatest
    /// absolute sum is above `2^(w-1) - 1` or above `2^126`. The numbers are dropped on a refusal.
    pub fn from_parts(parts: ControllerParts) -> Result<Controller, BadParts>
        ensures kept { IfOk result (λ c. c ≡ numbers parts) }
        ensures ok { IsOk result ↔ IsController (numbers parts) }
        ensures form { (result ≡ Err BadParts.Form) ↔ (¬ IsInForm (numbers parts)) }
        ensures wide { (result ≡ Err BadParts.Unsafe) ↔ (IsInForm (numbers parts) × (¬ IsController (numbers parts))) }
    {
        match fault_of(&parts, Machine::Plain) {
            Some(fault) => Err(fault),
            None => Ok(Controller { parts }),
        }
    }

    /// The controller of these numbers with the least width, in place of theirs, that their absolute sums let pass: so nothing is left to be refused, and the
    /// sums are made once. None where the greatest is above `2^126`.
    pub fn with_least_width(parts: ControllerParts) -> Option<Controller>
        requires { IsSized (numbers parts) }
        ensures kept { IfSome result (λ c. c ≡ record (numbers parts) { width = c.width }) }
        ensures width { IfSome result (λ c. IsWidth (greatest_sum (numbers parts)) c.width) }
        ensures found { IsSome result ↔ (greatest_sum (numbers parts) ≤ 2 ^ 126) }
    {
        match width_for(&parts, Machine::Plain) {
            Some(w) => Some(Controller {
                parts: ControllerParts { w, ..parts },
            }),
            None => None,
        }
    }

    /// Its numbers, which are those of a controller.
    pub fn parts(&self) -> &ControllerParts
        ensures value { numbers result.now ≡ self.now }
        ensures sound { IsController (numbers result.now) }
    {
        &self.parts
    }
}

impl Model for FastController {
    ghost use Rattle.qp_model.specs.machine.Controller.{Numbers, numbers};
    ghost use Rattle.overflow_check.specs.FastController.{IsFastController};

    ghost Value = { Numbers };

    ghost view = { λ c. numbers c.parts };

    ghost invariant = { λ c. IsFastController (numbers c.parts) };
}

impl FastController {
    /// The controller of the accelerated machine of these numbers. `Form` where a shape or a range is broken, else `Unsafe` where the greatest
    /// absolute sum is above `2^(w-1) - 1` or above `2^126`. The numbers are dropped on a refusal.
    pub fn from_parts(parts: ControllerParts) -> Result<FastController, BadParts>
        ensures kept { IfOk result (λ c. c ≡ numbers parts) }
        ensures ok { IsOk result ↔ IsFastController (numbers parts) }
        ensures form { (result ≡ Err BadParts.Form) ↔ (¬ IsFastInForm (numbers parts)) }
        ensures wide { (result ≡ Err BadParts.Unsafe) ↔ (IsFastInForm (numbers parts) × (¬ IsFastController (numbers parts))) }
    {
        match fault_of(&parts, Machine::Accelerated) {
            Some(fault) => Err(fault),
            None => Ok(FastController { parts }),
        }
    }

    /// The controller of these numbers with the least width, in place of theirs, that their absolute sums let pass: so nothing is left to be refused, and the
    /// sums are made once. None where the greatest is above `2^126`.
    pub fn with_least_width(parts: ControllerParts) -> Option<FastController>
        requires { IsFastSized (numbers parts) }
        ensures kept { IfSome result (λ c. c ≡ record (numbers parts) { width = c.width }) }
        ensures width { IfSome result (λ c. IsWidth (greatest_fast_sum (numbers parts)) c.width) }
        ensures found { IsSome result ↔ (greatest_fast_sum (numbers parts) ≤ 2 ^ 126) }
    {
        match width_for(&parts, Machine::Accelerated) {
            Some(w) => Some(FastController {
                parts: ControllerParts { w, ..parts },
            }),
            None => None,
        }
    }

    /// Its numbers, which are those of a controller.
    pub fn parts(&self) -> &ControllerParts
        ensures value { numbers result.now ≡ self.now }
        ensures sound { IsFastController (numbers result.now) }
    {
        &self.parts
    }
}
