// A controller of either machine from its text.
ghost use Rattle.std.specs.Prelude.{◌≡◌, ◌⊎◌, ℕ, Err, IfOk, IfErr, MatchResult};
ghost use Rattle.qp_model.specs.machine.Controller.{numbers, IsSized};
ghost use Rattle.overflow_check.specs.FastController.{with_last_version};
ghost use Rattle.controller_file.specs.declared.any_controller.AnyController.{AnyController};
ghost use Rattle.controller_file.specs.FirstLine.{IsEitherController, IsAnyBadLine, IsAnyUnsafe};
ghost use Rattle.controller_file.specs.AnyText.{any_numbers, IsSafe, IsAnyControllerText};

use crate::grammar::AnyGrammar;
use crate::reader::{parts_in, safe};
use controller_text::BadController;
use overflow_check::{Controller, FAST_VERSION, FastController};
use qp_model::ControllerParts;
use std::alloc::Global;

/// A controller of either machine.
#[derive(Drop)]
pub enum AnyController {
    /// Of version 1 or 2.
    Plain(Controller),
    /// Of the accelerated machine.
    Fast(FastController),
}

impl AnyController {
    /// Its numbers, in form but for words and width.
    pub fn parts(&self) -> &ControllerParts
        ensures value { numbers result.now ≡ any_numbers self.now }
        ensures sized { IsSized (with_last_version (numbers result.now)) }
    {
        match self {
            AnyController::Plain(controller) => controller.parts(),
            AnyController::Fast(controller) => controller.parts(),
        }
    }
}

/// The controller, of any version, whose text the bytes are.
///
/// # Errors
/// Those of `read_controller`, where a text in form may be one of any version.
pub fn read_any_controller(alloc: Global, bytes: &[u8]) -> Result<AnyController, BadController>
    ensures found { IfOk result (IsAnyControllerText bytes.now) }
    ensures bad_line { (l : ℕ) → result ≡ Err (BadController.Line l) → IsAnyBadLine bytes.now l }
    ensures wide { result ≡ Err BadController.Unsafe → IsAnyUnsafe bytes.now }

    // The other way round, with nothing but out of memory in between.
    ensures right { (k : AnyController) → IsAnyControllerText bytes.now k → MatchResult result (λ o. o ≡ k) (λ e. e ≡ BadController.Memory) }
    ensures bad_first { (l : ℕ) → IsAnyBadLine bytes.now l → (result ≡ Err (BadController.Line l)) ⊎ (result ≡ Err BadController.Memory) }
    ensures bad_sums { IsAnyUnsafe bytes.now → (result ≡ Err BadController.Unsafe) ⊎ (result ≡ Err BadController.Memory) }
{
    match parts_in::<AnyGrammar>(alloc, bytes) {
        Ok(parts) => any_safe(parts),
        Err(fault) => Err(fault),
    }
}

/// The controller of the numbers of a text, by their version. `Unsafe` where they are no controller's.
pub fn any_safe(parts: ControllerParts) -> Result<AnyController, BadController>
    ensures ok { IfOk result (λ o. (any_numbers o ≡ numbers parts) × IsSafe o) }
    ensures fault { IfErr result (λ e. (e ≡ BadController.Unsafe) × (¬ IsEitherController (numbers parts))) }
{
    if parts.version == FAST_VERSION {
        match FastController::from_parts(parts) {
            Ok(controller) => Ok(AnyController::Fast(controller)),
            Err(_) => Err(BadController::Unsafe),
        }
    } else {
        match safe(parts) {
            Ok(controller) => Ok(AnyController::Plain(controller)),
            Err(fault) => Err(fault),
        }
    }
}
