// A controller from its text.
ghost use Rattle.std.specs.Prelude.{◌≡◌, ◌⊎◌, ℕ, List, Err, IfOk, IfErr, MatchResult};
ghost use Rattle.qp_model.specs.machine.Controller.{Numbers, numbers};
ghost use Rattle.qp_model.specs.machine.AbsoluteSums.{IsController};
ghost use Rattle.qp_model.specs.text.ControllerText.{IsControllerText};
ghost use Rattle.controller_file.specs.FirstLine.{IsBadLine, IsUnsafe};
ghost use Rattle.controller_file.specs.Following.{IsAnyWhole};
ghost use Rattle.controller_file.specs.Reading.{IsPartsOf, IsFaultOf};
ghost use Rattle.text_lines.specs.Lines.{Keyed};
ghost use Rattle.text_lines.specs.Grammar.{IsGrammar};

use crate::grammar::ControllerGrammar;
use crate::parts::parts_of;
use controller_text::BadController;
use overflow_check::Controller;
use qp_model::ControllerParts;
use std::alloc::Global;
use text_lines::{Grammar, lines_in};

/// The controller whose text the bytes are.
///
/// # Errors
/// `Line` exactly where the bytes are no controller text in form: a line isn't the one that has its place, a number has another spelling or breaks its
/// range, a line is absent, or bytes are left. It names the first line with which, after those before it, no text in form begins. `Unsafe` exactly where
/// the bytes are in form and the absolute sums of the numbers don't fit the width that the text says.
pub fn read_controller(alloc: Global, bytes: &[u8]) -> Result<Controller, BadController>
    ensures found { IfOk result (IsControllerText bytes.now) }
    ensures bad_line { (l : ℕ) → result ≡ Err (BadController.Line l) → IsBadLine bytes.now l }
    ensures wide { result ≡ Err BadController.Unsafe → IsUnsafe bytes.now }

    // The other way round, with nothing but out of memory in between.
    ensures right { (c : Numbers) → IsControllerText bytes.now c → MatchResult result (λ o. o ≡ c) (λ e. e ≡ BadController.Memory) }
    ensures bad_first { (l : ℕ) → IsBadLine bytes.now l → (result ≡ Err (BadController.Line l)) ⊎ (result ≡ Err BadController.Memory) }
    ensures bad_sums { IsUnsafe bytes.now → (result ≡ Err BadController.Unsafe) ⊎ (result ≡ Err BadController.Memory) }
{
    match parts_in::<ControllerGrammar>(alloc, bytes) {
        Ok(parts) => safe(parts),
        Err(fault) => Err(fault),
    }
}

/// The controller of the numbers of a text. `Unsafe` where they are no controller's.
pub fn safe(parts: ControllerParts) -> Result<Controller, BadController>
    ensures ok { IfOk result (λ o. (o ≡ numbers parts) × IsController (numbers parts)) }
    ensures fault { IfErr result (λ e. (e ≡ BadController.Unsafe) × (¬ IsController (numbers parts))) }
{
    match Controller::from_parts(parts) {
        Ok(controller) => Ok(controller),
        Err(_) => Err(BadController::Unsafe),
    }
}

/// The numbers of a text of a grammar.
pub fn parts_in<G: Grammar>(alloc: Global, bytes: &[u8]) -> Result<ControllerParts, BadController>
    requires grammar { IsGrammar G.whole }
    requires any { (ls : List Keyed) → G.whole ls → IsAnyWhole ls }
    ensures found { IfOk result (λ parts. IsPartsOf G.whole bytes.now (numbers parts)) }
    ensures fault { IfErr result (IsFaultOf G.whole bytes.now) }
{
    match lines_in::<G>(alloc, bytes)? {
        Ok(lines) => Ok(parts_of(alloc, &lines)?),
        Err(line) => Err(BadController::Line { line }),
    }
}
