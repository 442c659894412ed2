// The search for the number of fraction bits.
ghost use Rattle.std.specs.Prelude.{◌≡◌, ℕ, pos, ◌^◌, ◌<◌, ◌≤◌, ◌≤ℤ◌, unsigned_abs, IsErr, IfOk, IfErr, ◌↔◌};
ghost use Rattle.qp_model.specs.bounds.Errors.{epsilon};
ghost use Rattle.step_error.specs.ErrorSums.{AreSums, sums_of};
ghost use Rattle.step_error.specs.Choice.{IsChoice};
ghost use Rattle.qp_model.specs.declared.refusal.Refusal.TheVariants.{TooFine as too_fine};

use crate::errors::epsilon;
use crate::sums::ErrorSums;
use qp_model::Refusal;
use std::fmt;
use thiserror::Error;

/// A number of fraction bits, and what the errors of a step cost with it.
#[derive(Clone, Copy)]
pub struct Choice {
    /// f, the fraction bits.
    pub f: u32,
    /// What the errors of a step cost at most, over `2^40`.
    pub eps: i128,
}

/// Even with 48 fraction bits the errors of a step cost `eps` over `2^40`, which is too much.
#[derive(Clone, Copy, Error)]
#[error("too fine")]
pub struct TooFine {
    pub eps: i128,
}

// An error type has `Debug`, and nothing here prints by it: to write what `Display` does is proved in half the time of a derived one.
impl fmt::Debug for TooFine {
    fn fmt<W: fmt::Write>(&self, f: &mut fmt::Formatter<W>) -> fmt::Result {
        fmt::Display::fmt(self, f)
    }
}

impl From<TooFine> for Refusal {
    ghost from_gives = { λ fault e. e ≡ too_fine fault.eps };

    fn from(fault: TooFine) -> Self {
        Refusal::TooFine { eps: fault.eps }
    }
}

/// The fewest fraction bits, from `g` to 48, with which the errors of a step cost at most `limit` over `2^40`, and what they cost then.
///
/// # Errors
/// They cost more than that with 48.
pub fn choose_bits(e: &ErrorSums, g: u32, limit: i128) -> Result<Choice, TooFine>
    requires sums { AreSums e.now }
    requires grid { g ≤ 24 }
    requires some { pos 1 ≤ℤ limit }
    ensures choice { IfOk result (λ choice. IsChoice (sums_of e.now) g (unsigned_abs limit) choice.f) }
    ensures cost { IfOk result (λ choice. choice.eps ≡ pos (epsilon (sums_of e.now) choice.f)) }
    ensures fine { IsErr result ↔ (unsigned_abs limit < epsilon (sums_of e.now) 48) }
    ensures told { IfErr result (λ fault. fault.eps ≡ pos (epsilon (sums_of e.now) 48)) }
{
    for f in g..48 {
        let eps = epsilon(e, f);
        if eps <= limit {
            return Ok(Choice { f, eps });
        }
    }
    let eps = epsilon(e, 48);
    if eps <= limit {
        Ok(Choice { f: 48, eps })
    } else {
        Err(TooFine { eps })
    }
}
