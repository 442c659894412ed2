ghost use Rattle.std.specs.Prelude.{◌≡◌};
ghost use Rattle.qp_model.specs.declared.refusal.Refusal.TheVariants.{Memory as no_memory, TooWide as too_wide};

use crate::quantity::{Quantity, Wide};
use frac_scaled::Frac;
use std::alloc::AllocError;
use std::fmt;
use thiserror::Error;

/// Why a design with a policy has no controller.
#[derive(Clone, Copy, PartialEq, Eq, Error)]
pub enum Refusal {
    Memory,
    /// The plan of that corner has less slack than `2^-16` in that row, both counted from 1; it is the first.
    NoMargin { corner: u32, row: u32, slack: Frac },
    /// No exponent of the step is at most 40.
    Curvature,
    /// A run would need `k` steps, more than 4194304.
    TooManySteps { k: i128 },
    /// The errors of a step cost `eps` over `2^40` with the most bits, which is more than the targets leave.
    TooFine { eps: i128 },
    /// The quantity is above `2^126`.
    TooWide { quantity: Quantity },
}

// One write of the words: of derived words each variant writes its own.
impl fmt::Display for Refusal {
    fn fmt<W: fmt::Write>(&self, f: &mut fmt::Formatter<W>) -> fmt::Result {
        f.write_str(match self {
            Refusal::Memory => "memory",
            Refusal::NoMargin { .. } => "no margin",
            Refusal::Curvature => "curvature",
            Refusal::TooManySteps { .. } => "too many steps",
            Refusal::TooFine { .. } => "too fine",
            Refusal::TooWide { .. } => "too wide",
        })
    }
}

// An error type has `Debug`, and nothing here prints by it: to write what `Display` does is proved in half the time of a derived one.
impl fmt::Debug for Refusal {
    fn fmt<W: fmt::Write>(&self, f: &mut fmt::Formatter<W>) -> fmt::Result {
        fmt::Display::fmt(self, f)
    }
}

impl From<AllocError> for Refusal {
    ghost from_gives = { λ _ e. e ≡ no_memory };

    fn from(_: AllocError) -> Self {
        Refusal::Memory
    }
}

impl From<Wide> for Refusal {
    ghost from_gives = { λ fault e. e ≡ too_wide fault.0 };

    fn from(fault: Wide) -> Self {
        Refusal::TooWide { quantity: fault.0 }
    }
}
