ghost use Rattle.std.specs.Prelude.{◌≡◌};
ghost use Rattle.corner_margin.specs.declared.fault.MarginFault.TheVariants.{Memory as margin_memory};
ghost use Rattle.corner_margin.specs.Refusing.{of_margin};

use frac_scaled::Frac;
use qp_model::{Quantity, Refusal};
use std::alloc::AllocError;
use std::fmt;
use thiserror::Error;

/// Why a policy shows no margin.
#[derive(Clone, Copy, Error)]
pub enum MarginFault {
    Memory,
    /// The quantity is above `2^126`.
    TooWide { quantity: Quantity },
    /// The first corner, and in it the first row, with less slack than `2^-16`, both counted from 1, and that slack.
    NoMargin { corner: u32, row: u32, slack: Frac },
}

// One write of the words: of derived words each variant writes its own.
impl fmt::Display for MarginFault {
    fn fmt<W: fmt::Write>(&self, f: &mut fmt::Formatter<W>) -> fmt::Result {
        f.write_str(match self {
            MarginFault::Memory => "memory",
            MarginFault::TooWide { .. } => "too wide",
            MarginFault::NoMargin { .. } => "no margin",
        })
    }
}

// An error type has `Debug`, and nothing here prints by it: to write what `Display` does is proved in half the time of a derived one.
impl fmt::Debug for MarginFault {
    fn fmt<W: fmt::Write>(&self, f: &mut fmt::Formatter<W>) -> fmt::Result {
        fmt::Display::fmt(self, f)
    }
}

impl From<AllocError> for MarginFault {
    ghost from_gives = { λ _ e. e ≡ margin_memory };

    fn from(_: AllocError) -> Self {
        MarginFault::Memory
    }
}

impl From<MarginFault> for Refusal {
    ghost from_gives = { λ fault e. e ≡ of_margin fault };

    fn from(fault: MarginFault) -> Self {
        match fault {
            MarginFault::Memory => Refusal::Memory,
            MarginFault::TooWide { quantity } => Refusal::TooWide { quantity },
            MarginFault::NoMargin { corner, row, slack } => {
                Refusal::NoMargin { corner, row, slack }
            }
        }
    }
}
