// Why loops aren't known to settle.
ghost use Rattle.std.specs.Prelude.{◌≡◌};
ghost use Rattle.settle_check.specs.declared.fault.SettleFault.TheVariants.{Memory};

use std::alloc::{AllocError, AllocFailed};
use std::fmt;
use thiserror::Error;

/// Why a certificate doesn't show that loops settle. Rows and coordinates are counted from 1; bounds are over `2^grid`.
#[derive(Clone, Copy, Error)]
pub enum SettleFault {
    /// There was no memory.
    #[error("no memory")]
    Memory,
    /// A number of the test is above `2^126`.
    #[error("too wide")]
    TooWide,
    /// The multiplier of this row may move: its number isn't below the other.
    #[error("moves")]
    Moves {
        row: u32,
        left: i128,
        right: i128,
    },
    /// After this turn a loop from the start box may have gone as far as to this bound: beyond the box where no multiplier moves, or, at the last turn, the box
    /// of rest.
    #[error("unsettled")]
    Unsettled {
        turn: u32,
        coordinate: u32,
        bound: i128,
    },
    /// The same of a loop from the box of rest.
    #[error("no return")]
    NoReturn {
        turn: u32,
        coordinate: u32,
        bound: i128,
    },
}

// An error type has `Debug`, and nothing here prints by it: to write what `Display` does is proved in half the time of a derived one.
impl fmt::Debug for SettleFault {
    fn fmt<W: fmt::Write>(&self, f: &mut fmt::Formatter<W>) -> fmt::Result {
        fmt::Display::fmt(self, f)
    }
}

impl From<AllocError> for SettleFault {
    ghost from_gives = { λ _ e. e ≡ Memory };

    fn from(_: AllocError) -> SettleFault {
        SettleFault::Memory
    }
}

impl<T: Drop> From<AllocFailed<T>> for SettleFault {
    ghost from_gives = { λ _ e. e ≡ Memory };

    fn from(_: AllocFailed<T>) -> SettleFault {
        SettleFault::Memory
    }
}
