// Why a loop ends early.
ghost use Rattle.std.specs.Prelude.{◌≡◌};
ghost use Rattle.closed_loop.specs.declared.fault.LoopFault.TheVariants.{Memory as no_memory};

use qp_model::Quantity;
use std::alloc::{AllocError, AllocFailed};
use std::fmt;
use thiserror::Error;

/// Why a closed loop ended before its last turn.
#[derive(Clone, Copy, Error)]
pub enum LoopFault {
    /// There was no memory.
    #[error("memory")]
    Memory,
    /// The quantity is above `2^126`.
    #[error("too wide")]
    TooWide { quantity: Quantity },
    /// The state of this turn, from 1, lies outside the box; the coordinate is the first that does, from 1.
    #[error("outside box")]
    OutsideBox { turn: u32, coordinate: u32 },
    /// The sink failed.
    #[error("write fault")]
    WriteFault,
}

// An error type has `Debug`, and nothing here prints by it: to write what `Display` does is proved in half the time of a derived one.
impl fmt::Debug for LoopFault {
    fn fmt<W: fmt::Write>(&self, f: &mut fmt::Formatter<W>) -> fmt::Result {
        fmt::Display::fmt(self, f)
    }
}

impl From<AllocError> for LoopFault {
    ghost from_gives = { λ _ e. e ≡ no_memory };

    fn from(_: AllocError) -> Self {
        LoopFault::Memory
    }
}

impl<T: Drop> From<AllocFailed<T>> for LoopFault {
    ghost from_gives = { λ _ e. e ≡ no_memory };

    fn from(_: AllocFailed<T>) -> Self {
        LoopFault::Memory
    }
}
