ghost use Rattle.std.specs.Prelude.{◌≡◌};
ghost use Rattle.qp_model.specs.declared.size_fault.SizeFault.TheVariants.{Memory as out_of_memory};
ghost use Rattle.qp_model.specs.refusal.Refusing.{of_size};

use crate::quantity::Quantity;
use crate::refusal::Refusal;
use std::alloc::{AllocError, AllocFailed};
use std::fmt;
use thiserror::Error;

/// Why what a design asks for isn't computed.
#[derive(Clone, Copy, PartialEq, Eq, Error)]
pub enum SizeFault {
    #[error("memory")]
    Memory,
    /// The quantity is above `2^126`.
    #[error("too wide")]
    TooWide { quantity: Quantity },
}

// An error type has `Debug`, and nothing here prints by it: to write what `Display` does is proved in half the time of a derived one.
impl fmt::Debug for SizeFault {
    fn fmt<W: fmt::Write>(&self, f: &mut fmt::Formatter<W>) -> fmt::Result {
        fmt::Display::fmt(self, f)
    }
}

impl From<AllocError> for SizeFault {
    ghost from_gives = { λ _ e. e ≡ out_of_memory };

    fn from(_: AllocError) -> Self {
        SizeFault::Memory
    }
}

impl<T: Drop> From<AllocFailed<T>> for SizeFault {
    ghost from_gives = { λ _ e. e ≡ out_of_memory };

    fn from(_: AllocFailed<T>) -> Self {
        SizeFault::Memory
    }
}

impl From<SizeFault> for Refusal {
    ghost from_gives = { λ fault e. e ≡ of_size fault };

    fn from(fault: SizeFault) -> Self {
        match fault {
            SizeFault::Memory => Refusal::Memory,
            SizeFault::TooWide { quantity } => Refusal::TooWide { quantity },
        }
    }
}
