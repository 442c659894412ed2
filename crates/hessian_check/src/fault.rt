// What the choice of exponents answers.
ghost use Rattle.std.specs.Prelude.{◌≡◌};
ghost use Rattle.hessian_check.specs.declared.fault.CurvatureFault.TheVariants.{Memory};
ghost use Rattle.hessian_check.specs.Refusing.{of_curvature};

use qp_model::{Quantity, Refusal};
use std::alloc::AllocError;
use std::fmt;
use thiserror::Error;

/// Two exponents of the step: `s`, and the one that needs no certificate.
#[derive(Clone, Copy, PartialEq, Eq)]
pub struct StepExponents {
    /// The least number below `s1` whose matrix has a certificate, or `s1`.
    pub s: u32,
    /// The least number whose matrix is dominant or that bounds the rows by the sum of all their squares, up to 40.
    pub s1: u32,
}

/// Why there are no exponents.
#[derive(Clone, Copy, PartialEq, Eq, Error)]
pub enum CurvatureFault {
    #[error("memory")]
    Memory,
    #[error("too wide")]
    TooWide { quantity: Quantity },
    #[error("no step")]
    NoStep,
}

// An error type has `Debug`, and nothing here prints by it: to write what `Display` does is proved in half the time of a derived one.
impl fmt::Debug for CurvatureFault {
    fn fmt<W: fmt::Write>(&self, f: &mut fmt::Formatter<W>) -> fmt::Result {
        fmt::Display::fmt(self, f)
    }
}

impl From<AllocError> for CurvatureFault {
    ghost from_gives = { λ _ e. e ≡ Memory };

    fn from(_error: AllocError) -> CurvatureFault {
        CurvatureFault::Memory
    }
}

impl From<CurvatureFault> for Refusal {
    ghost from_gives = { λ fault e. e ≡ of_curvature fault };

    fn from(fault: CurvatureFault) -> Self {
        match fault {
            CurvatureFault::Memory => Refusal::Memory,
            CurvatureFault::TooWide { quantity } => Refusal::TooWide { quantity },
            CurvatureFault::NoStep => Refusal::Curvature,
        }
    }
}
