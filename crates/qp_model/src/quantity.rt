use std::fmt;
use thiserror::Error;

/// The numbers that must not pass `2^126`.
#[derive(Clone, Copy, PartialEq, Eq)]
pub enum Quantity {
    Prediction,
    CornerSlack,
    CornerCost,
    Multiplier,
    Hessian,
    Rows,
    Curvature,
    Error,
    Descent,
    Width,
    Turn,
    Excess,
    Stay,
    Settle,
}

/// A quantity that passes `2^126`.
#[derive(Clone, Copy, PartialEq, Eq, Error)]
#[error("wide")]
pub struct Wide(pub Quantity);

// An error type has `Debug`, and nothing here prints by it: to write what `Display` does is proved in half the time of a derived one.
impl fmt::Debug for Wide {
    fn fmt<W: fmt::Write>(&self, f: &mut fmt::Formatter<W>) -> fmt::Result {
        fmt::Display::fmt(self, f)
    }
}
