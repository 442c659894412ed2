// Why a loop isn't known to stay in the box.
use qp_model::Quantity;
use std::fmt;
use thiserror::Error;

/// Why faces don't show that a loop stays in the box. Entries and inputs are counted from 1.
#[derive(Clone, Copy, Error)]
pub enum StayFault {
    /// The quantity is above `2^126`.
    #[error("too wide")]
    TooWide {
        quantity: Quantity,
    },
    /// This face's rows have together another part of this input than its coordinate has.
    #[error("unequal")]
    Unequal {
        entry: u32,
        input: u32,
        left: i128,
        right: i128,
    },
    /// The coordinate may go as far as to this number over `2^grid`, which is beyond the face.
    #[error("no stay")]
    NoStay {
        entry: u32,
        bound: i128,
    },
}

// An error type has `Debug`, and nothing here prints by it: to write what `Display` does is proved in half the time of a derived one.
impl fmt::Debug for StayFault {
    fn fmt<W: fmt::Write>(&self, f: &mut fmt::Formatter<W>) -> fmt::Result {
        fmt::Display::fmt(self, f)
    }
}
