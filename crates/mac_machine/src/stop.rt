use std::fmt;
use thiserror::Error;

/// Why a machine didn't end its run.
#[derive(Clone, Copy, PartialEq, Eq, Error)]
pub enum Stop {
    /// A coordinate of the state lies outside the box: the first that does, from 1.
    #[error("outside box")]
    OutsideBox { coordinate: u32 },
    /// A value has no room in a word: the first, in this repetition and at this instruction of the body, both from 1. Both are 0 at an input.
    #[error("trap")]
    Trap { step: u32, place: u32 },
}

// An error type has `Debug`, and nothing here prints by it: to write what `Display` does is proved in half the time of a derived one.
impl fmt::Debug for Stop {
    fn fmt<W: fmt::Write>(&self, f: &mut fmt::Formatter<W>) -> fmt::Result {
        fmt::Display::fmt(self, f)
    }
}
