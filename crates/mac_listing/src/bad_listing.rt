ghost use Rattle.std.specs.Prelude.{◌≡◌};
ghost use Rattle.mac_listing.specs.declared.bad_listing.BadListing.TheVariants.{Memory};

use std::alloc::AllocError;
use std::fmt;
use thiserror::Error;

/// Why bytes are no listing's text.
#[derive(Clone, Copy, PartialEq, Eq, Error)]
pub enum BadListing {
    #[error("memory")]
    Memory,
    /// The line with this number, from 1, is the first that no listing's text has there, after the lines before it. A last piece without a line feed is
    /// such a line, an absent line counts as the next, and so do bytes after the line `end`.
    #[error("line")]
    Line { line: u32 },
}

// An error type has `Debug`, and nothing here prints by it: to write what `Display` does is proved in half the time of a derived one.
impl fmt::Debug for BadListing {
    fn fmt<W: fmt::Write>(&self, f: &mut fmt::Formatter<W>) -> fmt::Result {
        fmt::Display::fmt(self, f)
    }
}

impl From<AllocError> for BadListing {
    ghost from_gives = { λ _ e. e ≡ Memory };

    fn from(_: AllocError) -> Self {
        BadListing::Memory
    }
}
