ghost use Rattle.std.specs.Prelude.{◌≡◌};
ghost use Rattle.controller_text.specs.declared.bad_controller.BadController.TheVariants.{Memory};

use std::alloc::AllocError;
use std::fmt;
use thiserror::Error;

/// Why bytes are no controller's text.
#[derive(Clone, Copy, PartialEq, Eq, Error)]
pub enum BadController {
    #[error("memory")]
    Memory,
    /// The line with this number, from 1, is the first that no controller text in form has there, after the lines before it. A last piece without a
    /// line feed is such a line, an absent line counts as the next, and so do bytes after the line `end`.
    #[error("line")]
    Line { line: u32 },
    /// All lines are in form, but the absolute sums of the numbers don't fit the width that the text says.
    #[error("unsafe")]
    Unsafe,
}

// An error type has `Debug`, and nothing here prints by it: to write what `Display` does is proved in half the time of a derived one.
impl fmt::Debug for BadController {
    fn fmt<W: fmt::Write>(&self, f: &mut fmt::Formatter<W>) -> fmt::Result {
        fmt::Display::fmt(self, f)
    }
}

impl From<AllocError> for BadController {
    ghost from_gives = { λ _ e. e ≡ Memory };

    fn from(_: AllocError) -> Self {
        BadController::Memory
    }
}
