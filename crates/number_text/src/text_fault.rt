ghost use Rattle.std.specs.Prelude.{◌≡◌};
ghost use Rattle.number_text.specs.declared.text_fault.TextFault.TheVariants.{Memory as text_memory};

use std::alloc::{AllocError, AllocFailed};
use std::fmt;
use thiserror::Error;

/// The first fault of a design text, a policy text or a states text. Places are those of the keys, entries and fields count from 1.
#[derive(Clone, Copy, PartialEq, Eq, Error)]
pub enum TextFault {
    NotToml,
    Key { place: u32 },
    Shape { place: u32 },
    Range { place: u32 },
    Fields { entry: u32 },
    Number { entry: u32, field: u32 },
    Count { entries: u32 },
    Memory,
}

// One write of the words: of derived words each variant writes its own.
impl fmt::Display for TextFault {
    fn fmt<W: fmt::Write>(&self, f: &mut fmt::Formatter<W>) -> fmt::Result {
        f.write_str(match self {
            TextFault::NotToml => "not toml",
            TextFault::Key { .. } => "key",
            TextFault::Shape { .. } => "shape",
            TextFault::Range { .. } => "range",
            TextFault::Fields { .. } => "fields",
            TextFault::Number { .. } => "number",
            TextFault::Count { .. } => "count",
            TextFault::Memory => "memory",
        })
    }
}

// An error type has `Debug`, and nothing here prints by it: to write what `Display` does is proved in half the time of a derived one.
impl fmt::Debug for TextFault {
    fn fmt<W: fmt::Write>(&self, f: &mut fmt::Formatter<W>) -> fmt::Result {
        fmt::Display::fmt(self, f)
    }
}

impl From<AllocError> for TextFault {
    ghost from_gives = { λ _ e. e ≡ text_memory };

    fn from(_: AllocError) -> Self {
        TextFault::Memory
    }
}

impl<T: Drop> From<AllocFailed<T>> for TextFault {
    ghost from_gives = { λ _ e. e ≡ text_memory };

    fn from(_: AllocFailed<T>) -> Self {
        TextFault::Memory
    }
}
