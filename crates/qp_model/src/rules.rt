//! Rules tested one after the other: each answers its fault where it is broken.
ghost use Rattle.std.specs.Prelude.{◌≡◌, OnOk, IfErr, IsTrue};

use number_text::TextFault;

/// The fault `Shape` of a place, unless the value there has its shape.
pub fn in_shape(place: u32, holds: bool) -> Result<(), TextFault>
    ensures ok { OnOk result (IsTrue holds) }
    ensures err { IfErr result (λ fault. (fault ≡ TextFault.Shape place) × ¬ IsTrue holds) }
{
    if holds {
        Ok(())
    } else {
        Err(TextFault::Shape { place })
    }
}

/// The fault `Range` of a place, unless its numbers lie in their range.
pub fn in_range(place: u32, holds: bool) -> Result<(), TextFault>
    ensures ok { OnOk result (IsTrue holds) }
    ensures err { IfErr result (λ fault. (fault ≡ TextFault.Range place) × ¬ IsTrue holds) }
{
    if holds {
        Ok(())
    } else {
        Err(TextFault::Range { place })
    }
}
