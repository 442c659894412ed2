// How large the fractions of an enclosure are.
ghost use Rattle.std.specs.Prelude.{◌≡◌, ◌+◌, unsigned_abs};

use crate::types::Enc;

/// The absolute value of the midpoint, and the radius.
pub fn magnitude(a: Enc) -> u128
    ensures { result ≡ unsigned_abs a.mid + unsigned_abs a.rad }
{
    a.mid.unsigned_abs() + a.rad.unsigned_abs()
}
