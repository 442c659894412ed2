// How many bits numbers have.
ghost use Rattle.std.specs.Prelude.{◌≤◌};

/// The bits of a number, and 0 of 0.
pub fn bits(x: u128) -> u32
    ensures { result ≤ 128 }
{
    128 - x.leading_zeros()
}

/// The bits of the greatest absolute value of a list.
pub fn bits_of(xs: &[i128]) -> u32
    ensures { result ≤ 128 }
{
    let mut seen = 0u128;
    for x in xs {
        seen |= x.unsigned_abs();
    }
    bits(seen)
}
