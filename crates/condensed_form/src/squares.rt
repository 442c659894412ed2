// The exponent that bounds the rows by the sum of all their squares.
ghost use Rattle.std.specs.Prelude.{◌<◌, ◌≤◌, ◌^◌, ◌*◌};
ghost use Rattle.std.specs.Option.{SomeIff};
ghost use Rattle.integer_algebra.specs.Division.{ceil_div};
ghost use Rattle.qp_model.specs.bounds.Least.{IsLeastBelow};

/// The least number s up to 40 with `factor * squares <= 2^s * unit * part`. No product leaves 128 bits, since the sides are divided
/// by `part` first.
pub fn least_exponent(factor: u128, squares: u128, unit: u128, part: u128) -> Option<u32>
    requires unit { unit ≤ 2 ^ 80 }
    requires part { 1 ≤ part }
    requires room { factor * part < 2 ^ 128 }
    ensures { IsLeastBelow 41 (λ s. factor * squares ≤ 2 ^ s * unit * part) result }
{
    let need = ceil_quotient(factor, squares, part)?;
    least_power(need, unit)
}

// `factor * squares / part`, rounded up, where it fits.
fn ceil_quotient(factor: u128, squares: u128, part: u128) -> Option<u128>
    requires part { 1 ≤ part }
    requires room { factor * part < 2 ^ 128 }
    ensures { SomeIff result (ceil_div (factor * squares) part < 2 ^ 128) (ceil_div (factor * squares) part) }
{
    let whole = factor.checked_mul(squares / part)?;
    whole.checked_add((factor * (squares % part)).div_ceil(part))
}

// The least number s up to 40 with `need <= 2^s * unit`.
fn least_power(need: u128, unit: u128) -> Option<u32>
    requires { unit ≤ 2 ^ 80 }
    ensures { IsLeastBelow 41 (λ s. need ≤ 2 ^ s * unit) result }
{
    for s in 0..41 {
        if need <= (1 << s) * unit {
            return Some(s);
        }
    }
    None
}
