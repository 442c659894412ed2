// Numbers from their bytes.
ghost use Rattle.std.specs.Prelude.{◌≡◌, ◌<◌, ◌^◌, length, All, FitsSigned};
ghost use Rattle.std.specs.Int.{w128};
ghost use Rattle.packed_rows.specs.Unpacking.{first_number as first_in, after_number, unzigzag as signed_of, numbers_in, after_numbers, AreWordsIn};

// The first number, without a sign, and the bytes behind it.
fn first_number(bytes: &[u8]) -> (u128, &[u8])
    requires { first_in bytes.now < 2 ^ 128 }
    ensures value { result.0 ≡ first_in bytes.now }
    ensures rest { result.1.now ≡ after_number bytes.now }
{
    let Some((low, rest)) = bytes.split_first() else {
        return (0, bytes);
    };
    if *low < 128 {
        return (u128::from(*low), rest);
    }
    let (high, after) = first_number(rest);
    (u128::from(*low - 128) + 128 * high, after)
}

// The number with a sign for which one without a sign stands.
fn unzigzag(n: u128) -> i128
    ensures { result ≡ signed_of n }
{
    let half = (n / 2) as i128;
    if n % 2 == 0 { half } else { -half - 1 }
}

// Fills a row with the first numbers, and gives the bytes behind them.
pub fn take_numbers<'a>(bytes: &'a [u8], row: &mut [i128]) -> &'a [u8]
    requires { AreWordsIn (length row.old) bytes.now }
    ensures row { row.new ≡ numbers_in (length row.old) bytes.now }
    ensures word { All (FitsSigned w128) row.new }
    ensures rest { result.now ≡ after_numbers (length row.old) bytes.now }
{
    let mut rest = bytes;
    for z in row.iter_mut() {
        let (n, after) = first_number(rest);
        *z = unzigzag(n);
        rest = after;
    }
    rest
}
