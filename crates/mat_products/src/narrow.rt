// Sums of products whose factors fit words of 64 bits: each product is then one multiplication of the processor's, in place of three.
ghost use Rattle.std.specs.Prelude.{◌≡◌, ◌<◌, ◌+◌, ◌^◌, ◌↔◌, IsTrue, All, length, ◌+ℤ◌, ◌*ℤ◌, unsigned_abs, FitsSigned};
ghost use Rattle.std.specs.Int.{w128};
ghost use Rattle.mat_int.specs.Row.{list_dot, abs_dot};
ghost use Rattle.mat_products.specs.Narrow.{IsNarrow};
ghost use Rattle.mat_products.specs.InHalves.{whole};

use frac_scaled::floor_shift;
use mat_int::Mat;

/// Whether each number is narrow, that is, below `2^63` in absolute value.
pub fn are_narrow(xs: &[i128]) -> bool
    ensures { IsTrue result ↔ All IsNarrow xs.now }
{
    xs.iter().all(|x| x.unsigned_abs() < 1 << 63)
}

/// Whether each entry of a matrix is narrow.
pub fn is_narrow_matrix(a: &Mat) -> bool
    ensures { IsTrue result ↔ All (All IsNarrow) a.now.rows }
{
    for i in 0..a.rows() {
        if !are_narrow(a.row(i)) {
            return false;
        }
    }
    true
}

/// The product of two narrow numbers.
pub fn narrow_product(x: i128, y: i128) -> i128
    requires left { IsNarrow x }
    requires right { IsNarrow y }
    ensures { result ≡ x *ℤ y }
{
    i128::from(x as i64) * i128::from(y as i64)
}

// A sum as `high * 2^64 + low`. The compiler keeps it in two registers, and adds by one addition and one with the carry; a sum of 128 bits it
// moves to and fro.
#[derive(Clone, Copy)]
struct Halves {
    high: i64,
    low: u64,
}

impl Halves {
    // A number in its two words.
    fn of(x: i128) -> Halves
        ensures { whole result ≡ x }
    {
        let high = floor_shift(x, 64);
        Halves {
            high: high as i64,
            low: (x - high * (1 << 64)) as u64,
        }
    }

    // The sum with one number more.
    fn plus(self, other: Halves) -> Halves
        requires { FitsSigned w128 (whole self +ℤ whole other) }
        ensures { whole result ≡ whole self +ℤ whole other }
    {
        let low = self.low.wrapping_add(other.low);
        let carry = i128::from(low < other.low);
        Halves {
            high: (i128::from(self.high) + i128::from(other.high) + carry) as i64,
            low,
        }
    }

    // The sum itself.
    fn whole(self) -> i128
        ensures { result ≡ whole self }
    {
        i128::from(self.high) * (1 << 64) + i128::from(self.low)
    }
}

/// A number and the sum of the products of two lists of narrow numbers of one length, where the absolute values leave room.
#[tactic(auto, using(crate::proofs::Carries::started_steps))]
pub fn narrow_dot(start: i128, xs: &[i128], ys: &[i128]) -> i128
    requires lengths { length xs.now ≡ length ys.now }
    requires left { All IsNarrow xs.now }
    requires right { All IsNarrow ys.now }
    requires room { unsigned_abs start + abs_dot xs.now ys.now < 2 ^ 127 }
    ensures { result ≡ start +ℤ list_dot xs.now ys.now }
{
    let mut sum = Halves::of(start);
    for (i, x) in xs.iter().enumerate() {
        sum = sum.plus(Halves::of(narrow_product(*x, ys[i])));
    }
    sum.whole()
}
