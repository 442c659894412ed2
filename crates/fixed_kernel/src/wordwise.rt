// Sums of products, plan entries and multipliers in words of 64 bits, where the absolute values leave room in such a word.
ghost use Rattle.std.specs.Prelude.{◌≡◌, ℕ, ◌<◌, ◌≤◌, ◌+◌, ◌^◌, IsTrue, All, length, pos, ◌+ℤ◌, ◌*ℤ◌, neg_ℤ, unsigned_abs};
ghost use Rattle.std.specs.Int.{int_max, int_min};
ghost use Rattle.integer_algebra.specs.Division.{floor_of, ceil_div};
ghost use Rattle.integer_algebra.specs.Sums.{at};
ghost use Rattle.mat_int.specs.Row.{list_dot, abs_dot};
ghost use Rattle.mat_products.specs.Narrow.{IsNarrow};
ghost use Rattle.fixed_kernel.specs.WordForm.{IsHalf};

// A number and the sum of the products of two lists of one length. Each product and each partial sum fits the word.
#[inline(always)]
pub fn word_dot(start: i64, xs: &[i64], ys: &[i64]) -> i64
    requires lengths { length xs.now ≡ length ys.now }
    requires room { unsigned_abs start + abs_dot xs.now ys.now < 2 ^ 63 }
    ensures { result ≡ start +ℤ list_dot xs.now ys.now }
{
    let mut sum = start;
    for (i, x) in xs.iter().enumerate() {
        sum += x * ys[i];
    }
    sum
}

// A number that fits half a word, as the compiler sees it too.
#[inline(always)]
fn halved(x: i64) -> i64
    requires { IsHalf x }
    ensures { result ≡ x }
{
    i64::from(x as i32)
}

// The same of numbers that fit half a word each: two products are then one instruction of a processor with vectors of 128 bits.
#[inline(always)]
fn half_dot(start: i64, xs: &[i64], ys: &[i64]) -> i64
    requires lengths { length xs.now ≡ length ys.now }
    requires left { All IsHalf xs.now }
    requires right { All IsHalf ys.now }
    requires room { unsigned_abs start + abs_dot xs.now ys.now < 2 ^ 63 }
    ensures { result ≡ start +ℤ list_dot xs.now ys.now }
{
    let mut sum = start;
    for (i, x) in xs.iter().enumerate() {
        sum += halved(*x) * halved(ys[i]);
    }
    sum
}

// The same of numbers that fit half a word where `half` says so.
#[inline(always)]
pub fn sum_in_words(half: bool, start: i64, xs: &[i64], ys: &[i64]) -> i64
    requires lengths { length xs.now ≡ length ys.now }
    requires left { IsTrue half → All IsHalf xs.now }
    requires right { IsTrue half → All IsHalf ys.now }
    requires room { unsigned_abs start + abs_dot xs.now ys.now < 2 ^ 63 }
    ensures { result ≡ start +ℤ list_dot xs.now ys.now }
{
    if half {
        half_dot(start, xs, ys)
    } else {
        word_dot(start, xs, ys)
    }
}

// The same by the span of the first list outside of which its numbers are 0.
#[inline(always)]
pub fn span_dot(half: bool, start: i64, xs: &[i64], ys: &[i64], from: usize, to: usize) -> i64
    requires lengths { length xs.now ≡ length ys.now }
    requires left { IsTrue half → All IsHalf xs.now }
    requires right { IsTrue half → All IsHalf ys.now }
    requires order { from ≤ to }
    requires inside { to ≤ length xs.now }
    requires before { (k : ℕ) → k < from → at xs.now k ≡ pos 0 }
    requires behind { (k : ℕ) → to ≤ k → at xs.now k ≡ pos 0 }
    requires room { unsigned_abs start + abs_dot xs.now ys.now < 2 ^ 63 }
    ensures { result ≡ start +ℤ list_dot xs.now ys.now }
{
    sum_in_words(half, start, &xs[from..to], &ys[from..to])
}

/// `v / 2^k`, rounded down.
#[inline(always)]
pub fn word_shift(v: i64, k: u32) -> i64
    requires { k < 64 }
    ensures { result ≡ floor_of v (2 ^ k) }
{
    v >> k
}

/// `v * 2^k`, which fits, as its negative does.
#[inline(always)]
pub fn word_raised(v: i64, k: u32) -> i64
    requires bits { k ≤ 62 }
    requires room { IsNarrow (v *ℤ pos (2 ^ k)) }
    ensures { result ≡ v *ℤ pos (2 ^ k) }
{
    v * (1 << (k % 64))
}

// A plan entry, from its sum.
#[inline(always)]
pub fn word_entry(sum: i64, bits: u32) -> i64
    requires bits { bits < 64 }
    requires room { IsNarrow sum }
    ensures { result ≡ neg_ℤ (floor_of sum (2 ^ bits)) }
{
    -word_shift(sum, bits)
}

// A multiplier after the step, from its row's sum, the multiplier before it and the row's greatest.
#[inline(always)]
pub fn word_multiplier(sum: i64, old: i64, top: i64, f: u32) -> i64
    requires f { f < 64 }
    requires next { unsigned_abs old + ceil_div (unsigned_abs sum) (2 ^ f) < 2 ^ 63 }
    ensures { result ≡ int_min top (int_max (old +ℤ floor_of sum (2 ^ f)) (pos 0)) }
{
    let moved = word_shift(sum, f);
    top.min((old + moved).max(0))
}
