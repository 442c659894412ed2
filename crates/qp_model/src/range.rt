//! The ranges of a design's numbers.
ghost use Rattle.std.specs.Prelude.{◌≡◌, ◌<◌, ℕ, ◌≤ℤ◌, pos, ◌↔◌, IsTrue, All, length};
ghost use Rattle.integer_algebra.specs.Sums.{at};
ghost use Rattle.mat_int.specs.Matrix.{entry_of};
ghost use Rattle.qp_model.specs.problem.Range.{LiesIn, IsNumerator, IsDenominator, IsPositive};
ghost use Rattle.qp_model.specs.problem.PartRules.{AreCosts, AreLimits, AreHighs};

use mat_int::Mat;

/// Whether a number lies from low to high.
pub fn lies_in(low: usize, high: usize, n: usize) -> bool
    ensures { IsTrue result ↔ LiesIn low high n }
{
    low <= n && n <= high
}

/// Whether a number lies in -2147483647 .. 2147483647.
pub fn is_numerator(z: i128) -> bool
    ensures { IsTrue result ↔ IsNumerator z }
{
    z.unsigned_abs() < 1 << 31
}

/// Whether a number lies in 1 .. 1048576.
pub fn is_denominator(z: i128) -> bool
    ensures { IsTrue result ↔ IsDenominator z }
{
    1 <= z && z <= 1 << 20
}

/// Whether a number lies in 1 .. 2147483647.
pub fn is_positive(z: i128) -> bool
    ensures { IsTrue result ↔ IsPositive z }
{
    1 <= z && z < 1 << 31
}

/// Whether each number is a numerator.
pub fn are_numerators(zs: &[i128]) -> bool
    ensures { IsTrue result ↔ All IsNumerator zs.now }
{
    zs.iter().all(|z| is_numerator(*z))
}

/// Whether each number is positive and below 2^31.
pub fn are_positive(zs: &[i128]) -> bool
    ensures { IsTrue result ↔ All IsPositive zs.now }
{
    zs.iter().all(|z| is_positive(*z))
}

/// Whether each entry of a matrix is a numerator.
pub fn has_numerators(m: &Mat) -> bool
    ensures { IsTrue result ↔ All (All IsNumerator) m.now.rows }
{
    for i in 0..m.rows() {
        if !are_numerators(m.row(i)) {
            return false;
        }
    }
    true
}

// Whether each entry of a column is at least 0.
fn has_no_negative(m: &Mat, j: usize) -> bool
    requires { j < m.now.cols }
    ensures { IsTrue result ↔ ((r : ℕ) → r < length m.now.rows → pos 0 ≤ℤ entry_of m.now r j) }
{
    for i in 0..m.rows() {
        if m.at(i, j) < 0 {
            return false;
        }
    }
    true
}

/// Whether each number is at most the one at its place in the other list.
pub fn is_ordered(low: &[i128], high: &[i128]) -> bool
    requires { length low.now ≡ length high.now }
    ensures { IsTrue result ↔ ((i : ℕ) → i < length low.now → at low.now i ≤ℤ at high.now i) }
{
    for (i, z) in low.iter().enumerate() {
        if *z > high[i] {
            return false;
        }
    }
    true
}

/// Whether each entry is a numerator, and each of column j at least 0.
pub fn are_costs(m: &Mat, j: usize) -> bool
    requires { j < m.now.cols }
    ensures { IsTrue result ↔ AreCosts m.now.rows j }
{
    has_numerators(m) && has_no_negative(m, j)
}

/// Whether each entry is a numerator, and there is a row here or among the others.
pub fn are_limits(m: &Mat, others: &Mat) -> bool
    ensures { IsTrue result ↔ AreLimits m.now.rows others.now.rows }
{
    has_numerators(m) && (others.rows() != 0 || m.rows() != 0)
}

/// Whether each number is a numerator and at least the low one at its place.
pub fn are_highs(high: &[i128], low: &[i128]) -> bool
    requires { length low.now ≡ length high.now }
    ensures { IsTrue result ↔ AreHighs high.now low.now (length low.now) }
{
    are_numerators(high) && is_ordered(low, high)
}
