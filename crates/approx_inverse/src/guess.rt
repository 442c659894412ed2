// Guesses of solutions, by a rough root of the matrix. Nothing is claimed of them: numbers may wrap round or be cut off, and
// whatever a guess is, the descent goes from it, or from 0, to a good solution.
ghost use Rattle.std.specs.Prelude.{◌≡◌, ◌<◌, ◌≤◌, length, IfOk};
ghost use Rattle.approx_inverse.specs.Root.{HasRootSizes};

use crate::bits::{bits, bits_of};
use mat_int::Mat;
use std::alloc::{AllocError, Global};

// The root is over 2^ROOT_BITS, and what it is applied to has about VECTOR_BITS bits, so that products leave room.
const ROOT_BITS: i32 = 56;

const VECTOR_BITS: i32 = 50;

// How often a guess is corrected by its residual, at most.
const ROUNDS: u32 = 16;

/// Lower triangular R with R R' near D h D, for a symmetric matrix h. D is diagonal, of powers 2^-shift that bring the diagonal of
/// D h D below 1 (Cholesky's root, rounded, after scaling).
#[derive(Drop)]
pub struct Root {
    // below the diagonal, and the same mirrored
    lower: Mat,
    upper: Mat,
    diagonal: Vec<i128>,
    shifts: Vec<u8>,
}

// About v 2^k.
fn scaled(v: i128, k: i32) -> i128 {
    if k >= 0 {
        v.wrapping_shl(k.unsigned_abs())
    } else {
        let half = v >> (k.unsigned_abs() - 1).min(127);
        half.wrapping_add(1) >> 1
    }
}

// a / b, or 0 where that is not
fn quotient(a: i128, b: i128) -> i128 {
    a.checked_div(b).unwrap_or(0)
}

// The sum of products, wrapped round.
fn wrapped_dot(xs: &[i128], ys: &[i128]) -> i128 {
    let mut sum = 0i128;
    for (x, y) in xs.iter().zip(ys) {
        sum = sum.wrapping_add(x.wrapping_mul(*y));
    }
    sum
}

// Scales a list to VECTOR_BITS bits, and answers by how many bits.
fn normalise(xs: &mut [i128]) -> i32 {
    let shift = VECTOR_BITS - bits_of(xs) as i32;
    for x in xs.iter_mut() {
        *x = scaled(*x, shift);
    }
    shift
}

// For each row, half the bits of its diagonal entry.
fn shifts_of(alloc: Global, h: &Mat) -> Result<Vec<u8>, AllocError>
    requires { h.now.cols ≡ length h.now.rows }
    ensures { IfOk result (λ v. length v.items ≡ length h.now.rows) }
{
    let mut shifts = Vec::new(alloc);
    for i in 0..h.rows() {
        let half = (bits(h.at(i, i).unsigned_abs()) + 1) / 2;
        shifts.push(half as u8)?;
    }
    Ok(shifts)
}

impl Root {
    /// Takes memory for the root, and makes it.
    pub fn of(alloc: Global, h: &Mat) -> Result<Root, AllocError>
        requires { h.now.cols ≡ length h.now.rows }
        ensures { IfOk result (HasRootSizes (length h.now.rows)) }
    {
        let n = h.rows();
        let lower = Mat::zero(alloc, n, n)?;
        let upper = Mat::zero(alloc, n, n)?;
        let diagonal = vec![in alloc; 1; n]?;
        let shifts = shifts_of(alloc, h)?;
        let mut root = Root {
            lower,
            upper,
            diagonal,
            shifts,
        };
        for i in 0..n {
            root.add_row(h, i);
        }
        Ok(root)
    }

    // An entry of D h D, over 2^(2 ROOT_BITS), less what the entries before it in both rows account for.
    fn left_over(&self, h: &Mat, i: usize, j: usize) -> i128
        requires square { h.now.cols ≡ length h.now.rows }
        requires sizes { HasRootSizes (length h.now.rows) self.now }
        requires row_in { i < length h.now.rows }
        requires col_in { j < length h.now.rows }
    {
        let shift = 2 * ROOT_BITS - i32::from(self.shifts[i]) - i32::from(self.shifts[j]);
        let whole = scaled(h.at(i, j), shift);
        whole.wrapping_sub(wrapped_dot(self.lower.row(i), self.lower.row(j)))
    }

    // Makes row i, after those above it.
    fn add_row(&mut self, h: &Mat, i: usize)
        requires square { h.now.cols ≡ length h.now.rows }
        requires sizes { HasRootSizes (length h.now.rows) self.old }
        requires row_in { i < length h.now.rows }
        ensures { HasRootSizes (length h.now.rows) self.new }
    {
        for j in 0..i {
            let entry = quotient(self.left_over(h, i, j), self.diagonal[j]);
            self.lower.set(i, j, entry);
            self.upper.set(j, i, entry);
        }
        let square = self.left_over(h, i, i).max(1 << (ROOT_BITS + 10));
        self.diagonal[i] = square.isqrt();
    }

    // Solves R y = 2^ROOT_BITS b in place, row after row.
    fn forward(&self, y: &mut [i128])
        requires { HasRootSizes (length y.old) self.now }
    {
        for i in 0..y.len() {
            let known = wrapped_dot(self.lower.row(i), y);
            y[i] = quotient(
                y[i].wrapping_shl(ROOT_BITS as u32).wrapping_sub(known),
                self.diagonal[i],
            );
        }
    }

    // Solves R' y = 2^ROOT_BITS b in place, from the last row on.
    fn backward(&self, y: &mut [i128])
        requires { HasRootSizes (length y.old) self.now }
    {
        for i in (0..y.len()).rev() {
            let known = wrapped_dot(self.upper.row(i), y);
            y[i] = quotient(
                y[i].wrapping_shl(ROOT_BITS as u32).wrapping_sub(known),
                self.diagonal[i],
            );
        }
    }
}

// The residual of x, wrapped round.
fn wrapped_rest(h: &Mat, c: &[i128], f: u32, x: &[i128], rest: &mut [i128])
    requires rows { length h.now.rows ≡ length c.now }
    requires bits { f ≤ 48 }
    requires len { length rest.old ≡ length c.now }
{
    for (i, v) in c.iter().enumerate() {
        rest[i] = wrapped_dot(h.row(i), x).wrapping_sub(v.wrapping_shl(f));
    }
}

impl Root {
    // The bits of the greatest number of a list, once its rows are at the scale of the root.
    fn scaled_bits(&self, rest: &[i128]) -> i32
        requires { HasRootSizes (length rest.now) self.now }
    {
        let mut most = -128;
        for (i, r) in rest.iter().enumerate() {
            most = most.max(bits(r.unsigned_abs()) as i32 - i32::from(self.shifts[i]));
        }
        most
    }

    // Brings the rows of a list to the scale of the root, and the list to VECTOR_BITS bits. Answers by how many bits.
    fn bring_down(&self, rest: &mut [i128]) -> i32
        requires { HasRootSizes (length rest.old) self.now }
    {
        let shift = VECTOR_BITS.wrapping_sub(self.scaled_bits(rest));
        for (i, r) in rest.iter_mut().enumerate() {
            *r = scaled(*r, shift.wrapping_sub(i32::from(self.shifts[i])));
        }
        shift
    }

    // Takes the solution for the residual from a guess. False where nothing moved.
    fn take_solution(&self, rest: &[i128], shift: i32, x: &mut [i128]) -> bool
        requires rest { HasRootSizes (length rest.now) self.now }
        requires x { length x.old ≡ length rest.now }
    {
        let mut is_moved = false;
        for (i, r) in rest.iter().enumerate() {
            let back = i32::from(self.shifts[i]).wrapping_add(shift);
            let entry = scaled(*r, back.wrapping_neg());
            x[i] = x[i].wrapping_sub(entry);
            is_moved |= entry != 0;
        }
        is_moved
    }

    // Corrects a guess by its residual, which it overwrites. False where nothing moved.
    fn correct(&self, rest: &mut [i128], x: &mut [i128]) -> bool
        requires rest { HasRootSizes (length rest.old) self.now }
        requires x { length x.old ≡ length rest.old }
    {
        let first = self.bring_down(rest);
        self.forward(rest);
        let second = normalise(rest);
        self.backward(rest);
        self.take_solution(rest, first.wrapping_add(second), x)
    }

    /// Makes x a guess for 2^f c. `rest` is for the residual.
    pub fn guess(&self, h: &Mat, c: &[i128], f: u32, x: &mut [i128], rest: &mut [i128])
        requires rows { length h.now.rows ≡ length c.now }
        requires sizes { HasRootSizes (length c.now) self.now }
        requires bits { f ≤ 48 }
        requires len { length x.old ≡ length c.now }
        requires rest_len { length rest.old ≡ length c.now }
    {
        x.fill(0);
        for _ in 0..ROUNDS {
            wrapped_rest(h, c, f, x, rest);
            if !self.correct(rest, x) {
                return;
            }
        }
    }
}
