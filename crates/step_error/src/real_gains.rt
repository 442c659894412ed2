// The gains of a controller, and by how much they miss the systems that they solve.
ghost use Rattle.std.specs.Prelude.{◌≡◌, ◌≤◌, ◌+◌, ◌*◌, ◌^◌, ◌≤ℤ◌, ◌-ℤ◌, ◌*ℤ◌, pos, unsigned_abs};
ghost use Rattle.condensed_form.specs.Form.{held};
ghost use Rattle.step_error.specs.Gains.{AreSolved};

use crate::means::mean_error;
use crate::radii::farthest_row;
use condensed_form::Condensed;
use frac_scaled::limited_product;
use mat_int::Mat;
use qp_model::DesignParts;

// A number of a limit row on the denominator of the systems.
fn row_number(c: &Condensed, x: i128) -> i128
    requires weight { pos 1 ≤ℤ c.now.weight_den }
    requires row { pos 1 ≤ℤ c.now.cost_row_den }
    requires power { pos 1 ≤ℤ c.now.power }
    requires small { unsigned_abs ((held c.now).row_factor *ℤ x) ≤ 2 ^ 126 }
    ensures { result ≡ (held c.now).row_factor *ℤ x }
{
    x * c.weight_den * c.cost_row_den * c.cost_row_den * c.power
}

// How far two numbers are from each other.
fn distance(a: i128, b: i128) -> u128
    requires a_small { unsigned_abs a ≤ 2 ^ 125 }
    requires b_small { unsigned_abs b ≤ 2 ^ 125 }
    ensures { result ≡ unsigned_abs (a -ℤ b) }
{
    (a - b).unsigned_abs()
}

// What is missed, each part times how far from 0 its number is: those of the states, that of the constant, and those of the multipliers.
fn weighed(state: u128, states: u128, own: u128, top: u128, rows: u128) -> u128
    requires { state * states + own + top * rows ≤ 2 ^ 126 }
    ensures { result ≡ state * states + own + top * rows }
{
    state * states + own + top * rows
}

/// What the means of the accelerated machine are rounded by: the step exponents of the rows of a design, up to `s`.
#[derive(Clone, Copy)]
pub struct Means<'a> {
    pub parts: &'a DesignParts,
    pub exps: &'a [u32],
    pub s: u32,
}

// Gains over `2^f`, with the form whose systems they solve, and how far a state and a multiplier are from 0 at most; where the machine takes means,
// what they are rounded by.
#[derive(Clone, Copy)]
pub(crate) struct Gains<'a, 'm> {
    pub(crate) c: &'a Condensed,
    pub(crate) p_mat: &'a Mat,
    pub(crate) t: &'a [i128],
    pub(crate) w_mat: &'a Mat,
    pub(crate) f: u32,
    pub(crate) state: u128,
    pub(crate) top: u128,
    pub(crate) means: Option<Means<'m>>,
    ghost made: { AreSolved c.now p_mat.now t.now w_mat.now f state top },
}

impl<'a, 'm> Gains<'a, 'm> {
    ghost use Rattle.std.specs.Prelude.{◌≡◌, ◌+◌, ◌*◌, ◌^◌, ◌<◌, ◌≤◌, true, ◌*ℤ◌, unsigned_abs};
    ghost use Rattle.integer_algebra.specs.Sums.{total};
    ghost use Rattle.mat_int.specs.Matrix.{entry_of};
    ghost use Rattle.qp_model.specs.form.Columns.{columns, solve_matrix, solve_column};
    ghost use Rattle.qp_model.specs.form.Quantities.{greatest};
    ghost use Rattle.condensed_form.specs.Form.{held};
    ghost use Rattle.step_error.specs.Gains.{gain_at, missed, missed_by, missed_sum, missed_gradient, missed_squares, combined_of, has_room, mean_of, HasMeans};

    // Entry `l` for column `i`.
    fn gain(&self, i: usize, l: usize) -> i128
        requires column { i < columns (held self.now.c.now) }
        requires entry { l < (held self.now.c.now).entries }
        ensures { result ≡ gain_at self.now.p_mat.now self.now.t.now self.now.w_mat.now i l }
    {
        let states = self.c.lin.cols();
        if i < states {
            self.p_mat.at(l, i)
        } else if i == states {
            self.t[l]
        } else {
            self.w_mat.at(l, i - (states + 1))
        }
    }

    // Entry `j` of system `i`, without its factor `2^f`.
    fn number(&self, i: usize, j: usize) -> i128
        requires column { i < columns (held self.now.c.now) }
        requires entry { j < (held self.now.c.now).entries }
        ensures { result ≡ solve_column (held self.now.c.now) i j }
    {
        let (c, states) = (self.c, self.c.lin.cols());
        if i < states {
            c.limit_den * c.lin.at(j, i)
        } else if i == states {
            c.limit_den * c.off[j]
        } else {
            row_number(c, c.g.at(i - (states + 1), j))
        }
    }

    // Row `j` of the hessian times the gains for column `i`.
    fn product(&self, i: usize, j: usize) -> i128
        requires column { i < columns (held self.now.c.now) }
        requires entry { j < (held self.now.c.now).entries }
        ensures { result ≡ total (held self.now.c.now).entries
            (λ l. entry_of self.now.c.now.hess j l *ℤ gain_at self.now.p_mat.now self.now.t.now self.now.w_mat.now i l) }
    {
        let mut sum = 0;
        for l in 0..self.c.hess.rows() {
            sum += self.c.hess.at(j, l) * self.gain(i, l);
        }
        sum
    }

    // By how much they miss entry `j` of system `i`.
    fn missed(&self, i: usize, j: usize) -> u128
        requires column { i < columns (held self.now.c.now) }
        requires entry { j < (held self.now.c.now).entries }
        ensures { let gains = gain_at self.now.p_mat.now self.now.t.now self.now.w_mat.now in
            result ≡ missed (held self.now.c.now) self.now.f gains i j }
    {
        distance(
            self.c.limit_den * self.product(i, j),
            self.number(i, j) * (1 << self.f),
        )
    }

    // The same for `n` systems from the first one on, added up.
    fn missed_by(&self, first: usize, n: usize, j: usize) -> u128
        requires columns { first + n ≤ columns (held self.now.c.now) }
        requires entry { j < (held self.now.c.now).entries }
        requires room { n * unsigned_abs (solve_matrix (held self.now.c.now) j j) ≤ 2 ^ 128 }
        ensures { let gains = gain_at self.now.p_mat.now self.now.t.now self.now.w_mat.now in
            result ≡ missed_by (held self.now.c.now) self.now.f gains first n j }
    {
        let mut sum = 0;
        for i in 0..n {
            sum += self.missed(first + i, j);
        }
        sum
    }

    // What that comes to in entry `j` of the gradient, at states and multipliers that are as far from 0 as they get.
    fn missed_sum(&self, j: usize) -> u128
        requires entry { j < (held self.now.c.now).entries }
        requires room { unsigned_abs (solve_matrix (held self.now.c.now) j j) * combined_of (held self.now.c.now) self.now.state self.now.top ≤ 2 ^ 126 }
        ensures { let gains = gain_at self.now.p_mat.now self.now.t.now self.now.w_mat.now in
            result ≡ missed_sum (held self.now.c.now) self.now.f gains self.now.state self.now.top j }
    {
        let states = self.c.lin.cols();
        weighed(
            self.state,
            self.missed_by(0, states, j),
            self.missed(states, j),
            self.top,
            self.missed_by(states + 1, self.c.g.rows(), j),
        )
    }

    // The error of entry `j` of the gradient.
    fn gradient(&self, j: usize) -> u128
        requires entry { j < (held self.now.c.now).entries }
        requires room { unsigned_abs (solve_matrix (held self.now.c.now) j j) * combined_of (held self.now.c.now) self.now.state self.now.top ≤ 2 ^ 126 }
        ensures { let gains = gain_at self.now.p_mat.now self.now.t.now self.now.w_mat.now in
            result ≡ missed_gradient (held self.now.c.now) self.now.f gains self.now.state self.now.top j }
    {
        let c = self.c;
        let hess_den = c.hess_den.unsigned_abs();
        let missed = self.missed_sum(j).div_ceil(c.limit_den.unsigned_abs());
        missed.div_ceil(hess_den) + farthest_row(&c.hess, &c.hess_rad, j).div_ceil(hess_den)
    }

    // The greatest entry on the diagonal of the systems' matrix.
    fn greatest_diagonal(&self) -> u128
        ensures { result ≡ greatest (held self.now.c.now).entries (λ j. unsigned_abs (solve_matrix (held self.now.c.now) j j)) }
    {
        let mut most = 0u128;
        for j in 0..self.c.hess.rows() {
            most = most.max((self.c.limit_den * self.c.hess.at(j, j)).unsigned_abs());
        }
        most
    }

    // Whether the sums of what they miss stay within `2^126`, whichever good solutions they are.
    pub(crate) fn has_room(&self) -> bool
        ensures { result ≡ has_room (held self.now.c.now) (combined_of (held self.now.c.now) self.now.state self.now.top) }
    {
        let states = self.c.lin.cols() as u128 * self.state;
        let combined = states + 1 + self.c.g.rows() as u128 * self.top;
        limited_product(self.greatest_diagonal(), combined).is_some()
    }

    // What rounding the means adds to it.
    fn mean(&self, j: usize) -> u128
        requires means { HasMeans self.now.c.now self.now.means }
        requires entry { j < (held self.now.c.now).entries }
        ensures { result ≡ mean_of (held self.now.c.now) self.now.means j }
    {
        match self.means {
            Some(m) => mean_error(self.c, m.parts, m.exps, m.s, j),
            None => 0,
        }
    }

    // The squares of the gradient's errors, each with what rounding the means adds.
    pub(crate) fn squares(&self) -> u128
        requires means { HasMeans self.now.c.now self.now.means }
        requires room { has_room (held self.now.c.now) (combined_of (held self.now.c.now) self.now.state self.now.top) ≡ true }
        requires small { let gains = gain_at self.now.p_mat.now self.now.t.now self.now.w_mat.now in
            missed_squares (held self.now.c.now) self.now.f gains self.now.state self.now.top (mean_of (held self.now.c.now) self.now.means) ≤ 2 ^ 126 }
        ensures { let gains = gain_at self.now.p_mat.now self.now.t.now self.now.w_mat.now in
            result ≡ missed_squares (held self.now.c.now) self.now.f gains self.now.state self.now.top (mean_of (held self.now.c.now) self.now.means) }
    {
        let mut squares = 0;
        for j in 0..self.c.hess.rows() {
            let error = self.gradient(j) + self.mean(j);
            squares += error * error;
        }
        squares
    }
}
