// All columns of a condensed form.
ghost use Rattle.std.specs.Prelude.{ℕ, ◌≡◌, ◌≢◌, ◌<◌, ◌+◌, length, IfOk};
ghost use Rattle.integer_algebra.specs.Sums.{at};
ghost use Rattle.approx_inverse.specs.Inverse.{HasGainSizes, solution_of};

use mat_int::Mat;
use std::alloc::{AllocError, Global};

/// The gains of a controller, over `2^f`: solutions of the condensed form's columns.
#[derive(Drop)]
pub struct Inverse {
    /// For each state a column, nu by n.
    pub p_mat: Mat,
    /// For the constant, nu numbers.
    pub t: Vec<i128>,
    /// For each limit row a column, nu by m.
    pub w_mat: Mat,
}

impl Inverse {
    /// Each number is 0.
    pub fn zero(
        alloc: Global,
        entries: usize,
        states: usize,
        rows: usize,
    ) -> Result<Inverse, AllocError>
        ensures { IfOk result (λ v. HasGainSizes v entries states rows) }
    {
        Ok(Inverse {
            p_mat: Mat::zero(alloc, entries, states)?,
            t: vec![in alloc; 0; entries]?,
            w_mat: Mat::zero(alloc, entries, rows)?,
        })
    }

    // Puts the solution for column i.
    pub fn put(&mut self, i: usize, numbers: &[i128])
        requires sizes { HasGainSizes self.old (length numbers.now) self.old.p_mat.cols self.old.w_mat.cols }
        requires column { i < self.old.p_mat.cols + 1 + self.old.w_mat.cols }
        ensures sizes { HasGainSizes self.new (length numbers.now) self.old.p_mat.cols self.old.w_mat.cols }
        ensures put { (j : ℕ) → j < length numbers.now → solution_of self.new i j ≡ at numbers.now j }
        ensures others { (k j : ℕ) → k ≢ i → solution_of self.new k j ≡ solution_of self.old k j }
    {
        let states = self.p_mat.cols();
        if i < states {
            self.p_mat.set_column(i, numbers);
        } else if i == states {
            self.t.copy_from_slice(numbers);
        } else {
            self.w_mat.set_column(i - (states + 1), numbers);
        }
    }
}
