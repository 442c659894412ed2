// What solving works in.
ghost use Rattle.std.specs.Prelude.{ℕ, ◌≡◌, ◌<◌, ◌≤◌, ◌+◌, ◌^◌, length, IsTrue, IsFalse, IfOk};
ghost use Rattle.qp_model.specs.form.Columns.{columns, descent_size};
ghost use Rattle.condensed_form.specs.Form.{held};
ghost use Rattle.approx_inverse.specs.Condensed.{IsSolvable, IsMatrixOf};
ghost use Rattle.approx_inverse.specs.Spans.{cells};
ghost use Rattle.approx_inverse.specs.Root.{HasRootSizes};

use crate::column::solve_column;
use crate::guess::Root;
use crate::system::put_column;
use condensed_form::Condensed;
use mat_int::Mat;
use std::alloc::{AllocError, Global};
use word_region::{Region, Span};

/// A column with its guess and that one's residual, and a region with the solution and as many free words.
#[derive(Drop)]
pub struct Workspace {
    pub column: Vec<i128>,
    guess: Vec<i128>,
    rest: Vec<i128>,
    pub region: Region,
    pub solution: Span,
}

impl Workspace {
    ghost use Rattle.approx_inverse.specs.Inverse.{IsSolution};
    ghost use Rattle.approx_inverse.specs.Workspace.{IsWorkspace};

    /// Takes the memory that columns of n numbers need.
    pub fn with_entries(alloc: Global, n: usize) -> Result<Workspace, AllocError>
        requires { n < 2 ^ 32 }
        ensures { IfOk result (IsWorkspace n) }
    {
        let column = vec![in alloc; 0; n]?;
        let guess = vec![in alloc; 0; n]?;
        let rest = vec![in alloc; 0; n]?;
        let mut region = Region::with_words(alloc, 2 * n)?;
        let Some(solution) = region.take(n) else {
            unreachable!();
        };
        Ok(Workspace {
            column,
            guess,
            rest,
            region,
            solution,
        })
    }

    /// Solves column i. False where the quantity `descent` is above `2^126`.
    pub fn solve(&mut self, c: &Condensed, i: usize, f: u32, h: &Mat, root: &Root) -> bool
        requires solvable { IsSolvable c.now }
        requires matrix { IsMatrixOf (held c.now) h.now }
        requires root { HasRootSizes (held c.now).entries root.now }
        requires work { IsWorkspace (held c.now).entries self.old }
        requires column { i < columns (held c.now) }
        requires bits { f ≤ 48 }
        ensures work { IsWorkspace (held c.now).entries self.new }
        ensures solved { IsTrue result → IsSolution (held c.now) f i (cells self.new.region.words self.new.solution.start) }
        ensures wide { IsFalse result → 2 ^ 126 < descent_size (held c.now) f }
    {
        if !put_column(c, i, &mut self.column) {
            return false;
        }
        root.guess(h, &self.column, f, &mut self.guess, &mut self.rest);
        solve_column(
            h,
            &self.column,
            c.floor,
            f,
            &self.guess,
            &mut self.region,
            &self.solution,
        )
        .is_ok()
    }
}
