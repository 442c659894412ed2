// Gains that are as large as those of any good solutions.
ghost use Rattle.std.specs.Prelude.{◌≡◌, ◌<◌, ◌≤◌, ◌^◌, pos, length, IfOk};
ghost use Rattle.qp_model.specs.form.Columns.{columns, column_bound, descent_size};
ghost use Rattle.condensed_form.specs.Form.{held};
ghost use Rattle.approx_inverse.specs.Condensed.{IsSolvable};
ghost use Rattle.controller_maker.specs.Assembled.{AreBounds};

use approx_inverse::{Inverse, put_column};
use condensed_form::Condensed;
use frac_scaled::{ceil_div, scaled};
use mat_int::abs_sum;
use std::alloc::{AllocError, Global};

// The bound on the entries of column i at f bits. `line` is for the column.
fn entry_bound_of(c: &Condensed, i: usize, f: u32, line: &mut [i128]) -> i128
    requires solvable { IsSolvable c.now }
    requires column { i < columns (held c.now) }
    requires bits { f ≤ 48 }
    requires room { descent_size (held c.now) f ≤ 2 ^ 126 }
    requires len { length line.old ≡ (held c.now).entries }
    ensures { result ≡ pos (column_bound (held c.now) f i) }
{
    if !put_column(c, i, line) {
        unreachable!();
    }
    let Some(size) = abs_sum(line) else {
        unreachable!();
    };
    ceil_div(scaled(size, f + 1), c.floor)
}

/// Gains of which each is the bound of its column at f bits.
pub fn widest_gains(alloc: Global, c: &Condensed, f: u32) -> Result<Inverse, AllocError>
    requires solvable { IsSolvable c.now }
    requires bits { f ≤ 48 }
    requires room { descent_size (held c.now) f ≤ 2 ^ 126 }
    ensures { IfOk result (AreBounds (held c.now) f) }
{
    let (entries, states, rows) = (c.hess.rows(), c.lin.cols(), c.g.rows());
    let mut line = vec![in alloc; 0; entries]?;
    let mut gains = Inverse::zero(alloc, entries, states, rows)?;
    for i in 0..states + 1 + rows {
        let bound = entry_bound_of(c, i, f, &mut line);
        line.fill(bound);
        gains.put(i, &line);
    }
    Ok(gains)
}
