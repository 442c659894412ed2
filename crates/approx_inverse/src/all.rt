// All columns of a condensed form.
ghost use Rattle.std.specs.Prelude.{ℕ, ◌≡◌, ◌⊎◌, ◌<◌, ◌≤◌, ◌^◌, Err, IfOk, OnOk, IfErr};
ghost use Rattle.qp_model.specs.declared.design_parts.DesignParts.{DesignParts};
ghost use Rattle.qp_model.specs.declared.quantity.Quantity.TheVariants.{Descent};
ghost use Rattle.qp_model.specs.problem.Parts.{design_of};
ghost use Rattle.qp_model.specs.form.Class.{form_of};
ghost use Rattle.qp_model.specs.form.Columns.{descent_size};
ghost use Rattle.condensed_form.specs.Form.{IsForm, IsFormOf, held};
ghost use Rattle.approx_inverse.specs.Condensed.{IsMatrixOf, IsSolvable};
ghost use Rattle.approx_inverse.specs.Inverse.{IsInverseOf, SolvesForm};
ghost use Rattle.approx_inverse.specs.Fault.{IsFault};
ghost use Rattle.approx_inverse.specs.Root.{HasRootSizes};
ghost use Rattle.approx_inverse.specs.Workspace.{IsWorkspace};

use crate::guess::Root;
use crate::inverse::Inverse;
use crate::system::matrix_of;
use crate::workspace::Workspace;
use condensed_form::Condensed;
use mat_int::Mat;
use qp_model::{Quantity, SizeFault};
use std::alloc::Global;

// Solves each column.
fn solve_form(alloc: Global, c: &Condensed, f: u32) -> Result<Inverse, SizeFault>
    requires solvable { IsSolvable c.now }
    requires bits { f ≤ 48 }
    ensures solved { IfOk result (SolvesForm (held c.now) f) }
    ensures wide { IfErr result (λ e. IsFault e (2 ^ 126 < descent_size (held c.now) f)) }
{
    let mut work = Workspace::with_entries(alloc, c.hess.rows())?;
    let found = solve_in(alloc, c, f, &mut work);
    // By a call: at the end of the function each of its lists would be dropped beside what is found.
    drop(work);
    found
}

// The same in what solving works in.
fn solve_in(
    alloc: Global,
    c: &Condensed,
    f: u32,
    work: &mut Workspace,
) -> Result<Inverse, SizeFault>
    requires solvable { IsSolvable c.now }
    requires bits { f ≤ 48 }
    requires work { IsWorkspace (held c.now).entries work.old }
    ensures solved { IfOk result (SolvesForm (held c.now) f) }
    ensures wide { IfErr result (λ e. IsFault e (2 ^ 126 < descent_size (held c.now) f)) }
{
    let h = matrix_of(alloc, c, &mut work.column)?;
    let root = Root::of(alloc, &h)?;
    let found = solve_from(alloc, c, f, &h, &root, work);
    drop(root);
    found
}

// The same with the matrix and its root.
fn solve_from(
    alloc: Global,
    c: &Condensed,
    f: u32,
    h: &Mat,
    root: &Root,
    work: &mut Workspace,
) -> Result<Inverse, SizeFault>
    requires solvable { IsSolvable c.now }
    requires bits { f ≤ 48 }
    requires matrix { IsMatrixOf (held c.now) h.now }
    requires root { HasRootSizes (held c.now).entries root.now }
    requires work { IsWorkspace (held c.now).entries work.old }
    ensures solved { IfOk result (SolvesForm (held c.now) f) }
    ensures wide { IfErr result (λ e. IsFault e (2 ^ 126 < descent_size (held c.now) f)) }
{
    let (entries, states, rows) = (c.hess.rows(), c.lin.cols(), c.g.rows());
    let mut found = Inverse::zero(alloc, entries, states, rows)?;
    for i in 0..states + 1 + rows {
        if !work.solve(c, i, f, h, root) {
            drop(found);
            return Err(SizeFault::TooWide {
                quantity: Quantity::Descent,
            });
        }
        found.put(i, work.region.cells(&work.solution));
    }
    Ok(found)
}

/// Solves all columns of a condensed form at f bits: each becomes a good solution, no entry of which is above its bound. `TooWide`
/// exactly where the quantity `descent` is above `2^126`.
pub fn solve_all(alloc: Global, c: &Condensed, f: u32) -> Result<Inverse, SizeFault>
    requires form { IsForm c.now }
    requires bits { f ≤ 48 }

    // What is made, and where.
    ensures solved { IfOk result (λ v. (p : DesignParts) → IsFormOf p c.now → IsInverseOf (form_of (design_of p)) f v) }
    ensures fits { OnOk result ((p : DesignParts) → IsFormOf p c.now → descent_size (form_of (design_of p)) f ≤ 2 ^ 126) }

    // The cause of a refusal; and the other way round, with nothing but out of memory in between.
    ensures wide { IfErr result (λ e. (p : DesignParts) → IsFormOf p c.now → IsFault e (2 ^ 126 < descent_size (form_of (design_of p)) f)) }
    ensures every_refusal { (p : DesignParts) → IsFormOf p c.now → 2 ^ 126 < descent_size (form_of (design_of p)) f
        → (result ≡ Err (SizeFault.TooWide Descent)) ⊎ (result ≡ Err SizeFault.Memory) }
{
    solve_form(alloc, c, f)
}
