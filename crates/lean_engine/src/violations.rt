// By how much each row of a lean controller may be exceeded.
ghost use Rattle.std.specs.Prelude.{ℕ, ◌≤◌, ◌<◌, ◌^◌, pos, ◌≤ℤ◌, length, unsigned_abs, IfOk};
ghost use Rattle.qp_model.specs.bounds.Choices.{lean_row_violation};
ghost use Rattle.qp_model.specs.problem.Runs.{Holds};
ghost use Rattle.hessian_check.specs.RowExponents.{exponent_in};

use design_engine::{Run, violations_after};
use std::alloc::{AllocError, Global};

/// The violations of rows with these step exponents, over `2^40`: after `k` steps, with the multiplier bound `r` and the errors `eps` over `2^40`, where that
/// of all rows may be `threshold` over `2^40`.
pub fn row_violations(
    alloc: Global,
    exps: &[u32],
    r: i128,
    k: u32,
    eps: i128,
    threshold: i128,
) -> Result<Vec<i128>, AllocError>
    requires rows { (i : ℕ) → i < length exps.now → exponent_in exps.now i ≤ 40 }
    requires some { pos 1 ≤ℤ r }
    requires narrow { r ≤ℤ pos (2 ^ 44) }
    requires steps { 1 ≤ k }
    requires errors { pos 0 ≤ℤ eps }
    requires small { eps ≤ℤ pos (2 ^ 114) }
    requires target { pos 0 ≤ℤ threshold }
    ensures { IfOk result (λ out. Holds out.items (length exps.now)
        (λ i. pos (lean_row_violation (exponent_in exps.now i) (unsigned_abs r) k (unsigned_abs eps) (unsigned_abs threshold)))) }
{
    let run = Run {
        s: 40,
        r,
        k,
        eps,
        target: Some(threshold),
    };
    violations_after(alloc, exps, run)
}
