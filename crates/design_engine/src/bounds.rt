// The bounds of a controller: by how much each row may be exceeded after its run, and all that is printed.
ghost use Rattle.std.specs.Prelude.{ℕ, ◌≡◌, ◌+◌, ◌*◌, ◌<◌, ◌≤◌, ◌^◌, pos, ◌≤ℤ◌, length, unsigned_abs, IfOk};
ghost use Rattle.qp_model.specs.bounds.Choices.{row_violation_bound};
ghost use Rattle.qp_model.specs.bounds.Printed.{printed};
ghost use Rattle.qp_model.specs.problem.Runs.{Holds};
ghost use Rattle.hessian_check.specs.RowExponents.{exponent_in};
ghost use Rattle.dual_bounds.specs.FastSteps.{quarter_steps};
ghost use Rattle.design_engine.specs.Terms.{row_bound, fast_row_bound, IsRunWithin, IsFastRunWithin, AreTerms, HasUndercutRoom, ArePrintedOf};

use crate::aimed::Aim;
use dual_bounds::{lean_row_violation, row_violation, undercut};
use overflow_check::Controller;
use qp_model::Bounds;
use std::alloc::{AllocError, Global};

/// What a controller and its bounds are made with beside their design.
#[derive(Clone, Copy)]
pub struct Terms {
    pub aim: Aim,
    /// The least slack of the corners' plans, over `2^16`.
    pub units: i128,
    /// Their greatest cost, or of a lean controller their greatest excess, over `2^16`.
    pub cost: i128,
    /// Of a lean controller alone: the target of the violation over `2^40`, above which it exceeds no row.
    pub target: Option<i128>,
}

/// A run, after which rows are exceeded.
#[derive(Clone, Copy)]
pub struct Run {
    /// The greatest step exponent of the rows.
    pub s: u32,
    /// R, which bounds the multipliers.
    pub r: i128,
    /// How many steps it has.
    pub k: u32,
    /// What the errors of a step cost at most, over `2^40`.
    pub eps: i128,
    /// The target of the violation over `2^40`, where steps and errors leave no more than that.
    pub target: Option<i128>,
}

// By how much a row with this step exponent is exceeded at most, over `2^40`.
fn row_bound(run: Run, own: u32) -> i128
    requires run { IsRunWithin run }
    requires row { own ≤ run.s }
    ensures { result ≡ pos (row_bound run.target own run.s (unsigned_abs run.r) run.k (unsigned_abs run.eps)) }
{
    match run.target {
        Some(target) => lean_row_violation(own, run.r, run.k, run.eps, target),
        None => row_violation(own, run.s, run.r, run.k, run.eps),
    }
}

// By how much rows are exceeded at most, over `2^40`, whose step exponents are these and `more`.
fn violations_by(alloc: Global, exps: &[u32], more: u32, run: Run) -> Result<Vec<i128>, AllocError>
    requires run { IsRunWithin run }
    requires rows { (i : ℕ) → i < length exps.now → exponent_in exps.now i + more ≤ run.s }
    ensures { IfOk result (λ out. Holds out.items (length exps.now)
        (λ i. pos (row_bound run.target (exponent_in exps.now i + more) run.s (unsigned_abs run.r) run.k (unsigned_abs run.eps)))) }
{
    let mut out = vec![in alloc; 0; exps.len()]?;
    for (i, own) in exps.iter().enumerate() {
        out[i] = row_bound(run, *own + more);
    }
    Ok(out)
}

/// By how much rows with these step exponents are exceeded at most, over `2^40`.
pub fn violations_after(alloc: Global, exps: &[u32], run: Run) -> Result<Vec<i128>, AllocError>
    requires run { IsRunWithin run }
    requires rows { (i : ℕ) → i < length exps.now → exponent_in exps.now i ≤ run.s }
    ensures { IfOk result (λ out. Holds out.items (length exps.now)
        (λ i. pos (row_bound run.target (exponent_in exps.now i) run.s (unsigned_abs run.r) run.k (unsigned_abs run.eps)))) }
{
    violations_by(alloc, exps, 0, run)
}

// The run of the plain machine that leaves as much as this one of the accelerated machine.
fn plain_run(run: Run) -> Run
    requires { IsFastRunWithin run }
    ensures within { IsRunWithin result }
    ensures exponent { result.s ≡ run.s + 2 }
    ensures bound { result.r ≡ run.r }
    ensures steps { result.k ≡ quarter_steps run.k }
    ensures errors { result.eps ≡ run.eps }
    ensures target { result.target ≡ run.target }
{
    Run {
        s: run.s + 2,
        k: run.k * (run.k + 3),
        ..run
    }
}

/// By how much any row is exceeded at most after a run of the accelerated machine, over `2^40`.
pub fn fast_violation(run: Run) -> i128
    requires { IsFastRunWithin run }
    ensures { result ≡ pos (fast_row_bound run run.s) }
{
    let plain = plain_run(run);
    row_bound(plain, plain.s)
}

/// By how much rows with these step exponents are exceeded at most after a run of the accelerated machine, over `2^40`.
pub fn fast_violations_after(alloc: Global, exps: &[u32], run: Run) -> Result<Vec<i128>, AllocError>
    requires run { IsFastRunWithin run }
    requires rows { (i : ℕ) → i < length exps.now → exponent_in exps.now i ≤ run.s }
    ensures { IfOk result (λ out. Holds out.items (length exps.now) (λ i. pos (fast_row_bound run (exponent_in exps.now i)))) }
{
    violations_by(alloc, exps, 2, plain_run(run))
}

/// The violations of rows with these step exponents, none above `s`, over `2^40`: after `k` steps, with the multiplier bound `r` and the errors `eps` over
/// `2^40`.
pub fn row_violations(
    alloc: Global,
    exps: &[u32],
    s: u32,
    r: i128,
    k: u32,
    eps: i128,
) -> Result<Vec<i128>, AllocError>
    requires exponent { s ≤ 40 }
    requires rows { (i : ℕ) → i < length exps.now → exponent_in exps.now i ≤ s }
    requires some { pos 1 ≤ℤ r }
    requires narrow { r ≤ℤ pos (2 ^ 44) }
    requires steps { 1 ≤ k }
    requires errors { pos 0 ≤ℤ eps }
    requires small { eps ≤ℤ pos (2 ^ 114) }
    ensures { IfOk result (λ out. Holds out.items (length exps.now)
        (λ i. pos (row_violation_bound (exponent_in exps.now i) s (unsigned_abs r) k (unsigned_abs eps)))) }
{
    violations_after(
        alloc,
        exps,
        Run {
            s,
            r,
            k,
            eps,
            target: None,
        },
    )
}

// The bounds of a controller with these terms, the errors of whose steps cost so much over `2^40`.
pub(crate) fn bounds_of(
    alloc: Global,
    terms: Terms,
    controller: &Controller,
    eps: i128,
) -> Result<Bounds, AllocError>
    requires terms { AreTerms terms }
    requires errors { pos 0 ≤ℤ eps }
    requires small { eps ≤ℤ pos (2 ^ 114) }
    requires fits { HasUndercutRoom terms controller.now (unsigned_abs eps) }
    ensures { IfOk result (λ bounds. ArePrintedOf terms controller.now (unsigned_abs eps) (printed bounds)) }
{
    let parts = controller.parts();
    let run = Run {
        s: parts.s,
        r: terms.aim.r,
        k: parts.steps,
        eps,
        target: terms.target,
    };
    let violation = row_bound(run, parts.s);
    let rows = violations_after(alloc, &parts.exps, run)?;
    Ok(Bounds {
        version: parts.version,
        margin: terms.units,
        lean: terms.target.is_some(),
        cost: terms.cost,
        multiplier: terms.aim.r,
        step: parts.s,
        steps: parts.steps,
        bits: parts.f,
        width: parts.w,
        words: parts.words,
        violation,
        rows,
        gap: eps,
        undercut: undercut(terms.aim.r, terms.target.unwrap_or(violation)),
    })
}
