// Runs from unit states and under unit plans.
ghost use Rattle.std.specs.Prelude.{◌≡◌, ◌≤◌, ◌<◌, ◌*◌, ◌^◌, unsigned_abs, IfOk};
ghost use Rattle.integer_algebra.specs.Sums.{none};
ghost use Rattle.enclosure.specs.Values.{pair};
ghost use Rattle.qp_model.specs.problem.Runs.{unit};
ghost use Rattle.scaled_run.specs.ScaledForm.{whole, wholes_over};
ghost use Rattle.scaled_run.specs.Lists.{HoldsEnclosures};
ghost use Rattle.scaled_condense.specs.Lists.{IsScale, IsRunOver};

use enclosure::Enc;
use qp_model::DesignParts;
use scaled_run::ScaledRun;
use std::alloc::{AllocError, Global};

/// A whole number, over `over`.
pub fn whole(over: u128, number: i128) -> Enc
    requires room { over * unsigned_abs number ≤ 2 ^ 126 }
    requires small { over ≤ 2 ^ 126 }
    ensures { pair result ≡ whole over number }
{
    Enc {
        mid: over as i128 * number,
        rad: 0,
    }
}

// So many zeros.
fn zeros(alloc: Global, over: u128, count: usize) -> Result<Vec<Enc>, AllocError>
    requires { over ≤ 2 ^ 126 }
    ensures { IfOk result (λ v. HoldsEnclosures v.items count (wholes_over over none)) }
{
    vec![in alloc; whole(over, 0); count]
}

// So many numbers, of which `j` is 1 and the others are 0.
fn unit_of(alloc: Global, over: u128, count: usize, j: usize) -> Result<Vec<Enc>, AllocError>
    requires entry { j < count }
    requires small { over ≤ 2 ^ 126 }
    ensures { IfOk result (λ v. HoldsEnclosures v.items count (wholes_over over (unit j))) }
{
    let mut out = zeros(alloc, over, count)?;
    out[j] = whole(over, 1);
    Ok(out)
}

/// The run from the state 0 under the plan whose entry `j` is 1.
pub fn run_of_plan<'a>(
    alloc: Global,
    parts: &'a DesignParts,
    over: u128,
    reach: u128,
    j: usize,
) -> Result<ScaledRun<'a>, AllocError>
    requires scale { IsScale parts.now over reach }
    requires entry { j < parts.now.stages * parts.now.inputs }
    ensures { IfOk result (λ r. IsRunOver over reach parts.now none (unit j) r.parts.now r.reach r.start.items r.plan.items) }
{
    let start = zeros(alloc, over, parts.states)?;
    let plan = unit_of(alloc, over, parts.stages * parts.inputs, j)?;
    ScaledRun::new(alloc, parts, reach, start, plan)
}

/// The run from the state whose entry `i` is 1 under the plan 0.
pub fn run_of_state<'a>(
    alloc: Global,
    parts: &'a DesignParts,
    over: u128,
    reach: u128,
    i: usize,
) -> Result<ScaledRun<'a>, AllocError>
    requires scale { IsScale parts.now over reach }
    requires state { i < parts.now.states }
    ensures { IfOk result (λ r. IsRunOver over reach parts.now (unit i) none r.parts.now r.reach r.start.items r.plan.items) }
{
    let start = unit_of(alloc, over, parts.states, i)?;
    let plan = zeros(alloc, over, parts.stages * parts.inputs)?;
    ScaledRun::new(alloc, parts, reach, start, plan)
}
