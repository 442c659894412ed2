//! The averaged plan of a run of either machine, and its line.
#![tactic(auto)]

ghost use Rattle.std.specs.Prelude.{◌≡◌, ◌<◌, ℤ, List, pos, IfOk};
ghost use Rattle.integer_algebra.specs.Sums.{at};
ghost use Rattle.qp_model.specs.machine.Machine.{average_denominator, averaged_plan, loaded};
ghost use Rattle.qp_model.specs.text.ControllerText.{plan_line};
ghost use Rattle.overflow_check.specs.FastMachine.{fast_denominator};
ghost use Rattle.primal_average.specs.FastLine.{line_of_plan, fast_plan_line};

use fast_machine::FastKernel;
use fixed_kernel::Kernel;
use frac_scaled::scaled;
use number_text::spaced_text;
use std::alloc::{AllocError, Global};

/// The denominator of the averaged plan after all steps: steps times `2^f`.
pub fn denominator(k: &Kernel) -> i128
    requires { k.now.made ≡ k.now.controller.steps }
    ensures { result ≡ pos (average_denominator k.now.controller) }
{
    let c = k.controller().parts();
    scaled(i128::from(c.steps), c.f)
}

/// The denominator of the averaged plan of an accelerated run after all steps: their weights, which come to `K (K + 3) / 2`, times `2^f`.
pub fn fast_denominator(k: &FastKernel) -> i128
    ensures { result ≡ pos (fast_denominator k.now.controller) }
{
    let c = k.parts();
    scaled(i128::from(c.steps * (c.steps + 3) / 2), c.f)
}

/// The numerator of input `l` of the first stage, in the averaged plan after all steps.
pub fn first_input(k: &Kernel, l: usize) -> i128
    requires done { k.now.made ≡ k.now.controller.steps }
    requires in_range { l < k.now.controller.inputs }
    ensures { result ≡ at (averaged_plan k.now.controller k.now.state) l }
{
    let c = k.controller().parts();
    prove!(l < c.t.len());
    k.sums()[l]
}

// The line of a plan by its numbers.
fn line_of(alloc: Global, denominator: i128, numerators: &[i128]) -> Result<Vec<u8>, AllocError>
    ensures { IfOk result (λ line. line.items ≡ line_of_plan denominator numerators.now) }
{
    let mut numbers = Vec::new(alloc);
    numbers.push(denominator)?;
    numbers.extend_from_slice(numerators)?;
    let mut line = spaced_text(alloc, &numbers)?;
    line.push('\n')?;
    Ok(line.into_bytes())
}

/// The line of the averaged plan after all steps: the denominator and each numerator, one space between two, and a line
/// feed.
pub fn plan_line(alloc: Global, k: &Kernel) -> Result<Vec<u8>, AllocError>
    requires { k.now.made ≡ k.now.controller.steps }
    ensures { IfOk result (λ line. line.items ≡ plan_line k.now.controller k.now.state) }
{
    line_of(alloc, denominator(k), k.sums())
}

/// The same of an accelerated run.
pub fn fast_plan_line(alloc: Global, k: &FastKernel) -> Result<Vec<u8>, AllocError>
    requires { k.now.made ≡ k.now.controller.steps }
    ensures { (xi : List ℤ) → k.now.state ≡ loaded k.now.controller xi → IfOk result (λ line. line.items ≡ fast_plan_line k.now.controller xi) }
{
    line_of(alloc, fast_denominator(k), k.sums())
}
