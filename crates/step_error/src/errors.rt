// The bounds of the rounding errors at a number of fraction bits.
ghost use Rattle.std.specs.Prelude.{◌≡◌, pos, ◌≤◌};
ghost use Rattle.qp_model.specs.bounds.Errors.{plan_bound, residual_error, radius_error, errors_cost, epsilon};
ghost use Rattle.step_error.specs.ErrorSums.{AreSums, sums_of, rounding_cost, radius_cost};

use crate::sums::ErrorSums;

/// How far an entry of the machine's plans is from 0 at most, with `f` fraction bits.
pub fn plan_bound(e: &ErrorSums, f: u32) -> u128
    requires sums { AreSums e.now }
    requires bits { f ≤ 48 }
    ensures { result ≡ plan_bound (sums_of e.now) f }
{
    let push = e.tail.div_ceil((1 << (f + 2)) * e.rho);
    e.radii.spread * (e.lead + push) + 1
}

// How far a residual that a step uses is from that of the midpoints at most, over `2^(f+1)`, where the plan's entries are within `plan`.
fn residual_of(e: &ErrorSums, plan: u128) -> u128
    requires sums { AreSums e.now }
    requires plan { plan ≤ plan_bound (sums_of e.now) 0 }
    ensures { result ≡ residual_error (sums_of e.now) plan }
{
    e.nu * plan + e.n_box + 3
}

/// How far a residual that a step uses is from that of the midpoints at most, over `2^(f+1)`.
pub fn residual_error(e: &ErrorSums, f: u32) -> u128
    requires sums { AreSums e.now }
    requires bits { f ≤ 48 }
    ensures { result ≡ residual_error (sums_of e.now) (plan_bound (sums_of e.now) f) }
{
    residual_of(e, plan_bound(e, f))
}

// How far an entry of the gradient is from that of the midpoints at most, over `2^40`.
fn radius_error(e: &ErrorSums, plan: u128) -> u128
    requires sums { AreSums e.now }
    requires plan { plan ≤ plan_bound (sums_of e.now) 0 }
    ensures { result ≡ radius_error (sums_of e.now) plan }
{
    let radii = &e.radii;
    let moved = plan * radii.h_rad + e.x_box * radii.f_rad + radii.o_rad;
    let columns = e.y_top * radii.g_col;
    moved.div_ceil(radii.cost_scale) + columns.div_ceil(radii.row_scale)
}

// What the radii cost, over `2^40`: those of the gradient, and those of the residuals, each rounded up.
fn radius_cost(e: &ErrorSums, plan: u128) -> u128
    requires sums { AreSums e.now }
    requires plan { plan ≤ plan_bound (sums_of e.now) 0 }
    ensures { result ≡ radius_cost (sums_of e.now) plan }
{
    let error = radius_error(e, plan);
    let gradient = e.nu * e.weight_den * (error * error);
    let rows = e.y_top * (plan * e.radii.g_sum + e.x_box * e.radii.e_sum);
    gradient.div_ceil((1 << 40) * e.rho) + rows.div_ceil(e.radii.row_scale)
}

// What rounding costs, over `2^40`: the gradient's errors, which cost `first` over `4^f`, and those of the residuals, each rounded up.
fn rounding_cost(e: &ErrorSums, first: u128, plan: u128, f: u32) -> u128
    requires sums { AreSums e.now }
    requires first { first ≤ e.now.first }
    requires plan { plan ≤ plan_bound (sums_of e.now) 0 }
    requires bits { f ≤ 48 }
    ensures { result ≡ rounding_cost (sums_of e.now) first plan f }
{
    let gradient = e.radii.spread * (1 << 40) * first;
    let rows = (1 << 40) * e.y_rows * residual_of(e, plan);
    gradient.div_ceil(1 << (2 * f)) + rows.div_ceil(1 << (f + 1))
}

/// What the errors of a step cost at most, over `2^40`, where those of the gradient by rounding cost `first` over `4^f` and the plan's entries are within
/// `plan`.
pub fn errors_cost(e: &ErrorSums, first: u128, plan: u128, f: u32) -> i128
    requires sums { AreSums e.now }
    requires first { first ≤ e.now.first }
    requires plan { plan ≤ plan_bound (sums_of e.now) 0 }
    requires bits { f ≤ 48 }
    ensures { result ≡ pos (errors_cost (sums_of e.now) first plan f) }
{
    (rounding_cost(e, first, plan, f) + radius_cost(e, plan)) as i128
}

/// What the errors of a step cost at most, over `2^40`: by rounding and by the radii, those of the gradient and those of the residuals, each
/// rounded up.
pub fn epsilon(e: &ErrorSums, f: u32) -> i128
    requires sums { AreSums e.now }
    requires bits { f ≤ 48 }
    ensures { result ≡ pos (epsilon (sums_of e.now) f) }
{
    errors_cost(e, e.first, plan_bound(e, f), f)
}
