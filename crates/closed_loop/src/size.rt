// The quantity `turn`, computed. None stands for a number above `2^126`.
ghost use Rattle.std.specs.Prelude.{◌≡◌, ◌≤◌, ◌<◌, ◌*◌, ◌^◌, ℤ, List, pos, unsigned_abs};
ghost use Rattle.std.specs.Option.{SomeIff};
ghost use Rattle.qp_model.specs.machine.Controller.{numbers, IsSized};
ghost use Rattle.qp_model.specs.machine.Machine.{IsAdmissible};
ghost use Rattle.qp_model.specs.problem.Parts.{IsDesign, design_of};
ghost use Rattle.qp_model.specs.form.Quantities.{greatest};
ghost use Rattle.qp_model.specs.machine.Successor.{IsFor};
ghost use Rattle.qp_model.specs.machine.LoopSize.{coordinate_magnitude, state_absolute_sum};
ghost use Rattle.overflow_check.specs.FastController.{with_last_version};
ghost use Rattle.closed_loop.specs.Looping.{IsLooping, grid_scale_by, next_over_by, input_absolute_sum_by, turn_absolute_sum_by, turn_size_by};

use crate::machine::ControlMachine;
use frac_scaled::{limited_product, limited_sum, scaled};
use qp_model::{ControllerParts, Design, DesignParts};

// What a number over `2^g` is times, to be over the averaged plan's denominator.
pub fn grid_scale<M: ControlMachine>(machine: &M) -> i128
    ensures value { result ≡ pos (grid_scale_by (M.looping machine.now)) }
    ensures small { unsigned_abs result < 2 ^ 81 }
    ensures sound { IsLooping (M.looping machine.now) }
    ensures inside { (xi : List ℤ) → M.runs_from machine.now xi → IsAdmissible (M.looping machine.now).controller xi }
{
    let c = machine.parts();
    scaled(machine.weight(), c.f - c.g)
}

// What the numerators of the next state over `2^g` are over, before they are rounded.
pub fn next_over<M: ControlMachine>(design: &DesignParts, machine: &M) -> i128
    requires { IsDesign design.now }
    ensures value { result ≡ pos (next_over_by (design_of design.now) (M.looping machine.now)) }
    ensures sound { IsLooping (M.looping machine.now) }
    ensures inside { (xi : List ℤ) → M.runs_from machine.now xi → IsAdmissible (M.looping machine.now).controller xi }
{
    design.plant_den * grid_scale(machine)
}

// How far coordinate `j` of a state of the box lies from 0, over `2^g`.
fn coordinate_magnitude(c: &ControllerParts, j: usize) -> u128
    requires sized { IsSized (with_last_version (numbers c.now)) }
    requires in_range { j < c.now.n }
    ensures value { result ≡ coordinate_magnitude (numbers c.now) j }
    ensures small { result < 2 ^ 31 }
{
    c.lo[j].unsigned_abs().max(c.hi[j].unsigned_abs())
}

// Row `i` of the plant at the farthest states.
fn state_absolute_sum(design: &DesignParts, c: &ControllerParts, i: usize) -> u128
    requires design { IsDesign design.now }
    requires sized { IsSized (with_last_version (numbers c.now)) }
    requires matched { IsFor (numbers c.now) (design_of design.now) }
    requires in_range { i < design.now.states }
    ensures { result ≡ state_absolute_sum (design_of design.now) (numbers c.now) i }
{
    let mut sum = 0;
    for j in 0..design.states {
        sum += design.a.at(i, j).unsigned_abs() * coordinate_magnitude(c, j);
    }
    sum
}

// How far the numerator of input `l` of the averaged plan lies from 0 at most.
fn reach<M: ControlMachine>(machine: &M, l: usize) -> u128
    requires { l < (M.looping machine.now).controller.inputs }
    ensures { result ≡ (M.looping machine.now).weight * (M.looping machine.now).magnitude l }
{
    machine.weight().unsigned_abs() * machine.magnitude(l)
}

// What input `l` adds to coordinate `i` at most, over all steps, over `2^f`.
fn input_term<M: ControlMachine>(
    design: &DesignParts,
    machine: &M,
    i: usize,
    l: usize,
) -> Option<u128>
    requires design { IsDesign design.now }
    requires matched { IsFor (M.looping machine.now).controller (design_of design.now) }
    requires row { i < design.now.states }
    requires column { l < design.now.inputs }
    ensures { let term = unsigned_abs ((design_of design.now).plant_b i l) * ((M.looping machine.now).weight * (M.looping machine.now).magnitude l) in
        SomeIff result (term ≤ 2 ^ 126) term }
{
    limited_product(design.b.at(i, l).unsigned_abs(), reach(machine, l))
}

// What the inputs add to coordinate `i` at most.
fn input_absolute_sum<M: ControlMachine>(
    design: &DesignParts,
    machine: &M,
    i: usize,
) -> Option<u128>
    requires design { IsDesign design.now }
    requires matched { IsFor (M.looping machine.now).controller (design_of design.now) }
    requires in_range { i < design.now.states }
    ensures { let part = input_absolute_sum_by (design_of design.now) (M.looping machine.now) i in SomeIff result (part ≤ 2 ^ 126) part }
{
    let mut sum = 0;
    for l in 0..design.inputs {
        sum = limited_sum(sum, input_term(design, machine, i, l)?)?;
    }
    Some(sum)
}

// Both, over the averaged plan's denominator.
fn turn_absolute_sum<M: ControlMachine>(design: &DesignParts, machine: &M, i: usize) -> Option<u128>
    requires design { IsDesign design.now }
    requires matched { IsFor (M.looping machine.now).controller (design_of design.now) }
    requires in_range { i < design.now.states }
    ensures { let reach = turn_absolute_sum_by (design_of design.now) (M.looping machine.now) i in SomeIff result (reach ≤ 2 ^ 126) reach }
{
    let own = limited_product(
        state_absolute_sum(design, machine.parts(), i),
        grid_scale(machine).unsigned_abs(),
    )?;
    limited_sum(own, input_absolute_sum(design, machine, i)?)
}

// The greatest of them.
fn greatest_turn_sum<M: ControlMachine>(design: &DesignParts, machine: &M) -> Option<u128>
    requires design { IsDesign design.now }
    requires matched { IsFor (M.looping machine.now).controller (design_of design.now) }
    ensures { let most = greatest design.now.states (turn_absolute_sum_by (design_of design.now) (M.looping machine.now)) in
        SomeIff result (most ≤ 2 ^ 126) most }
{
    let mut most = 0u128;
    for i in 0..design.states {
        most = most.max(turn_absolute_sum(design, machine, i)?);
    }
    Some(most)
}

/// The quantity `turn` of a design and a machine of a controller for its states, inputs and grid. No number that a next state is made of
/// is above it. None where it is above `2^126`.
pub fn turn_size<M: ControlMachine>(design: &Design, machine: &M) -> Option<u128>
    requires { IsFor (M.looping machine.now).controller (design_of design.now) }
    ensures { let size = turn_size_by (design_of design.now) (M.looping machine.now) in SomeIff result (size ≤ 2 ^ 126) size }
{
    let d = design.parts();
    let over = next_over(d, machine).unsigned_abs();
    limited_sum(greatest_turn_sum(d, machine)? * 2, over)
}
