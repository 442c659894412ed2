// A row through the closed loop.
ghost use Rattle.std.specs.Prelude.{◌≡◌, ◌↔◌, ◌<◌, ◌≤◌, ◌*◌, ◌^◌, ◌*ℤ◌, pos, length, IsSome, IfSome};
ghost use Rattle.std.specs.Int.{int_max};
ghost use Rattle.integer_algebra.specs.Sums.{at, total, coimage};
ghost use Rattle.mat_int.specs.Matrix.{entry_of};
ghost use Rattle.qp_model.specs.problem.Parts.{IsDesign, design_of};
ghost use Rattle.qp_model.specs.machine.Controller.{numbers, IsSized};
ghost use Rattle.overflow_check.specs.FastController.{with_last_version};
ghost use Rattle.qp_model.specs.machine.Successor.{IsFor};
ghost use Rattle.settle_check.specs.ClosedRows.{loop_matrix, loop_over, through_loop, left_of, turn_rest};
ghost use Rattle.settle_check.specs.TurnSize.{feedback_size, loop_size, through_size, input_size, inputs_size, left_over_size, lefts_size, turn_rest_size, row_size};
ghost use Rattle.settle_check.specs.Still.{box_of, greatest_over, greatest_less};

use crate::counted::Counted;
use crate::still::{number_at, power};
use frac_scaled::scaled;
use qp_model::{ControllerParts, DesignParts};

// What coordinate `i` of the plant has of number `k` of the state through the inputs.
fn feedback(parts: &DesignParts, c: &ControllerParts, i: usize, k: usize) -> Option<Counted>
    requires design { IsDesign parts.now }
    requires sized { IsSized (with_last_version (numbers c.now)) }
    requires matched { IsFor (numbers c.now) (design_of parts.now) }
    requires coordinate { i < parts.now.states }
    requires state { k < parts.now.states }
    ensures value { IfSome result (λ a. a.value ≡ total parts.now.inputs (λ l. entry_of parts.now.b i l *ℤ entry_of c.now.p_mat l k)) }
    ensures size { IfSome result (λ a. a.size ≡ feedback_size (design_of parts.now) (numbers c.now) i k) }
    ensures room { IsSome result ↔ (feedback_size (design_of parts.now) (numbers c.now) i k ≤ 2 ^ 126) }
{
    let mut sum = Counted::of(0);
    for l in 0..parts.inputs {
        let input = Counted::of(parts.b.at(i, l));
        let product = input.times(Counted::of(c.p_mat.at(l, k)))?;
        sum = sum.plus(product)?;
    }
    Some(sum)
}

// And what it has of it in all.
fn loop_entry(parts: &DesignParts, c: &ControllerParts, i: usize, k: usize) -> Option<Counted>
    requires design { IsDesign parts.now }
    requires sized { IsSized (with_last_version (numbers c.now)) }
    requires matched { IsFor (numbers c.now) (design_of parts.now) }
    requires coordinate { i < parts.now.states }
    requires state { k < parts.now.states }
    ensures value { IfSome result (λ a. a.value ≡ loop_matrix (design_of parts.now) (numbers c.now) i k) }
    ensures size { IfSome result (λ a. a.size ≡ loop_size (design_of parts.now) (numbers c.now) i k) }
    ensures room { IsSome result ↔ (loop_size (design_of parts.now) (numbers c.now) i k ≤ 2 ^ 126) }
{
    let own = power(c.f).times(Counted::of(parts.a.at(i, k)))?;
    own.less(feedback(parts, c, i, k)?)
}

/// What a row has of number `k` of the state through the loop.
pub(crate) fn through_loop(
    parts: &DesignParts,
    c: &ControllerParts,
    row: &[i128],
    k: usize,
) -> Option<Counted>
    requires design { IsDesign parts.now }
    requires sized { IsSized (with_last_version (numbers c.now)) }
    requires matched { IsFor (numbers c.now) (design_of parts.now) }
    requires row { length row.now ≡ parts.now.states }
    requires state { k < parts.now.states }
    ensures value { IfSome result (λ a. a.value ≡ through_loop (design_of parts.now) (numbers c.now) (at row.now) k) }
    ensures size { IfSome result (λ a. a.size ≡ through_size (design_of parts.now) (numbers c.now) (at row.now) k) }
    ensures room { IsSome result ↔ (through_size (design_of parts.now) (numbers c.now) (at row.now) k ≤ 2 ^ 126) }
{
    let mut sum = Counted::of(0);
    for i in 0..parts.states {
        let product = loop_entry(parts, c, i, k)?.scaled(number_at(row, i))?;
        sum = sum.plus(product)?;
    }
    Some(sum)
}

// What a row has of input `l`.
fn input_of_row(parts: &DesignParts, row: &[i128], l: usize) -> Option<Counted>
    requires design { IsDesign parts.now }
    requires row { length row.now ≡ parts.now.states }
    requires input { l < parts.now.inputs }
    ensures value { IfSome result (λ a. a.value ≡ coimage parts.now.states (entry_of parts.now.b) (at row.now) l) }
    ensures size { IfSome result (λ a. a.size ≡ input_size (design_of parts.now) (at row.now) l) }
    ensures room { IsSome result ↔ (input_size (design_of parts.now) (at row.now) l ≤ 2 ^ 126) }
{
    let mut sum = Counted::of(0);
    for i in 0..parts.states {
        let product = Counted::of(parts.b.at(i, l)).scaled(number_at(row, i))?;
        sum = sum.plus(product)?;
    }
    Some(sum)
}

/// What the floors and offsets of all inputs add to a row at most.
pub(crate) fn inputs_less(parts: &DesignParts, c: &ControllerParts, row: &[i128]) -> Option<Counted>
    requires design { IsDesign parts.now }
    requires sized { IsSized (with_last_version (numbers c.now)) }
    requires matched { IsFor (numbers c.now) (design_of parts.now) }
    requires row { length row.now ≡ parts.now.states }
    ensures value { IfSome result (λ a. a.value ≡
        greatest_less parts.now.inputs (coimage parts.now.states (entry_of parts.now.b) (at row.now)) (at c.now.t.items)) }
    ensures size { IfSome result (λ a. a.size ≡ inputs_size (design_of parts.now) (numbers c.now) (at row.now)) }
    ensures room { IsSome result ↔ (inputs_size (design_of parts.now) (numbers c.now) (at row.now) ≤ 2 ^ 126) }
{
    let mut sum = Counted::of(0);
    for l in 0..parts.inputs {
        let most = input_of_row(parts, row, l)?.greatest_less(c.t[l])?;
        sum = sum.plus(most)?;
    }
    Some(sum)
}

/// What rows are over: `plant_den * 2^f`.
pub(crate) fn loop_over(parts: &DesignParts, c: &ControllerParts) -> i128
    requires design { IsDesign parts.now }
    requires sized { IsSized (with_last_version (numbers c.now)) }
    ensures value { result ≡ pos (loop_over (design_of parts.now) (numbers c.now)) }
    ensures positive { 1 ≤ loop_over (design_of parts.now) (numbers c.now) }
    ensures small { loop_over (design_of parts.now) (numbers c.now) ≤ 2 ^ 70 }
{
    scaled(parts.plant_den, c.f)
}

// What `next` leaves of number `k` of the state, over the box from `low` to `high`.
fn left_over(
    parts: &DesignParts,
    c: &ControllerParts,
    low: &[i128],
    high: &[i128],
    row: &[i128],
    next: &[i128],
    k: usize,
) -> Option<Counted>
    requires design { IsDesign parts.now }
    requires sized { IsSized (with_last_version (numbers c.now)) }
    requires matched { IsFor (numbers c.now) (design_of parts.now) }
    requires low { length low.now ≡ parts.now.states }
    requires high { length high.now ≡ parts.now.states }
    requires row { length row.now ≡ parts.now.states }
    requires next { length next.now ≡ parts.now.states }
    requires state { k < parts.now.states }
    ensures value { let left = left_of (design_of parts.now) (numbers c.now) (at row.now) (at next.now) k in
        IfSome result (λ a. a.value ≡ int_max (left *ℤ at low.now k) (left *ℤ at high.now k)) }
    ensures size { IfSome result (λ a.
        a.size ≡ left_over_size (design_of parts.now) (numbers c.now) (box_of low.now high.now) (at row.now) (at next.now) k) }
    ensures room { IsSome result ↔ (left_over_size (design_of parts.now) (numbers c.now) (box_of low.now high.now) (at row.now) (at next.now) k ≤ 2 ^ 126) }
{
    let over = Counted::of(loop_over(parts, c)).scaled(number_at(next, k))?;
    let left = through_loop(parts, c, row, k)?.less(over)?;
    left.greatest_over(number_at(low, k), number_at(high, k))
}

/// And of all.
pub(crate) fn lefts_over(
    parts: &DesignParts,
    c: &ControllerParts,
    low: &[i128],
    high: &[i128],
    row: &[i128],
    next: &[i128],
) -> Option<Counted>
    requires design { IsDesign parts.now }
    requires sized { IsSized (with_last_version (numbers c.now)) }
    requires matched { IsFor (numbers c.now) (design_of parts.now) }
    requires low { length low.now ≡ parts.now.states }
    requires high { length high.now ≡ parts.now.states }
    requires row { length row.now ≡ parts.now.states }
    requires next { length next.now ≡ parts.now.states }
    ensures value { let left = left_of (design_of parts.now) (numbers c.now) (at row.now) (at next.now) in
        IfSome result (λ a. a.value ≡ greatest_over parts.now.states (box_of low.now high.now) left) }
    ensures size { IfSome result (λ a. a.size ≡ lefts_size (design_of parts.now) (numbers c.now) (box_of low.now high.now) (at row.now) (at next.now)) }
    ensures room { IsSome result ↔ (lefts_size (design_of parts.now) (numbers c.now) (box_of low.now high.now) (at row.now) (at next.now) ≤ 2 ^ 126) }
{
    let mut sum = Counted::of(0);
    for k in 0..parts.states {
        let most = left_over(parts, c, low, high, row, next, k)?;
        sum = sum.plus(most)?;
    }
    Some(sum)
}

/// What a turn adds to a row at most, but for rounding and shifts, where `next` is taken for the row through the loop.
pub(crate) fn turn_rest(
    parts: &DesignParts,
    c: &ControllerParts,
    low: &[i128],
    high: &[i128],
    row: &[i128],
    next: &[i128],
) -> Option<Counted>
    requires design { IsDesign parts.now }
    requires sized { IsSized (with_last_version (numbers c.now)) }
    requires matched { IsFor (numbers c.now) (design_of parts.now) }
    requires low { length low.now ≡ parts.now.states }
    requires high { length high.now ≡ parts.now.states }
    requires row { length row.now ≡ parts.now.states }
    requires next { length next.now ≡ parts.now.states }
    ensures value { IfSome result (λ a. a.value ≡ turn_rest (design_of parts.now) (numbers c.now) (box_of low.now high.now) (at row.now) (at next.now)) }
    ensures size { IfSome result (λ a. a.size ≡ turn_rest_size (design_of parts.now) (numbers c.now) (box_of low.now high.now) (at row.now) (at next.now)) }
    ensures room { IsSome result ↔ (turn_rest_size (design_of parts.now) (numbers c.now) (box_of low.now high.now) (at row.now) (at next.now) ≤ 2 ^ 126) }
{
    let left = lefts_over(parts, c, low, high, row, next)?;
    let inputs = power(parts.grid).times(inputs_less(parts, c, row)?)?;
    left.plus(inputs)
}

/// What a row has at most over a box from `low` to `high`, of states or of shifts.
pub(crate) fn row_over(
    parts: &DesignParts,
    low: &[i128],
    high: &[i128],
    row: &[i128],
) -> Option<Counted>
    requires low { length low.now ≡ parts.now.states }
    requires high { length high.now ≡ parts.now.states }
    requires row { length row.now ≡ parts.now.states }
    ensures value { IfSome result (λ a. a.value ≡ greatest_over parts.now.states (box_of low.now high.now) (at row.now)) }
    ensures size { IfSome result (λ a. a.size ≡ row_size (design_of parts.now) (box_of low.now high.now) (at row.now)) }
    ensures room { IsSome result ↔ (row_size (design_of parts.now) (box_of low.now high.now) (at row.now) ≤ 2 ^ 126) }
{
    let mut sum = Counted::of(0);
    for k in 0..parts.states {
        let own = Counted::of(number_at(row, k));
        let most = own.greatest_over(number_at(low, k), number_at(high, k))?;
        sum = sum.plus(most)?;
    }
    Some(sum)
}
