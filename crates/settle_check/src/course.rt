// Rows of the closed loop turn by turn, and how far they show that its states lie.
ghost use Rattle.std.specs.Prelude.{◌≡◌, ◌<◌, ◌≤◌, ◌^◌, length, unsigned_abs, IfOk};
ghost use Rattle.qp_model.specs.problem.Runs.{Holds};
ghost use Rattle.settle_check.specs.Still.{box_of};
ghost use Rattle.settle_check.specs.Course.{signed, end_at, end_row};

use crate::closed::ClosedLoop;
use crate::counted::Counted;
use crate::fault::SettleFault;
use crate::rows::{loop_over, row_over, through_loop, turn_rest};
use crate::still::power;
use crate::whole::is_whole;
use frac_scaled::{limited_sum, round_div};
use mat_int::Mat;
use std::alloc::{AllocError, Global};

/// A number, or for the lower end its negation.
pub(crate) fn signed(upper: bool, z: i128) -> i128
    requires { unsigned_abs z ≤ 2 ^ 126 }
    ensures { result ≡ signed upper z }
{
    if upper { z } else { -z }
}

// An end of coordinate `i` of the box from `low` to `high`.
fn end_at(low: &[i128], high: &[i128], upper: bool, i: usize) -> i128
    requires low { i < length low.now }
    requires high { i < length high.now }
    ensures { result ≡ end_at upper (box_of low.now high.now) i }
{
    if upper { high[i] } else { low[i] }
}

// The row of an end of coordinate `i`, over `2^24`.
fn end_row(alloc: Global, n: usize, upper: bool, i: usize) -> Result<Vec<i128>, AllocError>
    requires { i < n }
    ensures { IfOk result (λ row. Holds row.items n (end_row upper i)) }
{
    let mut row = vec![in alloc; 0; n]?;
    row[i] = signed(upper, 1 << 24);
    Ok(row)
}

impl<'a> ClosedLoop<'a> {
    ghost use Rattle.std.specs.Prelude.{◌≡◌, ◌⊎◌, ◌↔◌, ℕ, ◌+◌, ◌<◌, ◌≤◌, ◌^◌, ◌+ℤ◌, length, IsSome, IfSome, IfOk, IfErr, pos, ◌*ℤ◌, ◌*◌};
    ghost use Rattle.integer_algebra.specs.Sums.{at};
    ghost use Rattle.qp_model.specs.problem.Runs.{Holds};
    ghost use Rattle.settle_check.specs.Still.{box_of};
    ghost use Rattle.settle_check.specs.ClosedRows.{loop_over, rounded_row, rounded_size};
    ghost use Rattle.settle_check.specs.TurnSize.{through_size};
    ghost use Rattle.settle_check.specs.Course.{plant, machine, next_row, adds, adds_size, IsRowWide, end_at, end_of, end_size, tube_of, EndHasRoom, IsEndFault, SideHasRoom, IsSideFault};
    ghost use Rattle.mat_int.specs.Matrix.{HasEntries};
    ghost use Rattle.settle_check.specs.declared.fault.SettleFault.TheVariants.{Memory, TooWide};

    // Of a row what stands at number `i` of the state, where it is rounded.
    fn rounded_at(&self, row: &[i128], i: usize) -> i128
        requires row { length row.now ≡ self.now.parts.now.states }
        requires state { i < self.now.parts.now.states }
        ensures { result ≡ rounded_row (plant self.now) (at row.now) i }
    {
        if is_whole(self.parts, i) { 0 } else { row[i] }
    }

    // The absolute sum of these.
    fn rounded_sum(&self, row: &[i128]) -> Option<u128>
        requires { length row.now ≡ self.now.parts.now.states }
        ensures value { IfSome result (λ n. n ≡ rounded_size (plant self.now) (at row.now)) }
        ensures room { IsSome result ↔ (rounded_size (plant self.now) (at row.now) ≤ 2 ^ 126) }
    {
        let mut sum = 0;
        for i in 0..self.parts.states {
            sum = limited_sum(sum, self.rounded_at(row, i).unsigned_abs())?;
        }
        Some(sum)
    }

    // Half a unit for each number of a row that is rounded, over twice what rows are over.
    fn rounding(&self, row: &[i128]) -> Option<Counted>
        requires { length row.now ≡ self.now.parts.now.states }
        ensures value { IfSome result (λ a.
            a.value ≡ pos (loop_over (plant self.now) (machine self.now)) *ℤ pos (rounded_size (plant self.now) (at row.now))) }
        ensures size { IfSome result (λ a. a.size ≡ loop_over (plant self.now) (machine self.now) * rounded_size (plant self.now) (at row.now)) }
        ensures room { IsSome result ↔ (loop_over (plant self.now) (machine self.now) * rounded_size (plant self.now) (at row.now) ≤ 2 ^ 126) }
    {
        let over = Counted::of(loop_over(self.parts, self.c));
        let sum = self.rounded_sum(row)?;
        over.times(Counted::of(sum as i128))
    }

    // What a turn adds to a row at most, where `next` is taken for the row through the loop.
    fn adds(&self, row: &[i128], next: &[i128]) -> Option<Counted>
        requires row { length row.now ≡ self.now.parts.now.states }
        requires next { length next.now ≡ self.now.parts.now.states }
        ensures value { IfSome result (λ a. a.value ≡ adds self.now (at row.now) (at next.now)) }
        ensures size { IfSome result (λ a. a.size ≡ adds_size self.now (at row.now) (at next.now)) }
        ensures room { IsSome result ↔ (adds_size self.now (at row.now) (at next.now) ≤ 2 ^ 126) }
    {
        let shifts = row_over(self.parts, self.shift_low, self.shift_high, row)?;
        let rest = turn_rest(self.parts, self.c, self.low, self.high, row, next)?;
        let half = self.rounding(row)?;
        let twice = power(1).times(rest)?;
        let all = twice.plus(half)?;
        all.floored(2 * loop_over(self.parts, self.c)).plus(shifts)
    }

    // Number `k` of the nearest whole row to what `row` has of the state through the loop.
    fn next_at(&self, row: &[i128], k: usize) -> Option<i128>
        requires row { length row.now ≡ self.now.parts.now.states }
        requires state { k < self.now.parts.now.states }
        ensures value { IfSome result (λ z. z ≡ next_row self.now (at row.now) k) }
        ensures room { IsSome result ↔ (through_size (plant self.now) (machine self.now) (at row.now) k ≤ 2 ^ 126) }
    {
        let through = through_loop(self.parts, self.c, row, k)?;
        Some(round_div(through.value, loop_over(self.parts, self.c)))
    }

    // That row.
    fn next(&self, alloc: Global, row: &[i128]) -> Result<Vec<i128>, SettleFault>
        requires { length row.now ≡ self.now.parts.now.states }
        ensures value { IfOk result (λ next. Holds next.items self.now.parts.now.states (next_row self.now (at row.now))) }
        ensures wide { IfErr result (λ e. (e ≡ Memory) ⊎ ((e ≡ TooWide) × IsRowWide self.now (at row.now))) }
    {
        let mut next = Vec::new(alloc);
        for k in 0..self.parts.states {
            let Some(number) = self.next_at(row, k) else {
                return Err(SettleFault::TooWide);
            };
            next.push(number)?;
        }
        Ok(next)
    }

    /// The end that a row shows over the box from `low` to `high`, after turns that have added `added`: rounded inward from over `2^24`.
    pub(crate) fn end(
        &self,
        low: &[i128],
        high: &[i128],
        upper: bool,
        row: &[i128],
        added: Counted,
    ) -> Option<i128>
        requires low { length low.now ≡ self.now.parts.now.states }
        requires high { length high.now ≡ self.now.parts.now.states }
        requires row { length row.now ≡ self.now.parts.now.states }
        ensures value { IfSome result (λ z. z ≡ end_of self.now (box_of low.now high.now) upper (at row.now) added.value) }
        ensures room { IsSome result ↔ (end_size self.now (box_of low.now high.now) (at row.now) added.size ≤ 2 ^ 126) }
    {
        let most = row_over(self.parts, low, high, row)?.plus(added)?;
        Some(signed(upper, most.over_power(24)))
    }

    /// The row after one turn more, and what the turns have added with it.
    pub(crate) fn turned(
        &self,
        alloc: Global,
        row: &[i128],
        added: Counted,
    ) -> Result<(Vec<i128>, Counted), SettleFault>
        requires { length row.now ≡ self.now.parts.now.states }
        ensures row { IfOk result (λ t. Holds t.0.items self.now.parts.now.states (next_row self.now (at row.now))) }
        ensures value { IfOk result (λ t. t.1.value ≡ added.value +ℤ adds self.now (at row.now) (next_row self.now (at row.now))) }
        ensures size { IfOk result (λ t. t.1.size ≡ added.size + adds_size self.now (at row.now) (next_row self.now (at row.now))) }
        ensures room { IfOk result (λ t. t.1.size ≤ 2 ^ 126) }
        ensures wide { IfErr result (λ e. (e ≡ Memory)
            ⊎ ((e ≡ TooWide) × (2 ^ 126 < added.size + adds_size self.now (at row.now) (next_row self.now (at row.now))))) }
    {
        let next = self.next(alloc, row)?;
        let Some(more) = self.adds(row, &next) else {
            return Err(SettleFault::TooWide);
        };
        let Some(added) = added.plus(more) else {
            return Err(SettleFault::TooWide);
        };
        Ok((next, added))
    }

    /// Where an end of coordinate `i` lies after 0, 1 .. `turns` turns of loops from the box from `low` to `high`, over `2^grid`.
    pub(crate) fn ends(
        &self,
        alloc: Global,
        low: &[i128],
        high: &[i128],
        upper: bool,
        i: usize,
        turns: u32,
    ) -> Result<Vec<i128>, SettleFault>
        requires low { length low.now ≡ self.now.parts.now.states }
        requires high { length high.now ≡ self.now.parts.now.states }
        requires coordinate { i < self.now.parts.now.states }
        ensures value { IfOk result (λ v. Holds v.items (turns + 1) (λ t. end_at upper (tube_of self.now (box_of low.now high.now) t) i)) }
        ensures room { IfOk result (λ _. EndHasRoom self.now (box_of low.now high.now) turns upper i) }
        ensures fault { IfErr result (IsEndFault self.now (box_of low.now high.now) turns upper i) }
    {
        let mut row = end_row(alloc, self.parts.states, upper, i)?;
        let mut added = Counted::of(0);
        let mut ends = Vec::new(alloc);
        ends.push(end_at(low, high, upper, i))?;
        for _turn in 0..turns {
            (row, added) = self.turned(alloc, &row, added)?;
            let Some(end) = self.end(low, high, upper, &row, added) else {
                return Err(SettleFault::TooWide);
            };
            ends.push(end)?;
        }
        Ok(ends)
    }

    /// Of all coordinates: a row each, a number a turn.
    pub(crate) fn tube(
        &self,
        alloc: Global,
        low: &[i128],
        high: &[i128],
        upper: bool,
        turns: u32,
    ) -> Result<Mat, SettleFault>
        requires low { length low.now ≡ self.now.parts.now.states }
        requires high { length high.now ≡ self.now.parts.now.states }
        ensures value { IfOk result (HasEntries self.now.parts.now.states (turns + 1) (λ i t. end_at upper (tube_of self.now (box_of low.now high.now) t) i)) }
        ensures room { IfOk result (λ _. SideHasRoom self.now (box_of low.now high.now) turns upper) }
        ensures fault { IfErr result (IsSideFault self.now (box_of low.now high.now) turns upper) }
    {
        let mut tube = Mat::zero(alloc, 0, turns as usize + 1)?;
        for i in 0..self.parts.states {
            let ends = self.ends(alloc, low, high, upper, i, turns)?;
            tube.push_row(alloc, &ends)?;
        }
        Ok(tube)
    }
}
