// How far the rows of the cost lie from 0: as a temperature less its target.
ghost use Rattle.std.specs.Prelude.{◌≡◌, ◌+◌, ◌<◌, ◌^◌, length, unsigned_abs};
ghost use Rattle.qp_model.specs.problem.Parts.{IsDesign, design_of};
ghost use Rattle.settle_check.specs.Settling.{told_rows, cost_numbers};
ghost use Rattle.settle_check.specs.Course.{cost_first};

use crate::closed::ClosedLoop;
use crate::counted::Counted;
use crate::course::signed;
use crate::fault::SettleFault;
use qp_model::DesignParts;
use std::alloc::{AllocError, Global};

// How many rows are told, so many turns after states where no multiplier moves.
fn told_rows(parts: &DesignParts, turns: u32) -> usize
    requires { IsDesign parts.now }
    ensures { result ≡ told_rows (design_of parts.now) turns }
{
    if turns == 0 {
        0
    } else {
        parts.stage_cost.rows() + parts.final_cost.rows()
    }
}

// Number `j` of row `k`: the rows of the stages, and then those of the last state.
fn cost_number(parts: &DesignParts, k: usize, j: usize) -> i128
    requires design { IsDesign parts.now }
    requires row { k < length parts.now.stage_cost.rows + length parts.now.final_cost.rows }
    requires state { j < parts.now.states }
    ensures value { result ≡ cost_numbers (design_of parts.now) k j }
    ensures small { unsigned_abs result < 2 ^ 31 }
{
    let stages = parts.stage_cost.rows();
    if k < stages {
        parts.stage_cost.at(k, j)
    } else {
        parts.final_cost.at(k - stages, j)
    }
}

// Of it as the row begins, over `2^24`, for the lower end with its sign changed.
fn first_number(parts: &DesignParts, upper: bool, k: usize, j: usize) -> i128
    requires design { IsDesign parts.now }
    requires row { k < length parts.now.stage_cost.rows + length parts.now.final_cost.rows }
    requires state { j < parts.now.states }
    ensures { result ≡ cost_first (design_of parts.now) upper k j }
{
    signed(upper, cost_number(parts, k, j)) * (1 << 24)
}

impl<'a> ClosedLoop<'a> {
    ghost use Rattle.std.specs.Prelude.{◌≡◌, ◌⊎◌, ℕ, ◌+◌, ◌<◌, ◌≤◌, ◌^◌, length, IfOk, IfErr};
    ghost use Rattle.qp_model.specs.problem.Runs.{Holds};
    ghost use Rattle.settle_check.specs.Settling.{told_rows};
    ghost use Rattle.settle_check.specs.Course.{plant, end_at, cost_first, CostEndHasRoom, CostSideHasRoom, costs_of};
    ghost use Rattle.settle_check.specs.declared.fault.SettleFault.TheVariants.{Memory, TooWide};

    // Row `k` as it begins.
    fn cost_first(&self, alloc: Global, upper: bool, k: usize) -> Result<Vec<i128>, AllocError>
        requires { k < (plant self.now).stage_costs + (plant self.now).final_costs }
        ensures { IfOk result (λ row. Holds row.items self.now.parts.now.states (cost_first (plant self.now) upper k)) }
    {
        let mut row = Vec::new(alloc);
        for j in 0..self.parts.states {
            row.push(first_number(self.parts, upper, k, j))?;
        }
        Ok(row)
    }

    // Its end so many turns after states where no multiplier moves, over `2^grid`.
    fn cost_end(
        &self,
        alloc: Global,
        upper: bool,
        k: usize,
        turns: u32,
    ) -> Result<i128, SettleFault>
        requires { k < (plant self.now).stage_costs + (plant self.now).final_costs }
        ensures value { IfOk result (λ z. z ≡ end_at upper (costs_of self.now turns) k) }
        ensures room { IfOk result (λ _. CostEndHasRoom self.now turns upper k) }
        ensures fault { IfErr result (λ e. (e ≡ Memory) ⊎ ((e ≡ TooWide) × (CostEndHasRoom self.now turns upper k → ⊥))) }
    {
        let mut row = self.cost_first(alloc, upper, k)?;
        let mut added = Counted::of(0);
        for _turn in 0..turns {
            (row, added) = self.turned(alloc, &row, added)?;
        }
        let Some(end) = self.end(self.low, self.high, upper, &row, added) else {
            return Err(SettleFault::TooWide);
        };
        Ok(end)
    }

    /// Of all rows that are told.
    pub(crate) fn costs(
        &self,
        alloc: Global,
        upper: bool,
        turns: u32,
    ) -> Result<Vec<i128>, SettleFault>
        ensures value { IfOk result (λ v. Holds v.items (told_rows (plant self.now) turns) (end_at upper (costs_of self.now turns))) }
        ensures room { IfOk result (λ _. CostSideHasRoom self.now turns upper) }
        ensures fault { IfErr result (λ e. (e ≡ Memory) ⊎ ((e ≡ TooWide) × (CostSideHasRoom self.now turns upper → ⊥))) }
    {
        let mut ends = Vec::new(alloc);
        for k in 0..told_rows(self.parts, turns) {
            let end = self.cost_end(alloc, upper, k, turns)?;
            ends.push(end)?;
        }
        Ok(ends)
    }
}
