// A run of the plant in enclosures, and what rows have of it.
ghost use Rattle.scaled_run.specs.Lists.{IsRunMade};

use crate::states::next_state;
use condensed_form::{cost_count, limit_count};
use enclosure::{Enc, add, combine};
use qp_model::DesignParts;
use std::alloc::{AllocError, Global};

/// The states of a run of the plant from `start` under `plan`, rounded at each stage.
#[derive(Drop)]
pub struct ScaledRun<'a> {
    pub parts: &'a DesignParts,
    /// What the states at all stages and `plan` reach at most: midpoint and radius together.
    pub reach: u128,
    /// n numbers.
    pub start: Vec<Enc>,
    /// N p numbers, stage by stage.
    pub plan: Vec<Enc>,
    // (N + 1) n numbers, stage by stage.
    states: Vec<Enc>,
    ghost made: { IsRunMade parts.now reach start.items plan.items states.items },
}

impl<'a> ScaledRun<'a> {
    ghost use Rattle.std.specs.Prelude.{◌≡◌, ◌≤◌, ◌<◌, ◌+◌, ◌*◌, ◌^◌, ◌≤ℤ◌, ℕ, pos, length, IfOk};
    ghost use Rattle.integer_algebra.specs.Sums.{at};
    ghost use Rattle.integer_algebra.specs.Sizes.{size};
    ghost use Rattle.mat_int.specs.Enclosures.{combined, combination_magnitude};
    ghost use Rattle.enclosure.specs.Values.{pair, pair_at};
    ghost use Rattle.qp_model.specs.problem.Design.{rows};
    ghost use Rattle.qp_model.specs.problem.Parts.{design_of};
    ghost use Rattle.qp_model.specs.problem.Runs.{counts};
    ghost use Rattle.qp_model.specs.form.Quantities.{cost_width, limit_width};
    ghost use Rattle.qp_model.specs.form.FineForm.{fine_run, fine_cost, fine_limit, fine_stage_limit};
    ghost use Rattle.condensed_form.specs.Lists.{row_of_numbers};
    ghost use Rattle.scaled_run.specs.Lists.{HoldsEnclosures, IsRunReady};

    /// From the state `start`, n numbers, under the plan `plan`, N p numbers, of which none reaches further than `reach`, nor any state of the run.
    pub fn new(
        alloc: Global,
        parts: &'a DesignParts,
        reach: u128,
        start: Vec<Enc>,
        plan: Vec<Enc>,
    ) -> Result<ScaledRun<'a>, AllocError>
        requires { IsRunReady parts.now reach start.items plan.items }
        ensures parts { IfOk result (λ r. r.parts.now ≡ parts.now) }
        ensures reach { IfOk result (λ r. r.reach ≡ reach) }
        ensures start { IfOk result (λ r. r.start.items ≡ start.items) }
        ensures plan { IfOk result (λ r. r.plan.items ≡ plan.items) }
    {
        let n = parts.states;
        let p = parts.inputs;
        let mut states = start.to_vec(alloc)?;
        for k in 0..parts.stages {
            let state = &states[k * n..k * n + n];
            let next = next_state(alloc, parts, state, &plan[k * p..k * p + p])?;
            states.extend_from_slice(&next)?;
        }
        Ok(ScaledRun {
            parts,
            reach,
            start,
            plan,
            states,
        })
    }

    // A row's first n numbers with the state at a stage.
    fn state_sum(&self, row: &[i128], k: usize) -> Enc
        requires stage { k ≤ self.now.parts.now.stages }
        requires row { self.now.parts.now.states ≤ length row.now }
        requires room { combination_magnitude self.now.parts.now.states (at row.now)
            (fine_run (design_of self.now.parts.now) (pair_at self.now.start.items) (pair_at self.now.plan.items) k) ≤ℤ pos (2 ^ 126) }
        ensures { pair result ≡ combined self.now.parts.now.states (at row.now)
            (fine_run (design_of self.now.parts.now) (pair_at self.now.start.items) (pair_at self.now.plan.items) k) 1 }
    {
        let n = self.parts.states;
        let Some(sum) = combine(&row[..n], &self.states[k * n..k * n + n], 1) else {
            unreachable!();
        };
        sum
    }

    // A row's next p numbers with the input there.
    fn input_sum(&self, row: &[i128], k: usize) -> Enc
        requires stage { k < self.now.parts.now.stages }
        requires row { self.now.parts.now.states + self.now.parts.now.inputs ≤ length row.now }
        requires room { combination_magnitude self.now.parts.now.inputs (λ l. at row.now (self.now.parts.now.states + l))
            (λ l. pair_at self.now.plan.items (k * self.now.parts.now.inputs + l)) ≤ℤ pos (2 ^ 126) }
        ensures { pair result ≡ combined self.now.parts.now.inputs (λ l. at row.now (self.now.parts.now.states + l))
            (λ l. pair_at self.now.plan.items (k * self.now.parts.now.inputs + l)) 1 }
    {
        let n = self.parts.states;
        let p = self.parts.inputs;
        let Some(sum) = combine(&row[n..n + p], &self.plan[k * p..k * p + p], 1) else {
            unreachable!();
        };
        sum
    }

    /// What counted cost row `c` has of the run, without its target, times `row_den`.
    pub fn cost(&self, c: usize) -> Enc
        requires row { c < counts (design_of self.now.parts.now) }
        requires fits { cost_width (design_of self.now.parts.now) * self.now.reach ≤ 2 ^ 126 }
        ensures { pair result ≡ fine_cost (design_of self.now.parts.now) (pair_at self.now.start.items) (pair_at self.now.plan.items) c }
    {
        let rows = self.parts.stage_cost.rows();
        let stage_rows = self.parts.stages * rows;
        if c < stage_rows {
            self.state_sum(self.parts.stage_cost.row(c % rows), c / rows + 1)
        } else {
            self.state_sum(self.parts.final_cost.row(c - stage_rows), self.parts.stages)
        }
    }

    // What a stage row has of the run at a stage.
    fn stage_limit(&self, row: &[i128], k: usize) -> Enc
        requires stage { k < self.now.parts.now.stages }
        requires row { length row.now ≡ self.now.parts.now.states + self.now.parts.now.inputs + 1 }
        requires narrow { size self.now.parts.now.states (at row.now) +
            size self.now.parts.now.inputs (λ l. at row.now (self.now.parts.now.states + l)) ≤ limit_width (design_of self.now.parts.now) }
        requires fits { limit_width (design_of self.now.parts.now) * self.now.reach ≤ 2 ^ 126 }
        ensures { pair result ≡ fine_stage_limit (design_of self.now.parts.now) (pair_at self.now.start.items) (pair_at self.now.plan.items) k
            (row_of_numbers self.now.parts.now row.now) }
    {
        let state = self.state_sum(row, k);
        let input = self.input_sum(row, k);
        let Some(limit) = add(state, input) else {
            unreachable!();
        };
        limit
    }

    /// What limit row `i` has of the run, without its bound, times `limit_den`.
    pub fn limit(&self, i: usize) -> Enc
        requires row { i < rows (design_of self.now.parts.now) }
        requires fits { limit_width (design_of self.now.parts.now) * self.now.reach ≤ 2 ^ 126 }
        ensures { pair result ≡ fine_limit (design_of self.now.parts.now) (pair_at self.now.start.items) (pair_at self.now.plan.items) i }
    {
        let limits = self.parts.stage_rows.rows();
        let stage_rows = self.parts.stages * limits;
        if i < stage_rows {
            self.stage_limit(self.parts.stage_rows.row(i % limits), i / limits)
        } else {
            self.state_sum(self.parts.final_rows.row(i - stage_rows), self.parts.stages)
        }
    }

    /// What each counted cost row has of the run, times `row_den`.
    pub fn costs(&self, alloc: Global) -> Result<Vec<Enc>, AllocError>
        requires { cost_width (design_of self.now.parts.now) * self.now.reach ≤ 2 ^ 126 }
        ensures { IfOk result (λ v. HoldsEnclosures v.items (counts (design_of self.now.parts.now))
            (fine_cost (design_of self.now.parts.now) (pair_at self.now.start.items) (pair_at self.now.plan.items))) }
    {
        let mut out = Vec::new(alloc);
        for c in 0..cost_count(self.parts) {
            out.push(self.cost(c))?;
        }
        Ok(out)
    }

    /// What each limit row has of the run, times `limit_den`.
    pub fn limits(&self, alloc: Global) -> Result<Vec<Enc>, AllocError>
        requires { limit_width (design_of self.now.parts.now) * self.now.reach ≤ 2 ^ 126 }
        ensures { IfOk result (λ v. HoldsEnclosures v.items (rows (design_of self.now.parts.now))
            (fine_limit (design_of self.now.parts.now) (pair_at self.now.start.items) (pair_at self.now.plan.items))) }
    {
        let mut out = Vec::new(alloc);
        for i in 0..limit_count(self.parts) {
            out.push(self.limit(i))?;
        }
        Ok(out)
    }
}
