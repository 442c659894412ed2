// The machine's state, its steps and its runs.
ghost use Rattle.std.specs.Prelude.{◌≡◌, ◌<◌, ◌≤◌, ◌+◌, ◌^◌, ◌↔◌, pos, ◌*ℤ◌, length, IsTrue, IsFalse, IsOk, IfOk, IfErr, OnOk, OnErr, MatchOption};
ghost use Rattle.integer_algebra.specs.Sums.{at};
ghost use Rattle.qp_model.specs.machine.Controller.{plan_length};
ghost use Rattle.qp_model.specs.machine.Machine.{IsAdmissible, lowering_of, loaded, step_of, run_of};
ghost use Rattle.fixed_kernel.specs.Outside.{IsFirstOutside};
ghost use Rattle.fixed_kernel.specs.Spans.{multipliers_span, plan_span, sums_span, words_in};

use crate::narrow::has_narrow_factors;
use crate::spans::{Spans, take_spans};
use crate::state::{OutsideBox, first_outside, put_start};
use crate::step::{advance, lowered};
use crate::word_machine::WordMachine;
use overflow_check::Controller;
use qp_model::ControllerParts;
use std::alloc::{AllocError, Global};
use std::marker::Model;
use word_region::{Region, Span};

/// A controller at work on one state. It is seen as the controller, the grid state and the number of steps made; plan,
/// multipliers and sums are those of the machine after that many steps from that state. They, the multipliers raised to over `2^(f+s)`, and
/// the state are the words of one region, and it has no others. Where a controller's width is at most 64, a whole run is made in words of 64
/// bits, in room that stands beside the region, and its words are put back there.
///
/// Each answer is the written machine's, and the promise that no value leaves the controller's width speaks of that machine. On the way to
/// them the code meets some other values, as a floor of one part of a sum alone; that these fit their words is proved here.
#[derive(Drop)]
pub struct Kernel<'a> {
    controller: &'a Controller,
    region: Region,
    spans: Spans,
    made: u32,
    // Only where each factor of the machine's products fits 64 bits.
    narrow: bool,
    // Only where a whole run fits words of 64 bits.
    words: Option<WordMachine>,
}

impl<'a> Model for Kernel<'a> {
    ghost use Rattle.fixed_kernel.specs.Progress.{Progress, progress_of, IsReached};

    ghost Value = { Progress };

    ghost view = { progress_of };

    ghost invariant = { IsReached };
}

impl<'a> Kernel<'a> {
    ghost use Rattle.fixed_kernel.specs.Progress.{iterate_of, region_of};

    /// A kernel with the least state of the box loaded and no step made. It takes all the memory that the kernel ever uses.
    pub fn prepare(alloc: Global, controller: &'a Controller) -> Result<Kernel<'a>, AllocError>
        ensures { IfOk result (λ k. k ≡ record { controller = controller.now; state = controller.now.low; made = 0 }) }
    {
        let c = controller.parts();
        let mut region = Region::with_words(alloc, c.words)?;
        let spans = take_spans(&mut region, c);
        put_start(c, &c.lo, region.cells_mut(&all_of(c)));
        let narrow = has_narrow_factors(c);
        let words = WordMachine::of(alloc, c, narrow)?;
        Ok(Kernel {
            controller,
            region,
            spans,
            made: 0,
            narrow,
            words,
        })
    }

    /// The first coordinate of a state, over `2^g`, that lies outside the controller's box, from 1. None exactly where the state lies inside.
    pub fn first_outside(&self, state: &[i128]) -> Option<u32>
        requires { length state.now ≡ self.now.controller.states }
        ensures { MatchOption result (IsAdmissible self.now.controller state.now) (λ k. IsFirstOutside self.now.controller state.now k) }
    {
        first_outside(self.controller.parts(), state)
    }

    // Loads a state of the box, with no step made.
    fn load_inside(&mut self, state: &[i128])
        requires { IsAdmissible self.old.controller state.now }
        ensures { self.new ≡ record self.old { state = state.now; made = 0 } }
    {
        let c = self.controller.parts();
        put_start(c, state, self.region.cells_mut(&all_of(c)));
        self.made = 0;
    }

    /// Loads a state, over `2^g`, with no step made. Refused exactly where a coordinate lies outside the box, and then
    /// nothing changes.
    pub fn load(&mut self, state: &[i128]) -> Result<(), OutsideBox>
        requires { length state.now ≡ self.old.controller.states }
        ensures inside { IsOk result ↔ IsAdmissible self.old.controller state.now }
        ensures first { IfErr result (λ e. IsFirstOutside self.old.controller state.now e.coordinate) }
        ensures ok { OnOk result (self.new ≡ record self.old { state = state.now; made = 0 }) }
        ensures err { OnErr result (self.new ≡ self.old) }
        ensures controller { self.new.controller ≡ self.old.controller }
    {
        if let Some(coordinate) = self.first_outside(state) {
            return Err(OutsideBox { coordinate });
        }
        self.load_inside(state);
        Ok(())
    }

    /// One step of the machine.
    pub fn step(&mut self)
        requires { self.old.made < self.old.controller.steps }
        ensures made { self.new ≡ record self.old { made = self.old.made + 1 } }
        ensures values { iterate_of self.new ≡ step_of self.old.controller (loaded self.old.controller self.old.state) (iterate_of self.old) }
    {
        let c = self.controller.parts();
        advance(c, self.narrow, self.region.cells_mut(&all_of(c)));
        self.made += 1;
    }

    // The steps that are left, by `step`.
    fn finish_by_steps(&mut self)
        ensures { self.new ≡ record self.old { made = self.old.controller.steps } }
    {
        for _ in self.made..self.controller.parts().steps {
            self.step();
        }
    }

    // The same in words of 64 bits, where the kernel has them, or else nothing.
    fn finish_in_words(&mut self) -> bool
        ensures made { IsTrue result → self.new ≡ record self.old { made = self.old.controller.steps } }
        ensures kept { IsFalse result → self.new ≡ self.old }
    {
        let c = self.controller.parts();
        let Some(machine) = &mut self.words else {
            return false;
        };
        machine.finish(c, self.made, self.region.cells_mut(&all_of(c)));
        self.made = c.steps;
        true
    }

    // The steps that are left.
    fn finish(&mut self)
        ensures { self.new ≡ record self.old { made = self.old.controller.steps } }
    {
        if !self.finish_in_words() {
            self.finish_by_steps();
        }
    }

    /// Loads a state of the box, over `2^g`, and makes all steps.
    pub fn run_inside(&mut self, state: &[i128])
        requires { IsAdmissible self.old.controller state.now }
        ensures made { self.new ≡ record self.old { state = state.now; made = self.old.controller.steps } }
        ensures values { iterate_of self.new ≡ run_of self.old.controller state.now }
    {
        self.load_inside(state);
        self.finish();
    }

    /// Loads a state, over `2^g`, and makes all steps. Refused exactly where a coordinate lies outside the box, and then
    /// nothing changes.
    pub fn run(&mut self, state: &[i128]) -> Result<(), OutsideBox>
        requires { length state.now ≡ self.old.controller.states }
        ensures inside { IsOk result ↔ IsAdmissible self.old.controller state.now }
        ensures first { IfErr result (λ e. IsFirstOutside self.old.controller state.now e.coordinate) }
        ensures ok { OnOk result (self.new ≡ record self.old { state = state.now; made = self.old.controller.steps }) }
        ensures values { OnOk result (iterate_of self.new ≡ run_of self.old.controller state.now) }
        ensures err { OnErr result (self.new ≡ self.old) }
        ensures controller { self.new.controller ≡ self.old.controller }
    {
        if let Some(coordinate) = self.first_outside(state) {
            return Err(OutsideBox { coordinate });
        }
        self.run_inside(state);
        Ok(())
    }

    /// The number of steps made.
    pub fn made(&self) -> u32
        ensures value { result ≡ self.now.made }
        ensures within { result ≤ self.now.controller.steps }
    {
        self.made
    }

    /// The sum of each plan entry over the steps made, over `2^f`.
    pub fn sums(&self) -> &[i128]
        ensures value { result.now ≡ (iterate_of self.now).sums }
        ensures words { result.now ≡ words_in (sums_span self.now.controller) (region_of self.now).words }
    {
        self.region.cells(&self.spans.sums)
    }

    /// Multiplier `i`, over `2^(f + exps[i])`. The region's word there is over `2^(f+s)`, the same for all rows.
    pub fn multiplier(&self, i: usize) -> i128
        requires { i < self.now.controller.rows }
        ensures value { result ≡ at (iterate_of self.now).multipliers i }
        ensures word { at (region_of self.now).words ((multipliers_span self.now.controller).start + i)
            ≡ result *ℤ pos (2 ^ lowering_of self.now.controller i) }
    {
        let raised = self.region.word(&self.spans.multipliers, i);
        lowered(self.controller.parts(), raised, i)
    }

    /// Entry `j` of the last plan, over `2^f`.
    pub fn last(&self, j: usize) -> i128
        requires { j < plan_length self.now.controller }
        ensures value { result ≡ at (iterate_of self.now).plan j }
        ensures word { result ≡ at (region_of self.now).words ((plan_span self.now.controller).start + j) }
    {
        self.region.word(&self.spans.plan, j)
    }

    /// The controller. The kernel's state lies in its box.
    pub fn controller(&self) -> &Controller
        ensures value { result.now ≡ self.now.controller }
        ensures state { IsAdmissible self.now.controller self.now.state }
    {
        self.controller
    }

    /// All that a kernel knows of its run: the words of the state over `2^f`, of the multipliers, of the last plan and of the sums, one
    /// behind the other. Each multiplier is raised there to over `2^(f+s)`, as the plan is made of it; in version 1 that is the multiplier itself.
    ///
    /// Where the width and `f + s` allow words of 64 bits, and each factor of the machine's products fits one, `prepare` takes more memory beside the region,
    /// and only a run that is made whole uses it: the matrices `W` and `G` in such words, and room for what the state adds to the sum of each plan entry and of
    /// each row, for the multipliers, for the plan and for the sums. Nothing is read from that room that the same run hasn't written.
    pub fn region(&self) -> &Region
        ensures words { result.now ≡ region_of self.now }
        ensures size { length result.now.words ≡ self.now.controller.words }
        ensures used { result.now.used ≡ self.now.controller.words }
    {
        &self.region
    }
}

// The words of all four spans.
fn all_of(c: &ControllerParts) -> Span
    ensures { result ≡ record { start = 0; len = c.now.words } }
{
    Span {
        start: 0,
        len: c.words,
    }
}
