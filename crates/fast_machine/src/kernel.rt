// The accelerated machine at work: a controller's steps from a state, in memory that is taken once.
ghost use Rattle.std.specs.Prelude.{◌≡◌, ◌<◌, ◌≤◌, ◌+◌, ◌^◌, length, IsTrue, IsFalse, IfOk};
ghost use Rattle.integer_algebra.specs.Sums.{at};
ghost use Rattle.qp_model.specs.machine.Controller.{numbers};
ghost use Rattle.qp_model.specs.machine.Machine.{IsAdmissible, loaded};
ghost use Rattle.overflow_check.specs.FastMachine.{fast_step, fast_run};
ghost use Rattle.overflow_check.specs.FastController.{IsFastController};

use crate::step::{clear, load_state, make_step};
use crate::word_machine::FastWords;
use qp_model::ControllerParts;
use std::alloc::{AllocError, Global};
use std::marker::Model;

/// A controller of the accelerated machine at work on one state. It is seen as the controller, the state over `2^f` and the number of steps made; means, plan,
/// multipliers, what was reached of them and the sums are those of the machine after that many steps from that state. They and the state are all its memory, but where
/// its width is at most 64: there a whole run is made in words of 64 bits, in room that stands beside them, and put back.
#[derive(Drop)]
pub struct FastKernel<'a> {
    parts: &'a ControllerParts,
    state: Vec<i128>,
    means: Vec<i128>,
    plan: Vec<i128>,
    multipliers: Vec<i128>,
    reached: Vec<i128>,
    sums: Vec<i128>,
    made: u32,
    // Only where a whole run fits words of 64 bits.
    words: Option<FastWords>,
}

impl<'a> Model for FastKernel<'a> {
    ghost use Rattle.fast_machine.specs.FastProgress.{FastProgress, fast_progress_of, IsFastReached};

    ghost Value = { FastProgress };

    ghost view = { fast_progress_of };

    ghost invariant = { IsFastReached };
}

impl<'a> FastKernel<'a> {
    ghost use Rattle.fast_machine.specs.FastProgress.{fast_made_of};

    /// A kernel with the least state of the box loaded and no step made. It takes all the memory that the kernel ever uses.
    pub fn prepare(alloc: Global, parts: &'a ControllerParts) -> Result<FastKernel<'a>, AllocError>
        requires { IsFastController (numbers parts.now) }
        ensures { IfOk result (λ k. k ≡ record { controller = numbers parts.now; state = loaded (numbers parts.now) parts.now.lo.items; made = 0 }) }
    {
        let mut state = vec![in alloc; 0; parts.n]?;
        load_state(parts, &parts.lo, &mut state);
        Ok(FastKernel {
            parts,
            state,
            means: vec![in alloc; 0; parts.m]?,
            plan: vec![in alloc; 0; parts.t.len()]?,
            multipliers: vec![in alloc; 0; parts.m]?,
            reached: vec![in alloc; 0; parts.m]?,
            sums: vec![in alloc; 0; parts.t.len()]?,
            made: 0,
            words: FastWords::of(alloc, parts)?,
        })
    }

    /// Loads a state of the box, over `2^g`, with no step made.
    pub fn load_inside(&mut self, state: &[i128])
        requires { IsAdmissible self.old.controller state.now }
        ensures { self.new ≡ record self.old { state = loaded self.old.controller state.now; made = 0 } }
    {
        load_state(self.parts, state, &mut self.state);
        clear(&mut self.means);
        clear(&mut self.plan);
        clear(&mut self.multipliers);
        clear(&mut self.reached);
        clear(&mut self.sums);
        self.made = 0;
    }

    /// One step of the machine.
    pub fn step(&mut self)
        requires { self.old.made < self.old.controller.steps }
        ensures made { self.new ≡ record self.old { made = self.old.made + 1 } }
        ensures values { fast_made_of self.new ≡ fast_step self.old.controller self.old.state self.old.made (fast_made_of self.old) }
    {
        make_step(
            self.parts,
            &self.state,
            self.made,
            &mut self.means,
            &mut self.plan,
            &mut self.multipliers,
            &mut self.reached,
            &mut self.sums,
        );
        self.made += 1;
    }

    // The steps that are left, by `step`.
    fn finish_by_steps(&mut self)
        ensures { self.new ≡ record self.old { made = self.old.controller.steps } }
    {
        for _ in self.made..self.parts.steps {
            self.step();
        }
    }

    // The same in words of 64 bits, where the kernel has them, or else nothing.
    fn finish_in_words(&mut self) -> bool
        ensures made { IsTrue result → self.new ≡ record self.old { made = self.old.controller.steps } }
        ensures kept { IsFalse result → self.new ≡ self.old }
    {
        let Some(words) = &mut self.words else {
            return false;
        };
        words.finish(
            self.parts,
            &self.state,
            self.made,
            &mut self.means,
            &mut self.plan,
            &mut self.multipliers,
            &mut self.reached,
            &mut self.sums,
        );
        self.made = self.parts.steps;
        true
    }

    /// The steps that are left.
    pub fn finish(&mut self)
        ensures { self.new ≡ record self.old { made = self.old.controller.steps } }
    {
        if !self.finish_in_words() {
            self.finish_by_steps();
        }
    }

    /// Loads a state of the box, over `2^g`, and makes all steps.
    pub fn run_inside(&mut self, state: &[i128])
        requires { IsAdmissible self.old.controller state.now }
        ensures made { self.new ≡ record self.old { state = loaded self.old.controller state.now; made = self.old.controller.steps } }
        ensures values { fast_made_of self.new ≡ fast_run self.old.controller state.now }
    {
        self.load_inside(state);
        self.finish();
    }

    /// Its controller's numbers.
    pub fn parts(&self) -> &ControllerParts
        ensures value { numbers result.now ≡ self.now.controller }
        ensures sound { IsFastController (numbers result.now) }
    {
        self.parts
    }

    /// The number of steps made.
    pub fn made(&self) -> u32
        ensures value { result ≡ self.now.made }
        ensures within { result ≤ self.now.controller.steps }
    {
        self.made
    }

    /// The sum of each plan entry over the steps made, by their weights, over `2^f`.
    pub fn sums(&self) -> &[i128]
        ensures { result.now ≡ (fast_made_of self.now).sums }
    {
        &self.sums
    }

    /// Multiplier `i`, over `2^(f + exps[i] + 1)`.
    pub fn multiplier(&self, i: usize) -> i128
        requires { i < self.now.controller.rows }
        ensures { result ≡ at (fast_made_of self.now).multipliers i }
    {
        self.multipliers[i]
    }
}
