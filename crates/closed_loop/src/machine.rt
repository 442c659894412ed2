// The machines that run a controller in a closed loop.
ghost use Rattle.std.specs.Prelude.{◌≡◌, ◌<◌, ℤ, List, pos, length, MatchOption};
ghost use Rattle.integer_algebra.specs.Sums.{at};
ghost use Rattle.qp_model.specs.machine.Controller.{numbers};
ghost use Rattle.qp_model.specs.machine.Machine.{IsAdmissible};
ghost use Rattle.fixed_kernel.specs.Outside.{IsFirstOutside};
ghost use Rattle.closed_loop.specs.Looping.{Looping, IsLooping};

use fast_machine::FastKernel;
use fixed_kernel::{Kernel, first_outside};
use frac_scaled::floor_shift;
use overflow_check::{Machine, plan_entry_magnitude, plan_sum_for};
use primal_average::{fast_denominator, first_input};
use qp_model::ControllerParts;

/// A machine that runs a controller from the states of a closed loop.
pub trait ControlMachine {
    /// What of its runs goes into the loop, which stays the same.
    ghost looping: { Self → Looping };

    /// It has made all steps.
    ghost done: { Self → Type 0 };

    /// Its steps are made from this state, over `2^g`, of the box.
    ghost runs_from: { Self → List ℤ → Type 0 };

    /// The numbers of its controller.
    fn parts(&self) -> &ControllerParts
        ensures value { numbers result.now ≡ (looping self.now).controller }
        ensures sound { IsLooping (looping self.now) }
        ensures inside { (xi : List ℤ) → runs_from self.now xi → IsAdmissible (looping self.now).controller xi };

    /// What all steps weigh together.
    fn weight(&self) -> i128
        ensures value { result ≡ pos ((looping self.now).weight) }
        ensures sound { IsLooping (looping self.now) };

    /// How far plan entry `l` of a step lies from 0 at most, over `2^f`.
    fn magnitude(&self, l: usize) -> u128
        requires { l < (looping self.now).controller.inputs }
        ensures { result ≡ (looping self.now).magnitude l };

    /// Makes all steps from a state, over `2^g`. Where it lies outside the box its first coordinate that does, from 1, and then nothing is said of the steps.
    fn run(&mut self, state: &[i128]) -> Option<u32>
        requires { length state.now ≡ (looping self.old).controller.states }
        ensures inside { MatchOption result (IsAdmissible (looping self.old).controller state.now × done self.new × runs_from self.new state.now)
            (λ k. IsFirstOutside (looping self.old).controller state.now k) }
        ensures same { looping self.new ≡ looping self.old };

    /// The numerator of input `l` of the first stage, in the averaged plan after all steps.
    fn first_input(&self, l: usize) -> i128
        requires done { done self.now }
        requires in_range { l < (looping self.now).controller.inputs }
        ensures { (xi : List ℤ) → runs_from self.now xi → result ≡ at ((looping self.now).plan xi) l };
}

/// A kernel of the plain machine.
impl<'a> ControlMachine for Kernel<'a> {
    ghost use Rattle.closed_loop.specs.Looping.{looping_of_plain};

    ghost looping = { λ k. looping_of_plain k.controller };

    ghost done = { λ k. k.made ≡ k.controller.steps };

    ghost runs_from = { λ k xi. IsAdmissible k.controller xi × (k.state ≡ xi) };

    fn parts(&self) -> &ControllerParts {
        self.controller().parts()
    }

    fn weight(&self) -> i128 {
        i128::from(self.controller().parts().steps)
    }

    fn magnitude(&self, l: usize) -> u128 {
        plan_entry_magnitude(self.controller().parts(), l)
    }

    fn run(&mut self, state: &[i128]) -> Option<u32> {
        match Kernel::run(self, state) {
            Ok(()) => None,
            Err(refusal) => Some(refusal.coordinate),
        }
    }

    fn first_input(&self, l: usize) -> i128 {
        first_input(self, l)
    }
}

/// One of the accelerated machine.
impl<'a> ControlMachine for FastKernel<'a> {
    ghost use Rattle.qp_model.specs.machine.Machine.{loaded};
    ghost use Rattle.closed_loop.specs.Looping.{looping_of_fast};

    ghost looping = { λ k. looping_of_fast k.controller };

    ghost done = { λ k. k.made ≡ k.controller.steps };

    ghost runs_from = { λ k xi. IsAdmissible k.controller xi × (k.state ≡ loaded k.controller xi) };

    fn parts(&self) -> &ControllerParts {
        FastKernel::parts(self)
    }

    fn weight(&self) -> i128 {
        floor_shift(fast_denominator(self), FastKernel::parts(self).f)
    }

    fn magnitude(&self, _: usize) -> u128 {
        match plan_sum_for(FastKernel::parts(self), Machine::Accelerated) {
            Some(greatest) => greatest.unsigned_abs(),
            None => unreachable!(),
        }
    }

    fn run(&mut self, state: &[i128]) -> Option<u32> {
        let outside = first_outside(FastKernel::parts(self), state);
        if outside.is_none() {
            self.run_inside(state);
        }
        outside
    }

    fn first_input(&self, l: usize) -> i128 {
        let c = FastKernel::parts(self);
        prove!(l < c.t.len());
        self.sums()[l]
    }
}
