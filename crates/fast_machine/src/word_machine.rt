// What runs in words of 64 bits are made with: those of the plain machine, and room for the means and for what was reached of the multipliers.
ghost use Rattle.std.specs.Prelude.{IfOk, IfSome};
ghost use Rattle.qp_model.specs.machine.Controller.{numbers};
ghost use Rattle.overflow_check.specs.FastController.{IsFastController};
ghost use Rattle.fast_machine.specs.FastWords.{IsFastMachineOf};

use fixed_kernel::{WordMachine, has_narrow_factors};
use qp_model::ControllerParts;
use std::alloc::{AllocError, Global};

// Both.
#[derive(Drop)]
pub struct FastWords {
    pub machine: WordMachine,
    pub means: Vec<i64>,
    pub reached: Vec<i64>,
}

impl FastWords {
    // A controller's, where its steps are made in words of 64 bits.
    pub fn of(alloc: Global, c: &ControllerParts) -> Result<Option<FastWords>, AllocError>
        requires { IsFastController (numbers c.now) }
        ensures { IfOk result (λ words. IfSome words (IsFastMachineOf (numbers c.now))) }
    {
        let narrow = has_narrow_factors(c);
        let Some(machine) = WordMachine::of(alloc, c, narrow)? else {
            return Ok(None);
        };
        let means = vec![in alloc; 0; c.m]?;
        let reached = vec![in alloc; 0; c.m]?;
        Ok(Some(FastWords {
            machine,
            means,
            reached,
        }))
    }
}
