// What the text of a program is written from.
ghost use Rattle.std.specs.Prelude.{◌≡◌};
ghost use Rattle.qp_model.specs.machine.Controller.{numbers};
ghost use Rattle.qp_model.specs.machine.AbsoluteSums.{IsController, state_magnitudes, plan_magnitudes};
ghost use Rattle.overflow_check.specs.FastController.{with_last_version, IsFastController};
ghost use Rattle.overflow_check.specs.declared.machine.Machine.TheVariants.{Accelerated};
ghost use Rattle.c_program.specs.InParts.{is_parted};
ghost use Rattle.c_writer.specs.Terms.{partners_of};

use overflow_check::Machine;
use qp_model::ControllerParts;
use std::alloc::Global;

/// What is held of a row.
#[derive(Clone, Copy)]
pub enum Held {
    /// The multiplier that the plan is made at; of the accelerated machine, the mean.
    Planned,
    /// The accelerated machine's multiplier.
    Kept,
    /// The sum of these by their weights.
    Added,
    /// What is divided for the mean without its last bits, and then its quotient.
    Near,
}

/// What the numbers that a sum is made of are taken as.
#[derive(Clone, Copy)]
pub enum Part {
    Whole,
    /// Without their last 16 bits.
    High,
    /// These bits alone.
    Low,
}

/// The greatest absolute values of the coordinates of a controller's states and of the entries of its plans, and the partner of each row.
#[derive(Drop)]
pub struct Lists {
    pub states: Vec<u128>,
    pub plan: Vec<u128>,
    pub partners: Vec<usize>,
}

/// A controller and its machine, whether its sums are made in two parts, the greatest absolute values of the coordinates of its states and of the entries of its plans, and the partner of each row.
#[derive(Drop)]
pub struct Measured<'a> {
    pub alloc: Global,
    pub machine: Machine,
    pub parted: bool,
    pub c: &'a ControllerParts,
    pub states: &'a [u128],
    pub plan: &'a [u128],
    pub partners: &'a [usize],
    ghost parts: { parted ≡ is_parted (numbers c.now) },
    ghost fast: { machine ≡ Accelerated → IsFastController (numbers c.now) },
    ghost sound: { IsController (with_last_version (numbers c.now)) },
    ghost state_tops: { states.now ≡ state_magnitudes (numbers c.now) },
    ghost plan_tops: { plan.now ≡ plan_magnitudes (numbers c.now) },
    ghost opposites: { partners.now ≡ partners_of (numbers c.now) },
}
