// `demo` with its number.
ghost use Rattle.std.specs.Prelude.{ℕ};
ghost use Rattle.qp_model.specs.problem.Policy.{plans_of};
ghost use Rattle.design_maker.specs.Texts.{policy_text, states_text};
ghost use Rattle.command_line.specs.Does.{Prints};
ghost use Rattle.command_demo.specs.Demo.{demo_stages, demo_act, demo_deeds};
ghost use Rattle.command_demo.specs.Making.{AreOnlyMade, AreReadOf};

use crate::inputs::{Inputs, inputs_of};
use crate::printing::print_text;
use command_generate::make_controller;
use command_line::Status;
use io_edge::Sink;
use std::alloc::Global;

/// Makes the texts of a design, a policy and four states from a number, and a controller of them, and prints the report of its bounds and the
/// line of the averaged plan from each state. It reads and writes no file.
pub fn demo<O: Sink>(alloc: Global, number: u32, out: &mut O) -> Status
    ensures { Prints O.Sink (demo_deeds number) out.old out.new result (demo_act number) }
{
    let Ok(inputs) = inputs_of(alloc, number) else {
        return Status::Memory;
    };
    demo_of(alloc, &inputs, out)
}

// Makes a controller of these inputs, and prints the text. They are borrowed here, so that they end on one path alone.
fn demo_of<O: Sink>(alloc: Global, inputs: &Inputs, out: &mut O) -> Status
    requires { AreReadOf (policy_text demo_stages) states_text inputs.now }
    ensures { (number : ℕ) → AreOnlyMade number inputs.now.design (plans_of inputs.now.policy) →
        Prints O.Sink (demo_deeds number) out.old out.new result (demo_act number) }
{
    match make_controller(alloc, &inputs.design, &inputs.policy) {
        Ok(made) => print_text(alloc, &made.controller, &made.bounds, &inputs.states, out),
        Err(status) => status,
    }
}
