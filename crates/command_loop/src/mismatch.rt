// What a design and a controller differ in.
ghost use Rattle.std.specs.Prelude.{MatchOption};
ghost use Rattle.qp_model.specs.problem.Parts.{design_of};
ghost use Rattle.qp_model.specs.machine.Controller.{numbers};
ghost use Rattle.qp_model.specs.machine.Successor.{IsFor};
ghost use Rattle.command_loop.specs.Plant.{IsMismatch};

use command_line::{Field, Status};
use qp_model::{ControllerParts, Design};

// The status that tells the first of states, inputs and grid in which they differ; none where the controller is for the design.
pub fn mismatch_of(design: &Design, c: &ControllerParts) -> Option<Status>
    ensures { MatchOption result (IsFor (numbers c.now) (design_of design.now)) (λ status. IsMismatch (design_of design.now) (numbers c.now) status) }
{
    let d = design.parts();
    if d.states != c.n {
        return Some(Status::Mismatch {
            field: Field::States,
            design: d.states as i128,
            controller: c.n as i128,
        });
    }
    if d.inputs != c.p {
        return Some(Status::Mismatch {
            field: Field::Inputs,
            design: d.inputs as i128,
            controller: c.p as i128,
        });
    }
    if d.grid != c.g {
        return Some(Status::Mismatch {
            field: Field::Grid,
            design: i128::from(d.grid),
            controller: i128::from(c.g),
        });
    }
    None
}
