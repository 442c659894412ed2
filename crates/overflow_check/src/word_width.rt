// The width of a word that holds each value.
ghost use Rattle.std.specs.Prelude.{◌≤◌, ◌^◌, ◌↔◌, IsSome, IfSome};
ghost use Rattle.qp_model.specs.machine.Controller.{numbers, IsSized};
ghost use Rattle.qp_model.specs.machine.AbsoluteSums.{greatest_sum};
ghost use Rattle.overflow_check.specs.Machines.{IsSizedFor, greatest_for as greatest};
ghost use Rattle.overflow_check.specs.Width.{IsWidth};

use crate::absolute_sums::{greatest_for, two_to};
use crate::machine::Machine;
use qp_model::ControllerParts;

/// The least width, from 2, of a signed word that holds the greatest absolute sum: at most `2^(w-1) - 1`. None where that
/// sum is above `2^126`.
pub fn width_for(parts: &ControllerParts, machine: Machine) -> Option<u32>
    requires { IsSizedFor machine (numbers parts.now) }
    ensures least { IfSome result (IsWidth (greatest machine (numbers parts.now))) }
    ensures found { IsSome result ↔ (greatest machine (numbers parts.now) ≤ 2 ^ 126) }
{
    Some(width_of(greatest_for(parts, machine)?.unsigned_abs()))
}

/// That of the plain machine.
pub fn width(parts: &ControllerParts) -> Option<u32>
    requires { IsSized (numbers parts.now) }
    ensures least { IfSome result (IsWidth (greatest_sum (numbers parts.now))) }
    ensures found { IsSome result ↔ (greatest_sum (numbers parts.now) ≤ 2 ^ 126) }
{
    width_for(parts, Machine::Plain)
}

// The least width, from 2, of a signed word that holds this number.
fn width_of(greatest: u128) -> u32
    requires { greatest ≤ 2 ^ 126 }
    ensures { IsWidth greatest result }
{
    let mut w = 2;
    while two_to(w - 1) <= greatest {
        w += 1;
    }
    w
}
