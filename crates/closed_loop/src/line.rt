// A loop line.
ghost use Rattle.std.specs.Prelude.{◌≡◌, pos, IfOk};
ghost use Rattle.closed_loop.specs.Looping.{denominator_by, line_by};

use crate::machine::ControlMachine;
use frac_scaled::scaled;
use number_text::spaced_text;
use std::alloc::{AllocError, Global};

// What the averaged plan is over.
fn denominator<M: ControlMachine>(machine: &M) -> i128
    ensures { result ≡ pos (denominator_by (M.looping machine.now)) }
{
    scaled(machine.weight(), machine.parts().f)
}

// The record, the turn, the state, the averaged plan's denominator and its first inputs, one space between two, and a line
// feed.
pub fn loop_line<M: ControlMachine>(
    alloc: Global,
    machine: &M,
    entry: u32,
    turn: u32,
    state: &[i128],
) -> Result<Vec<u8>, AllocError>
    requires done { M.done machine.now }
    requires state { M.runs_from machine.now state.now }
    ensures { IfOk result (λ line. line.items ≡ line_by (M.looping machine.now) entry turn state.now) }
{
    let mut numbers = Vec::new(alloc);
    numbers.push(i128::from(entry))?;
    numbers.push(i128::from(turn))?;
    numbers.extend_from_slice(state)?;
    numbers.push(denominator(machine))?;
    for l in 0..machine.parts().p {
        numbers.push(machine.first_input(l))?;
    }
    let mut line = spaced_text(alloc, &numbers)?;
    line.push('\n')?;
    Ok(line.into_bytes())
}
