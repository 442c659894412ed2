// The lines of runs.
ghost use Rattle.std.specs.Prelude.{◌≡◌, ◌∷◌, IfOk};
ghost use Rattle.mac_machine.specs.Machine.{outputs_of, play_line};

use command_line::Status;
use mac_listing::Listing;
use mac_machine::{Machine, Stop};
use number_text::spaced_text;
use plan_lines::PreparedMachine;
use std::alloc::{AllocError, Global};

// What a machine's words put out: the denominator and each word.
fn output_numbers(alloc: Global, machine: &Machine) -> Result<Vec<i128>, AllocError>
    ensures { IfOk result (λ numbers. numbers.items ≡ machine.now.listing.denominator ∷ outputs_of machine.now.listing machine.now.words) }
{
    let parts = machine.listing().parts();
    let words = machine.words();
    let mut numbers = Vec::new(alloc);
    numbers.push(parts.den)?;
    numbers.extend_from_slice(&words[parts.first..parts.first + parts.outputs])?;
    Ok(numbers)
}

// The line of what a machine's words put out.
fn output_line(alloc: Global, machine: &Machine) -> Result<Vec<u8>, AllocError>
    ensures { IfOk result (λ line. line.items ≡ play_line machine.now.listing machine.now.words) }
{
    let numbers = output_numbers(alloc, machine)?;
    let mut line = spaced_text(alloc, &numbers)?;
    line.push('\n')?;
    Ok(line.into_bytes())
}

/// A machine that puts out the lines of its listing's runs.
#[derive(Drop)]
pub struct Player<'a> {
    machine: Machine<'a>,
}

/// The machine of a listing.
pub fn player_of(alloc: Global, listing: &Listing) -> Result<Player<'_>, AllocError>
    ensures { IfOk result (λ p. p.machine.listing ≡ listing.now) }
{
    let machine = Machine::prepare(alloc, listing)?;
    Ok(Player { machine })
}

impl<'a> PreparedMachine for Player<'a> {
    ghost use Rattle.mac_listing.specs.Listing.{Instructions};
    ghost use Rattle.command_play.specs.Making.{making_of_runs};

    ghost Subject = { Instructions };

    ghost subject = { λ p. p.machine.listing };

    ghost makes = { making_of_runs };

    ghost is_for = { λ p n. n ≡ p.machine.listing.states };

    fn refused(&self, state: &[i128]) -> Option<u32> {
        self.machine.first_outside(state)
    }

    fn line(&mut self, alloc: Global, entry: u32, state: &[i128]) -> Result<Vec<u8>, Status> {
        match self.machine.play(state) {
            Ok(()) => Ok(output_line(alloc, &self.machine)?),
            Err(Stop::Trap { step, place }) => Err(Status::Trap { entry, step, place }),
            Err(Stop::OutsideBox { .. }) => unreachable!(),
        }
    }
}
