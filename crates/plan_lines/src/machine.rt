// What is asked for the lines of states.
ghost use Rattle.std.specs.Prelude.{◌≡◌, ◌⊎◌, ℕ, ◌<◌, length, IfOk, IfErr, MatchOption};
ghost use Rattle.plan_lines.specs.Making.{Making};

use command_line::Status;
use std::alloc::Global;

/// A machine that is prepared for states of one size. It runs from a state or refuses it, and puts out a line of a run.
pub trait PreparedMachine {
    /// What it is prepared of, which stays the same.
    ghost Subject: { Type 0 };

    ghost subject: { Self → Subject };

    /// What it makes of a state.
    ghost makes: { Subject → Making };

    /// It is prepared for states of so many numbers.
    ghost is_for: { Self → ℕ → Type 0 };

    /// The first coordinate for which a state is refused, from 1. None exactly where the machine runs from it.
    fn refused(&self, state: &[i128]) -> Option<u32>
        requires { is_for self.now (length state.now) }
        ensures { MatchOption result ((makes (subject self.now)).holds state.now) (λ k. (makes (subject self.now)).outside state.now k) };

    /// The line of the run from the state of a record, or the status that tells why it has none.
    fn line(&mut self, alloc: Global, entry: u32, state: &[i128]) -> Result<Vec<u8>, Status>
        requires size { is_for self.old (length state.now) }
        requires holds { (makes (subject self.old)).holds state.now }
        ensures line { IfOk result (λ line. (makes (subject self.old)).line state.now line.items) }
        ensures some { IfOk result (λ line. 0 < length line.items) }
        ensures ends { IfErr result (λ s. (s ≡ Status.Memory) ⊎ (makes (subject self.old)).stops entry state.now s) }
        ensures subject { subject self.new ≡ subject self.old }
        ensures size { (n : ℕ) → is_for self.old n → is_for self.new n };
}
