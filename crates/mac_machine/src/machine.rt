// The machine and its runs.
ghost use Rattle.std.specs.Prelude.{◌≡◌, ◌<◌, ◌↔◌, length, IsOk, IsNone, IfOk, IfErr, IfSome, OnOk};
ghost use Rattle.integer_algebra.specs.Sums.{at};
ghost use Rattle.mac_machine.specs.Machine.{NeverTraps};
ghost use Rattle.mac_machine.specs.Box.{IsInBox, IsFirstOutsideBox};
ghost use Rattle.mac_machine.specs.Traps.{Stops};

use crate::player::{count_after, first_outside, play};
use crate::stop::Stop;
use mac_listing::Listing;
use std::alloc::{AllocError, Global};
use std::marker::Model;

/// A machine with one accumulator that runs its listing as given. It is seen as the listing, its words and the number of instructions that the last run
/// began.
#[derive(Drop)]
pub struct Machine<'a> {
    listing: &'a Listing,
    words: Vec<i128>,
    count: u64,
}

impl<'a> Model for Machine<'a> {
    ghost use Rattle.mac_machine.specs.Playing.{Playing, playing_of, IsPlaying};

    ghost Value = { Playing };

    ghost view = { playing_of };

    ghost invariant = { IsPlaying };
}

impl<'a> Machine<'a> {
    ghost use Rattle.mac_machine.specs.Playing.{prepared, ended, Stopped};

    /// A machine whose words are all 0. It takes all the memory that the machine ever uses.
    pub fn prepare(alloc: Global, listing: &'a Listing) -> Result<Machine<'a>, AllocError>
        ensures { IfOk result (λ m. m ≡ prepared listing.now) }
    {
        let words = vec![in alloc; 0; listing.parts().words]?;
        Ok(Machine {
            listing,
            words,
            count: 0,
        })
    }

    /// Runs the listing from a state. Refused exactly where a coordinate lies outside the box, and then nothing changes, or else where a value has no room.
    pub fn play(&mut self, state: &[i128]) -> Result<(), Stop>
        requires { length state.now ≡ self.old.listing.states }
        ensures ok { IsOk result ↔ (IsInBox self.old.listing state.now × NeverTraps self.old.listing state.now) }
        ensures ended { OnOk result (self.new ≡ ended self.old.listing state.now) }
        ensures stops { IfErr result (Stops self.old.listing state.now) }
        ensures stopped { IfErr result (Stopped self.old self.new) }
        ensures listing { self.new.listing ≡ self.old.listing }
    {
        let parts = self.listing.parts();
        let answer = play(parts, state, &mut self.words);
        self.count = count_after(parts, &answer, self.count);
        answer
    }

    /// The first coordinate of a state that lies outside the box, from 1.
    pub fn first_outside(&self, state: &[i128]) -> Option<u32>
        requires { length state.now ≡ self.now.listing.states }
        ensures inside { IsNone result ↔ IsInBox self.now.listing state.now }
        ensures first { IfSome result (λ k. IsFirstOutsideBox self.now.listing state.now k) }
    {
        first_outside(self.listing.parts(), state)
    }

    /// The listing that it runs.
    pub fn listing(&self) -> &Listing
        ensures { result.now ≡ self.now.listing }
    {
        self.listing
    }

    /// All its words.
    pub fn words(&self) -> &[i128]
        ensures value { result.now ≡ self.now.words }
        ensures long { length result.now ≡ self.now.listing.words }
    {
        &self.words
    }

    /// The word at an address.
    pub fn word(&self, a: usize) -> i128
        requires { a < self.now.listing.words }
        ensures { result ≡ at self.now.words a }
    {
        self.words[a]
    }

    /// The number of instructions that the last run began.
    pub fn count(&self) -> u64
        ensures { result ≡ self.now.count }
    {
        self.count
    }
}
