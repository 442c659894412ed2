// Runs of a listing.
ghost use Rattle.std.specs.Prelude.{◌≡◌, ◌≤◌, ◌<◌, ◌-◌, ◌↔◌, ℕ, pos, length, All, IsTrue, IsNone, IfSome, IfOk, IfErr, OnOk};
ghost use Rattle.integer_algebra.specs.Sums.{at};
ghost use Rattle.qp_model.specs.problem.Range.{LiesIn};
ghost use Rattle.qp_model.specs.machine.ValuesMet.{FitsWidth};
ghost use Rattle.mac_listing.specs.Listing.{instructions, IsOp, IsListing};
ghost use Rattle.mac_machine.specs.Machine.{holding, played, OpsFit, repeated, inputs_of, begun, after_repetitions, NeverTraps};
ghost use Rattle.mac_machine.specs.Box.{IsInBox, IsFirstOutsideBox};
ghost use Rattle.mac_machine.specs.Traps.{TrapsAt, StopsIn, Stops, IsNumbered, begun_till, begun_by, KeepsOutside};

use crate::accumulator::carry_out;
use crate::stop::Stop;
use crate::width::raised;
use mac_listing::{ListingParts, Op};

// One repetition: the accumulator after it, or the number, from 1, of the first instruction that has no room.
fn play_body(body: &[Op], w: u32, acc: i128, words: &mut [i128]) -> Result<i128, u32>
    requires width { LiesIn 2 128 w }
    requires ops { All (IsOp (length words.old)) body.now }
    requires short { length body.now ≤ 100000 }
    ensures room { OnOk result (OpsFit w body.now (holding acc words.old)) }
    ensures ends { IfOk result (λ sum. played body.now (holding acc words.old) ≡ holding sum words.new) }
    ensures counted { IfErr result (λ place. LiesIn 1 (length body.now) place) }
    ensures traps { IfErr result (λ place. TrapsAt w body.now (holding acc words.old) (place - 1)) }
    ensures long { length words.new ≡ length words.old }
{
    let mut sum = acc;
    let mut place = 1;
    for op in body {
        let Some(next) = carry_out(*op, w, sum, words) else {
            return Err(place);
        };
        sum = next;
        place += 1;
    }
    Ok(sum)
}

// All repetitions, from an accumulator of 0.
fn play_steps(l: &ListingParts, words: &mut [i128]) -> Result<(), Stop>
    requires sound { IsListing (instructions l.now) }
    requires long { length words.old ≡ l.now.words }
    ensures room { OnOk result ((k : ℕ) → k < l.now.repeat → OpsFit l.now.word l.now.body.items (repeated l.now.body.items k (holding (pos 0) words.old))) }
    ensures ends { OnOk result (words.new ≡ (repeated l.now.body.items l.now.repeat (holding (pos 0) words.old)).words) }
    ensures traps { IfErr result (StopsIn (instructions l.now) (holding (pos 0) words.old)) }
    ensures numbered { IfErr result (IsNumbered (instructions l.now)) }
    ensures long { length words.new ≡ length words.old }
{
    let mut acc = 0;
    for step in 0..l.repeat {
        match play_body(&l.body, l.word, acc, words) {
            Ok(next) => acc = next,
            Err(place) => {
                return Err(Stop::Trap {
                    step: step + 1,
                    place,
                });
            }
        }
    }
    Ok(())
}

// The state, shifted up, in the first words, and 0 in all others. Whether each has room.
fn put_inputs(l: &ListingParts, state: &[i128], words: &mut [i128]) -> bool
    requires sound { IsListing (instructions l.now) }
    requires state { length state.now ≡ l.now.inputs }
    requires long { length words.old ≡ l.now.words }
    ensures room { IsTrue result ↔ All (FitsWidth l.now.word) (inputs_of (instructions l.now) state.now) }
    ensures words { IsTrue result → words.new ≡ (begun (instructions l.now) state.now).words }
    ensures long { length words.new ≡ length words.old }
{
    for i in 0..words.len() {
        match raised(l.word, number_at(state, i), l.shift) {
            Some(word) => words[i] = word,
            None => return false,
        }
    }
    true
}

// The number with this index, 0 past the end.
fn number_at(numbers: &[i128], i: usize) -> i128
    ensures { result ≡ at numbers.now i }
{
    if i < numbers.len() { numbers[i] } else { 0 }
}

/// The first coordinate that lies outside the box, from 1.
pub fn first_outside(l: &ListingParts, state: &[i128]) -> Option<u32>
    requires sound { IsListing (instructions l.now) }
    requires long { length state.now ≡ l.now.inputs }
    ensures inside { IsNone result ↔ IsInBox (instructions l.now) state.now }
    ensures first { IfSome result (λ k. IsFirstOutsideBox (instructions l.now) state.now k) }
{
    let mut coordinate = 1;
    for (i, x) in state.iter().enumerate() {
        if *x < l.lo[i] || l.hi[i] < *x {
            return Some(coordinate);
        }
        coordinate += 1;
    }
    None
}

/// The whole run from a state.
pub fn play(l: &ListingParts, state: &[i128], words: &mut [i128]) -> Result<(), Stop>
    requires sound { IsListing (instructions l.now) }
    requires state { length state.now ≡ l.now.inputs }
    requires long { length words.old ≡ l.now.words }
    ensures inside { OnOk result (IsInBox (instructions l.now) state.now) }
    ensures room { OnOk result (NeverTraps (instructions l.now) state.now) }
    ensures words { OnOk result (words.new ≡ (after_repetitions (instructions l.now) state.now l.now.repeat).words) }
    ensures stops { IfErr result (Stops (instructions l.now) state.now) }
    ensures numbered { IfErr result (IsNumbered (instructions l.now)) }
    ensures outside { IfErr result (λ stop. KeepsOutside stop words.old words.new) }
    ensures kept { length words.new ≡ length words.old }
{
    if let Some(coordinate) = first_outside(l, state) {
        return Err(Stop::OutsideBox { coordinate });
    }
    if !put_inputs(l, state, words) {
        return Err(Stop::Trap { step: 0, place: 0 });
    }
    play_steps(l, words)
}

// How many instructions a run that stopped began.
fn begun_till(l: &ListingParts, stop: Stop, before: u64) -> u64
    requires sound { IsListing (instructions l.now) }
    requires numbered { IsNumbered (instructions l.now) stop }
    ensures { result ≡ begun_till (instructions l.now) stop before }
{
    match stop {
        Stop::OutsideBox { .. } => before,
        Stop::Trap { step, place } => {
            u64::from(step.saturating_sub(1)) * l.body.len() as u64 + u64::from(place)
        }
    }
}

/// How many instructions a run began, where outside the box the count before it stays.
pub fn count_after(l: &ListingParts, answer: &Result<(), Stop>, before: u64) -> u64
    requires sound { IsListing (instructions l.now) }
    requires numbered { IfErr answer.now (IsNumbered (instructions l.now)) }
    ensures { result ≡ begun_by (instructions l.now) answer.now before }
{
    match answer {
        Ok(()) => u64::from(l.repeat) * l.body.len() as u64,
        Err(stop) => begun_till(l, *stop, before),
    }
}
