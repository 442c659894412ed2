// Whether loops lie in boxes, turn by turn.
ghost use Rattle.std.specs.Prelude.{◌≡◌, ℕ, ◌<◌, ◌≤◌, ◌^◌, length, IfSome, IfNone, IfOk, IfErr};
ghost use Rattle.settle_check.specs.Still.{IsPartOf};
ghost use Rattle.settle_check.specs.Certificates.{state_box, certificate_of, goal_of, IsCertificateFor};
ghost use Rattle.settle_check.specs.Beyond.{goal_at, GoesBeyond, IsEndWithin, IsFirstBeyond};
ghost use Rattle.settle_check.specs.Tubes.{tube_at, HasTurns, IsFirstEndBeyond};

use crate::certificate::{CertificateParts, StateBox};
use mat_int::Mat;

/// Where loops from a box lie after 0, 1 and more turns: a row for each coordinate, a number a turn, over `2^grid`.
#[derive(Drop)]
pub(crate) struct Tube {
    pub(crate) lows: Mat,
    pub(crate) highs: Mat,
}

/// The first end that lies beyond. Coordinates are counted from 1.
#[derive(Clone, Copy)]
pub(crate) struct Beyond {
    pub(crate) turn: u32,
    pub(crate) coordinate: u32,
    pub(crate) bound: i128,
}

// The end of coordinate `i` that lies beyond the goal at a turn: the upper one, or else the lower.
fn end_beyond(tube: &Tube, goal: &StateBox, turns: u32, turn: usize, i: usize) -> Option<i128>
    requires tube { HasTurns (length goal.now.low.items) turns tube.now }
    requires goal { length goal.now.high.items ≡ length goal.now.low.items }
    requires turn { turn ≤ turns }
    requires coordinate { i < length goal.now.low.items }
    ensures some { IfSome result (GoesBeyond (state_box goal.now) (tube_at tube.now turn) i) }
    ensures none { IfNone result (IsEndWithin (state_box goal.now) (tube_at tube.now turn) i) }
{
    let high = tube.highs.at(i, turn);
    let low = tube.lows.at(i, turn);
    if goal.high[i] < high {
        Some(high)
    } else if low < goal.low[i] {
        Some(low)
    } else {
        None
    }
}

// Whether the box of a turn lies in the goal, or the first coordinate that doesn't, and its end.
fn test_turn(tube: &Tube, goal: &StateBox, turns: u32, turn: usize) -> Result<(), (u32, i128)>
    requires tube { HasTurns (length goal.now.low.items) turns tube.now }
    requires goal { length goal.now.high.items ≡ length goal.now.low.items }
    requires few { length goal.now.low.items < 2 ^ 32 }
    requires turn { turn ≤ turns }
    ensures inside { IfOk result (λ _. IsPartOf (length goal.now.low.items) (state_box goal.now) (tube_at tube.now turn)) }
    ensures beyond { IfErr result (λ e. IsFirstBeyond (length goal.now.low.items) (state_box goal.now) (tube_at tube.now turn) e.0 e.1) }
{
    for i in 0..goal.low.len() {
        if let Some(bound) = end_beyond(tube, goal, turns, turn, i) {
            return Err((i as u32 + 1, bound));
        }
    }
    Ok(())
}

// What a loop is to lie in at a turn.
fn goal_at(certificate: &CertificateParts, turns: u32, turn: usize) -> &StateBox
    ensures { result.now ≡ goal_of certificate.now turns turn }
{
    if turn < turns as usize {
        &certificate.still
    } else {
        &certificate.rest
    }
}

/// Whether at each turn up to a last one the box of the turn lies in what the certificate asks, or the first that doesn't.
pub(crate) fn test_turns(
    tube: &Tube,
    certificate: &CertificateParts,
    turns: u32,
) -> Result<(), Beyond>
    requires certificate { IsCertificateFor (length certificate.now.still.low.items) certificate.now }
    requires few { length certificate.now.still.low.items < 2 ^ 32 }
    requires tube { HasTurns (length certificate.now.still.low.items) turns tube.now }
    ensures inside { let n = length certificate.now.still.low.items in
        IfOk result (λ _. (t : ℕ) → t ≤ turns → IsPartOf n (goal_at (certificate_of certificate.now) turns t) (tube_at tube.now t)) }
    ensures beyond { IfErr result (IsFirstEndBeyond (length certificate.now.still.low.items) turns (goal_at (certificate_of certificate.now) turns) tube.now) }
{
    for turn in 0..tube.lows.cols() {
        let goal = goal_at(certificate, turns, turn);
        if let Err((coordinate, bound)) = test_turn(tube, goal, turns, turn) {
            return Err(Beyond {
                turn: turn as u32,
                coordinate,
                bound,
            });
        }
    }
    Ok(())
}
