// Whether a certificate shows that loops settle, and where.
ghost use Rattle.std.specs.Prelude.{◌≡◌, ◌⊎◌, ◌-◌, ◌<◌, ◌≤◌, length, IfOk, IfErr, IsTrue, ◌↔◌, MatchResult};
ghost use Rattle.qp_model.specs.problem.Parts.{IsDesign, design_of};
ghost use Rattle.qp_model.specs.machine.Controller.{numbers, IsSized};
ghost use Rattle.overflow_check.specs.FastController.{with_last_version};
ghost use Rattle.qp_model.specs.machine.Successor.{IsFor};
ghost use Rattle.settle_check.specs.Still.{box_of, IsPartOf};
ghost use Rattle.settle_check.specs.Settling.{hull, settled_box, told_rows, cost_box, LoopsSettle};
ghost use Rattle.settle_check.specs.Course.{plant, machine, shifts_box, tube_of, costs_of};
ghost use Rattle.settle_check.specs.Certificates.{state_box, certificate_of, HasLength, IsCertificateFor, IsBoxOf};
ghost use Rattle.settle_check.specs.Tubes.{tube_at, HasTurns, HoldsBoxes};
ghost use Rattle.settle_check.specs.Settles.{RowsHaveRoom, TubeHasRoom, IsTubeFault, LoopCostsHaveRoom, PassesBy, IsSettleFaultBy, PassesSettling, IsSettleFault};
ghost use Rattle.settle_check.specs.declared.fault.SettleFault.{SettleFault};
ghost use Rattle.settle_check.specs.declared.fault.SettleFault.TheVariants.{Memory, TooWide, Unsettled, NoReturn};

use crate::certificate::{CertificateParts, Settled, StateBox};
use crate::check::test_still;
use crate::closed::ClosedLoop;
use crate::fault::SettleFault;
use crate::still::still_sum;
use crate::tube::{Beyond, Tube, test_turns};
use qp_model::{ControllerParts, DesignParts};
use std::alloc::{AllocError, Global};

// Where loops from a box lie turn by turn.
fn tube_from(
    alloc: Global,
    closed: &ClosedLoop,
    from: &StateBox,
    turns: u32,
) -> Result<Tube, SettleFault>
    requires { HasLength closed.now.parts.now.states from.now }
    ensures value { IfOk result (HoldsBoxes closed.now.parts.now.states turns (tube_of closed.now (state_box from.now))) }
    ensures room { IfOk result (λ _. TubeHasRoom closed.now (state_box from.now) turns) }
    ensures fault { IfErr result (IsTubeFault closed.now (state_box from.now) turns) }
{
    let lows = closed.tube(alloc, &from.low, &from.high, false, turns)?;
    let highs = closed.tube(alloc, &from.low, &from.high, true, turns)?;
    Ok(Tube { lows, highs })
}

// Where the rows of the cost lie that are told, so many turns after states where no multiplier moves.
fn costs_from(alloc: Global, closed: &ClosedLoop, turns: u32) -> Result<StateBox, SettleFault>
    ensures value { IfOk result (IsBoxOf (told_rows (plant closed.now) turns) (costs_of closed.now turns)) }
    ensures room { IfOk result (λ _. LoopCostsHaveRoom closed.now turns) }
    ensures fault { IfErr result (λ e. (e ≡ Memory) ⊎ ((e ≡ TooWide) × (LoopCostsHaveRoom closed.now turns → ⊥))) }
{
    let low = closed.costs(alloc, false, turns)?;
    let high = closed.costs(alloc, true, turns)?;
    Ok(StateBox { low, high })
}

// Whether the test of each row is computed within `2^126`.
fn rows_have_room(c: &ControllerParts, still: &StateBox) -> bool
    requires sized { IsSized (with_last_version (numbers c.now)) }
    requires still { HasLength c.now.n still.now }
    ensures { IsTrue result ↔ RowsHaveRoom (numbers c.now) (state_box still.now) }
{
    for i in 0..c.m {
        if still_sum(c, &still.low, &still.high, i).is_none() {
            return false;
        }
    }
    true
}

// The least lower end of coordinate `i` before a turn.
fn least(tube: &Tube, turns: u32, i: usize) -> i128
    requires tube { HasTurns (length tube.now.lows.rows) turns tube.now }
    requires coordinate { i < length tube.now.lows.rows }
    requires some { 1 ≤ turns }
    ensures { result ≡ (hull (tube_at tube.now) (turns - 1)).low i }
{
    let mut least = tube.lows.at(i, 0);
    for turn in 1..turns as usize {
        least = least.min(tube.lows.at(i, turn));
    }
    least
}

// The greatest upper end.
fn greatest(tube: &Tube, turns: u32, i: usize) -> i128
    requires tube { HasTurns (length tube.now.lows.rows) turns tube.now }
    requires coordinate { i < length tube.now.lows.rows }
    requires some { 1 ≤ turns }
    ensures { result ≡ (hull (tube_at tube.now) (turns - 1)).high i }
{
    let mut greatest = tube.highs.at(i, 0);
    for turn in 1..turns as usize {
        greatest = greatest.max(tube.highs.at(i, turn));
    }
    greatest
}

// The least box that holds those of the turns before a last one.
fn hull_of(alloc: Global, tube: &Tube, turns: u32) -> Result<StateBox, AllocError>
    requires tube { HasTurns (length tube.now.lows.rows) turns tube.now }
    requires some { 1 ≤ turns }
    ensures { IfOk result (IsBoxOf (length tube.now.lows.rows) (hull (tube_at tube.now) (turns - 1))) }
{
    let mut low = Vec::new(alloc);
    let mut high = Vec::new(alloc);
    for i in 0..tube.lows.rows() {
        low.push(least(tube, turns, i))?;
        high.push(greatest(tube, turns, i))?;
    }
    Ok(StateBox { low, high })
}

// What lies beyond, as the fault of loops from the start box, or from the box of rest.
fn unsettled(b: Beyond) -> SettleFault
    ensures { result ≡ Unsettled b.turn b.coordinate b.bound }
{
    SettleFault::Unsettled {
        turn: b.turn,
        coordinate: b.coordinate,
        bound: b.bound,
    }
}

fn no_return(b: Beyond) -> SettleFault
    ensures { result ≡ NoReturn b.turn b.coordinate b.bound }
{
    SettleFault::NoReturn {
        turn: b.turn,
        coordinate: b.coordinate,
        bound: b.bound,
    }
}

// The tests of a certificate over the tubes of both ways, in their order.
fn test_tubes(
    c: &ControllerParts,
    certificate: &CertificateParts,
    there: &Tube,
    again: &Tube,
) -> Result<(), SettleFault>
    requires sized { IsSized (with_last_version (numbers c.now)) }
    requires certificate { IsCertificateFor c.now.n certificate.now }
    requires there { HasTurns c.now.n certificate.now.turns there.now }
    requires again { HasTurns c.now.n certificate.now.back again.now }
    ensures passes { IfOk result (λ _. PassesBy (numbers c.now) (certificate_of certificate.now) (tube_at there.now) (tube_at again.now)) }
    ensures fault { IfErr result (IsSettleFaultBy (numbers c.now) (certificate_of certificate.now) (tube_at there.now) (tube_at again.now)) }
{
    if !rows_have_room(c, &certificate.still) {
        return Err(SettleFault::TooWide);
    }
    test_still(c, &certificate.still.low, &certificate.still.high)?;
    if let Err(b) = test_turns(there, certificate, certificate.turns) {
        return Err(unsettled(b));
    }
    if let Err(b) = test_turns(again, certificate, certificate.back) {
        return Err(no_return(b));
    }
    Ok(())
}

// The tests of a certificate over the loop that it speaks of, and where loops settle.
fn check_loop(
    alloc: Global,
    closed: &ClosedLoop,
    certificate: &CertificateParts,
) -> Result<Settled, SettleFault>
    requires certificate { IsCertificateFor closed.now.parts.now.states certificate.now }
    requires low { closed.now.low.now ≡ certificate.now.still.low.items }
    requires high { closed.now.high.now ≡ certificate.now.still.high.items }
    ensures rest { IfOk result (λ b. IsBoxOf closed.now.parts.now.states
        (settled_box (plant closed.now) (machine closed.now) (shifts_box closed.now) (certificate_of certificate.now)) b.rest) }
    ensures costs { IfOk result (λ b. IsBoxOf (told_rows (plant closed.now) certificate.now.after)
        (cost_box (plant closed.now) (machine closed.now) (state_box certificate.now.still) (shifts_box closed.now) certificate.now.after) b.costs) }
    ensures passes { IfOk result (λ _. PassesSettling (plant closed.now) (machine closed.now) (shifts_box closed.now) (certificate_of certificate.now)) }
    ensures fault { IfErr result (λ e. (e ≡ Memory)
        ⊎ IsSettleFault (plant closed.now) (machine closed.now) (shifts_box closed.now) (certificate_of certificate.now) e) }
{
    let there = tube_from(alloc, closed, &certificate.start, certificate.turns)?;
    let again = tube_from(alloc, closed, &certificate.rest, certificate.back)?;
    let costs = costs_from(alloc, closed, certificate.after)?;
    test_tubes(closed.c, certificate, &there, &again)?;
    let rest = hull_of(alloc, &again, certificate.back)?;
    Ok(Settled { rest, costs })
}

/// Whether a certificate shows that every closed loop from its start box settles, under shifts of its states from `shift_low` to `shift_high` after each
/// turn; and where: the least box that holds the box of rest and where loops from it lie before they are there again, and where the rows of the cost lie that
/// the certificate tells, over `2^grid`. The controller may be of any version: the loops are the plain machine's by its numbers, and where no multiplier moves
/// the averaged plan of the accelerated one, and so the next state, is the same.
///
/// # Errors
/// `Memory`; `TooWide` where a number of the tests is above `2^126`; else for the rows in turn `Moves`; else `Unsettled`, of loops from the start box at the
/// first turn, and at it the first coordinate and of that the upper end first, that may lie beyond what is asked; else `NoReturn`, the same of loops from the
/// box of rest.
pub fn check_settling(
    alloc: Global,
    parts: &DesignParts,
    c: &ControllerParts,
    certificate: &CertificateParts,
    shift_low: &[i128],
    shift_high: &[i128],
) -> Result<Settled, SettleFault>
    requires design { IsDesign parts.now }
    requires sized { IsSized (with_last_version (numbers c.now)) }
    requires matched { IsFor (numbers c.now) (design_of parts.now) }
    requires certificate { IsCertificateFor parts.now.states certificate.now }
    requires inside { IsPartOf parts.now.states (box_of c.now.lo.items c.now.hi.items) (state_box certificate.now.still) }
    requires shift_low { length shift_low.now ≡ parts.now.states }
    requires shift_high { length shift_high.now ≡ parts.now.states }
    ensures settled { IfOk result (λ _.
        LoopsSettle (design_of parts.now) (numbers c.now) (box_of shift_low.now shift_high.now) (certificate_of certificate.now)) }
    ensures rest { IfOk result (λ b. IsBoxOf parts.now.states
        (settled_box (design_of parts.now) (numbers c.now) (box_of shift_low.now shift_high.now) (certificate_of certificate.now)) b.rest) }
    ensures costs { let shifts = box_of shift_low.now shift_high.now in
        IfOk result (λ b. IsBoxOf (told_rows (design_of parts.now) certificate.now.after)
        (cost_box (design_of parts.now) (numbers c.now) (state_box certificate.now.still) shifts certificate.now.after) b.costs) }
    ensures found { IfOk result (λ _.
        PassesSettling (design_of parts.now) (numbers c.now) (box_of shift_low.now shift_high.now) (certificate_of certificate.now)) }
    ensures fault { IfErr result (λ e. (e ≡ Memory)
        ⊎ IsSettleFault (design_of parts.now) (numbers c.now) (box_of shift_low.now shift_high.now) (certificate_of certificate.now) e) }

    // The other way round, with nothing but out of memory in between.
    ensures right { PassesSettling (design_of parts.now) (numbers c.now) (box_of shift_low.now shift_high.now) (certificate_of certificate.now) →
        IfErr result (λ e. e ≡ Memory) }
    ensures first { (told : SettleFault)
        → IsSettleFault (design_of parts.now) (numbers c.now) (box_of shift_low.now shift_high.now) (certificate_of certificate.now) told →
        MatchResult result (λ _. ⊥) (λ e. (e ≡ told) ⊎ (e ≡ Memory)) }
{
    let closed = ClosedLoop {
        parts,
        c,
        low: &certificate.still.low,
        high: &certificate.still.high,
        shift_low,
        shift_high,
    };
    check_loop(alloc, &closed, certificate)
}
