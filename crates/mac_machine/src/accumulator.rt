// One instruction.
ghost use Rattle.std.specs.Prelude.{◌≡◌, ◌≤◌, ◌<◌, length, IfSome};
ghost use Rattle.std.specs.Option.{SomeIff};
ghost use Rattle.qp_model.specs.problem.Range.{LiesIn};
ghost use Rattle.mac_listing.specs.Listing.{IsOp};
ghost use Rattle.mac_listing.specs.declared.instruction.Op.TheVariants.{Mac, Con};
ghost use Rattle.mac_machine.specs.Machine.{holding, result_of, words_after, OpFits};

use crate::width::{negated, product, raised, roomy, sum};
use frac_scaled::floor_shift;
use mac_listing::Op;

// A constant times a word, raised by so many bits, added to the accumulator.
fn mac(w: u32, acc: i128, words: &[i128], a: usize, c: i128, k: u32) -> Option<i128>
    requires width { LiesIn 2 128 w }
    requires address { a < length words.now }
    requires bits { k ≤ 126 }
    ensures { SomeIff result (OpFits w (Mac a c k) (holding acc words.now)) (result_of (Mac a c k) (holding acc words.now)) }
{
    let word = raised(w, words[a], k)?;
    let product = product(w, c, word)?;
    sum(w, acc, product)
}

// A constant, raised by so many bits, added to it.
fn con(w: u32, acc: i128, words: &[i128], c: i128, k: u32) -> Option<i128>
    requires width { LiesIn 2 128 w }
    requires bits { k ≤ 126 }
    ensures { SomeIff result (OpFits w (Con c k) (holding acc words.now)) (result_of (Con c k) (holding acc words.now)) }
{
    let constant = raised(w, c, k)?;
    sum(w, acc, constant)
}

// The accumulator after an instruction, where it has room.
fn result_of(op: Op, w: u32, acc: i128, words: &[i128]) -> Option<i128>
    requires width { LiesIn 2 128 w }
    requires op { IsOp (length words.now) op }
    ensures { SomeIff result (OpFits w op (holding acc words.now)) (result_of op (holding acc words.now)) }
{
    match op {
        Op::Clear => Some(0),
        Op::Load { a } => roomy(w, words[a]),
        Op::Store { .. } => roomy(w, acc),
        Op::Mac { a, c, k } => mac(w, acc, words, a, c, k),
        Op::Con { c, k } => con(w, acc, words, c, k),
        Op::AddM { a } => sum(w, acc, words[a]),
        Op::Shl { k } => raised(w, acc, k),
        Op::Shr { k } => roomy(w, floor_shift(acc, k)),
        Op::Neg => negated(w, acc),
        Op::Low => roomy(w, acc.max(0)),
        Op::Cap { c } => roomy(w, c.min(acc)),
    }
}

/// The same, with the words after it. Where it has no room, they stay.
pub fn carry_out(op: Op, w: u32, acc: i128, words: &mut [i128]) -> Option<i128>
    requires width { LiesIn 2 128 w }
    requires op { IsOp (length words.old) op }
    ensures result { SomeIff result (OpFits w op (holding acc words.old)) (result_of op (holding acc words.old)) }
    ensures words { IfSome result (λ r. words.new ≡ words_after op (holding acc words.old)) }
{
    let next = result_of(op, w, acc, words)?;
    if let Op::Store { a } = op {
        words[a] = next;
    }
    Some(next)
}
