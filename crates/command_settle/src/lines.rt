// The text that tells where loops settle.
ghost use Rattle.std.specs.Prelude.{◌≡◌, ◌++◌, ◌<◌, length, IfOk, OnOk, string_bytes};
ghost use Rattle.settle_check.specs.Certificates.{state_box};
ghost use Rattle.command_settle.specs.SettledText.{turn_line, coordinate_line, cost_row_line, lines_to, settled_text};

use number_text::push_line;
use settle_check::{Settled, StateBox};
use std::alloc::{AllocError, Global};

// The line of a turn, at the end of a text.
fn push_turn(alloc: Global, text: &mut String, turn: u32) -> Result<(), AllocError>
    ensures { OnOk result (string_bytes text.new ≡ string_bytes text.old ++ turn_line turn) }
{
    push_line(alloc, text, "turn", &[turn as i128])
}

// The line of a coordinate, at the end of a text.
fn push_coordinate(
    alloc: Global,
    text: &mut String,
    rest: &StateBox,
    i: usize,
) -> Result<(), AllocError>
    requires coordinate { i < length rest.now.low.items }
    requires high { length rest.now.high.items ≡ length rest.now.low.items }
    ensures { OnOk result (string_bytes text.new ≡ string_bytes text.old ++ coordinate_line (state_box rest.now) i) }
{
    push_line(
        alloc,
        text,
        "state",
        &[i as i128 + 1, rest.low[i], rest.high[i]],
    )
}

// The line of a row of the cost, so many turns after a start, at the end of a text.
fn push_cost(
    alloc: Global,
    text: &mut String,
    turns: u32,
    costs: &StateBox,
    k: usize,
) -> Result<(), AllocError>
    requires row { k < length costs.now.low.items }
    requires high { length costs.now.high.items ≡ length costs.now.low.items }
    ensures { OnOk result (string_bytes text.new ≡ string_bytes text.old ++ cost_row_line turns (state_box costs.now) k) }
{
    push_line(
        alloc,
        text,
        "cost",
        &[k as i128 + 1, turns as i128, costs.low[k], costs.high[k]],
    )
}

// The lines of all.
fn costs_text(alloc: Global, turns: u32, costs: &StateBox) -> Result<String, AllocError>
    requires high { length costs.now.high.items ≡ length costs.now.low.items }
    ensures { IfOk result (λ text. string_bytes text ≡ lines_to (cost_row_line turns (state_box costs.now)) (length costs.now.low.items)) }
{
    let mut text = String::new(alloc);
    for k in 0..costs.low.len() {
        push_cost(alloc, &mut text, turns, costs, k)?;
    }
    Ok(text)
}

// The lines of a turn and a box.
fn rest_text(alloc: Global, turn: u32, rest: &StateBox) -> Result<String, AllocError>
    requires high { length rest.now.high.items ≡ length rest.now.low.items }
    ensures { IfOk result (λ text. string_bytes text ≡
        turn_line turn ++ lines_to (coordinate_line (state_box rest.now)) (length rest.now.low.items)) }
{
    let mut text = String::new(alloc);
    push_turn(alloc, &mut text, turn)?;
    for i in 0..rest.low.len() {
        push_coordinate(alloc, &mut text, rest, i)?;
    }
    Ok(text)
}

/// The text of a turn, a box and rows of the cost after so many turns, over `2^grid`: a line `turn` and its number, a line `state` for each coordinate, with its
/// number from 1, its least and its greatest, and a line `cost` for each row, with its number from 1, the turns, its least and its greatest.
pub fn settled_text(
    alloc: Global,
    turn: u32,
    after: u32,
    settled: &Settled,
) -> Result<Vec<u8>, AllocError>
    requires high { length settled.now.rest.high.items ≡ length settled.now.rest.low.items }
    requires costs { length settled.now.costs.high.items ≡ length settled.now.costs.low.items }
    ensures { IfOk result (λ v. v.items ≡ settled_text turn (length settled.now.rest.low.items) (state_box settled.now.rest)
        after (length settled.now.costs.low.items) (state_box settled.now.costs)) }
{
    let mut text = rest_text(alloc, turn, &settled.rest)?;
    let costs = costs_text(alloc, after, &settled.costs)?;
    text.push_str(costs.as_str())?;
    Ok(text.into_bytes())
}
