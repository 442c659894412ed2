// The instructions of one step.
ghost use Rattle.std.specs.Prelude.{◌≡◌, ◌≤◌, ◌<◌, ◌+◌, ◌++◌, length, neg_ℤ, OnOk, IfOk};
ghost use Rattle.integer_algebra.specs.Sums.{at};
ghost use Rattle.mat_int.specs.Matrix.{row_of};
ghost use Rattle.qp_model.specs.machine.Controller.{numbers};
ghost use Rattle.qp_model.specs.machine.Machine.{lowering_of, top_of};
ghost use Rattle.qp_model.specs.machine.AbsoluteSums.{IsController};
ghost use Rattle.mac_listing.specs.Body.{product_op, row_ops, unshifted, groups, entry_ops, move_ops, multiplier_ops, sum_ops, body_of};

use crate::instruction::Op;
use frac_scaled::floor_shift;
use qp_model::ControllerParts;
use std::alloc::{AllocError, Global};

// A constant times a word, raised by so many bits.
fn push_product(body: &mut Vec<Op>, a: usize, c: i128, k: u32) -> Result<(), AllocError>
    ensures { OnOk result (body.new.items ≡ body.old.items ++ product_op a c k) }
{
    if c != 0 {
        body.push(Op::Mac { a, c, k })?;
    }
    Ok(())
}

// A row times the words from an address on.
fn push_row(body: &mut Vec<Op>, first: usize, row: &[i128]) -> Result<(), AllocError>
    requires { first + length row.now ≤ 1000 }
    ensures { OnOk result (body.new.items ≡ body.old.items ++ row_ops first row.now unshifted) }
{
    for (i, c) in row.iter().enumerate() {
        push_product(body, first + i, *c, 0)?;
    }
    Ok(())
}

// By how many bits the step exponent of row `i` is below the greatest.
fn lowering_at(c: &ControllerParts, i: usize) -> u32
    requires sound { IsController (numbers c.now) }
    requires in_range { i < length c.now.bound.items }
    ensures value { result ≡ lowering_of (numbers c.now) i }
    ensures bits { result ≤ 40 }
{
    c.s - c.exps[i]
}

// A row times the multipliers, each raised to over `2^(f+s)`.
fn push_raised_row(body: &mut Vec<Op>, c: &ControllerParts, j: usize) -> Result<(), AllocError>
    requires sound { IsController (numbers c.now) }
    requires in_range { j < length c.now.t.items }
    ensures { OnOk result (body.new.items ≡ body.old.items ++ row_ops c.now.n (row_of c.now.w_mat j) (lowering_of (numbers c.now))) }
{
    let row = c.w_mat.row(j);
    for (i, x) in row.iter().enumerate() {
        push_product(body, c.n + i, *x, lowering_at(c, i))?;
    }
    Ok(())
}

// Plan entry `j`.
fn push_entry(body: &mut Vec<Op>, c: &ControllerParts, j: usize) -> Result<(), AllocError>
    requires sound { IsController (numbers c.now) }
    requires in_range { j < length c.now.t.items }
    ensures { OnOk result (body.new.items ≡ body.old.items ++ entry_ops (numbers c.now) j) }
{
    body.push(Op::Clear)?;
    push_row(body, 0, c.p_mat.row(j))?;
    body.extend_from_slice(&[Op::Con { c: c.t[j], k: c.f }, Op::Shl { k: c.s }])?;
    push_raised_row(body, c, j)?;
    let a = c.n + c.m + j;
    body.extend_from_slice(&[Op::Shr { k: c.f + c.s }, Op::Neg, Op::Store { a }])
}

// The bound of row `i` with the other sign.
fn negated_bound(c: &ControllerParts, i: usize) -> i128
    requires sound { IsController (numbers c.now) }
    requires in_range { i < length c.now.bound.items }
    ensures { result ≡ neg_ℤ (at c.now.bound.items i) }
{
    -c.bound[i]
}

// The greatest multiplier of row `i`.
fn top_at(c: &ControllerParts, i: usize) -> i128
    requires sound { IsController (numbers c.now) }
    requires in_range { i < length c.now.bound.items }
    ensures { result ≡ top_of (numbers c.now) i }
{
    floor_shift(c.clamp, lowering_at(c, i))
}

// The end of multiplier `i`: its bound, and the move from the old one, kept between 0 and the greatest of its row.
fn move_ops(c: &ControllerParts, i: usize) -> [Op; 6]
    requires sound { IsController (numbers c.now) }
    requires in_range { i < length c.now.bound.items }
    ensures { result ≡ move_ops (numbers c.now) i }
{
    let a = c.n + i;
    let bound = negated_bound(c, i);
    let top = top_at(c, i);
    [
        Op::Con { c: bound, k: c.f },
        Op::Shr { k: c.f },
        Op::AddM { a },
        Op::Low,
        Op::Cap { c: top },
        Op::Store { a },
    ]
}

// Multiplier `i`.
fn push_multiplier(body: &mut Vec<Op>, c: &ControllerParts, i: usize) -> Result<(), AllocError>
    requires sound { IsController (numbers c.now) }
    requires in_range { i < length c.now.bound.items }
    ensures { OnOk result (body.new.items ≡ body.old.items ++ multiplier_ops (numbers c.now) i) }
{
    body.push(Op::Clear)?;
    push_row(body, c.n + c.m, c.g_mat.row(i))?;
    push_row(body, 0, c.e_mat.row(i))?;
    body.extend_from_slice(&move_ops(c, i))
}

// Sum `j`.
fn push_sum(body: &mut Vec<Op>, c: &ControllerParts, j: usize) -> Result<(), AllocError>
    requires sound { IsController (numbers c.now) }
    requires in_range { j < length c.now.t.items }
    ensures { OnOk result (body.new.items ≡ body.old.items ++ sum_ops (numbers c.now) j) }
{
    let plan = c.n + c.m + j;
    let a = plan + c.t.len();
    body.extend_from_slice(&[Op::Load { a }, Op::AddM { a: plan }, Op::Store { a }])
}

fn push_entries(body: &mut Vec<Op>, c: &ControllerParts) -> Result<(), AllocError>
    requires { IsController (numbers c.now) }
    ensures { OnOk result (body.new.items ≡ body.old.items ++ groups (entry_ops (numbers c.now)) (length c.now.t.items)) }
{
    for j in 0..c.t.len() {
        push_entry(body, c, j)?;
    }
    Ok(())
}

fn push_multipliers(body: &mut Vec<Op>, c: &ControllerParts) -> Result<(), AllocError>
    requires { IsController (numbers c.now) }
    ensures { OnOk result (body.new.items ≡ body.old.items ++ groups (multiplier_ops (numbers c.now)) (length c.now.bound.items)) }
{
    for i in 0..c.bound.len() {
        push_multiplier(body, c, i)?;
    }
    Ok(())
}

fn push_sums(body: &mut Vec<Op>, c: &ControllerParts) -> Result<(), AllocError>
    requires { IsController (numbers c.now) }
    ensures { OnOk result (body.new.items ≡ body.old.items ++ groups (sum_ops (numbers c.now)) (length c.now.t.items)) }
{
    for j in 0..c.t.len() {
        push_sum(body, c, j)?;
    }
    Ok(())
}

/// The plan's entries, then the multipliers, then the sums.
pub fn body_of(alloc: Global, c: &ControllerParts) -> Result<Vec<Op>, AllocError>
    requires { IsController (numbers c.now) }
    ensures { IfOk result (λ v. v.items ≡ body_of (numbers c.now)) }
{
    let mut body = Vec::new(alloc);
    push_entries(&mut body, c)?;
    push_multipliers(&mut body, c)?;
    push_sums(&mut body, c)?;
    Ok(body)
}
