// A controller's numbers from the lines of its text.
ghost use Rattle.std.specs.Prelude.{◌≡◌, ◌<◌, [], IfOk, All, length, map, take, slice_index_or};
ghost use Rattle.qp_model.specs.machine.Controller.{Numbers, numbers};
ghost use Rattle.text_lines.specs.Lines.{views, small};
ghost use Rattle.controller_text.specs.TextForm.{IsTextForm};
ghost use Rattle.controller_text.specs.Lines.{line_blocks, keyed_lines};
ghost use Rattle.controller_text.specs.Table.{text_table, block_at, sizes_of, AreSizesSmall};
ghost use Rattle.text_lines.specs.Blocks.{total_rows};
ghost use Rattle.controller_file.specs.Following.{IsAnyWhole};
ghost use Rattle.controller_file.specs.Reading.{list_of_block, matrix_in, IsFront, IsBack};
ghost use Rattle.controller_text.specs.BlockPlace.{place_in_table};

use crate::sizes::sizes_in;
use controller_text::{Block, place_of, table};
use mat_int::Mat;
use qp_model::{ControllerParts, FIRST_VERSION};
use std::alloc::{AllocError, Global};
use text_lines::{Line, number_in, numbers_in, rows_before, small};

/// The numbers of the controller whose lines these are.
pub fn parts_of(alloc: Global, lines: &[Line]) -> Result<ControllerParts, AllocError>
    requires { IsAnyWhole (views lines.now) }
    ensures { IfOk result (λ parts. (c : Numbers) → IsTextForm c → keyed_lines c ≡ views lines.now → numbers parts ≡ c) }
{
    let front = front_of(alloc, lines)?;
    let back = back_of(alloc, lines)?;
    Ok(joined(lines, front, back))
}

// The exponents, and the lists before those of the constraints.
#[derive(Drop)]
struct Front {
    exps: Vec<u32>,
    lo: Vec<i128>,
    hi: Vec<i128>,
    p_mat: Mat,
    t: Vec<i128>,
}

// The other lists.
#[derive(Drop)]
struct Back {
    w_mat: Mat,
    g_mat: Mat,
    e_mat: Mat,
    bound: Vec<i128>,
}

fn front_of(alloc: Global, lines: &[Line]) -> Result<Front, AllocError>
    requires { IsAnyWhole (views lines.now) }
    ensures { IfOk result (λ front. (c : Numbers) → IsTextForm c → keyed_lines c ≡ views lines.now → IsFront c front) }
{
    Ok(Front {
        exps: exponents_of(alloc, lines)?,
        lo: list_of(alloc, lines, Block::Low)?,
        hi: list_of(alloc, lines, Block::High)?,
        p_mat: matrix_of(alloc, lines, Block::StateGains)?,
        t: list_of(alloc, lines, Block::Offsets)?,
    })
}

fn back_of(alloc: Global, lines: &[Line]) -> Result<Back, AllocError>
    requires { IsAnyWhole (views lines.now) }
    ensures { IfOk result (λ back. (c : Numbers) → IsTextForm c → keyed_lines c ≡ views lines.now → IsBack c back) }
{
    Ok(Back {
        w_mat: matrix_of(alloc, lines, Block::DualGains)?,
        g_mat: matrix_of(alloc, lines, Block::PlanRows)?,
        e_mat: matrix_of(alloc, lines, Block::StateRows)?,
        bound: list_of(alloc, lines, Block::Bounds)?,
    })
}

// The exponents of the rows: the numbers of their line, or the greatest one for each row where the version has no such line.
fn exponents_of(alloc: Global, lines: &[Line]) -> Result<Vec<u32>, AllocError>
    requires { IsAnyWhole (views lines.now) }
    ensures { IfOk result (λ v. (c : Numbers) → IsTextForm c → keyed_lines c ≡ views lines.now → v.items ≡ c.exponents) }
{
    let sizes = sizes_in(lines);
    if sizes.version == FIRST_VERSION {
        vec![in alloc; small(number_in(lines, 2, 2)); sizes.m]
    } else {
        smalls(alloc, numbers_in(block_in(lines, Block::Exponents), 0))
    }
}

// Numbers as numbers of 32 bits.
fn smalls(alloc: Global, numbers: &[i128]) -> Result<Vec<u32>, AllocError>
    ensures { IfOk result (λ v. v.items ≡ map small numbers.now) }
{
    numbers.iter().map(|number| small(*number)).collect(alloc)
}

// The numbers of the one line of a block.
fn list_of(alloc: Global, lines: &[Line], block: Block) -> Result<Vec<i128>, AllocError>
    requires { IsAnyWhole (views lines.now) }
    ensures { IfOk result (λ v.
        (c : Numbers) → IsTextForm c → keyed_lines c ≡ views lines.now → v.items ≡ list_of_block (line_blocks c) (place_in_table block)) }
{
    numbers_in(block_in(lines, block), 0).to_vec(alloc)
}

// The numbers of the lines of a block as rows.
fn matrix_of(alloc: Global, lines: &[Line], block: Block) -> Result<Mat, AllocError>
    requires { IsAnyWhole (views lines.now) }
    ensures { IfOk result (λ m. (c : Numbers) → IsTextForm c → keyed_lines c ≡ views lines.now →
        m ≡ matrix_in (line_blocks c) (place_in_table block) (block_at (sizes_of c) (place_in_table block)).2) }
{
    rows_of(
        alloc,
        table(sizes_in(lines))[place_of(block)].2,
        block_in(lines, block),
    )
}

// The numbers of these lines as rows.
fn rows_of(alloc: Global, cols: usize, lines: &[Line]) -> Result<Mat, AllocError>
    requires { All (λ l. length l.numbers ≡ cols) (views lines.now) }
    ensures { IfOk result (λ m. m ≡ record { cols = cols; rows = map (λ l. l.numbers) (views lines.now) }) }
{
    let mut matrix = Mat::zero(alloc, 0, cols)?;
    for line in lines {
        matrix.push_row(alloc, &line.numbers)?;
    }
    Ok(matrix)
}

// The lines of a block of the table.
fn block_in<'a, 't>(lines: &'a [Line<'t>], block: Block) -> &'a [Line<'t>]
    requires { IsAnyWhole (views lines.now) }
    ensures { (c : Numbers) → IsTextForm c → keyed_lines c ≡ views lines.now →
        views result.now ≡ slice_index_or (line_blocks c) (place_in_table block) [] }
{
    let blocks = table(sizes_in(lines));
    let place = place_of(block);
    let start = rows_before(&blocks, place);
    &lines[start..start + blocks[place].1]
}

// The controller of the first lines and all lists.
fn joined(lines: &[Line], front: Front, back: Back) -> ControllerParts
    requires { IsAnyWhole (views lines.now) }
    ensures { (c : Numbers) → IsTextForm c → keyed_lines c ≡ views lines.now → IsFront c front → IsBack c back → numbers result ≡ c }
{
    let sizes = sizes_in(lines);
    ControllerParts {
        version: sizes.version,
        n: sizes.n,
        p: sizes.p,
        stages: sizes.stages,
        m: sizes.m,
        f: small(number_in(lines, 2, 0)),
        g: small(number_in(lines, 2, 1)),
        s: small(number_in(lines, 2, 2)),
        w: small(number_in(lines, 2, 3)),
        steps: small(number_in(lines, 3, 0)),
        clamp: number_in(lines, 4, 0),
        words: small(number_in(lines, 5, 0)) as usize,
        exps: front.exps,
        lo: front.lo,
        hi: front.hi,
        p_mat: front.p_mat,
        t: front.t,
        w_mat: back.w_mat,
        g_mat: back.g_mat,
        e_mat: back.e_mat,
        bound: back.bound,
    }
}
