// The text of a controller.
ghost use Rattle.std.specs.Prelude.{◌≡◌, ◌<◌, ◌++◌, IfOk, OnOk, All, FitsSigned, pos, string_bytes, codes, map, slice_index_or, []};
ghost use Rattle.std.specs.Int.{w128};
ghost use Rattle.qp_model.specs.machine.Controller.{numbers, FitsWord};
ghost use Rattle.number_text.specs.Lines.{text_of};
ghost use Rattle.qp_model.specs.text.ControllerText.{matrix_lines, controller_text, IsControllerText};
ghost use Rattle.text_lines.specs.Lines.{Fits, spelled};
ghost use Rattle.controller_text.specs.Lines.{line_blocks};
ghost use Rattle.controller_text.specs.Table.{text_table, sizes_of};
ghost use Rattle.controller_text.specs.BlockPlace.{place_in_table};
ghost use Rattle.controller_text.specs.TextForm.{IsTextForm, IsFastControllerText};

use crate::block::{BLOCKS, Block, place_of};
use crate::layout::{Sizes, table};
use mat_int::Mat;
use number_text::push_line;
use overflow_check::{Controller, FastController};
use qp_model::{ControllerParts, FIRST_VERSION};
use std::alloc::{AllocError, Global};

/// The one text of a controller: lines of a word and numbers, `mpc-controller` and the version first and `end` last.
pub fn write_controller(alloc: Global, controller: &Controller) -> Result<Vec<u8>, AllocError>
    ensures { IfOk result (λ v. IsControllerText v.items controller.now) }
{
    Ok(parts_text(alloc, controller.parts())?.into_bytes())
}

/// The one text of a controller of the accelerated machine: the same lines, under version 3.
pub fn write_fast_controller(
    alloc: Global,
    controller: &FastController,
) -> Result<Vec<u8>, AllocError>
    ensures { IfOk result (λ v. IsFastControllerText v.items controller.now) }
{
    Ok(parts_text(alloc, controller.parts())?.into_bytes())
}

// The text that these numbers make.
fn parts_text(alloc: Global, parts: &ControllerParts) -> Result<String, AllocError>
    requires { IsTextForm (numbers parts.now) }
    ensures text { IfOk result (λ text. string_bytes text ≡ controller_text (numbers parts.now)) }
    ensures word { OnOk result (FitsWord (numbers parts.now)) }
{
    let mut text = String::new(alloc);
    let blocks = table(sizes_of(parts));
    for block in BLOCKS {
        push_block(alloc, &mut text, parts, block, blocks[place_of(block)].0)?;
    }
    Ok(text)
}

fn sizes_of(parts: &ControllerParts) -> Sizes
    ensures { result ≡ sizes_of (numbers parts.now) }
{
    Sizes {
        version: parts.version,
        n: parts.n,
        p: parts.p,
        stages: parts.stages,
        m: parts.m,
    }
}

// The lines of a block, which have this word, at the end.
fn push_block(
    alloc: Global,
    text: &mut String,
    parts: &ControllerParts,
    block: Block,
    key: &str,
) -> Result<(), AllocError>
    requires { key.now ≡ (slice_index_or (text_table (sizes_of (numbers parts.now))) (place_in_table block) ([], 0, 0)).0 }
    ensures text { OnOk result (string_bytes text.new ≡ string_bytes text.old
        ++ text_of (map spelled (slice_index_or (line_blocks (numbers parts.now)) (place_in_table block) []))) }
    ensures word { OnOk result (All Fits (slice_index_or (line_blocks (numbers parts.now)) (place_in_table block) [])) }
{
    match block {
        Block::Version => push_line(alloc, text, key, &[parts.version as i128]),
        Block::Size => push_line(
            alloc,
            text,
            key,
            &[
                parts.n as i128,
                parts.p as i128,
                parts.stages as i128,
                parts.m as i128,
            ],
        ),
        Block::Bits => push_line(
            alloc,
            text,
            key,
            &[
                parts.f as i128,
                parts.g as i128,
                parts.s as i128,
                parts.w as i128,
            ],
        ),
        Block::Steps => push_line(alloc, text, key, &[parts.steps as i128]),
        Block::Clamp => push_line(alloc, text, key, &[parts.clamp]),
        Block::Words => push_line(alloc, text, key, &[parts.words as i128]),
        Block::Exponents => push_exponents(alloc, text, key, parts),
        Block::Low => push_line(alloc, text, key, &parts.lo),
        Block::High => push_line(alloc, text, key, &parts.hi),
        Block::StateGains => push_rows(alloc, text, key, &parts.p_mat),
        Block::Offsets => push_line(alloc, text, key, &parts.t),
        Block::DualGains => push_rows(alloc, text, key, &parts.w_mat),
        Block::PlanRows => push_rows(alloc, text, key, &parts.g_mat),
        Block::StateRows => push_rows(alloc, text, key, &parts.e_mat),
        Block::Bounds => push_line(alloc, text, key, &parts.bound),
        Block::End => push_line(alloc, text, key, &[]),
    }
}

// The line of the exponents, where the version has one.
fn push_exponents(
    alloc: Global,
    text: &mut String,
    key: &str,
    parts: &ControllerParts,
) -> Result<(), AllocError>
    requires { key.now ≡ codes "exps" }
    ensures text { OnOk result (string_bytes text.new ≡ string_bytes text.old
        ++ text_of (map spelled (slice_index_or (line_blocks (numbers parts.now)) 6 []))) }
    ensures word { OnOk result (All Fits (slice_index_or (line_blocks (numbers parts.now)) 6 [])) }
{
    if parts.version == FIRST_VERSION {
        return Ok(());
    }
    let numbers = widened(alloc, &parts.exps)?;
    push_line(alloc, text, key, &numbers)
}

fn widened(alloc: Global, numbers: &[u32]) -> Result<Vec<i128>, AllocError>
    ensures { IfOk result (λ v. v.items ≡ map pos numbers.now) }
{
    numbers.iter().map(|number| *number as i128).collect(alloc)
}

// A line for each row, at the end.
fn push_rows(alloc: Global, text: &mut String, key: &str, rows: &Mat) -> Result<(), AllocError>
    ensures text { OnOk result (string_bytes text.new ≡ string_bytes text.old ++ text_of (matrix_lines key.now rows.now)) }
    ensures word { All (All (FitsSigned w128)) rows.now.rows }
{
    for i in 0..rows.rows() {
        push_line(alloc, text, key, rows.row(i))?;
    }
    Ok(())
}
