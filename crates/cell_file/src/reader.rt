// The controllers of cells from their text.
ghost use Rattle.std.specs.Prelude.{◌≡◌, ◌⊎◌, ℕ, List, All, Err, IfOk, IfErr, MatchResult, map};
ghost use Rattle.number_text.specs.Lines.{text_of};
ghost use Rattle.controller_file.specs.declared.any_controller.AnyController.{AnyController};
ghost use Rattle.text_lines.specs.Lines.{views, spelled};
ghost use Rattle.controller_file.specs.Following.{IsAnyWhole};
ghost use Rattle.cell_file.specs.Lines.{IsCellsWhole};
ghost use Rattle.cell_file.specs.Reading.{IsOf, IsNoneOf, AreCellsOf, AreNoneOf};
ghost use Rattle.cell_file.specs.Text.{IsCellsText, IsBadCellsLine, AreUnsafe};

use crate::grammar::CellsGrammar;
use crate::place::{count_in, end_from};
use controller_file::{AnyController, any_safe, parts_of};
use controller_text::BadController;
use std::alloc::{AllocError, Global};
use text_lines::{Line, lines_in};

/// The controllers of cells, each of any version, whose text the bytes are.
///
/// # Errors
/// `Line` exactly where the bytes are no text of cells in form: it names the first line with which, after those before it, no text in form begins. `Unsafe`
/// exactly where the bytes are in form and the absolute sums of some controller don't fit the width that it says.
pub fn read_cells(alloc: Global, bytes: &[u8]) -> Result<Vec<AnyController>, BadController>
    ensures found { IfOk result (λ v. IsCellsText bytes.now v.items) }
    ensures bad_line { (l : ℕ) → result ≡ Err (BadController.Line l) → IsBadCellsLine bytes.now l }
    ensures wide { result ≡ Err BadController.Unsafe → AreUnsafe bytes.now }

    // The other way round, with nothing but out of memory in between.
    ensures right { (cells : List AnyController) → IsCellsText bytes.now cells → MatchResult result (λ v. v.items ≡ cells) (λ e. e ≡ BadController.Memory) }
    ensures bad_first { (l : ℕ) → IsBadCellsLine bytes.now l → (result ≡ Err (BadController.Line l)) ⊎ (result ≡ Err BadController.Memory) }
    ensures bad_sums { AreUnsafe bytes.now → (result ≡ Err BadController.Unsafe) ⊎ (result ≡ Err BadController.Memory) }
{
    match cells_in(alloc, bytes)? {
        Ok(lines) => controllers_of(alloc, &lines),
        Err(line) => Err(BadController::Line { line }),
    }
}

// The lines of a text in form, or the number of the first line at which the bytes are none.
fn cells_in(alloc: Global, bytes: &[u8]) -> Result<Result<Vec<Line<'_>>, u32>, AllocError>
    ensures { IfOk result (λ r.
        MatchResult r (λ v. IsCellsWhole (views v.items) × (bytes.now ≡ text_of (map spelled (views v.items)))) (IsBadCellsLine bytes.now)) }
{
    lines_in::<CellsGrammar>(alloc, bytes)
}

// The controllers of all cells.
fn controllers_of(alloc: Global, lines: &[Line]) -> Result<Vec<AnyController>, BadController>
    requires { IsCellsWhole (views lines.now) }
    ensures found { IfOk result (λ v. AreCellsOf (views lines.now) v.items) }
    ensures fault { IfErr result (AreNoneOf (views lines.now)) }
{
    let mut cells = Vec::new(alloc);
    let mut start = 1;
    for _ in 0..count_in(lines) {
        let Some(end) = end_from(lines, start) else {
            unreachable!();
        };
        let controller = controller_of(alloc, &lines[start..end])?;
        if cells.push(controller).is_err() {
            return Err(BadController::Memory);
        }
        start = end;
    }
    Ok(cells)
}

// The controller whose lines these are.
fn controller_of(alloc: Global, lines: &[Line]) -> Result<AnyController, BadController>
    requires { IsAnyWhole (views lines.now) }
    ensures found { IfOk result (λ k. IsOf (views lines.now) k) }
    ensures fault { IfErr result (IsNoneOf (views lines.now)) }
{
    let parts = parts_of(alloc, lines)?;
    any_safe(parts)
}
