// Where the first lines of a text of cells stand.
ghost use Rattle.std.specs.Prelude.{◌≡◌, ℕ, ◌+◌, ◌<◌, ◌≤◌, List, ◌++◌, length, drop, MatchOption};
ghost use Rattle.integer_algebra.specs.Sums.{at};
ghost use Rattle.qp_model.specs.machine.Controller.{Numbers};
ghost use Rattle.text_lines.specs.Lines.{Keyed, views, line_in, small};
ghost use Rattle.text_lines.specs.Grammar.{IsBeginning};
ghost use Rattle.controller_text.specs.TextForm.{IsTextForm};
ghost use Rattle.controller_text.specs.Lines.{keyed_lines};
ghost use Rattle.cell_file.specs.Cells.{AreCells};
ghost use Rattle.cell_file.specs.Lines.{cells_lines, IsCellsWhole, IsPlace};
ghost use Rattle.cell_file.specs.Begins.{BeginsCell, EndsAt};

use controller_file::sizes_in;
use controller_text::line_count;
use text_lines::{Line, number_in, small};

/// How many cells have all their lines, and the index of the line behind these.
#[derive(Clone, Copy)]
pub struct Place {
    pub cells: usize,
    pub start: usize,
}

/// How many cells the first line says, 0 where there is none.
pub fn count_in(lines: &[Line]) -> usize
    ensures { result ≡ small (at (line_in (views lines.now) 0) 0) }
{
    small(number_in(lines, 0, 0)) as usize
}

/// The place of lines, one at least, with which a text of cells begins.
pub fn place_after(lines: &[Line]) -> Place
    requires some { 0 < length lines.now }
    requires beginning { IsBeginning IsCellsWhole (views lines.now) }
    ensures { (cells : List Numbers) (more : List Keyed) → AreCells cells →
        cells_lines cells ≡ views lines.now ++ more → IsPlace cells (length (views lines.now)) result }
{
    let mut place = Place { cells: 0, start: 1 };
    for _ in 0..count_in(lines) {
        let Some(end) = end_from(lines, place.start) else {
            return place;
        };
        place = Place {
            cells: place.cells + 1,
            start: end,
        };
    }
    place
}

/// The index behind the lines of the controller that begins at an index. None where they aren't all there.
pub fn end_from(lines: &[Line], start: usize) -> Option<usize>
    requires inside { start ≤ length lines.now }
    requires beginning { BeginsCell (drop start (views lines.now)) }
    ensures { (c : Numbers) (more rest : List Keyed) → IsTextForm c → drop start (views lines.now) ++ more ≡ keyed_lines c ++ rest →
        EndsAt (length lines.now) (start + length (keyed_lines c)) result }
{
    if lines.len() < start + 2 {
        return None;
    }
    let end = start + line_count(sizes_in(&lines[start..start + 2]));
    if end <= lines.len() { Some(end) } else { None }
}
