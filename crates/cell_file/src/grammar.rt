// The grammar of a text of cells.
ghost use Rattle.std.specs.Prelude.{◌≡◌, ◌↔◌, pos, ◌≤ℤ◌, [], ◌∷◌, ◌++◌, IsTrue};
ghost use Rattle.integer_algebra.specs.Sums.{at};
ghost use Rattle.text_lines.specs.Lines.{view, views, Fits};
ghost use Rattle.text_lines.specs.Grammar.{IsBeginning};
ghost use Rattle.cell_file.specs.Lines.{IsCellsWhole};

use crate::alike::is_alike;
use crate::place::{count_in, place_after};
use controller_file::any_can_follow;
use text_lines::{Grammar, Line, has_place, number_at};

/// The most cells of a text.
const MOST_CELLS: i128 = 64;

/// The lines of cells.
pub struct CellsGrammar;

impl Grammar for CellsGrammar {
    ghost whole = { IsCellsWhole };

    fn can_follow(before: &[Line], line: &Line) -> bool {
        can_follow(before, line)
    }

    fn is_whole(lines: &[Line]) -> bool {
        is_whole(lines)
    }
}

// Whether a text of cells has this line after these, which are the first lines of one.
fn can_follow(before: &[Line], line: &Line) -> bool
    requires beginning { IsBeginning IsCellsWhole (views before.now) }
    requires fits { Fits (view line.now) }
    ensures { IsTrue result ↔ IsBeginning IsCellsWhole (views before.now ++ view line.now ∷ []) }
{
    if before.is_empty() {
        return is_head(line);
    }
    let place = place_after(before);
    if place.cells == count_in(before) {
        return place.start == before.len() && has_place(line, "end", 0);
    }
    let tail = &before[place.start..];
    any_can_follow(tail, line)
        && (place.cells == 0 || is_alike(&before[1..], tail.len(), &line.numbers))
}

// Whether a line is the first of a text.
fn is_head(line: &Line) -> bool
    ensures { IsTrue result ↔ IsBeginning IsCellsWhole (view line.now ∷ []) }
{
    has_place(line, "mpc-cells", 1) && is_count(number_at(&line.numbers, 0))
}

// Whether a number is one of cells.
fn is_count(number: i128) -> bool
    ensures { IsTrue result ↔ ((pos 1 ≤ℤ number) × (number ≤ℤ pos 64)) }
{
    1 <= number && number <= MOST_CELLS
}

// Whether these lines, with which a text begins, are all lines of one.
fn is_whole(lines: &[Line]) -> bool
    requires { IsBeginning IsCellsWhole (views lines.now) }
    ensures { IsTrue result ↔ IsCellsWhole (views lines.now) }
{
    if lines.is_empty() {
        return false;
    }
    let place = place_after(lines);
    place.cells == count_in(lines) && place.start < lines.len()
}
