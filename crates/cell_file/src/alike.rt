// Whether a line can be one of a controller that is like the first.
ghost use Rattle.std.specs.Prelude.{◌≡◌, ◌↔◌, ◌≤◌, List, ◌++◌, IsTrue};
ghost use Rattle.integer_algebra.specs.Sums.{at};
ghost use Rattle.qp_model.specs.problem.Limits.{most_states, most_stages};
ghost use Rattle.qp_model.specs.machine.Controller.{Numbers};
ghost use Rattle.text_lines.specs.Lines.{Keyed, views};
ghost use Rattle.controller_text.specs.TextForm.{IsTextForm};
ghost use Rattle.controller_text.specs.Lines.{keyed_lines};
ghost use Rattle.cell_file.specs.Alike.{IsAlikeLine};

use qp_model::{most_stages, most_states};
use text_lines::{Line, number_at, number_in, numbers_in, small};

/// Whether the numbers of the line with this index among those of its controller are such as a controller has that is like the first, whose lines are the
/// first of these.
pub fn is_alike(first: &[Line], index: usize, numbers: &[i128]) -> bool
    ensures { (c : Numbers) (rest : List Keyed) → IsTextForm c → views first.now ≡ keyed_lines c ++ rest →
        IsTrue result ↔ IsAlikeLine c index numbers.now }
{
    match index {
        0 => has_room(first, small(number_at(numbers, 0))),
        1 => are_sizes(numbers, numbers_in(first, 1)),
        2 => number_at(numbers, 1) == number_in(first, 2, 1),
        _ => true,
    }
}

// Whether a version allows the sizes of the first controller.
fn has_room(first: &[Line], version: u32) -> bool
    ensures { (c : Numbers) (rest : List Keyed) → IsTextForm c → views first.now ≡ keyed_lines c ++ rest →
        IsTrue result ↔ ((c.states ≤ most_states version) × (c.stages ≤ most_stages version)) }
{
    number_in(first, 1, 0) <= most_states(version) as i128
        && number_in(first, 1, 2) <= most_stages(version) as i128
}

// Whether numbers begin with the same three.
fn are_sizes(numbers: &[i128], sizes: &[i128]) -> bool
    ensures { IsTrue result ↔ ((at numbers.now 0 ≡ at sizes.now 0) × (at numbers.now 1 ≡ at sizes.now 1) × (at numbers.now 2 ≡ at sizes.now 2)) }
{
    number_at(numbers, 0) == number_at(sizes, 0)
        && number_at(numbers, 1) == number_at(sizes, 1)
        && number_at(numbers, 2) == number_at(sizes, 2)
}
