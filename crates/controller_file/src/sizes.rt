// The sizes that the lines of a text say, and which line they call for.
ghost use Rattle.std.specs.Prelude.{◌≡◌, ◌↔◌, IsTrue, None, Some, MatchOption, slice_get};
ghost use Rattle.text_lines.specs.Lines.{views, place};
ghost use Rattle.controller_text.specs.Table.{places, AreSizesSmall, Says};
ghost use Rattle.text_lines.specs.Grammar.{IsBeginning};
ghost use Rattle.controller_file.specs.Following.{IsAnyWhole};

use controller_text::{Sizes, table};
use text_lines::{Line, number_in, place_in, small};

/// The version and the sizes that the first of these lines say: 0 each where they aren't there.
pub fn sizes_in(lines: &[Line]) -> Sizes
    requires { IsBeginning IsAnyWhole (views lines.now) }
    ensures { Says (views lines.now) result }
{
    Sizes {
        version: small(number_in(lines, 0, 0)),
        n: small(number_in(lines, 1, 0)) as usize,
        p: small(number_in(lines, 1, 1)) as usize,
        stages: small(number_in(lines, 1, 2)) as usize,
        m: small(number_in(lines, 1, 3)) as usize,
    }
}

/// The word of the line with this index, and how many numbers it has. None past the last line.
pub fn place_at(sizes: Sizes, index: usize) -> Option<(&'static str, usize)>
    requires { AreSizesSmall sizes }
    ensures { MatchOption result (slice_get (places sizes) index ≡ None) (λ p. slice_get (places sizes) index ≡ Some (place p.0.now p.1)) }
{
    place_in(&table(sizes), index)
}

/// Whether these lines, with which a text in form begins, are all lines of one.
pub fn is_whole(lines: &[Line]) -> bool
    requires { IsBeginning IsAnyWhole (views lines.now) }
    ensures { IsTrue result ↔ IsAnyWhole (views lines.now) }
{
    place_at(sizes_in(lines), lines.len()).is_none()
}
