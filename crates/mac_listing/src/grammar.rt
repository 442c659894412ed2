// The grammar of a listing's text.
ghost use Rattle.std.specs.Prelude.{◌≡◌, ◌+◌, ◌↔◌, [], ◌∷◌, ◌++◌, length, IsTrue};
ghost use Rattle.text_lines.specs.Lines.{view, views, Fits};
ghost use Rattle.text_lines.specs.Grammar.{IsBeginning};
ghost use Rattle.mac_listing.specs.Whole.{IsWholeListing};

use crate::body_line::is_body_line;
use crate::head_line::{is_head_line, small_in};
use text_lines::{Grammar, Line};

/// The lines of a listing.
pub struct ListingGrammar;

impl Grammar for ListingGrammar {
    ghost whole = { IsWholeListing };

    fn can_follow(before: &[Line], line: &Line) -> bool {
        can_follow(before, line)
    }

    fn is_whole(lines: &[Line]) -> bool {
        is_whole(lines)
    }
}

// Whether some listing's text has this line after these, which are the first lines of one.
fn can_follow(before: &[Line], line: &Line) -> bool
    requires beginning { IsBeginning IsWholeListing (views before.now) }
    requires fits { Fits (view line.now) }
    ensures { IsTrue result ↔ IsBeginning IsWholeListing (views before.now ++ view line.now ∷ []) }
{
    if before.len() < 9 {
        is_head_line(before, line)
    } else {
        is_body_line(before, line)
    }
}

// Whether these lines, with which a listing's text begins, are all lines of one.
fn is_whole(lines: &[Line]) -> bool
    requires { IsBeginning IsWholeListing (views lines.now) }
    ensures { IsTrue result ↔ IsWholeListing (views lines.now) }
{
    lines.len() > 9 && lines.len() - 10 == small_in(lines, 7, 1) as usize
}
