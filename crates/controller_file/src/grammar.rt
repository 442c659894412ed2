// The grammars of a controller's text.
ghost use Rattle.std.specs.Prelude.{◌↔◌, [], ◌∷◌, ◌++◌, IsTrue};
ghost use Rattle.text_lines.specs.Lines.{view, views};
ghost use Rattle.text_lines.specs.Grammar.{IsBeginning};
ghost use Rattle.controller_file.specs.Following.{IsWhole, IsAnyWhole};

use crate::following::{any_can_follow, can_follow};
use crate::sizes::is_whole;
use text_lines::{Grammar, Line};

/// The lines of a controller of version 1 or 2.
pub struct ControllerGrammar;

impl Grammar for ControllerGrammar {
    ghost whole = { IsWhole };

    fn can_follow(before: &[Line], line: &Line) -> bool {
        can_follow(before, line)
    }

    fn is_whole(lines: &[Line]) -> bool {
        is_plain_whole(lines)
    }
}

/// The lines of a controller of any version.
pub struct AnyGrammar;

impl Grammar for AnyGrammar {
    ghost whole = { IsAnyWhole };

    fn can_follow(before: &[Line], line: &Line) -> bool {
        any_can_follow(before, line)
    }

    fn is_whole(lines: &[Line]) -> bool {
        is_whole(lines)
    }
}

// Whether these lines, with which a text of version 1 or 2 begins, are all lines of one.
fn is_plain_whole(lines: &[Line]) -> bool
    requires { IsBeginning IsWhole (views lines.now) }
    ensures { IsTrue result ↔ IsWhole (views lines.now) }
{
    is_whole(lines)
}
