// Which lines the texts of a grammar have.
ghost use Rattle.std.specs.Prelude.{◌↔◌, [], ◌∷◌, ◌++◌, IsTrue, List};
ghost use Rattle.text_lines.specs.Lines.{Keyed, view, views, Fits};
ghost use Rattle.text_lines.specs.Grammar.{IsBeginning};

use crate::line::Line;

/// A grammar of lines, which says what can stand after the first lines of a text.
pub trait Grammar {
    /// These are all lines of a text of the grammar.
    ghost whole: { List Keyed → Type 0 };

    /// Whether some text of the grammar has this line after these, which are the first lines of one.
    fn can_follow(before: &[Line], line: &Line) -> bool
        requires beginning { IsBeginning whole (views before.now) }
        requires fits { Fits (view line.now) }
        ensures { IsTrue result ↔ IsBeginning whole (views before.now ++ view line.now ∷ []) };

    /// Whether these lines, with which a text of the grammar begins, are all lines of one.
    fn is_whole(lines: &[Line]) -> bool
        requires { IsBeginning whole (views lines.now) }
        ensures { IsTrue result ↔ whole (views lines.now) };
}
