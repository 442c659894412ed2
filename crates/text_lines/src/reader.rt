// The lines of a text, as far as its grammar allows them.
ghost use Rattle.std.specs.Prelude.{◌≡◌, ◌≢◌, [], ◌∷◌, ◌++◌, ◌↔◌, IsTrue, IfOk, IfSome, IfNone, MatchResult, map, take, length};
ghost use Rattle.number_text.specs.Lines.{text_of};
ghost use Rattle.text_lines.specs.Lines.{Keyed, view, views, spelled};
ghost use Rattle.text_lines.specs.Grammar.{IsBeginning, IsGrammar, IsMost, IsTextOf};
ghost use Rattle.text_lines.specs.FirstLine.{IsBadLineOf};

use crate::grammar::Grammar;
use crate::line::{Line, line_of};
use number_text::pieces_of;
use std::alloc::{AllocError, Global};

/// The lines of a text of the grammar. Where the bytes are no such text, the number of the first line, from 1, with which, after those before it, no text
/// of the grammar begins. A last piece without a line feed is such a line, an absent line counts as the next, and so do bytes after the last line.
pub fn lines_in<'a, G: Grammar>(
    alloc: Global,
    bytes: &'a [u8],
) -> Result<Result<Vec<Line<'a>>, u32>, AllocError>
    requires { IsGrammar G.whole }
    ensures { IfOk result (λ r.
        MatchResult r (λ v. G.whole (views v.items) × (bytes.now ≡ text_of (map spelled (views v.items)))) (IsBadLineOf (IsTextOf G.whole) bytes.now)) }
{
    let pieces = pieces_of(alloc, bytes, b'\n')?;
    // What is after the last line feed is no line.
    let whole = &pieces[..pieces.len() - 1];
    let lines = right_lines::<G>(alloc, whole)?;
    let right = is_text::<G>(&lines, whole.len(), pieces[whole.len()]);
    drop(pieces);
    if right {
        Ok(Ok(lines))
    } else {
        Ok(Err(lines.len() as u32 + 1))
    }
}

// Whether lines with which a text begins, as many as were to be read, are all lines of one, and nothing is left after them.
fn is_text<G: Grammar>(lines: &[Line], count: usize, rest: &[u8]) -> bool
    requires { IsBeginning G.whole (views lines.now) }
    ensures { IsTrue result ↔ ((length lines.now ≡ count) × (rest.now ≡ []) × G.whole (views lines.now)) }
{
    lines.len() == count && rest.is_empty() && G::is_whole(lines)
}

// The first of these pieces, as many as are lines with which a text begins.
fn right_lines<'a, G: Grammar>(
    alloc: Global,
    pieces: &[&'a [u8]],
) -> Result<Vec<Line<'a>>, AllocError>
    requires { IsGrammar G.whole }
    ensures beginning { IfOk result (λ v. IsBeginning G.whole (views v.items)) }
    ensures spelling { IfOk result (λ v. map spelled (views v.items) ≡ take (length v.items) (map (λ x. x.now) pieces.now)) }
    ensures most { IfOk result (λ v. IsMost G.whole (map (λ x. x.now) pieces.now) (length v.items)) }
{
    let mut lines = Vec::new(alloc);
    for piece in pieces {
        let Some(line) = next_line::<G>(alloc, &lines, piece)? else {
            return Ok(lines);
        };
        lines.push(line)?;
    }
    Ok(lines)
}

// The line that this piece is, where a text has such a line after these.
fn next_line<'a, G: Grammar>(
    alloc: Global,
    before: &[Line],
    piece: &'a [u8],
) -> Result<Option<Line<'a>>, AllocError>
    requires grammar { IsGrammar G.whole }
    requires beginning { IsBeginning G.whole (views before.now) }
    ensures found { IfOk result (λ o. IfSome o (λ l. piece.now ≡ spelled (view l))) }
    ensures follows { IfOk result (λ o. IfSome o (λ l. IsBeginning G.whole (views before.now ++ view l ∷ []))) }
    ensures none { IfOk result (λ o. IfNone o ((l : Keyed) → IsBeginning G.whole (views before.now ++ l ∷ []) → piece.now ≢ spelled l)) }
{
    match line_of(alloc, piece)? {
        Some(line) => Ok(G::can_follow(before, &line).then_some(line)),
        None => Ok(None),
    }
}
