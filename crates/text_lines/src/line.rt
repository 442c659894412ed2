// The lines of a text: a word and numbers each.
ghost use Rattle.std.specs.Prelude.{◌≡◌, ◌↔◌, IsTrue, IfOk, IfSome, IsSomeAnd};
ghost use Rattle.integer_algebra.specs.Sums.{at};
ghost use Rattle.text_lines.specs.Lines.{Keyed, view, views, spelled, Fits, IsKeyedLine, place, place_of, line_in, small};

use number_text::{numbers_of, pieces_of};
use std::alloc::{AllocError, Global};

/// A line's first word and the numbers after it.
#[derive(Drop)]
pub struct Line<'a> {
    pub key: &'a [u8],
    pub numbers: Vec<i128>,
}

/// The line that this piece is, if it is one.
pub fn line_of<'a>(alloc: Global, piece: &'a [u8]) -> Result<Option<Line<'a>>, AllocError>
    ensures found { IfOk result (λ o. IfSome o (λ l. piece.now ≡ spelled (view l))) }
    ensures fits { IfOk result (λ o. IfSome o (λ l. Fits (view l))) }
    ensures only { (l : Keyed) → IsKeyedLine l → piece.now ≡ spelled l → IfOk result (λ o. IsSomeAnd o (λ r. view r ≡ l)) }
{
    let words = pieces_of(alloc, piece, b' ')?;
    let Some((key, rest)) = words.split_first() else {
        return Ok(None);
    };
    let Some(numbers) = numbers_of(alloc, rest)? else {
        return Ok(None);
    };
    Ok(Some(Line { key, numbers }))
}

/// Whether a line has this word and so many numbers.
pub fn has_place(line: &Line, key: &str, count: usize) -> bool
    ensures { IsTrue result ↔ (place_of (view line.now) ≡ place key.now count) }
{
    line.key == key.as_bytes() && line.numbers.len() == count
}

/// The numbers of the line with this index, none where there is no such line.
pub fn numbers_in<'a>(lines: &'a [Line], i: usize) -> &'a [i128]
    ensures { result.now ≡ line_in (views lines.now) i }
{
    if i < lines.len() {
        &lines[i].numbers
    } else {
        &[]
    }
}

/// The number with this index, 0 past the end.
pub fn number_at(numbers: &[i128], i: usize) -> i128
    ensures { result ≡ at numbers.now i }
{
    if i < numbers.len() { numbers[i] } else { 0 }
}

/// A number of the line with this index, 0 where there is none.
pub fn number_in(lines: &[Line], i: usize, j: usize) -> i128
    ensures { result ≡ at (line_in (views lines.now) i) j }
{
    number_at(numbers_in(lines, i), j)
}

/// A number as one of 32 bits, 0 where it is none.
pub fn small(number: i128) -> u32
    ensures { result ≡ small number }
{
    if 0 <= number && number < 1 << 32 {
        number as u32
    } else {
        0
    }
}
