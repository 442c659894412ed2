// Which lines can stand in the head of a listing.
ghost use Rattle.std.specs.Prelude.{◌≡◌, ◌↔◌, ◌<◌, ◌^◌, [], ◌∷◌, length, All, IsTrue};
ghost use Rattle.text_lines.specs.Lines.{view, views, keyed_line};
ghost use Rattle.qp_model.specs.problem.Range.{LiesIn};
ghost use Rattle.mac_listing.specs.Reading.{small_at, small_in};
ghost use Rattle.mac_listing.specs.Following.{IsWordWidth, IsInput, IsLow, IsHigh, IsWords, AreOutputs, IsOutput, IsRepeat, IsBodyCount, IsHeadLine};

use qp_model::range::{are_highs, are_numerators};
use text_lines::{Line, has_place, number_at, number_in, numbers_in, small};

/// Whether a line can stand after these, which are fewer than nine and the first lines of a listing.
pub fn is_head_line(before: &[Line], line: &Line) -> bool
    requires { length before.now < 9 }
    ensures { IsTrue result ↔ IsHeadLine (length before.now) (views before.now) (view line.now) }
{
    match before.len() {
        0 => is_line(line, "mpc-listing", &[1]),
        1 => is_width(line),
        2 => is_input(line),
        3 => is_low(line, small_in(before, 2, 0)),
        4 => is_high(line, numbers_in(before, 3)),
        5 => is_words(line, small_in(before, 2, 0)),
        6 => is_output(line, small_in(before, 5, 0)),
        7 => is_repeat(line),
        _ => is_count(line, small_in(before, 7, 0), small_in(before, 7, 1)),
    }
}

/// A number of the line with this index, as one of 32 bits.
pub fn small_in(lines: &[Line], i: usize, j: usize) -> u32
    ensures { result ≡ small_in (views lines.now) i j }
{
    small(number_in(lines, i, j))
}

/// The number of a line with this index, as one of 32 bits.
pub fn small_at(line: &Line, j: usize) -> u32
    ensures { result ≡ small_at (view line.now) j }
{
    small(number_at(&line.numbers, j))
}

/// Whether a line has this word and these numbers.
pub fn is_line(line: &Line, key: &str, numbers: &[i128]) -> bool
    ensures { IsTrue result ↔ (view line.now ≡ keyed_line key.now numbers.now) }
{
    line.key == key.as_bytes() && line.numbers.as_slice() == numbers
}

// Whether a number is one from `low` to `high`.
fn lies_in(low: u32, high: u32, number: u32) -> bool
    ensures { IsTrue result ↔ LiesIn low high number }
{
    low <= number && number <= high
}

fn is_width(line: &Line) -> bool
    ensures { IsTrue result ↔ IsWordWidth (view line.now) }
{
    let width = small_at(line, 0);
    is_line(line, "word", &[width as i128]) && lies_in(2, 128, width)
}

fn is_input(line: &Line) -> bool
    ensures { IsTrue result ↔ IsInput (view line.now) }
{
    let states = small_at(line, 0);
    let shift = small_at(line, 1);
    is_line(line, "input", &[states as i128, shift as i128]) && lies_in(1, 6, states) && shift <= 48
}

fn is_low(line: &Line, states: u32) -> bool
    ensures { IsTrue result ↔ IsLow states (view line.now) }
{
    has_place(line, "lo", states as usize) && are_numerators(&line.numbers)
}

fn is_high(line: &Line, low: &[i128]) -> bool
    ensures { IsTrue result ↔ IsHigh low.now (view line.now) }
{
    has_place(line, "hi", low.len()) && are_highs(&line.numbers, low)
}

fn is_words(line: &Line, states: u32) -> bool
    ensures { IsTrue result ↔ IsWords states (view line.now) }
{
    let words = small_at(line, 0);
    is_line(line, "words", &[words as i128]) && lies_in(states, 1000, words)
}

fn is_output(line: &Line, words: u32) -> bool
    ensures { IsTrue result ↔ IsOutput words (view line.now) }
{
    let first = small_at(line, 0);
    let outputs = small_at(line, 1);
    let over = number_at(&line.numbers, 2);
    is_line(line, "output", &[first as i128, outputs as i128, over])
        && are_outputs(words, first, outputs, over)
}

// Whether so many words from this one are some of these, and a number can be what they are over.
fn are_outputs(words: u32, first: u32, outputs: u32, over: i128) -> bool
    ensures { IsTrue result ↔ AreOutputs words first outputs over }
{
    if outputs < 1 || u64::from(first) + u64::from(outputs) > u64::from(words) {
        return false;
    }
    1 <= over && over <= 1 << 126
}

fn is_repeat(line: &Line) -> bool
    ensures { IsTrue result ↔ IsRepeat (view line.now) }
{
    let repetitions = small_at(line, 0);
    let count = small_at(line, 1);
    is_line(line, "repeat", &[repetitions as i128, count as i128])
        && lies_in(1, 4194304, repetitions)
        && lies_in(1, 100000, count)
}

fn is_count(line: &Line, repetitions: u32, count: u32) -> bool
    ensures { IsTrue result ↔ IsBodyCount repetitions count (view line.now) }
{
    is_line(
        line,
        "count",
        &[(u64::from(repetitions) * u64::from(count)) as i128],
    )
}
