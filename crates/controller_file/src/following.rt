// Which lines can stand after others in a text in form.
ghost use Rattle.std.specs.Prelude.{◌≡◌, ◌<◌, ◌≤◌, ◌^◌, ◌↔◌, [], ◌∷◌, ◌++◌, length, All, IsTrue, slice_get};
ghost use Rattle.text_lines.specs.Lines.{view, views, Fits};
ghost use Rattle.controller_text.specs.Table.{AreSizesSmall};
ghost use Rattle.controller_text.specs.TextForm.{most_steps, multiplier_words};
ghost use Rattle.text_lines.specs.Grammar.{IsBeginning};
ghost use Rattle.controller_file.specs.Following.{IsFrom, AreSizes, AreBits, AreUpper, word_count, InRange, head_block, head_blocks, IsWhole, IsAnyWhole, IsPlain};

use crate::sizes::{place_at, sizes_in};
use controller_text::{BLOCKS, Block, Sizes};
use overflow_check::{FAST_VERSION, MOST_FAST_STEPS};
use qp_model::range::{are_highs, are_numerators};
use qp_model::{FIRST_VERSION, LAST_VERSION, MOST_INPUTS, most_rows, most_stages, most_states};
use text_lines::{Line, has_place, number_at, number_in, numbers_in};

// The most steps of a run of version 1 or 2.
const MOST_STEPS: u32 = 4194304;

/// Whether a text in form, of version 1 or 2, has this line after these, which are the first lines of one.
pub fn can_follow(before: &[Line], line: &Line) -> bool
    requires beginning { IsBeginning IsWhole (views before.now) }
    requires fits { Fits (view line.now) }
    ensures { IsTrue result ↔ IsBeginning IsWhole (views before.now ++ view line.now ∷ []) }
{
    any_can_follow(before, line) && is_plain(before, line)
}

// Whether the first of these lines and the one after them says version 1 or 2.
fn is_plain(before: &[Line], line: &Line) -> bool
    ensures { IsTrue result ↔ IsPlain (views before.now ++ view line.now ∷ []) }
{
    if before.is_empty() {
        number_at(&line.numbers, 0) <= LAST_VERSION as i128
    } else {
        number_in(before, 0, 0) <= LAST_VERSION as i128
    }
}

/// The same of a text of any version.
pub fn any_can_follow(before: &[Line], line: &Line) -> bool
    requires beginning { IsBeginning IsAnyWhole (views before.now) }
    requires fits { Fits (view line.now) }
    ensures { IsTrue result ↔ IsBeginning IsAnyWhole (views before.now ++ view line.now ∷ []) }
{
    let sizes = sizes_in(before);
    match place_at(sizes, before.len()) {
        Some((key, count)) => {
            has_place(line, key, count) && is_in_range(before, sizes, &line.numbers)
        }
        None => false,
    }
}

// Whether the numbers of a line after these are in range, where they are as many as its place has. The lists after the bounds of the states have any.
fn is_in_range(before: &[Line], sizes: Sizes, numbers: &[i128]) -> bool
    requires small { AreSizesSmall sizes }
    requires few { length before.now < 2 ^ 40 }
    ensures { IsTrue result ↔ InRange (head_block sizes (length before.now)) (views before.now) sizes numbers.now }
{
    match head_block(sizes, before.len()) {
        Some(Block::Version) => is_from(
            FIRST_VERSION as i128,
            FAST_VERSION as i128,
            number_at(numbers, 0),
        ),
        Some(Block::Size) => are_sizes(
            sizes.version,
            number_at(numbers, 0),
            number_at(numbers, 1),
            number_at(numbers, 2),
            number_at(numbers, 3),
        ),
        Some(Block::Bits) => are_bits(
            number_at(numbers, 0),
            number_at(numbers, 1),
            number_at(numbers, 2),
            number_at(numbers, 3),
        ),
        Some(Block::Steps) => is_from(1, most_steps(sizes.version) as i128, number_at(numbers, 0)),
        Some(Block::Clamp) => is_from(0, 1 << 126, number_at(numbers, 0)),
        Some(Block::Words) => number_at(numbers, 0) == words(sizes) as i128,
        Some(Block::Exponents) => are_from(0, number_in(before, 2, 2), numbers),
        Some(Block::Low) => are_numerators(numbers),
        Some(Block::High) => are_upper(numbers, numbers_in(before, before.len() - 1)),
        _ => true,
    }
}

// The block of the line with this index, none where it is in the lists. The first version has no line of exponents.
fn head_block(sizes: Sizes, index: usize) -> Option<Block>
    requires { index < 2 ^ 40 }
    ensures { result ≡ head_block sizes index }
{
    head_at(if index > 5 && sizes.version == FIRST_VERSION {
        index + 1
    } else {
        index
    })
}

// The block with this place among those before the lists.
fn head_at(place: usize) -> Option<Block>
    ensures { result ≡ slice_get head_blocks place }
{
    BLOCKS[..9].get(place).copied()
}

// The most steps of a version.
fn most_steps(version: u32) -> u32
    ensures { result ≡ most_steps version }
{
    if version == FAST_VERSION {
        MOST_FAST_STEPS
    } else {
        MOST_STEPS
    }
}

// The words of memory of a run.
fn words(sizes: Sizes) -> usize
    requires { AreSizesSmall sizes }
    ensures { result ≡ word_count sizes }
{
    sizes.n + multiplier_words(sizes.version, sizes.m) + 2 * (sizes.p * sizes.stages)
}

// Those of its multipliers.
fn multiplier_words(version: u32, rows: usize) -> usize
    requires { rows ≤ 372 }
    ensures { result ≡ multiplier_words version rows }
{
    if version == FAST_VERSION {
        3 * rows
    } else {
        rows
    }
}

// Whether these are sizes.
fn are_sizes(version: u32, n: i128, p: i128, stages: i128, m: i128) -> bool
    ensures { IsTrue result ↔ AreSizes version n p stages m }
{
    if !is_from(1, most_states(version) as i128, n) || !is_from(1, MOST_INPUTS as i128, p) {
        return false;
    }
    is_from(1, most_stages(version) as i128, stages) && is_from(1, most_rows(version) as i128, m)
}

// Whether these are numbers of bits.
fn are_bits(f: i128, g: i128, s: i128, w: i128) -> bool
    ensures { IsTrue result ↔ AreBits f g s w }
{
    if !is_from(0, 24, g) || !is_from(g, 48, f) {
        return false;
    }
    is_from(0, 40, s) && is_from(2, 128, w)
}

// Whether a number is one from `low` to `high`.
fn is_from(low: i128, high: i128, number: i128) -> bool
    ensures { IsTrue result ↔ IsFrom low high number }
{
    low <= number && number <= high
}

// Whether each number is one from `low` to `high`.
fn are_from(low: i128, high: i128, numbers: &[i128]) -> bool
    ensures { IsTrue result ↔ All (IsFrom low high) numbers.now }
{
    numbers.iter().all(|number| is_from(low, high, *number))
}

// Whether these are as many upper bounds, each at least its lower one.
fn are_upper(high: &[i128], low: &[i128]) -> bool
    ensures { IsTrue result ↔ AreUpper high.now low.now }
{
    high.len() == low.len() && are_highs(high, low)
}
