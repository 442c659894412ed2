ghost use Rattle.std.specs.Prelude.{◌≡◌, ◌==◌, ◌++◌, ◌∷◌, [], ℤ, List, IfOk, OnOk, IfSome, IsSomeAnd, Some, All, FitsSigned, map, string_bytes};
ghost use Rattle.std.specs.List.{slice_split};
ghost use Rattle.std.specs.Int.{w128};
ghost use Rattle.std.specs.Fmt.{signed_decimal};
ghost use Rattle.number_text.specs.Lines.{spaced, line_of, text_of};
ghost use Rattle.number_text.specs.Spelling.{is_plain};

use std::alloc::{AllocError, Global};

/// The number that a word spells: `0`, or digits that begin with no zero, after one `-` or none. It has one spelling.
pub fn number_word(word: &[u8]) -> Option<i128>
    // What is read is spelled so.
    ensures found { IfSome result (λ z. word.now ≡ signed_decimal z) }
    // What is spelled so is read.
    ensures only { (z : ℤ) → FitsSigned w128 z → word.now ≡ signed_decimal z → result ≡ Some z }
{
    if !is_plain(word) {
        return None;
    }
    let Ok(text) = str::from_utf8(word) else {
        return None;
    };
    text.parse::<i128>().ok()
}

// Whether a word begins as a number with no sign but a minus, and no zero in front.
fn is_plain(word: &[u8]) -> bool
    ensures { result ≡ is_plain word.now }
{
    match word {
        [] => false,
        [only] => (b'0'..=b'9').contains(only),
        [b'-', first, ..] => (b'1'..=b'9').contains(first),
        [first, ..] => (b'1'..=b'9').contains(first),
    }
}

/// The pieces of a text between the bytes that equal `separator`, and what is before the first and after the last: one piece
/// more than there are such bytes.
pub fn pieces_of(alloc: Global, text: &[u8], separator: u8) -> Result<Vec<&[u8]>, AllocError>
    ensures { IfOk result (λ v. map (λ x. x.now) v.items ≡ slice_split (λ b. b == separator) text.now) }
{
    text.split(|b| *b == separator).collect(alloc)
}

/// The numbers that these words spell, if each spells one.
pub fn numbers_of(alloc: Global, words: &[&[u8]]) -> Result<Option<Vec<i128>>, AllocError>
    // What is read is spelled so.
    ensures found { IfOk result (λ o. IfSome o (λ v. map signed_decimal v.items ≡ map (λ x. x.now) words.now)) }
    ensures word { IfOk result (λ o. IfSome o (λ v. All (FitsSigned w128) v.items)) }
    // What is spelled so is read.
    ensures only { (zs : List ℤ) → All (FitsSigned w128) zs → map (λ x. x.now) words.now ≡ map signed_decimal zs →
        IfOk result (λ o. IsSomeAnd o (λ v. v.items ≡ zs)) }
{
    let mut numbers = Vec::new(alloc);
    for word in words {
        let Some(number) = number_word(word) else {
            return Ok(None);
        };
        numbers.push(number)?;
    }
    Ok(Some(numbers))
}

/// The numbers in decimal, one space between two.
pub fn spaced_text(alloc: Global, numbers: &[i128]) -> Result<String, AllocError>
    ensures { IfOk result (λ text. string_bytes text ≡ spaced numbers.now) }
{
    let mut text = String::new(alloc);
    for (i, number) in numbers.iter().enumerate() {
        if i > 0 {
            text.push(' ')?;
        }
        let word = number.to_string(alloc)?;
        text.push_str(word.as_str())?;
    }
    Ok(text)
}

/// A word and the numbers, one space between two.
pub fn line_text(alloc: Global, key: &str, numbers: &[i128]) -> Result<String, AllocError>
    ensures value { IfOk result (λ text. string_bytes text ≡ line_of key.now numbers.now) }
    ensures word { OnOk result (All (FitsSigned w128) numbers.now) }
{
    let mut text = String::from_str(alloc, key)?;
    for &number in numbers {
        let word = number.to_string(alloc)?;
        text.push(' ')?;
        text.push_str(word.as_str())?;
    }
    Ok(text)
}

/// A line of a key and numbers, with its line feed, at the end of a text.
pub fn push_line(
    alloc: Global,
    text: &mut String,
    key: &str,
    numbers: &[i128],
) -> Result<(), AllocError>
    ensures text { OnOk result (string_bytes text.new ≡ string_bytes text.old ++ text_of (line_of key.now numbers.now ∷ [])) }
    ensures word { OnOk result (All (FitsSigned w128) numbers.now) }
{
    let line = line_text(alloc, key, numbers)?;
    text.push_str(line.as_str())?;
    text.push('\n')
}
