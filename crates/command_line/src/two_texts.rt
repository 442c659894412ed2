// Two texts, written one after the other.
ghost use Rattle.std.specs.Prelude.{◌≡◌, ◌≢◌, ◌<◌, length, IfOk, IfErr};
ghost use Rattle.command_line.specs.Words.{word_of};
ghost use Rattle.command_line.specs.TwoTexts.{WritesTwo};

use crate::status::Status;
use io_edge::{Store, Words};

/// Two texts, as that of a controller and the report of its bounds.
#[derive(Drop)]
pub struct Texts {
    pub first: Vec<u8>,
    pub second: Vec<u8>,
}

/// Writes both texts, where they were made, each under the name that stands at its position among the arguments. It takes no memory.
pub fn write_texts<S: Store>(
    words: &Words,
    first: u32,
    second: u32,
    made: Result<Texts, Status>,
    store: &mut S,
) -> Status
    requires first { first < length words.now }
    requires second { second < length words.now }
    requires apart { word_of words.now second ≢ word_of words.now first }
    ensures unmade { IfErr made (λ s. (result ≡ s) × (store.new ≡ store.old)) }
    ensures written { IfOk made (λ t. WritesTwo S.Store words.now first second t.first.items t.second.items store.old store.new result) }
{
    match made {
        Ok(texts) => write_both(words, first, second, &texts, store),
        Err(status) => status,
    }
}

// Writes both texts.
fn write_both<S: Store>(
    words: &Words,
    first: u32,
    second: u32,
    texts: &Texts,
    store: &mut S,
) -> Status
    requires first { first < length words.now }
    requires second { second < length words.now }
    requires apart { word_of words.now second ≢ word_of words.now first }
    ensures { WritesTwo S.Store words.now first second texts.now.first.items texts.now.second.items store.old store.new result }
{
    if store
        .write_all(words.at(first as usize), &texts.first)
        .is_err()
    {
        return Status::WriteFault { file: first };
    }
    match store.write_all(words.at(second as usize), &texts.second) {
        Ok(()) => Status::Done,
        Err(_) => Status::WriteFault { file: second },
    }
}
