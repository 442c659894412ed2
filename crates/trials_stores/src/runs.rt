// Runs over stores and outputs in memory.
use crate::mem_sink::MemSink;
use crate::mem_store::MemStore;
use crate::stores::{ROOM, held, holds, told_by};
use command_line::{Status, status_line};
use io_edge::Words;
use std::alloc::{AllocError, Global};
use std::test::Fail;
use trials_worked::{CONTROLLER, PLANS, REPORT};

/// What answers to arguments: the whole program, or commands of it.
pub trait Program {
    /// What it answers to arguments.
    fn answer(alloc: Global, words: &Words, store: &mut MemStore, out: &mut MemSink) -> Status;
}

/// `generate` over the store that is given.
pub const GENERATE: &str = "generate d p out r";

// `solve` over the store that is given.
const SOLVE: &str = "solve c s";

/// The call that is to fail, counted from 1; 9 for none.
#[derive(Drop)]
pub struct Fails {
    pub read: usize,
    pub write: usize,
    pub keep: usize,
    pub put: usize,
}

/// No call fails.
pub const NONE: Fails = Fails {
    read: 9,
    write: 9,
    keep: 0,
    put: 9,
};

// Arguments, with one space between two.
fn words_of(alloc: Global, arguments: &str) -> Result<Words, AllocError> {
    let mut words = Words::empty(alloc);
    for word in arguments.split(' ') {
        words.push(word)?;
    }
    Ok(words)
}

// What a program answers to arguments, with one space between two; an error where it is out of memory, so that no trial takes that for a wrong answer.
fn answer_of<P: Program>(
    alloc: Global,
    arguments: &str,
    store: &mut MemStore,
    out: &mut MemSink,
) -> Result<Status, AllocError> {
    let words = words_of(alloc, arguments)?;
    match P::answer(alloc, &words, store, out) {
        Status::Memory => Err(AllocError),
        status => Ok(status),
    }
}

// Whether a run ends with this line of its answer, and has then printed this.
fn leaves<P: Program>(
    alloc: Global,
    arguments: &str,
    store: &mut MemStore,
    out: &mut MemSink,
    line: &str,
    printed: &str,
) -> Result<bool, AllocError> {
    let status = answer_of::<P>(alloc, arguments, store, out)?;
    let told = status_line(alloc, &status)?;
    Ok(told.as_slice() == line.as_bytes() && out.seen() == printed.as_bytes())
}

/// Whether a run over a store, in which a call fails, ends with this line of its answer, and has then printed this.
pub fn ends_with<P: Program>(
    alloc: Global,
    arguments: &str,
    store: &mut MemStore,
    fails: &Fails,
    line: &str,
    printed: &str,
) -> Result<bool, AllocError> {
    store.fail_read(fails.read)?;
    store.fail_write(fails.write, fails.keep)?;
    let mut out = MemSink::with(alloc, ROOM, &[fails.put])?;
    leaves::<P>(alloc, arguments, store, &mut out, line, printed)
}

/// Whether a run over a store, in which a call fails, ends with this line of its answer, prints nothing, and leaves these bytes under the names `out` and `r`: none, where a name holds nothing.
pub fn leaves_both<P: Program>(
    alloc: Global,
    arguments: &str,
    store: &mut MemStore,
    fails: &Fails,
    line: &str,
    texts: (&[u8], &[u8]),
) -> Result<bool, Fail> {
    Ok(
        ends_with::<P>(alloc, arguments, store, fails, line, "")?
            && held(alloc, store, "out")?.as_slice() == texts.0
            && held(alloc, store, "r")?.as_slice() == texts.1,
    )
}

// Whether a run tells this.
fn is_told<P: Program>(
    alloc: Global,
    arguments: &str,
    store: &mut MemStore,
    out: &mut MemSink,
    text: &str,
) -> Result<bool, AllocError> {
    let status = answer_of::<P>(alloc, arguments, store, out)?;
    let told = status_line(alloc, &status)?;
    Ok(text.as_bytes().strip_prefix(told.as_slice()) == Some(out.seen()))
}

/// Whether a run tells this: the line of its answer, where it is refused, and then what it prints.
pub fn tells<P: Program>(
    alloc: Global,
    arguments: &str,
    store: &mut MemStore,
    text: &str,
) -> Result<bool, AllocError> {
    let mut out = MemSink::with(alloc, ROOM, &[])?;
    is_told::<P>(alloc, arguments, store, &mut out, text)
}

// Whether a row's arguments tell what stands behind `: ` in it, with a comma for each line feed but the last.
fn tells_row<P: Program>(
    alloc: Global,
    store: &mut MemStore,
    row: &str,
) -> Result<bool, AllocError> {
    let Some((arguments, answer)) = row.split_once(": ") else {
        return Ok(false);
    };
    let told = told_by(alloc, answer)?;
    tells::<P>(alloc, arguments, store, told.as_str())
}

/// Whether each line of a text is such a row, whose arguments tell that, one after the other over the same store.
pub fn tells_rows<P: Program>(
    alloc: Global,
    store: &mut MemStore,
    rows: &str,
) -> Result<bool, AllocError> {
    for row in rows.lines() {
        if !tells_row::<P>(alloc, store, row)? {
            return Ok(false);
        }
    }
    Ok(true)
}

/// Whether `generate` makes the two texts of the first worked design.
pub fn generates<P: Program>(alloc: Global, store: &mut MemStore) -> Result<bool, AllocError> {
    Ok(
        tells::<P>(alloc, GENERATE, store, "")?
            && holds(alloc, store, "out", CONTROLLER.as_bytes())?
            && holds(alloc, store, "r", REPORT.as_bytes())?,
    )
}

/// Whether `solve` prints the plans of the corners.
pub fn solves<P: Program>(alloc: Global, store: &mut MemStore) -> Result<bool, AllocError> {
    tells::<P>(alloc, SOLVE, store, PLANS)
}
