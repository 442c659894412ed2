// Stores in memory, and the texts that they hold.
use crate::mem_store::MemStore;
use io_edge::ReadRefusal;
use std::alloc::{AllocError, Global};
use std::test::Fail;
use trials_worked::{CONTROLLER, DESIGN, POLICY, STATES, changed_text};

/// The bytes that are read, written or printed in one run at most, with room for any text of the trials.
pub const ROOM: usize = 65536;

// Puts the four texts into a store, and the room for what is made.
fn fill(
    store: &mut MemStore,
    design: &str,
    policy: &str,
    controller: &str,
    states: &str,
) -> Result<(), AllocError> {
    store.hold("d", design.as_bytes())?;
    store.hold("p", policy.as_bytes())?;
    store.hold("c", controller.as_bytes())?;
    store.hold("s", states.as_bytes())?;
    store.reserve("out", ROOM)?;
    store.reserve("r", ROOM)?;
    store.reserve("r.json", ROOM)
}

/// A store with a design, a policy, a controller and states, and with room for a controller `out` and a report `r`, or `r.json`.
pub fn store_of(
    alloc: Global,
    design: &str,
    policy: &str,
    controller: &str,
    states: &str,
) -> Result<MemStore, AllocError> {
    let mut store = MemStore::empty(alloc);
    fill(&mut store, design, policy, controller, states)?;
    Ok(store)
}

/// The store of the first worked design, its policy, its controller and the states of its corners.
pub fn given(alloc: Global) -> Result<MemStore, AllocError> {
    store_of(alloc, DESIGN, POLICY, CONTROLLER, STATES)
}

/// What a name holds, and nothing where it holds nothing.
pub fn held(alloc: Global, store: &mut MemStore, name: &str) -> Result<Vec<u8>, ReadRefusal> {
    match store.read(alloc, name, ROOM) {
        Err(ReadRefusal::Failed) => Ok(Vec::new(alloc)),
        found => found,
    }
}

/// Whether the name holds these bytes.
pub fn holds(
    alloc: Global,
    store: &mut MemStore,
    name: &str,
    bytes: &[u8],
) -> Result<bool, AllocError> {
    match store.read(alloc, name, ROOM) {
        Ok(held) => Ok(held.as_slice() == bytes),
        Err(ReadRefusal::Memory) => Err(AllocError),
        Err(_) => Ok(false),
    }
}

/// Whether a name holds a text with these lines; where there are none, it holds no byte.
pub fn has_lines(
    alloc: Global,
    store: &mut MemStore,
    name: &str,
    lines: &str,
) -> Result<bool, ReadRefusal> {
    let bytes = held(alloc, store, name)?;
    match str::from_utf8(&bytes) {
        Ok(text) => Ok(if lines.is_empty() {
            text.is_empty()
        } else {
            text.contains(lines)
        }),
        Err(_) => Ok(false),
    }
}

/// A text with one part in place of another.
pub fn changed(alloc: Global, text: &str, old: &str, new: &str) -> Result<String, Fail> {
    changed_text(alloc, (text, &[(old, new)]))
}

/// The first worked design with a limit on both sides of the next state, and closer targets.
pub fn two_sided(alloc: Global) -> Result<String, Fail> {
    let limited = changed(
        alloc,
        DESIGN,
        "final = [[4, 1]]",
        "final = [[4, 1], [-4, 1]]",
    )?;
    changed(
        alloc,
        &limited,
        "den = 1\nviolation = 16\ngap = 1",
        "den = 10\nviolation = 1\ngap = 10",
    )
}

/// What a row of a table tells, which has a comma for each line feed but the last.
pub fn told_by(alloc: Global, row: &str) -> Result<String, AllocError> {
    let mut told = row.replace(alloc, ",", "\n")?;
    told.push('\n')?;
    Ok(told)
}

/// The first bytes of a text, so many where it has them.
pub fn part(text: &str, count: usize) -> &[u8] {
    &text.as_bytes()[..count.min(text.len())]
}
