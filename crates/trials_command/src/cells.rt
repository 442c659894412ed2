// What `serve` answers and prints. The lines of `c s` and `c beyond` are worked rows, and all are those of the model of `checks/fuzz/program.py`.
use crate::whole::Whole;
use std::alloc::{AllocError, Global};
use std::test::Fail;
use trials_stores::{Fails, MemStore, NONE, ends_with, tells_rows};
use trials_worked::{CONTROLLER, CONTROLLER_OF_TWO, Changed, HIGH, LOW, cells_text};

// The controller of the first worked design, and that of its state 0 alone.
const WHOLE: Changed = (CONTROLLER, &[]);

const LOWER: Changed = (LOW, &[]);

// That of its state 1 alone, of version 2 by exponents of its own.
const SECOND: Changed = (
    CONTROLLER,
    &[
        ("mpc-controller 1", "mpc-controller 2"),
        ("words 6\n", "words 6\nexps 1 1 0\n"),
        ("lo 0\n", "lo 1\n"),
    ],
);

// Those of its states 0 and 1 alone, of version 3.
const FAST_LOWER: Changed = (
    LOW,
    &[
        ("mpc-controller 1", "mpc-controller 3"),
        ("words 6\n", "words 12\nexps 0 1 1\n"),
    ],
);

const FAST_HIGHER: Changed = (
    CONTROLLER,
    &[
        ("mpc-controller 1", "mpc-controller 3"),
        ("steps 4\n", "steps 3\n"),
        ("words 6\n", "words 12\nexps 0 1 1\n"),
        ("lo 0\n", "lo 1\n"),
    ],
);

// One that says version 3 and has the words of another.
const FEW_WORDS: Changed = (
    CONTROLLER,
    &[
        ("mpc-controller 1", "mpc-controller 3"),
        ("lo 0\n", "lo 1\n"),
    ],
);

// A controller of the design's whole box, of which a sum has no room in its width.
const UNSAFE: Changed = (CONTROLLER, &[("W 256", "W 512")]);

// And such a one of version 3.
const FAST_WIDE: Changed = (
    CONTROLLER,
    &[
        ("mpc-controller 1", "mpc-controller 3"),
        ("words 6\n", "words 12\nexps 0 1 1\n"),
        ("W 256", "W 512"),
    ],
);

// The controller of two states, with a part of its box.
const LEFT: Changed = (CONTROLLER_OF_TWO, &[("hi 16 5", "hi -1 5")]);

// And with the other part.
const RIGHT: Changed = (CONTROLLER_OF_TWO, &[("lo -16 -3", "lo 0 -3")]);

// Texts of cells: a name, the first line, and the controllers. All cells of `over`, `turned` and `three` but the first hold a state that another holds.
static CELLS: [(&str, &str, &[Changed]); 15] = [
    ("c", "mpc-cells 2\n", &[LOWER, HIGH]),
    ("over", "mpc-cells 2\n", &[LOWER, WHOLE]),
    ("turned", "mpc-cells 2\n", &[WHOLE, LOWER]),
    ("mixed", "mpc-cells 2\n", &[LOWER, SECOND]),
    ("three", "mpc-cells 3\n", &[LOWER, HIGH, WHOLE]),
    ("unsafe", "mpc-cells 3\n", &[LOWER, HIGH, UNSAFE]),
    ("unlike", "mpc-cells 2\n", &[LOWER, LEFT]),
    ("cut", "mpc-cells 3\n", &[LOWER, HIGH]),
    ("more", "mpc-cells 1\n", &[LOWER, HIGH]),
    ("pairs", "mpc-cells 2\n", &[LEFT, RIGHT]),
    ("fast", "mpc-cells 2\n", &[FAST_LOWER, FAST_HIGHER]),
    ("fast-first", "mpc-cells 2\n", &[FAST_LOWER, HIGH]),
    ("fast-last", "mpc-cells 2\n", &[LOWER, FAST_HIGHER]),
    ("words", "mpc-cells 2\n", &[LOWER, FEW_WORDS]),
    ("wide", "mpc-cells 2\n", &[LOWER, FAST_WIDE]),
];

// Files of states.
static STATES: [(&str, &str); 8] = [
    ("s", "0\n1\n"),
    ("beyond", "2\n"),
    ("last", "1\n0\n2\n"),
    ("none", ""),
    ("p", "1,-2\n-3,4\n0,0\n"),
    ("second", "0,0\n-5,7\n"),
    ("first", "5,7\n"),
    ("single", "1,-2\n3\n"),
];

// Arguments, and what they tell, with a comma for each line feed but the last.
const ANSWERS: &str = "serve c s: 32 0,4096 -2224
serve c beyond: error 12 outside-box 1 0 1
serve c last: error 12 outside-box 3 0 1
serve over s: 32 0,4096 -2224
serve turned s: 4096 0,4096 -2224
serve mixed s: 32 0,4096 -2372
serve three last: error 12 outside-box 3 0 1
serve unsafe s: error 11 controller 1 unsafe
serve unlike s: error 11 controller 1 line 22
serve cut s: error 11 controller 1 line 40
serve more s: error 11 controller 1 line 21
serve fast s: 64 0,9216 -4960
serve fast beyond: error 12 outside-box 1 0 1
serve fast-first s: 64 0,4096 -2224
serve fast-last s: 32 0,9216 -4960
serve words s: error 11 controller 1 line 26
serve wide s: error 11 controller 1 unsafe
serve pairs p: 1792 0 329,1792 -42 -462,1792 -8 63
serve pairs second: error 12 outside-box 2 0 2
serve pairs first: error 12 outside-box 1 0 1
serve pairs single: error 5 text 2 fields 2
serve large s: error 11 controller 1 line 1
serve c large: error 13 long 2
serve gone s: error 3 read-fault 1
serve c gone: error 3 read-fault 2
serve s s: error 11 controller 1 line 1
serve c p: error 5 text 2 fields 1
";

// Holds such a text.
fn hold_cells(
    alloc: Global,
    store: &mut MemStore,
    &(name, head, cells): &(&str, &str, &[Changed]),
) -> Result<(), Fail> {
    let text = cells_text(alloc, head, cells)?;
    Ok(store.hold(name, text.as_bytes())?)
}

// Holds a file of one byte more than one of states may have. One of cells may have more.
fn hold_large(alloc: Global, store: &mut MemStore) -> Result<(), AllocError> {
    let large = vec![in alloc; b'#'; 4194305]?;
    store.hold("large", &large)
}

// A store with all these files.
fn given(alloc: Global) -> Result<MemStore, Fail> {
    let mut store = MemStore::empty(alloc);
    for file in &CELLS {
        hold_cells(alloc, &mut store, file)?;
    }
    for file in &STATES {
        store.hold(file.0, file.1.as_bytes())?;
    }
    hold_large(alloc, &mut store)?;
    Ok(store)
}

// Whether each row's arguments tell what they are to.
fn are_all_right(alloc: Global) -> Result<bool, Fail> {
    let mut store = given(alloc)?;
    Ok(tells_rows::<Whole>(alloc, &mut store, ANSWERS)?)
}

#[test]
fn answers(rt: HostRuntime) -> Result<(), Fail> {
    assert!(rt; are_all_right(rt.alloc())?);
    Ok(())
}

// Whether `serve`, whose print of that number fails, ends with this line, and has then printed this.
fn is_cut(
    alloc: Global,
    arguments: &str,
    put: usize,
    line: &str,
    printed: &str,
) -> Result<bool, Fail> {
    let mut store = given(alloc)?;
    let fails = Fails { put, ..NONE };
    Ok(ends_with::<Whole>(alloc, arguments, &mut store, &fails, line, printed)?)
}

// The arguments, the print that fails, the answer's line, and what is printed before: without states nothing is.
static CUT: [(&str, usize, &str, &str); 2] = [
    ("serve c none", 1, "", ""),
    ("serve c s", 2, "error 4 write-fault 0\n", "32 0\n"),
];

#[test]
fn prints_that_fail(rt: HostRuntime) -> Result<(), Fail> {
    for &(arguments, put, line, printed) in &CUT {
        assert!(rt; is_cut(rt.alloc(), arguments, put, line, printed)?);
    }
    Ok(())
}
