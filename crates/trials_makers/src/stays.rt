// `stay`, and `lean` with faces, on a design of one state whose next state has a limit from both sides. The expected numbers are those of a model in exact fractions.
use crate::makers::Makers;
use std::alloc::Global;
use std::test::Fail;
use trials_stores::{Fails, NONE, changed, ends_with, has_lines, store_of, two_sided};
use trials_worked::POLICY;

// The store has the faces in the place of a controller's text and the disturbances in that of the states.
const STAY: &str = "stay d p out r c";

const STAY_UNDER: &str = "stay d p out r c s";

const LEAN: &str = "lean d p q out r c";

const LEAN_UNDER: &str = "lean d p q out r c s";

const REFERENCE: &str = "1,0\n2,-1\n";

// Faces that hold: the next state is at most 1/4 above the box's upper face less its error, and at least 1/4 below its lower one.
const FACES: &str = "4,0,0,1,0\n4,0,0,0,1\n";

// What the numbers of a lean report are that rest on no gains.
const MADE: &str = "excess 18432 65536\nmultiplier 2\nstep 1\nsteps 86\nbits 14\n";

// The same of the accelerated machine, whose steps are fewer.
const MADE_FAST: &str = "excess 18432 65536\nmultiplier 2\nstep 1\nsteps 18\nbits 14\n";

// The arguments; the reference, the faces and the disturbances; the answer's line; and lines of the report: nothing is written where there are none.
type Run = (
    &'static str,
    (&'static str, &'static str, &'static str),
    &'static str,
    &'static str,
);

// Whether a run over these files, in which a call fails, ends with its line, and leaves its lines in the report.
fn is_run_of(
    alloc: Global,
    design: &str,
    &(arguments, texts, line, lines): &Run,
    fails: &Fails,
) -> Result<bool, Fail> {
    let mut store = store_of(alloc, design, POLICY, texts.1, texts.2)?;
    store.hold("q", texts.0.as_bytes())?;
    Ok(
        ends_with::<Makers>(alloc, arguments, &mut store, fails, line, "")?
            && has_lines(alloc, &mut store, "r", lines)?,
    )
}

// The same over the design of a version.
fn is_run(alloc: Global, version: &str, run: &Run, fails: &Fails) -> Result<bool, Fail> {
    let design = changed(alloc, &two_sided(alloc)?, "version = 1", version)?;
    is_run_of(alloc, &design, run, fails)
}

static RUNS: [Run; 29] = [
    // of `stay`:
    // faces that hold, and the printed violation
    (
        STAY,
        ("", FACES, ""),
        "",
        "violation 77438459892 1099511627776\n",
    ),
    // faces that don't, and texts that are none
    (
        STAY,
        ("", "4,0,0,1,0\n4,0,1,0,0\n", ""),
        "error 17 no-stay 2 -1\n",
        "",
    ),
    (
        STAY,
        ("", "3,0,0,1,0\n4,0,0,0,1\n", ""),
        "error 16 unequal 1 1 4 3\n",
        "",
    ),
    (
        STAY,
        ("", "4,0,0,1,0\n3,0,0,0,1\n", ""),
        "error 16 unequal 2 1 -4 -3\n",
        "",
    ),
    (
        STAY,
        ("", "4,0,1,0,0\n3,0,0,0,1\n", ""),
        "error 16 unequal 1 1 -4 4\n",
        "",
    ),
    (STAY, ("", "", ""), "error 5 text 5 count 0\n", ""),
    (
        STAY,
        ("", "0,0,0,1,0\n", ""),
        "error 5 text 5 number 1 1\n",
        "",
    ),
    (STAY, ("", "4,0,0,1\n", ""), "error 5 text 5 fields 1\n", ""),
    // disturbances that the faces leave room for, and others
    (
        STAY_UNDER,
        ("", FACES, "0\n1\n"),
        "",
        "violation 77438459892 1099511627776\n",
    ),
    (
        STAY_UNDER,
        ("", FACES, "-1\n0\n"),
        "error 17 no-stay 2 -1\n",
        "",
    ),
    (
        STAY_UNDER,
        ("", FACES, "0\n2\n"),
        "error 17 no-stay 1 2\n",
        "",
    ),
    (
        STAY_UNDER,
        ("", FACES, "0\n-1\n"),
        "error 5 text 6 number 2 1\n",
        "",
    ),
    (
        STAY_UNDER,
        ("", FACES, "0\n"),
        "error 5 text 6 count 1\n",
        "",
    ),
    (
        STAY_UNDER,
        ("", FACES, "0\n1\n2147483648\n"),
        "error 5 text 6 number 3 1\n",
        "",
    ),
    (
        STAY_UNDER,
        ("", FACES, "0,0\n1\n"),
        "error 5 text 6 fields 1\n",
        "",
    ),
    // of `lean`:
    // faces that hold
    (LEAN, (REFERENCE, FACES, ""), "", MADE),
    // faces that don't, and texts that are none
    (
        LEAN,
        (REFERENCE, "4,0,0,1,0\n4,0,1,0,0\n", ""),
        "error 17 no-stay 2 -1\n",
        "",
    ),
    (
        LEAN,
        (REFERENCE, "3,0,0,1,0\n4,0,0,0,1\n", ""),
        "error 16 unequal 1 1 4 3\n",
        "",
    ),
    (LEAN, (REFERENCE, "", ""), "error 5 text 6 count 0\n", ""),
    (
        LEAN,
        (REFERENCE, "4,0,0,1\n", ""),
        "error 5 text 6 fields 1\n",
        "",
    ),
    // disturbances that the faces leave room for, and others
    (LEAN_UNDER, (REFERENCE, FACES, "0\n1\n"), "", MADE),
    (
        LEAN_UNDER,
        (REFERENCE, FACES, "-1\n0\n"),
        "error 17 no-stay 2 -1\n",
        "",
    ),
    (
        LEAN_UNDER,
        (REFERENCE, FACES, "0\n2\n"),
        "error 17 no-stay 1 2\n",
        "",
    ),
    (
        LEAN_UNDER,
        (REFERENCE, FACES, "0\n-1\n"),
        "error 5 text 7 number 2 1\n",
        "",
    ),
    (
        LEAN_UNDER,
        (REFERENCE, FACES, "0\n"),
        "error 5 text 7 count 1\n",
        "",
    ),
    // a missing file
    (
        "lean d p q out r no",
        (REFERENCE, FACES, ""),
        "error 3 read-fault 6\n",
        "",
    ),
    // references that show too much, before faces that don't hold; the faces' text before what it is tested for
    (
        LEAN,
        ("1,0\n1,-999999999999999\n", "4,0,0,1,0\n4,0,1,0,0\n", ""),
        "error 10 too-wide excess\n",
        "",
    ),
    (LEAN, ("1,0\n", "", ""), "error 5 text 3 count 1\n", ""),
    (
        LEAN,
        ("1,0\n1,-999999999999999\n", "", ""),
        "error 5 text 6 count 0\n",
        "",
    ),
];

#[test]
fn runs(rt: HostRuntime) -> Result<(), Fail> {
    for run in &RUNS {
        assert!(rt; is_run(rt.alloc(), "version = 1", run, &NONE)?);
    }
    Ok(())
}

// The accelerated machine: disturbances that the faces leave room for, and others; and for `lean` also faces that hold and faces that don't.
static FAST_RUNS: [Run; 6] = [
    (
        STAY_UNDER,
        ("", FACES, "0\n1\n"),
        "",
        "multiplier 8\nstep 1\nsteps 50\nbits 12\nwidth 31\nwords 15\nviolation 1 75659718684 1099511627776\n",
    ),
    (
        STAY_UNDER,
        ("", FACES, "0\n2\n"),
        "error 17 no-stay 1 2\n",
        "",
    ),
    (LEAN, (REFERENCE, FACES, ""), "", MADE_FAST),
    (
        LEAN,
        (REFERENCE, "4,0,0,1,0\n4,0,1,0,0\n", ""),
        "error 17 no-stay 2 -1\n",
        "",
    ),
    (LEAN_UNDER, (REFERENCE, FACES, "0\n1\n"), "", MADE_FAST),
    (
        LEAN_UNDER,
        (REFERENCE, FACES, "0\n2\n"),
        "error 17 no-stay 1 2\n",
        "",
    ),
];

#[test]
fn fast_runs(rt: HostRuntime) -> Result<(), Fail> {
    for run in &FAST_RUNS {
        assert!(rt; is_run(rt.alloc(), "version = 3", run, &NONE)?);
    }
    Ok(())
}

// Whether a run under disturbances, whose read and write of these numbers fail, ends with this line, and writes no report.
fn is_cut(
    alloc: Global,
    arguments: &'static str,
    read: usize,
    write: usize,
    line: &'static str,
) -> Result<bool, Fail> {
    let fails = Fails {
        read,
        write,
        ..NONE
    };
    is_run(
        alloc,
        "version = 1",
        &(arguments, (REFERENCE, FACES, "0\n1\n"), line, ""),
        &fails,
    )
}

// Reads and writes that fail, each in turn: the arguments, the read and the write that fails, and the answer's line.
static FAULTS: [(&str, usize, usize, &str); 13] = [
    (STAY_UNDER, 1, 9, "error 3 read-fault 1\n"),
    (STAY_UNDER, 2, 9, "error 3 read-fault 2\n"),
    (STAY_UNDER, 3, 9, "error 3 read-fault 5\n"),
    (STAY_UNDER, 4, 9, "error 3 read-fault 6\n"),
    (STAY_UNDER, 9, 1, "error 4 write-fault 3\n"),
    (STAY_UNDER, 9, 2, "error 4 write-fault 4\n"),
    (LEAN_UNDER, 1, 9, "error 3 read-fault 1\n"),
    (LEAN_UNDER, 2, 9, "error 3 read-fault 2\n"),
    (LEAN_UNDER, 3, 9, "error 3 read-fault 3\n"),
    (LEAN_UNDER, 4, 9, "error 3 read-fault 6\n"),
    (LEAN_UNDER, 5, 9, "error 3 read-fault 7\n"),
    (LEAN_UNDER, 9, 1, "error 4 write-fault 4\n"),
    (LEAN_UNDER, 9, 2, "error 4 write-fault 5\n"),
];

#[test]
fn faults(rt: HostRuntime) -> Result<(), Fail> {
    for &(arguments, read, write, line) in &FAULTS {
        assert!(rt; is_cut(rt.alloc(), arguments, read, write, line)?);
    }
    Ok(())
}
