// `c` of the first worked controller, and of one of the accelerated machine: the two files, what it refuses, and calls that fail. The texts are those of the worked program.
use crate::programs::{FAST_LINES, HEADER, LINES, text_of};
use crate::whole::Whole;
use std::alloc::Global;
use std::test::Fail;
use trials_stores::{
    Fails, MemStore, NONE, ROOM, given, held, leaves_both, part, tells, tells_rows,
};
use trials_worked::{CONTROLLER, FAST_CONTROLLER};

// Whether a run whose write of this number fails, and keeps so many bytes, ends with this line, and leaves so many bytes of the source and of the header.
fn compiles(
    alloc: Global,
    (write, keep): (usize, usize),
    line: &str,
    left: (usize, usize),
) -> Result<bool, Fail> {
    let source = text_of(alloc, &LINES)?;
    let header = text_of(alloc, &HEADER)?;
    let texts = (part(&source, left.0), part(&header, left.1));
    let mut store = given(alloc)?;
    let fails = Fails {
        write,
        keep,
        ..NONE
    };
    leaves_both::<Whole>(alloc, "c c first out r", &mut store, &fails, line, texts)
}

// The write that fails, how many bytes it keeps, the answer's line, and what stands then of both files; and where none fails.
static CUT: [((usize, usize), &str, (usize, usize)); 3] = [
    ((9, 0), "", (ROOM, ROOM)),
    ((1, 100), "error 4 write-fault 3\n", (100, 0)),
    ((2, 30), "error 4 write-fault 4\n", (ROOM, 30)),
];

#[test]
fn both_files(rt: HostRuntime) -> Result<(), Fail> {
    for &(fails, line, left) in &CUT {
        assert!(rt; compiles(rt.alloc(), fails, line, left)?);
    }
    Ok(())
}

// Arguments that are refused, and what they tell.
const REFUSALS: &str = "c c first out c: error 2 usage
c c first c r: error 2 usage
c c first out out: error 2 usage
c c 1st out r: error 2 usage
c c _first out r: error 2 usage
c c First out r: error 2 usage
c c fir-st out r: error 2 usage
c c abcdefghijklmnopqrstuvwxyz_12345 out r: error 2 usage
c c first out: error 2 usage
c gone first out r: error 3 read-fault 1
c s first out r: error 11 controller 1 line 1
";

// A store with a controller that says more bits than its sums need.
fn with_wide(alloc: Global) -> Result<MemStore, Fail> {
    let wide = CONTROLLER.replacen(alloc, "bits 10 0 1 26", "bits 10 0 1 65", 1)?;
    let mut store = given(alloc)?;
    store.hold("wide", wide.as_bytes())?;
    Ok(store)
}

// Whether each of these is refused and nothing is written, and then other names are none of another file.
fn are_refused(alloc: Global, store: &mut MemStore) -> Result<bool, Fail> {
    Ok(
        tells_rows::<Whole>(alloc, store, REFUSALS)?
            && leaves_both::<Whole>(
                alloc,
                "c wide first out r",
                store,
                &NONE,
                "error 22 too-wide-c 65\n",
                (b"", b""),
            )?
            && tells::<Whole>(alloc, "c c c out r", store, "")?
            && tells::<Whole>(
                alloc,
                "c c abcdefghijklmnopqrstuvwxyz_1234 out r",
                store,
                "",
            )?,
    )
}

#[test]
fn refusals(rt: HostRuntime) -> Result<(), Fail> {
    let mut store = with_wide(rt.alloc())?;
    assert!(rt; are_refused(rt.alloc(), &mut store)?);
    Ok(())
}

// Whether its source is the worked one.
fn is_fast_compiled(alloc: Global) -> Result<bool, Fail> {
    let source = text_of(alloc, &FAST_LINES)?;
    let mut store = given(alloc)?;
    store.hold("fast", FAST_CONTROLLER.as_bytes())?;
    Ok(
        tells::<Whole>(alloc, "c fast fast out r", &mut store, "")?
            && held(alloc, &mut store, "out")?.as_slice() == source.as_bytes(),
    )
}

#[test]
fn accelerated(rt: HostRuntime) -> Result<(), Fail> {
    assert!(rt; is_fast_compiled(rt.alloc())?);
    Ok(())
}
