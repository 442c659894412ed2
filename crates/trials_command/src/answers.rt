// What the program answers over one store, and that the right answers come after all of these. The plans and the boxes are those of the model in exact fractions,
// the lines of `list` and `play` those of the model of `checks/fuzz/program.py`.
use crate::whole::Whole;
use std::alloc::{AllocError, Global};
use std::test::Fail;
use trials_stores::{MemStore, generates, given, holds, solves, tells, tells_rows};
use trials_worked::{
    CONTROLLER, CONTROLLER_OF_TWO, DEMO_OF_SEVEN, DESIGN, FAST_CONTROLLER, LEAN_CONTROLLER,
    LISTING, PLANS,
};

// u = -x/2 between -1 and 1, from a box of 40 over 2^4 to both sides: no multiplier moves from -31 to 32.
const HALF: &str = "mpc-controller 1
size 1 1 1 2
bits 11 4 1 40
steps 9
clamp 65536
words 5
lo -40
hi 40
P 1024
T 0
W 512 -512
G 2048
G -2048
E 0
E 0
b 2048 2048
end
";

// Further files, as they are.
static FILES: [(&str, &str); 11] = [
    ("two", CONTROLLER_OF_TWO),
    ("pairs", "1,-2\n3,4"),
    ("fast", FAST_CONTROLLER),
    ("turned", "1\n0\n"),
    ("outside", "1\n2"),
    ("shifts", "1\n0\n"),
    ("half", HALF),
    ("rest", "5,-31,32\n3,-31,32\n1,-2,2\n"),
    ("moving", "5,-32,32\n0,-32,32\n1,-2,2\n"),
    ("borne", "6,-31,32\n0,-31,32\n1,-4,4\n"),
    ("ends", "-1\n1\n"),
];

// Files of a worked text, with this part in that one's place.
static CHANGED: [(&str, &str, &str, &str); 19] = [
    ("third", DESIGN, "version = 1", "version = 3"),
    ("halves", DESIGN, "grid = 0", "grid = 1"),
    ("triples", DESIGN, "a = [[1]]", "a = [[3]]"),
    (
        "wide",
        DESIGN,
        "grid = 0\nlo = [0]\nhi = [1]",
        "grid = 4\nlo = [-40]\nhi = [40]",
    ),
    (
        "inputs",
        DESIGN,
        "inputs = 1\nstages = 1\n[plant]\nden = 1\na = [[1]]\nb = [[1]]\n[cost]\nden = 1\nrow_den = 1\ninput = [1]\nstage = [[1, 0, 1]]\nfinal = []\n[limits]\nden = 4\nstage = [[0, 4, 4], [0, -4, 4]]",
        "inputs = 2\nstages = 1\n[plant]\nden = 1\na = [[1]]\nb = [[1, 1]]\n[cost]\nden = 1\nrow_den = 1\ninput = [1, 1]\nstage = [[1, 0, 1]]\nfinal = []\n[limits]\nden = 4\nstage = [[0, 4, 4, 4], [0, -4, 4, 4]]",
    ),
    ("cut", CONTROLLER, "end\n", ""),
    ("unsafe", CONTROLLER, "W 256", "W 512"),
    (
        "once",
        LEAN_CONTROLLER,
        "1\nsize 1 1 1 3\nbits 6 0 1 16\nsteps 1\nclamp 256\nwords 6\n",
        "3\nsize 1 1 1 3\nbits 6 0 1 16\nsteps 1\nclamp 256\nwords 12\nexps 0 1 1\n",
    ),
    ("endless", FAST_CONTROLLER, "steps 3", "steps 65535"),
    ("few", FAST_CONTROLLER, "words 12", "words 6"),
    ("narrow", FAST_CONTROLLER, "1 22", "1 21"),
    ("broad", FAST_CONTROLLER, "1 22", "1 65"),
    (
        "fast_half",
        HALF,
        "1\nsize 1 1 1 2\nbits 11 4 1 40\nsteps 9\nclamp 65536\nwords 5\n",
        "3\nsize 1 1 1 2\nbits 11 4 1 40\nsteps 9\nclamp 65536\nwords 9\nexps 1 0\n",
    ),
    ("l", LISTING, "mpc-listing 1", "mpc-listing 1"),
    ("l-cut", LISTING, "end\n", ""),
    ("l-narrow", LISTING, "word 26", "word 21"),
    ("l-narrower", LISTING, "word 26", "word 10"),
    ("l-long", LISTING, "addm 4", "addm 6"),
    ("l-wide", LISTING, "hi 1", "hi 3"),
];

// Arguments, and what they tell, with a comma for each line feed but the last.
const ANSWERS: &str = "solve two pairs: 1792 0 329,1792 -7 -462
solve fast s: 4608 0,4608 -2480
solve broad s: 4608 0,4608 -2480
solve once turned: 128 -64,128 0
solve endless s: error 11 controller 1 line 4
solve few s: error 11 controller 1 line 6
solve narrow s: error 11 controller 1 unsafe
solve fast outside: error 12 outside-box 2 0 1
loop d c turned 2: 1 1 1 4096 -2224,1 2 0 4096 0,2 1 0 4096 0,2 2 0 4096 0
loop d c s 2 shifts: 1 1 0 4096 0,1 2 1 4096 -2224,2 1 1 4096 -2224,2 2 1 4096 -2224
loop third fast turned 2: 1 1 1 4608 -2480,1 2 0 4608 0,2 1 0 4608 0,2 2 0 4608 0
loop d fast s 1: 1 1 0 4608 0,2 1 1 4608 -2480
loop d cut s 1: error 11 controller 2 line 19
loop d unsafe s 1: error 11 controller 2 unsafe
loop d endless s 1: error 11 controller 2 line 4
loop d c outside 1: error 12 outside-box 2 1 1,1 1 1 4096 -2224
loop triples fast turned 2: error 12 outside-box 1 2 1,1 1 1 4608 -2480
loop triples c s 2: error 12 outside-box 2 2 1,1 1 0 4096 0,1 2 0 4096 0,2 1 1 4096 -2224
loop halves c s 1: error 14 mismatch grid 1 0
loop inputs c s 1: error 14 mismatch inputs 2 1
settle wide half rest: turn 5,state 1 -2 2,cost 1 3 -4 4
settle wide half borne ends: turn 6,state 1 -4 4
settle wide fast_half rest: turn 5,state 1 -2 2,cost 1 3 -4 4
settle wide fast_half borne ends: turn 6,state 1 -4 4
settle wide fast_half moving: error 23 moves 1 4194304 4194304
list gone out: error 3 read-fault 1
play gone s: error 3 read-fault 1
play l gone: error 3 read-fault 2
list c gone: error 4 write-fault 2
play l d: error 5 text 2 number 1 1
list l out: error 11 controller 1 line 1
play l outside: error 12 outside-box 2 0 1
play l-narrow outside: error 12 outside-box 2 0 1
play c s: error 20 listing 1 1
play l-cut s: error 20 listing 1 48
play l-long s: error 20 listing 1 46
play l-narrow s: error 21 trap 2 1 4,4096 0
play l-narrower s: error 21 trap 1 1 13
play l-wide outside: 4096 -2224,4096 -4582
";

// Holds a changed text.
fn hold_changed(
    alloc: Global,
    store: &mut MemStore,
    file: &(&str, &str, &str, &str),
) -> Result<(), AllocError> {
    let changed = file.1.replace(alloc, file.2, file.3)?;
    store.hold(file.0, changed.as_bytes())
}

// Holds all these files.
fn hold_all(alloc: Global, store: &mut MemStore) -> Result<(), AllocError> {
    for (name, text) in &FILES {
        store.hold(name, text.as_bytes())?;
    }
    for file in &CHANGED {
        hold_changed(alloc, store, file)?;
    }
    Ok(())
}

// Whether `list` writes the listing, and `play` prints of it what `solve` prints of the controller.
fn is_listed(alloc: Global, store: &mut MemStore) -> Result<bool, AllocError> {
    Ok(
        tells::<Whole>(alloc, "list c out", store, "")?
            && holds(alloc, store, "out", LISTING.as_bytes())?
            && tells::<Whole>(alloc, "play out s", store, PLANS)?,
    )
}

// Whether the commands answer as over the store that is given alone.
fn are_right(alloc: Global, store: &mut MemStore) -> Result<bool, AllocError> {
    Ok(
        is_listed(alloc, store)?
            && solves::<Whole>(alloc, store)?
            && generates::<Whole>(alloc, store)?
            && tells::<Whole>(alloc, "demo 7", store, DEMO_OF_SEVEN)?,
    )
}

// Whether each row's arguments tell what they are to, and the commands answer right after all of them.
fn are_all_right(alloc: Global) -> Result<bool, AllocError> {
    let mut store = given(alloc)?;
    hold_all(alloc, &mut store)?;
    Ok(tells_rows::<Whole>(alloc, &mut store, ANSWERS)? && are_right(alloc, &mut store)?)
}

#[test]
fn answers(rt: HostRuntime) -> Result<(), Fail> {
    assert!(rt; are_all_right(rt.alloc())?);
    Ok(())
}
