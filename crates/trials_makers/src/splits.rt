// `split` of the first worked design, also as one of version 3, whose cells have controllers of the accelerated machine: the two cells, what is refused, and calls that fail. The texts are those of the model
// in exact fractions.
use crate::makers::Makers;
use std::alloc::{AllocError, Global};
use std::test::Fail;
use trials_stores::{Fails, MemStore, NONE, ROOM, ends_with, held, leaves_both, part, store_of};
use trials_worked::{
    Changed, DESIGN, HIGH, LOW, LOW_REPORT, REPORT, SATELLITE, cells_text, changed_text,
};

// The store has the cuts in the place of the states.
const SPLIT: &str = "split d s p out r";

// The design.
const WHOLE: Changed = (DESIGN, &[]);

// The same for the accelerated machine.
const FAST: Changed = (DESIGN, &[("version = 1", "version = 3")]);

// With targets for which that machine needs more steps than it can have.
const LONG: Changed = (
    DESIGN,
    &[
        ("version = 1", "version = 3"),
        (
            "den = 1\nviolation = 16\ngap = 1\n",
            "den = 65536\nviolation = 1\ngap = 1048576\n",
        ),
    ],
);

// The policies of the two cells.
const POLICIES: &str = "1,0\n1,0\n8,-7\n8,-7\n";

// And where the first cell has none.
const SECOND: &str = "none\n8,-7\n8,-7\n";

// The controller of the state 0 alone of the accelerated machine: that of the plain machine takes one step, too.
const FAST_LOW: Changed = (
    LOW,
    &[
        ("mpc-controller 1", "mpc-controller 3"),
        ("words 6\n", "words 12\nexps 0 1 1\n"),
    ],
);

// And that of the state 1.
const FAST_HIGH: &str = "mpc-controller 3
size 1 1 1 3
bits 10 0 1 26
steps 3
clamp 32768
words 12
exps 0 1 1
lo 1
hi 1
P 512
T 0
W 256 -256 256
G 1024
G -1024
G 1024
E 0
E 0
E 1024
b 1024 1024 256
end
";

const FAST_LOW_REPORT: &str = "mpc-report 3
margin 16384 65536
cost 0
multiplier 1
step 1
steps 1
bits 5
width 13
words 12
violation 1 3833258311680 1099511627776
violation 2 4932769939456 1099511627776
violation 3 4932769939456 1099511627776
gap 534723428352 1099511627776
undercut 4932769939456 1099511627776
end
";

const FAST_HIGH_REPORT: &str = "mpc-report 3
margin 8192 65536
cost 1
multiplier 8
step 1
steps 3
bits 10
width 26
words 12
violation 1 5918827566422 1099511627776
violation 2 7873514904690 1099511627776
violation 3 7873514904690 1099511627776
gap 438124412928 1099511627776
undercut 62988119237520 1099511627776
end
";

// A design that is cut at 0, its policies, the cells and their reports.
struct CutBox {
    design: Changed<'static>,
    policies: &'static str,
    head: &'static str,
    cells: &'static [Changed<'static>],
    reports: &'static [&'static str],
}

static BOTH: CutBox = CutBox {
    design: WHOLE,
    policies: POLICIES,
    head: "mpc-cells 2\n",
    cells: &[(LOW, &[]), HIGH],
    reports: &[LOW_REPORT, REPORT],
};

static OTHERS: [CutBox; 3] = [
    // The second cell alone has a controller.
    CutBox {
        design: WHOLE,
        policies: SECOND,
        head: "mpc-cells 1\n",
        cells: &[HIGH],
        reports: &[REPORT],
    },
    CutBox {
        design: FAST,
        policies: POLICIES,
        head: "mpc-cells 2\n",
        cells: &[FAST_LOW, (FAST_HIGH, &[])],
        reports: &[FAST_LOW_REPORT, FAST_HIGH_REPORT],
    },
    CutBox {
        design: FAST,
        policies: SECOND,
        head: "mpc-cells 1\n",
        cells: &[(FAST_HIGH, &[])],
        reports: &[FAST_HIGH_REPORT],
    },
];

// Whether a run over a design, policies and cuts, in which a call fails, ends with this line, and leaves these texts.
fn splits(
    alloc: Global,
    design: Changed,
    policies: &str,
    cuts: &str,
    fails: &Fails,
    line: &str,
    texts: (&[u8], &[u8]),
) -> Result<bool, Fail> {
    let design = changed_text(alloc, design)?;
    let mut store = store_of(alloc, &design, policies, "", cuts)?;
    leaves_both::<Makers>(alloc, SPLIT, &mut store, fails, line, texts)
}

// Whether a run whose write of this number fails, and keeps so many bytes, ends with this line, and leaves so many bytes of the cells and of the reports.
fn leaves_parts(
    alloc: Global,
    cut: &CutBox,
    (write, keep): (usize, usize),
    line: &str,
    left: (usize, usize),
) -> Result<bool, Fail> {
    let cells = cells_text(alloc, cut.head, cut.cells)?;
    let reports = cut.reports.concat(alloc)?;
    let texts = (part(&cells, left.0), part(&reports, left.1));
    let fails = Fails {
        write,
        keep,
        ..NONE
    };
    splits(
        alloc,
        cut.design,
        cut.policies,
        "1,0\n",
        &fails,
        line,
        texts,
    )
}

// The same where no call fails.
fn is_made(alloc: Global, cut: &CutBox) -> Result<bool, Fail> {
    leaves_parts(alloc, cut, (9, 0), "", (ROOM, ROOM))
}

#[test]
fn made_cells(rt: HostRuntime) -> Result<(), Fail> {
    for cut in &OTHERS {
        assert!(rt; is_made(rt.alloc(), cut)?);
    }
    Ok(())
}

// Of the two cells the write that fails, how many bytes it keeps, the answer's line, and what stands then of the cells and of the reports; and where none fails.
static CUT: [((usize, usize), &str, (usize, usize)); 3] = [
    ((9, 0), "", (ROOM, ROOM)),
    ((1, 100), "error 4 write-fault 4\n", (100, 0)),
    ((2, 250), "error 4 write-fault 5\n", (ROOM, 250)),
];

#[test]
fn two_cells(rt: HostRuntime) -> Result<(), Fail> {
    for &(fails, line, left) in &CUT {
        assert!(rt; leaves_parts(rt.alloc(), &BOTH, fails, line, left)?);
    }
    Ok(())
}

// Designs, cuts and policies that are refused, and the answer's line; nothing is written.
static REFUSALS: [(Changed, &str, &str, &str); 11] = [
    (
        WHOLE,
        "1,0\n",
        "1,0\n1,0\n1,0\n1,0\n",
        "error 18 cell 2 no-margin 1 3 -3 4\n",
    ),
    (WHOLE, "1,1\n", "", "error 5 text 2 number 1 2\n"),
    (WHOLE, "64\n", "", "error 5 text 2 number 1 1\n"),
    (WHOLE, "1\n", "", "error 5 text 2 fields 1\n"),
    (WHOLE, "1,0\n0\n", "", "error 5 text 2 count 2\n"),
    (
        WHOLE,
        "1,0\n",
        "1,0\n1,0\n8,-7\n",
        "error 5 text 3 count 3\n",
    ),
    (
        WHOLE,
        "1,0\n",
        "1,0\n1,0\n8,x\n8,-7\n",
        "error 5 text 3 number 3 2\n",
    ),
    (WHOLE, "1,0\n", "none\nnone\n", "error 5 text 3 range 0\n"),
    (
        WHOLE,
        "1,0\n",
        "none\n1,0\n1,0\n",
        "error 18 cell 2 no-margin 1 3 -3 4\n",
    ),
    // A box of 5 times 13 cells is refused before the policies are read.
    (
        (SATELLITE, &[]),
        "4,-32,0,16,32\n12,-15,-14,-13,-12,-11,-10,-9,-8,-7,-6,-5,-4\n",
        "",
        "error 5 text 2 range 0\n",
    ),
    // The accelerated machine's own limit of steps refuses the second cell.
    (
        LONG,
        "1,0\n",
        "1,0\n1,0\n2048,-2047\n2048,-2047\n",
        "error 18 cell 2 too-many-steps 65535\n",
    ),
];

#[test]
fn refusals(rt: HostRuntime) -> Result<(), Fail> {
    for &(design, cuts, policies, line) in &REFUSALS {
        assert!(rt; splits(rt.alloc(), design, policies, cuts, &NONE, line, (b"", b""))?);
    }
    Ok(())
}

// The first worked design with a box of 64 states, over 64.
fn fine_design(alloc: Global) -> Result<String, AllocError> {
    DESIGN.replace(
        alloc,
        "grid = 0\nlo = [0]\nhi = [1]",
        "grid = 6\nlo = [0]\nhi = [63]",
    )
}

// Cuts between each two of these states.
fn all_cuts(alloc: Global) -> Result<String, AllocError> {
    let mut cuts = String::from_str(alloc, "63")?;
    for cut in 0..63 {
        cuts.push_str(&format!(in alloc; ",{cut}")?)?;
    }
    cuts.push('\n')?;
    Ok(cuts)
}

// Whether a cell of each state has a controller.
fn are_made(alloc: Global, store: &mut MemStore) -> Result<bool, Fail> {
    let made = ends_with::<Makers>(alloc, SPLIT, store, &NONE, "", "")?;
    let cells = held(alloc, store, "out")?;
    Ok(made && cells.starts_with(b"mpc-cells 64\nmpc-controller 1\n"))
}

fn makes_sixty_four(alloc: Global) -> Result<bool, Fail> {
    let design = fine_design(alloc)?;
    let cuts = all_cuts(alloc)?;
    let policies = "8,-7\n".repeat(alloc, 128)?;
    let mut store = store_of(alloc, &design, &policies, "", &cuts)?;
    are_made(alloc, &mut store)
}

#[test]
fn sixty_four_cells(rt: HostRuntime) -> Result<(), Fail> {
    assert!(rt; makes_sixty_four(rt.alloc())?);
    Ok(())
}
