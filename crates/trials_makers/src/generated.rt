// `generate`: what it refuses, what it writes, and calls that fail. The numbers of reports are those of the model in exact fractions and enclosures.
use crate::makers::Makers;
use std::alloc::{AllocError, Global};
use std::test::Fail;
use trials_stores::{
    Fails, GENERATE, MemStore, NONE, changed, ends_with, has_lines, holds, leaves_both, part,
    store_of,
};
use trials_worked::{CONTROLLER, DESIGN, POLICY, REPORT};

// A run that is refused: what is changed in the design, the policy and the answer's line.
#[derive(Drop)]
struct Refused {
    design: (&'static str, &'static str),
    policy: &'static str,
    line: &'static str,
}

// A run that writes: what is changed in the design, the policy, and lines of what is written.
#[derive(Drop)]
struct Made {
    design: (&'static str, &'static str),
    policy: &'static str,
    controller: &'static str,
    report: &'static str,
}

// Whether a run over a design and a policy ends with this line, and leaves these texts.
fn generates(
    alloc: Global,
    design: &str,
    policy: &str,
    line: &str,
    texts: (&str, &str),
) -> Result<bool, Fail> {
    let mut store = store_of(alloc, design, policy, "", "")?;
    let texts = (texts.0.as_bytes(), texts.1.as_bytes());
    leaves_both::<Makers>(alloc, GENERATE, &mut store, &NONE, line, texts)
}

// Whether a run is refused, and nothing is written.
fn is_refused(alloc: Global, case: &Refused) -> Result<bool, Fail> {
    let design = changed(alloc, DESIGN, case.design.0, case.design.1)?;
    generates(alloc, &design, case.policy, case.line, ("", ""))
}

// Whether a run writes texts with these lines.
fn leaves_lines(
    alloc: Global,
    store: &mut MemStore,
    controller: &str,
    report: &str,
) -> Result<bool, Fail> {
    Ok(
        ends_with::<Makers>(alloc, GENERATE, store, &NONE, "", "")?
            && has_lines(alloc, store, "out", controller)?
            && has_lines(alloc, store, "r", report)?,
    )
}

// Whether a run over a design and a policy writes texts with these lines.
fn writes(
    alloc: Global,
    design: &str,
    policy: &str,
    controller: &str,
    report: &str,
) -> Result<bool, Fail> {
    let mut store = store_of(alloc, design, policy, "", "")?;
    leaves_lines(alloc, &mut store, controller, report)
}

// The same, where the design is changed.
fn is_made(alloc: Global, case: &Made) -> Result<bool, Fail> {
    let design = changed(alloc, DESIGN, case.design.0, case.design.1)?;
    writes(
        alloc,
        design.as_str(),
        case.policy,
        case.controller,
        case.report,
    )
}

// The first worked design with version 3 and targets that take many steps.
const LONG_RUN: &str =
    "version = 3\nstates = 1\ninputs = 1\nstages = 1\n[plant]\nden = 1\na = [[1]]\nb = [[1]]\n[cost]\nden = 1\nrow_den = 1\ninput = [1]\nstage = [[1, 0, 1]]\nfinal = []\n[limits]\nden = 4\nstage = [[0, 4, 4], [0, -4, 4]]\nfinal = [[4, 1]]\n[box]\ngrid = 0\nlo = [0]\nhi = [1]\n[targets]\nden = 65536\nviolation = 1\ngap = 1048576\n";

// Designs and policies with a fault, and designs that no controller is made of; nothing is written.
static REFUSALS: [Refused; 19] = [
    Refused {
        design: ("[limits]\nden = 4\n", "[limits]\n"),
        policy: "1,0\n8,-7\n",
        line: "error 5 text 1 key 13\n",
    },
    Refused {
        design: ("version = 1\n", "version = 1\nnote = 1\n"),
        policy: "1,0\n8,-7\n",
        line: "error 5 text 1 key 0\n",
    },
    Refused {
        design: ("version = 1", "x ="),
        policy: "1,0\n8,-7\n",
        line: "error 5 text 1 not-toml\n",
    },
    Refused {
        design: ("a = [[1]]", "a = [[1, 2]]"),
        policy: "1,0\n8,-7\n",
        line: "error 5 text 1 shape 6\n",
    },
    Refused {
        design: ("gap = 1\n", "gap = 1.0\n"),
        policy: "1,0\n8,-7\n",
        line: "error 5 text 1 shape 21\n",
    },
    Refused {
        design: ("input = [1]", "input = [0]"),
        policy: "1,0\n8,-7\n",
        line: "error 5 text 1 range 10\n",
    },
    Refused {
        design: ("lo = [0]", "lo = [2]"),
        policy: "1,0\n8,-7\n",
        line: "error 5 text 1 range 18\n",
    },
    Refused {
        design: ("states = 1", "states = 5"),
        policy: "1,0\n8,-7\n",
        line: "error 5 text 1 range 2\n",
    },
    Refused {
        design: ("grid = 0", "grid = 0"),
        policy: "",
        line: "error 5 text 2 count 0\n",
    },
    Refused {
        design: ("grid = 0", "grid = 0"),
        policy: "1,0\n8\n",
        line: "error 5 text 2 fields 2\n",
    },
    Refused {
        design: ("grid = 0", "grid = 0"),
        policy: "1,0\n8,x\n",
        line: "error 5 text 2 number 2 2\n",
    },
    Refused {
        design: ("grid = 0", "grid = 0"),
        policy: "0,0\n8,-7\n",
        line: "error 5 text 2 number 1 1\n",
    },
    Refused {
        design: ("grid = 0", "grid = 0"),
        policy: "1,0\n8,-7\n8,-7\n",
        line: "error 5 text 2 count 3\n",
    },
    Refused {
        design: ("grid = 0", "grid = 0"),
        policy: "1,0\n131072,-131071\n",
        line: "error 6 no-margin 2 2 4 524288\n",
    },
    Refused {
        design: ("[0, -4, 4]]", "[0, -4, 4], [4, 0, 4]]"),
        policy: "1,0\n8,-7\n",
        line: "error 6 no-margin 2 3 0 32\n",
    },
    Refused {
        design: (
            "den = 1\nviolation = 16\ngap = 1\n",
            "den = 131072\nviolation = 1\ngap = 131072\n",
        ),
        policy: "1,0\n8,-7\n",
        line: "error 8 too-many-steps 8388608\n",
    },
    Refused {
        design: (
            "den = 4\nstage = [[0, 4, 4], [0, -4, 4]]\nfinal = [[4, 1]]\n[box]\ngrid = 0\nlo = [0]\nhi = [1]\n[targets]\nden = 1\nviolation = 16\n",
            "den = 1\nstage = [[0, 1500000, 1500000]]\nfinal = []\n[box]\ngrid = 0\nlo = [0]\nhi = [1]\n[targets]\nden = 1\nviolation = 1048576\n",
        ),
        policy: "1,0\n1,0\n",
        line: "error 7 curvature\n",
    },
    Refused {
        design: (
            "den = 1\nviolation = 16\ngap = 1\n",
            "den = 1048576\nviolation = 16777216\ngap = 1\n",
        ),
        policy: "1,0\n65536,-65535\n",
        line: "error 9 too-fine 151000321\n",
    },
    // By the accelerated machine, where it takes more steps than that has.
    Refused {
        design: (DESIGN, LONG_RUN),
        policy: "1,0\n2048,-2047\n",
        line: "error 8 too-many-steps 65535\n",
    },
];

#[test]
fn refusals(rt: HostRuntime) -> Result<(), Fail> {
    for case in &REFUSALS {
        assert!(rt; is_refused(rt.alloc(), case)?);
    }
    Ok(())
}

// Designs whose exact condensed numbers pass 2^126: of the first the quantity `curvature`, and the enclosures have midpoints that are exact.
const TWO_STAGES: &str =
    "version = 1\nstates = 1\ninputs = 1\nstages = 2\n[plant]\nden = 1048576\na = [[1048576]]\nb = [[1048576]]\n[cost]\nden = 1\nrow_den = 1\ninput = [1]\nstage = [[1, 0, 1]]\nfinal = []\n[limits]\nden = 131072\nstage = [[0, 131072, 131072], [0, -131072, 131072]]\nfinal = [[131072, 32768]]\n[box]\ngrid = 0\nlo = [0]\nhi = [1]\n[targets]\nden = 1\nviolation = 16\ngap = 1\n";

// Of the second what the input weights bend the cost by, which is to cover the squares of the rows, is 2^128 over what these are over, at step 0.
const WIDE_COMPARISON: &str =
    "version = 1\nstates = 1\ninputs = 1\nstages = 3\n[plant]\nden = 262144\na = [[131072]]\nb = [[131072]]\n[cost]\nden = 256\nrow_den = 1\ninput = [256]\nstage = [[1, 0, 256]]\nfinal = []\n[limits]\nden = 1048576\nstage = [[0, 1, 1048576]]\nfinal = []\n[box]\ngrid = 0\nlo = [0]\nhi = [1]\n[targets]\nden = 1\nviolation = 16\ngap = 1\n";

// Designs that are one change away from the first, and these two, and lines of their controllers and reports.
static CHANGED_DESIGNS: [Made; 10] = [
    Made {
        design: (
            "den = 1\nviolation = 16\ngap = 1\n",
            "den = 10\nviolation = 1\ngap = 10\n",
        ),
        policy: "1,0\n8,-7\n",
        controller: "\nclamp 65536\n",
        report: "\nsteps 641\nbits 11\nwidth 28\nwords 6\nviolation 82270494708 1099511627776\ngap 219045429248 1099511627776\n",
    },
    Made {
        design: ("grid = 0", "grid = 0"),
        policy: "1,0\n65536,-65535\n",
        controller: "\nbits 36 ",
        report: "\nmargin 1 65536\ncost 1\nmultiplier 65536\nstep 1\nsteps 32768\nbits 36\n",
    },
    Made {
        design: ("hi = [1]", "hi = [0]"),
        policy: "1,0\n1,0\n",
        controller: "\nP 16\nT 0\nW 8 -8 8\n",
        report: "\nmargin 16384 65536\ncost 0\nmultiplier 1\nstep 1\nsteps 1\nbits 5\nwidth 13\nwords 6\nviolation 4922032521216 1099511627776\ngap 523986010112 1099511627776\nundercut 4922032521216 1099511627776\n",
    },
    Made {
        design: ("[0, -4, 4]]", "[0, -4, 4], [4, 0, 5]]"),
        policy: "1,0\n8,-7\n",
        controller: "\nsize 1 1 1 4\n",
        report: "\nmargin 8192 65536\ncost 1\nmultiplier 8\nstep 1\nsteps 4\nbits 10\n",
    },
    Made {
        design: (
            "den = 1\nviolation = 16\ngap = 1\n",
            "den = 65536\nviolation = 1\ngap = 65536\n",
        ),
        policy: "1,0\n8,-7\n",
        controller: "\nsteps 4194304\n",
        report: "\nbits 24\nwidth 54\n",
    },
    Made {
        design: (
            "den = 4\nstage = [[0, 4, 4], [0, -4, 4]]\nfinal = [[4, 1]]\n[box]\ngrid = 0\nlo = [0]\nhi = [1]\n[targets]\nden = 1\nviolation = 16\n",
            "den = 1\nstage = [[0, 1400000, 1400000]]\nfinal = []\n[box]\ngrid = 0\nlo = [0]\nhi = [1]\n[targets]\nden = 1\nviolation = 1048576\n",
        ),
        policy: "1,0\n1,0\n",
        controller: "\nsteps 4194304\n",
        report: "\nmultiplier 1\nstep 40\nsteps 4194304\nbits 21\nwidth 103\n",
    },
    Made {
        design: (
            "stages = 1\n[plant]\nden = 1\na = [[1]]\nb = [[1]]\n[cost]\nden = 1\nrow_den = 1\ninput = [1]\nstage = [[1, 0, 1]]\nfinal = []\n[limits]\nden = 4\nstage = [[0, 4, 4], [0, -4, 4]]\nfinal = [[4, 1]]\n[box]\ngrid = 0\nlo = [0]\nhi = [1]\n[targets]\nden = 1\nviolation = 16\ngap = 1\n",
            "stages = 2\n[plant]\nden = 1\na = [[2]]\nb = [[1]]\n[cost]\nden = 1\nrow_den = 1\ninput = [1]\nstage = []\nfinal = [[1, 0, 100]]\n[limits]\nden = 1\nstage = [[0, 1, 1], [0, 1, 2], [0, -1, 1]]\nfinal = []\n[box]\ngrid = 0\nlo = [0]\nhi = [1]\n[targets]\nden = 1\nviolation = 16\ngap = 16\n",
        ),
        policy: "1,0,0\n1,0,0\n",
        controller: "\nsteps 1600\n",
        report: "\nmargin 65536 65536\ncost 1600\nmultiplier 1600\nstep 2\nsteps 1600\nbits 24\n",
    },
    Made {
        design: ("grid = 0", "grid = 0"),
        policy: "1,0\n8, -07\n",
        controller: "\nP 512\n",
        report: "\nsteps 4\n",
    },
    Made {
        design: (DESIGN, TWO_STAGES),
        policy: "1,0,0\n8,-7,0\n",
        controller: "G 16384 0\nG -16384 0\nG 0 16384\nG 0 -16384\nG 16384 16384\nE 0\nE 0\nE 0\nE 0\nE 16384\nb 16384 16384 16384 16384 4096\nend\n",
        report: "margin 8192 65536\ncost 1\nmultiplier 8\nstep 1\nsteps 4\nbits 14\n",
    },
    Made {
        design: (DESIGN, WIDE_COMPARISON),
        policy: "1,0,0,0\n1,0,0,0\n",
        controller: "bits 7 0 0 16\nsteps 1\n",
        report: "violation 2383841067008 1099511627776\ngap 184817811456 1099511627776\n",
    },
];

#[test]
fn changed_designs(rt: HostRuntime) -> Result<(), Fail> {
    for case in &CHANGED_DESIGNS {
        assert!(rt; is_made(rt.alloc(), case)?);
    }
    Ok(())
}

// Designs, policies, and both texts.
static WORKED: [(&str, &str, &str, &str); 5] = [
    // The first worked design, byte by byte.
    (DESIGN, POLICY, CONTROLLER, REPORT),
    // The same with version 3: a controller of the accelerated machine, byte by byte from the model.
    (
        "version = 3\nstates = 1\ninputs = 1\nstages = 1\n[plant]\nden = 1\na = [[1]]\nb = [[1]]\n[cost]\nden = 1\nrow_den = 1\ninput = [1]\nstage = [[1, 0, 1]]\nfinal = []\n[limits]\nden = 4\nstage = [[0, 4, 4], [0, -4, 4]]\nfinal = [[4, 1]]\n[box]\ngrid = 0\nlo = [0]\nhi = [1]\n[targets]\nden = 1\nviolation = 16\ngap = 1\n",
        POLICY,
        "mpc-controller 3\nsize 1 1 1 3\nbits 10 0 1 26\nsteps 3\nclamp 32768\nwords 12\nexps 0 1 1\nlo 0\nhi 1\nP 512\nT 0\nW 256 -256 256\nG 1024\nG -1024\nG 1024\nE 0\nE 0\nE 1024\nb 1024 1024 256\nend\n",
        "mpc-report 3\nmargin 8192 65536\ncost 1\nmultiplier 8\nstep 1\nsteps 3\nbits 10\nwidth 26\nwords 12\nviolation 1 5918827566422 1099511627776\nviolation 2 7873514904690 1099511627776\nviolation 3 7873514904690 1099511627776\ngap 438124412928 1099511627776\nundercut 62988119237520 1099511627776\nend\n",
    ),
    // Two inputs and two states: both texts byte by byte, from the model in exact fractions. Its matrix is diagonal, so one gain alone is good.
    (
        "version = 1\nstates = 2\ninputs = 2\nstages = 1\n[plant]\nden = 2\na = [[2, 1], [0, 2]]\nb = [[2, 0], [0, 2]]\n[cost]\nden = 1\nrow_den = 1\ninput = [1, 3]\nstage = [[1, 0, 0, 1], [0, 1, 1, 2]]\nfinal = []\n[limits]\nden = 2\nstage = [[0, 0, 2, 0, 2], [0, 0, -2, 0, 2], [0, 0, 0, 2, 2], [0, 0, 0, -2, 2]]\nfinal = [[2, 0, 8], [-2, 0, 8]]\n[box]\ngrid = 1\nlo = [-2, -2]\nhi = [2, 2]\n[targets]\nden = 1\nviolation = 1\ngap = 2\n",
        "1,0,0\n1,0,0\n1,0,0\n1,0,0\n",
        "mpc-controller 1\nsize 2 2 1 6\nbits 13 1 1 33\nsteps 88\nclamp 360448\nwords 12\nlo -2 -2\nhi 2 2\nP 4096 2048\nP 0 3277\nT 0 -3277\nW 2048 -2048 0 0 2048 -2048\nW 0 0 819 -819 0 0\nG 8192 0\nG -8192 0\nG 0 8192\nG 0 -8192\nG 8192 0\nG -8192 0\nE 0 0\nE 0 0\nE 0 0\nE 0 0\nE 8192 4096\nE -8192 -4096\nb 8192 8192 8192 8192 32768 32768\nend\n",
        "mpc-report 1\nmargin 65536 65536\ncost 11\nmultiplier 11\nstep 1\nsteps 88\nbits 13\nwidth 33\nwords 12\nviolation 590834198715 1099511627776\ngap 451862233088 1099511627776\nundercut 6499176185865 1099511627776\nend\n",
    ),
    // Three states, likewise.
    (
        "version = 1\nstates = 3\ninputs = 1\nstages = 1\n[plant]\nden = 2\na = [[2, 1, 0], [0, 2, 1], [0, 0, 1]]\nb = [[0], [1], [2]]\n[cost]\nden = 1\nrow_den = 1\ninput = [2]\nstage = [[1, 0, 0, 0, 1], [0, 2, 0, 0, 1], [0, 0, 1, 1, 1]]\nfinal = []\n[limits]\nden = 1\nstage = [[0, 0, 0, 1, 1], [0, 0, 0, -1, 1]]\nfinal = [[0, 0, 1, 3]]\n[box]\ngrid = 0\nlo = [-1, -1, -1]\nhi = [1, 1, 1]\n[targets]\nden = 1\nviolation = 1\ngap = 2\n",
        "1,0\n1,0\n1,0\n1,0\n1,0\n1,0\n1,0\n1,0\n",
        "mpc-controller 1\nsize 3 1 1 3\nbits 10 0 0 25\nsteps 56\nclamp 28672\nwords 8\nlo -1 -1 -1\nhi 1 1 1\nP 0 512 384\nT -256\nW 128 -128 128\nG 1024\nG -1024\nG 1024\nE 0 0 0\nE 0 0 0\nE 0 0 512\nb 1024 1024 3072\nend\n",
        "mpc-report 1\nmargin 65536 65536\ncost 14\nmultiplier 14\nstep 0\nsteps 56\nbits 10\nwidth 25\nwords 8\nviolation 607739070757 1099511627776\ngap 811765596160 1099511627776\nundercut 8508346990598 1099511627776\nend\n",
    ),
    // Four states and two inputs, likewise.
    (
        "version = 1\nstates = 4\ninputs = 2\nstages = 1\n[plant]\nden = 2\na = [[2, 1, 0, 0], [0, 2, 0, 0], [0, 0, 2, 1], [0, 0, 0, 2]]\nb = [[0, 0], [2, 0], [0, 0], [0, 2]]\n[cost]\nden = 1\nrow_den = 1\ninput = [1, 1]\nstage = [[0, 1, 0, 0, 0, 1], [0, 0, 0, 1, 0, 1]]\nfinal = [[1, 0, 0, 0, 0, 1]]\n[limits]\nden = 1\nstage = [[0, 0, 0, 0, 1, 0, 1], [0, 0, 0, 0, 0, -1, 1]]\nfinal = [[0, 1, 0, 0, 3], [0, 0, 0, -1, 3]]\n[box]\ngrid = 0\nlo = [-1, -1, 0, -1]\nhi = [1, 1, 1, 1]\n[targets]\nden = 1\nviolation = 1\ngap = 2\n",
        "1,0,0\n1,0,0\n1,0,0\n1,0,0\n1,0,0\n1,0,0\n1,0,0\n1,0,0\n1,0,0\n1,0,0\n1,0,0\n1,0,0\n1,0,0\n1,0,0\n1,0,0\n1,0,0\n",
        "mpc-controller 1\nsize 4 2 1 4\nbits 10 0 0 25\nsteps 20\nclamp 10240\nwords 12\nlo -1 -1 0 -1\nhi 1 1 1 1\nP 0 512 0 0\nP 0 0 0 512\nT 0 0\nW 256 0 256 0\nW 0 -256 0 -256\nG 1024 0\nG 0 -1024\nG 1024 0\nG 0 -1024\nE 0 0 0 0\nE 0 0 0 0\nE 0 1024 0 0\nE 0 0 0 -1024\nb 1024 1024 3072 3072\nend\n",
        "mpc-report 1\nmargin 65536 65536\ncost 5\nmultiplier 5\nstep 0\nsteps 20\nbits 10\nwidth 25\nwords 12\nviolation 631363547956 1099511627776\ngap 408038670336 1099511627776\nundercut 3156817739780 1099511627776\nend\n",
    ),
];

#[test]
fn worked_texts(rt: HostRuntime) -> Result<(), Fail> {
    for &(design, policy, controller, report) in &WORKED {
        assert!(rt; generates(rt.alloc(), design, policy, "", (controller, report))?);
    }
    Ok(())
}

// Whether a run writes this report as JSON.
fn leaves_json(alloc: Global, store: &mut MemStore, report: &str) -> Result<bool, AllocError> {
    Ok(
        ends_with::<Makers>(alloc, "generate d p out r.json", store, &NONE, "", "")?
            && holds(alloc, store, "r.json", report.as_bytes())?,
    )
}

// Whether the report as JSON is this.
fn is_json(alloc: Global, report: &str) -> Result<bool, AllocError> {
    let mut store = store_of(alloc, DESIGN, POLICY, "", "")?;
    leaves_json(alloc, &mut store, report)
}

// The report as JSON, where its name asks for it.
#[test]
fn json_report(rt: HostRuntime) -> Result<(), Fail> {
    let report =
        "{\"bits\":\"10\",\"cost\":\"1\",\"gap\":\"438095052800\",\"margin\":\"8192\",\"multiplier\":\"8\",\"step\":\"1\",\"steps\":\"4\",\"undercut\":\"70806839230464\",\"version\":\"1\",\"violation\":\"8850854903808\",\"width\":\"26\",\"words\":\"6\"}\n";
    assert!(rt; is_json(rt.alloc(), report)?);
    Ok(())
}

// Whether a run in which a call fails ends with this line, and leaves the beginnings of the two texts, so many bytes of each.
fn leaves_parts(
    alloc: Global,
    fails: &Fails,
    line: &str,
    controller: usize,
    report: usize,
) -> Result<bool, Fail> {
    let mut store = store_of(alloc, DESIGN, POLICY, "", "")?;
    let texts = (part(CONTROLLER, controller), part(REPORT, report));
    leaves_both::<Makers>(alloc, GENERATE, &mut store, fails, line, texts)
}

// A read, the controller's write and the report's write that fail, and what stands then.
static FAULTS: [(Fails, &str, usize, usize); 4] = [
    (
        Fails {
            read: 1,
            write: 9,
            keep: 0,
            put: 9,
        },
        "error 3 read-fault 1\n",
        0,
        0,
    ),
    (
        Fails {
            read: 2,
            write: 9,
            keep: 0,
            put: 9,
        },
        "error 3 read-fault 2\n",
        0,
        0,
    ),
    (
        Fails {
            read: 9,
            write: 1,
            keep: 20,
            put: 9,
        },
        "error 4 write-fault 3\n",
        20,
        0,
    ),
    (
        Fails {
            read: 9,
            write: 2,
            keep: 10,
            put: 9,
        },
        "error 4 write-fault 4\n",
        CONTROLLER.len(),
        10,
    ),
];

#[test]
fn faults(rt: HostRuntime) -> Result<(), Fail> {
    for (fails, line, controller, report) in &FAULTS {
        assert!(rt; leaves_parts(rt.alloc(), fails, line, *controller, *report)?);
    }
    Ok(())
}
