// Texts of designs.
use design_files::read_design;
use mat_int::Mat;
use number_text::TextFault;
use qp_model::DesignParts;
use std::alloc::{AllocError, Global};
use std::test::Fail;
use trials_worked::{DESIGN, changed_text, design};

// Whether a matrix has this row.
fn has_row(m: &Mat, i: usize, row: &[i128]) -> bool {
    i < m.rows() && m.row(i) == row
}

// One axis of a satellite, angle and rate: tables inline, dotted and with headers, and integers in several spellings.
const SATELLITE: &str = "version = 0x1
states = +2
inputs = 0b1
stages = 0o5
plant.den = 8
plant.a = [[8, 4], [0, 8]]
plant.b = [[1], [4]]
cost = { den = 1, row_den = 1, input = [1], stage = [[1, 0, 0, 1], [0, 1, 0, 1]], final = [] }
[limits]
den = 1
stage = [
    [0, 0, 1, 4], [0, 0, -1, 4],
    [1, 0, 0, 8], [-1, 0, 0, 8],
    [0, 1, 0, 2], [0, -1, 0, 2], # rate
]
final = [[1, 0, 8], [-1, 0, 8], [0, 1, 2], [0, -1, 2]]
[box]
grid = 4
lo = [-6_4, -16]
hi = [64, 16]
[targets]
den = 1_6
violation = 1
gap = 16
";

// Whether these are the satellite's numbers.
fn are_satellite(p: &DesignParts) -> bool {
    [p.states, p.inputs, p.stages] == [2, 1, 5]
        && has_row(&p.a, 0, &[8, 4])
        && has_row(&p.b, 1, &[4])
        && has_row(&p.stage_cost, 1, &[0, 1, 0, 1])
        && p.stage_rows.rows() == 6
        && has_row(&p.stage_rows, 5, &[0, -1, 0, 2])
        && has_row(&p.final_rows, 3, &[0, -1, 2])
        && p.lo.as_slice() == [-64, -16].as_slice()
        && [p.plant_den, p.target_den, p.gap] == [8, 16, 16]
}

fn reads_satellite(alloc: Global, text: &str) -> Result<bool, TextFault> {
    let design = design(alloc, text)?;
    Ok(are_satellite(design.parts()))
}

// The satellite's text after a byte order mark.
fn reads_marked(alloc: Global) -> Result<bool, Fail> {
    let marked = format!(in alloc; "\u{feff}{SATELLITE}")?;
    Ok(reads_satellite(alloc, &marked)?)
}

#[test]
fn spellings(rt: HostRuntime) -> Result<(), Fail> {
    assert!(rt; reads_marked(rt.alloc())?);
    Ok(())
}

// Thirteen lists.
const MANY: &str = "[[1, 0, 1], [1, 0, 1], [1, 0, 1], [1, 0, 1], [1, 0, 1], [1, 0, 1], [1, 0, 1],
    [1, 0, 1], [1, 0, 1], [1, 0, 1], [1, 0, 1], [1, 0, 1], [1, 0, 1]]";

// What stands in place of a piece of the first design, and the fault then.
static CHANGES: [(&str, &str, TextFault); 27] = [
    (
        "states = 1",
        "states = 0x8000000000000000",
        TextFault::NotToml,
    ),
    ("gap = 1", "gap = 1e999", TextFault::NotToml),
    ("gap = 1", "gap = 1\ngap = 1", TextFault::NotToml),
    ("version = 1\n", "", TextFault::Key { place: 1 }),
    (
        "stages = 1\n[plant]",
        "[plant]\nstages = 1",
        TextFault::Key { place: 4 },
    ),
    ("[plant]", "[[plant]]", TextFault::Key { place: 5 }),
    (
        "[box]\ngrid = 0\nlo = [0]\nhi = [1]\n",
        "",
        TextFault::Key { place: 16 },
    ),
    (
        "hi = [1]\n[targets]\nden = 1\n",
        "[targets]\n",
        TextFault::Key { place: 18 },
    ),
    ("gap = 1", "gap = 1\nnote = 1", TextFault::Key { place: 0 }),
    (
        "row_den = 1",
        "row_den = 1\nrow-den = 1",
        TextFault::Key { place: 0 },
    ),
    (
        "version = 1",
        "version = true",
        TextFault::Shape { place: 1 },
    ),
    ("states = 1", "states = 0", TextFault::Range { place: 2 }),
    (
        "version = 1\nstates = 1",
        "version = 2\nstates = 6",
        TextFault::Shape { place: 6 },
    ),
    ("den = 1", "den = 0", TextFault::Range { place: 5 }),
    ("den = 1", "den = 1048577", TextFault::Range { place: 5 }),
    (
        "a = [[1]]",
        "a = [[-2147483648]]",
        TextFault::Range { place: 6 },
    ),
    (
        "b = [[1]]",
        "b = [[2147483648], 1]",
        TextFault::Shape { place: 7 },
    ),
    ("[[1, 0, 1]]", MANY, TextFault::Shape { place: 11 }),
    (
        "[[0, 4, 4], [0, -4, 4]]",
        MANY,
        TextFault::Shape { place: 14 },
    ),
    (
        "input = [1]",
        "input = [0, 0]",
        TextFault::Shape { place: 10 },
    ),
    (
        "[[1, 0, 1]]",
        "[[1, 0, -1]]",
        TextFault::Range { place: 11 },
    ),
    (
        "final = []",
        "final = [[1, 1]]",
        TextFault::Shape { place: 12 },
    ),
    (
        "[[0, 4, 4], [0, -4, 4]]\nfinal = [[4, 1]]",
        "[]\nfinal = []",
        TextFault::Range { place: 15 },
    ),
    ("grid = 0", "grid = 25", TextFault::Range { place: 16 }),
    ("lo = [0]", "lo = [0.0]", TextFault::Shape { place: 17 }),
    (
        "violation = 16",
        "violation = '16'",
        TextFault::Shape { place: 20 },
    ),
    ("gap = 1", "gap = 0", TextFault::Range { place: 21 }),
];

// The first fault of bytes, none where they write a design; an error where memory runs out, so that it is taken for no answer.
fn fault_of(alloc: Global, bytes: &[u8]) -> Result<Option<TextFault>, AllocError> {
    match read_design(alloc, bytes).err() {
        Some(TextFault::Memory) => Err(AllocError),
        fault => Ok(fault),
    }
}

// The same of the first design with one piece of it replaced.
fn fault_with(alloc: Global, old: &str, new: &str) -> Result<Option<TextFault>, Fail> {
    let text = changed_text(alloc, (DESIGN, &[(old, new)]))?;
    Ok(fault_of(alloc, text.as_bytes())?)
}

#[test]
fn faults(rt: HostRuntime) -> Result<(), Fail> {
    for (old, new, fault) in &CHANGES {
        assert!(rt; fault_with(rt.alloc(), old, new)? == Some(*fault));
    }
    Ok(())
}

#[test]
fn no_text(rt: HostRuntime) -> Result<(), Fail> {
    assert!(rt; fault_of(rt.alloc(), &[b'#', 255])? == Some(TextFault::NotToml));
    Ok(())
}
