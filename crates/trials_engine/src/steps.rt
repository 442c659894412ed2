// Expected values are those of bench/curvature/exponents.py.
ghost use Rattle.std.specs.Prelude.{◌≡◌, ◌<◌, ℕ, length, IsTrue};
ghost use Rattle.mat_int.specs.Matrix.{entry_of};
ghost use Rattle.hessian_check.specs.Dominance.{IsSymmetric};

use design_engine::condense;
use hessian_check::{CurvatureFault, ScaledRoot, StepExponents, check, curvature, root_of};
use mat_int::Mat;
use qp_model::{Design, Quantity};
use std::alloc::{AllocError, Global};
use std::test::Fail;
use trials_worked::{Changed, DESIGN, FINE_STILL, LIMITS, changed_design, has_rows};

// 2^126
const MOST: i128 = 85070591730234615865843651857942052864;

// The rows of a matrix.
type Rows = &'static [&'static [i128]];

// A matrix, a root, and whether `check` says so of them.
static CHECKS: [(Rows, Rows, bool); 13] = [
    (&[&[0, 1], &[1, 0]], &[&[0, 0], &[0, 0]], false),
    (&[&[1]], &[&[1]], true),
    (&[&[5, 3], &[3, 9]], &[&[2, 0], &[1, 2]], true),
    (&[&[4, 0], &[0, 4]], &[&[2, 0], &[1, 2]], false),
    (&[&[1, -1], &[-1, 1]], &[&[0, 0], &[0, 0]], true),
    (&[&[1, -2], &[-2, 2]], &[&[0, 0], &[0, 0]], false),
    (&[&[2, -2], &[-2, 1]], &[&[0, 0], &[0, 0]], false),
    (&[&[0]], &[&[0]], true),
    (&[&[-1]], &[&[0]], false),
    (&[&[MOST]], &[&[0]], true),
    (&[&[MOST]], &[&[1 << 63]], false),
    (
        &[&[MOST, MOST - 1], &[MOST - 1, MOST]],
        &[&[0, 0], &[0, 0]],
        true,
    ),
    (&[&[MOST, MOST], &[MOST, MOST]], &[&[0, 0], &[0, 0]], false),
];

// A matrix, and its root with the shift.
static ROOTS: [(Rows, Option<(u32, Rows)>); 13] = [
    (&[], None),
    (&[&[1]], Some((30, &[&[1073610743]]))),
    (&[&[4]], Some((29, &[&[1073610743]]))),
    (&[&[1 << 62]], Some((0, &[&[2147221487]]))),
    (&[&[(1 << 60) - 1]], Some((1, &[&[2147221487]]))),
    (&[&[(1 << 116) - 1]], Some((0, &[&[288195189631877079]]))),
    (&[&[1 << 116, 0], &[0, 1]], None),
    (&[&[1, 2], &[2, 1]], None),
    (&[&[0, 0], &[0, 1]], None),
    (&[&[9, -9], &[-9, 9]], None),
    (
        &[&[10, -9], &[-9, 10]],
        Some((29, &[&[1697527635, 0], &[-1528147956, 739164324]])),
    ),
    (
        &[&[4, 2, -2], &[2, 10, 2], &[-2, 2, 14]],
        Some((
            29,
            &[
                &[1073610743, 0, 0],
                &[536936460, 1610503500, 0],
                &[-536936461, 536951031, 1859657661],
            ],
        )),
    ),
    (
        &[&[1 << 100, 1 << 70], &[1 << 70, 1 << 99]],
        Some((0, &[&[1125831185268607, 0], &[1048640, 796034269117356]])),
    ),
];

// The matrix of these rows.
fn matrix(alloc: Global, rows: &[&[i128]]) -> Result<Mat, Fail> {
    match Mat::from_rows(alloc, rows.len(), rows)? {
        Some(mat) => Ok(mat),
        None => Err("rows of other lengths".into()),
    }
}

// Whether a square matrix is its transpose.
fn is_symmetric(mat: &Mat) -> bool
    requires { mat.now.cols ≡ length mat.now.rows }
    ensures { IsTrue result → IsSymmetric (length mat.now.rows) (entry_of mat.now) }
{
    for i in 0..mat.rows() {
        if !is_turned(mat, i) {
            return false;
        }
    }
    true
}

// Whether row i is column i.
fn is_turned(mat: &Mat, i: usize) -> bool
    requires square { mat.now.cols ≡ length mat.now.rows }
    requires inside { i < length mat.now.rows }
    ensures { IsTrue result → (j : ℕ) → j < length mat.now.rows → entry_of mat.now i j ≡ entry_of mat.now j i }
{
    for j in 0..mat.rows() {
        if mat.at(i, j) != mat.at(j, i) {
            return false;
        }
    }
    true
}

// Whether `check` says so of a symmetric matrix and a root of its size.
fn has_check(mat: &Mat, root: &Mat, yes: bool) -> Result<bool, Fail> {
    if mat.cols() != mat.rows() || root.cols() != mat.rows() || root.rows() != mat.rows() {
        return Err("other sizes".into());
    }
    if !is_symmetric(mat) {
        return Err("not symmetric".into());
    }
    Ok(check(mat, root) == yes)
}

// The same of a root of these rows.
fn has_check_of(alloc: Global, mat: &Mat, root_rows: &[&[i128]], yes: bool) -> Result<bool, Fail> {
    let root = matrix(alloc, root_rows)?;
    has_check(mat, &root, yes)
}

// And of a matrix of these rows.
fn is_checked(
    alloc: Global,
    rows: &[&[i128]],
    root_rows: &[&[i128]],
    yes: bool,
) -> Result<bool, Fail> {
    let mat = matrix(alloc, rows)?;
    has_check_of(alloc, &mat, root_rows, yes)
}

#[test]
fn checks(rt: HostRuntime) -> Result<(), Fail> {
    for &(rows, root_rows, yes) in &CHECKS {
        assert!(rt; is_checked(rt.alloc(), rows, root_rows, yes)?);
    }
    Ok(())
}

// Whether a root is that one, or there is none where none is wanted.
fn is_root(found: &Option<ScaledRoot>, want: &Option<(u32, Rows)>) -> bool {
    match (found, want) {
        (Some(scaled), Some((shift, rows))) => {
            scaled.shift == *shift && has_rows(&scaled.root, rows)
        }
        (None, None) => true,
        _ => false,
    }
}

// Whether a square matrix has this root.
fn has_root_of(alloc: Global, mat: &Mat, want: &Option<(u32, Rows)>) -> Result<bool, Fail> {
    if mat.cols() != mat.rows() {
        return Err("not square".into());
    }
    let found = root_of(alloc, mat)?;
    Ok(is_root(&found, want))
}

// Whether that of these rows does.
fn has_root(alloc: Global, rows: &[&[i128]], want: &Option<(u32, Rows)>) -> Result<bool, Fail> {
    let mat = matrix(alloc, rows)?;
    has_root_of(alloc, &mat, want)
}

#[test]
fn roots(rt: HostRuntime) -> Result<(), Fail> {
    for (rows, want) in &ROOTS {
        assert!(rt; has_root(rt.alloc(), rows, want)?);
    }
    Ok(())
}

// What is found; an error where memory ran out, so that it is taken for no answer.
fn answer(
    found: Result<StepExponents, CurvatureFault>,
) -> Result<Result<StepExponents, CurvatureFault>, Fail> {
    match found {
        Err(CurvatureFault::Memory) => Err(AllocError.into()),
        found => Ok(found),
    }
}

// The exponents of a design's condensed form, or why there are none.
fn exponents_of(
    alloc: Global,
    design: &Design,
) -> Result<Result<StepExponents, CurvatureFault>, Fail> {
    let condensed = condense(alloc, design)?;
    answer(curvature(alloc, &condensed))
}

fn exponents(
    alloc: Global,
    changed: Changed,
) -> Result<Result<StepExponents, CurvatureFault>, Fail> {
    let design = changed_design(alloc, changed)?;
    exponents_of(alloc, &design)
}

// With one limit row, which is steep, and which is too steep.
const STEEP: Changed = (
    DESIGN,
    &[(
        LIMITS,
        "den = 1\nstage = [[0, 1400000, 1400000]]\nfinal = []",
    )],
);

const STEEPER: Changed = (
    DESIGN,
    &[(
        LIMITS,
        "den = 1\nstage = [[0, 1500000, 1500000]]\nfinal = []",
    )],
);

// Two stages, where no matrix is dominant, and the certificate is below the number that needs none.
const CERTIFIED: Changed = (
    DESIGN,
    &[
        ("stages = 1", "stages = 2"),
        ("a = [[1]]", "a = [[2]]"),
        (
            "stage = [[1, 0, 1]]\nfinal = []",
            "stage = []\nfinal = [[1, 0, 100]]",
        ),
        (
            LIMITS,
            "den = 1\nstage = [[0, 1, 1], [0, 1, 2], [0, -1, 1]]\nfinal = []",
        ),
    ],
);

// Denominators at their greatest, and a cost with which also the numbers of the enclosures are above the limit, by `scripts/common/sizes.py`.
const WIDE: Changed = (
    DESIGN,
    &[
        ("stages = 1", "stages = 2"),
        (
            "den = 1\na = [[1]]\nb = [[1]]",
            "den = 1048576\na = [[1048576]]\nb = [[1048576]]",
        ),
        (
            LIMITS,
            "den = 131072\nstage = [[0, 131072, 131072], [0, -131072, 131072]]\nfinal = [[131072, 32768]]",
        ),
        (
            "den = 1\nrow_den = 1\ninput = [1]\nstage = [[1, 0, 1]]",
            "den = 1048576\nrow_den = 1\ninput = [1]\nstage = [[1, 0, 16777216]]",
        ),
    ],
);

// Designs, and their exponents, or why there are none.
static EXPONENTS: [(Changed, Result<StepExponents, CurvatureFault>); 5] = [
    // the most
    (STEEP, Ok(StepExponents { s: 40, s1: 40 })),
    (STEEPER, Err(CurvatureFault::NoStep)),
    (CERTIFIED, Ok(StepExponents { s: 2, s1: 3 })),
    // Denominators at their greatest: the matrices of the exact numbers would be above the limit.
    (FINE_STILL, Ok(StepExponents { s: 1, s1: 1 })),
    (
        WIDE,
        Err(CurvatureFault::TooWide {
            quantity: Quantity::Curvature,
        }),
    ),
];

#[test]
fn worked_exponents(rt: HostRuntime) -> Result<(), Fail> {
    for (changed, want) in &EXPONENTS {
        assert!(rt; exponents(rt.alloc(), *changed)? == *want);
    }
    Ok(())
}
