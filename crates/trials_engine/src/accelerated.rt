// Controllers of the accelerated machine of worked designs, lean ones and those that are made of a policy alone. Expected values are those of another program, in whole numbers without a limit.
ghost use Rattle.qp_model.specs.problem.Parts.{design_of};
ghost use Rattle.qp_model.specs.problem.Policy.{plans_of, IsPolicyFor};

use fast_bounds::{FastMade, generate_fast, generate_fast_by_margin};
use policy_file::read_policy;
use qp_model::{Bounds, Design, Policy, Refusal};
use std::alloc::{AllocError, Global};
use std::test::Fail;
use trials_worked::{Changed, DESIGN, FINE_STILL, FORCED, changed_design};

// The first worked design, whose rows have step exponents of their own.
const WORKED: Changed = (DESIGN, &[("version = 1", "version = 2")]);

// With a target that takes more steps.
const SECOND: Changed = (
    DESIGN,
    &[
        ("version = 1", "version = 2"),
        ("violation = 16", "violation = 1"),
    ],
);

// With targets that take yet more.
const CLOSER: Changed = (
    DESIGN,
    &[
        ("version = 1", "version = 2"),
        (
            "den = 1\nviolation = 16\ngap = 1\n",
            "den = 10\nviolation = 1\ngap = 10\n",
        ),
    ],
);

const PLANS: &[u8] = b"1,0\n8,-7\n";

const BEST: &[u8] = b"1,0\n2,-1\n";

// What is expected of a controller and its bounds.
struct Row {
    design: Changed<'static>,
    policy: &'static [u8],
    reference: &'static [u8],
    // The margin, the excess or the cost, R, the violation, the gap and the undercut.
    bounds: [i128; 6],
    // The step exponent, the steps, the bits, the width and the words.
    sizes: [usize; 5],
    clamp: i128,
    rows: &'static [i128],
    // What the errors of a run cost whichever good solutions the gains are.
    eps: i128,
}

// Whether a report's numbers are those of a row.
fn has_bounds(b: &Bounds, row: &Row) -> bool {
    [
        b.margin,
        b.cost,
        b.multiplier,
        b.violation,
        b.gap,
        b.undercut,
    ] == row.bounds
        && [
            b.step as usize,
            b.steps as usize,
            b.bits as usize,
            b.width as usize,
            b.words,
        ] == row.sizes
        && &b.rows[..] == row.rows
}

// The controller of a design, or why there is none; an error where memory ran out, so that it is taken for no answer.
fn fast(
    alloc: Global,
    design: &Design,
    policy: &Policy,
    reference: &Policy,
) -> Result<Result<FastMade, Refusal>, Fail>
    requires plans { IsPolicyFor (design_of design.now) (plans_of policy.now) }
    requires references { IsPolicyFor (design_of design.now) (plans_of reference.now) }
{
    match generate_fast(alloc, design, policy, reference) {
        Err(Refusal::Memory) => Err(AllocError.into()),
        answer => Ok(answer),
    }
}

// The same of plans. No plans of the trials are longer than 1000 bytes.
fn fast_of(
    alloc: Global,
    design: &Design,
    plans: &[u8],
    references: &[u8],
) -> Result<Result<FastMade, Refusal>, Fail> {
    if plans.len() > 1000 || references.len() > 1000 {
        return Err("long".into());
    }
    let policy = read_policy(alloc, plans, design)?;
    let reference = read_policy(alloc, references, design)?;
    fast(alloc, design, &policy, &reference)
}

// The same of a policy alone.
fn by_margin(
    alloc: Global,
    design: &Design,
    policy: &Policy,
) -> Result<Result<FastMade, Refusal>, Fail>
    requires { IsPolicyFor (design_of design.now) (plans_of policy.now) }
{
    match generate_fast_by_margin(alloc, design, policy) {
        Err(Refusal::Memory) => Err(AllocError.into()),
        answer => Ok(answer),
    }
}

fn by_margin_of(
    alloc: Global,
    design: &Design,
    plans: &[u8],
) -> Result<Result<FastMade, Refusal>, Fail> {
    if plans.len() > 1000 {
        return Err("long".into());
    }
    let policy = read_policy(alloc, plans, design)?;
    by_margin(alloc, design, &policy)
}

// Whether a controller and its bounds are those of a row.
fn is_row(answer: Result<FastMade, Refusal>, row: &Row, lean: bool) -> bool {
    match answer {
        Ok(made) => {
            made.bounds.lean == lean
                && has_bounds(&made.bounds, row)
                && made.controller.parts().clamp == row.clamp
                && made.eps == row.eps
        }
        Err(_) => false,
    }
}

// Whether those of a design are, lean ones or those that are made of its policy alone.
fn is_made(alloc: Global, design: &Design, row: &Row, lean: bool) -> Result<bool, Fail> {
    let answer = if lean {
        fast_of(alloc, design, row.policy, row.reference)?
    } else {
        by_margin_of(alloc, design, row.policy)?
    };
    Ok(is_row(answer, row, lean))
}

// The same of a changed text.
fn is_row_of(alloc: Global, row: &Row, lean: bool) -> Result<bool, Fail> {
    let design = changed_design(alloc, row.design)?;
    is_made(alloc, &design, row, lean)
}

static ROWS: [Row; 5] = [
    Row {
        design: WORKED,
        policy: PLANS,
        reference: BEST,
        bounds: [8192, 18432, 1, 11152151019520, 314069483520, 17592186044416],
        sizes: [1, 1, 6, 16, 12],
        clamp: 256,
        rows: &[10052639391744, 11152151019520, 11152151019520],
        eps: 580357455872,
    },
    // Three steps.
    Row {
        design: SECOND,
        policy: PLANS,
        reference: BEST,
        bounds: [8192, 18432, 1, 1057830498760, 38805700608, 1099511627776],
        sizes: [1, 3, 9, 22, 12],
        clamp: 2048,
        rows: &[813494581476, 1057830498760, 1057830498760],
        eps: 66454552576,
    },
    // Where the other machine takes 86.
    Row {
        design: CLOSER,
        policy: PLANS,
        reference: BEST,
        bounds: [8192, 18432, 2, 103126884942, 6444515328, 219902325554],
        sizes: [1, 18, 13, 30, 12],
        clamp: 65536,
        rows: &[79856797582, 103126884942, 103126884942],
        eps: 10535272448,
    },
    // What the violation's target lets the plan break.
    Row {
        design: FORCED,
        policy: b"100,391\n100,391\n",
        reference: b"1,0\n1,0\n",
        bounds: [
            655,
            1001921,
            1,
            10043781021696,
            296352743424,
            17592186044416,
        ],
        sizes: [0, 1, 4, 12, 6],
        clamp: 32,
        rows: &[10043781021696],
        eps: 489626271744,
    },
    // Numbers over large denominators.
    Row {
        design: FINE_STILL,
        policy: b"1,0,0\n8,-7,0\n",
        reference: b"1,0,0\n5,-3,-1\n",
        bounds: [8192, 12903, 1, 11113227878400, 236223201280, 17592186044416],
        sizes: [1, 1, 8, 20, 20],
        clamp: 1024,
        rows: &[11113227878400; 5],
        eps: 1040522936320,
    },
];

#[test]
fn accelerated(rt: HostRuntime) -> Result<(), Fail> {
    for row in &ROWS {
        assert!(rt; is_row_of(rt.alloc(), row, true)?);
    }
    Ok(())
}

// Of a policy alone: there are no reference plans.
static BY_MARGIN: [Row; 2] = [
    // Where the other machine takes 4 steps.
    Row {
        design: WORKED,
        policy: PLANS,
        reference: b"",
        bounds: [8192, 1, 8, 7873514904690, 438124412928, 62988119237520],
        sizes: [1, 3, 10, 26, 12],
        clamp: 32768,
        rows: &[5918827566422, 7873514904690, 7873514904690],
        eps: 810645716992,
    },
    // Where it takes 641.
    Row {
        design: CLOSER,
        policy: PLANS,
        reference: b"",
        bounds: [8192, 1, 8, 80499519516, 219128266752, 643996156128],
        sizes: [1, 50, 11, 29, 12],
        clamp: 65536,
        rows: &[67222397973, 80499519516, 80499519516],
        eps: 425941008384,
    },
];

#[test]
fn of_a_policy(rt: HostRuntime) -> Result<(), Fail> {
    for row in &BY_MARGIN {
        assert!(rt; is_row_of(rt.alloc(), row, false)?);
    }
    Ok(())
}
