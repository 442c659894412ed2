// A controller of one input at one stage of one state, with three rows and four steps.
ghost use Rattle.std.specs.Prelude.{◌≡◌, IfOk};

use mat_int::Mat;
use overflow_check::Controller;
use qp_model::ControllerParts;
use std::alloc::Global;
use std::test::Fail;

// The matrix of these rows.
fn matrix(alloc: Global, cols: usize, rows: &[&[i128]]) -> Result<Mat, Fail> {
    match Mat::from_rows(alloc, cols, rows)? {
        Some(mat) => Ok(mat),
        None => Err("rows of other lengths".into()),
    }
}

// Gains and a box.
#[derive(Drop)]
struct Gains {
    p_mat: Mat,
    w_mat: Mat,
    t: Vec<i128>,
    lo: Vec<i128>,
    hi: Vec<i128>,
}

fn one_gain(alloc: Global) -> Result<Gains, Fail> {
    Ok(Gains {
        p_mat: matrix(alloc, 1, &[&[512]])?,
        w_mat: matrix(alloc, 3, &[&[256, -256, 256]])?,
        t: vec![in alloc; 0]?,
        lo: vec![in alloc; 0]?,
        hi: vec![in alloc; 1]?,
    })
}

// Rows.
#[derive(Drop)]
struct Rows {
    g_mat: Mat,
    e_mat: Mat,
    bound: Vec<i128>,
}

fn three_rows(alloc: Global) -> Result<Rows, Fail> {
    Ok(Rows {
        g_mat: matrix(alloc, 1, &[&[1024], &[-1024], &[1024]])?,
        e_mat: matrix(alloc, 1, &[&[0], &[0], &[1024]])?,
        bound: vec![in alloc; 1024, 1024, 256]?,
    })
}

// All numbers.
fn parts(
    version: u32,
    clamp: i128,
    w: u32,
    exps: Vec<u32>,
    gains: Gains,
    rows: Rows,
) -> ControllerParts
    ensures states { result.n ≡ 1 }
    ensures inputs { result.p ≡ 1 }
    ensures words { result.words ≡ 6 }
{
    ControllerParts {
        version,
        n: 1,
        p: 1,
        stages: 1,
        m: 3,
        f: 10,
        g: 0,
        s: 1,
        w,
        steps: 4,
        clamp,
        words: 6,
        exps,
        lo: gains.lo,
        hi: gains.hi,
        p_mat: gains.p_mat,
        t: gains.t,
        w_mat: gains.w_mat,
        g_mat: rows.g_mat,
        e_mat: rows.e_mat,
        bound: rows.bound,
    }
}

/// The controller of this version, clamp and width, whose rows have these step exponents.
pub fn controller(
    alloc: Global,
    version: u32,
    clamp: i128,
    w: u32,
    exps: [u32; 3],
) -> Result<Controller, Fail>
    ensures states { IfOk result (λ c. c.states ≡ 1) }
    ensures inputs { IfOk result (λ c. c.inputs ≡ 1) }
    ensures words { IfOk result (λ c. c.words ≡ 6) }
{
    let gains = one_gain(alloc)?;
    let rows = three_rows(alloc)?;
    let exps = exps.to_vec(alloc)?;
    Ok(Controller::from_parts(parts(version, clamp, w, exps, gains, rows))?)
}
