// A controller, from a condensed form, the chosen numbers and the gains.
ghost use Rattle.std.specs.Prelude.{ℕ, List, ◌≡◌, ◌≤◌, ◌<◌, ◌*◌, ◌+◌, ◌^◌, ◌≤ℤ◌, pos, unsigned_abs, IfOk, IfErr, OnOk};
ghost use Rattle.std.specs.Option.{SomeIff};
ghost use Rattle.qp_model.specs.form.Class.{form_of};
ghost use Rattle.qp_model.specs.problem.Design as model;
ghost use Rattle.qp_model.specs.problem.Parts.{IsDesign, design_of};
ghost use Rattle.qp_model.specs.problem.Range.{LiesIn};
ghost use Rattle.qp_model.specs.form.Columns.{descent_size};
ghost use Rattle.qp_model.specs.machine.Controller.{numbers, IsSized};
ghost use Rattle.qp_model.specs.machine.AbsoluteSums.{greatest_sum};
ghost use Rattle.overflow_check.specs.FastController.{most_fast_steps, IsFastSized, greatest_fast_sum};
ghost use Rattle.overflow_check.specs.Machines as machines;
ghost use Rattle.overflow_check.specs.declared.machine.Machine as kinds;
ghost use Rattle.overflow_check.specs.Machines.{IsSizedFor};
ghost use Rattle.overflow_check.specs.Width.{IsWidth};
ghost use Rattle.condensed_form.specs.Form.{IsFormOf};
ghost use Rattle.approx_inverse.specs.Inverse.{IsInverseOf};
ghost use Rattle.controller_maker.specs.Widest.{width_size_for, width_size, fast_width_size};
ghost use Rattle.controller_maker.specs.Fault.{IsWidthFault};
ghost use Rattle.controller_maker.specs.Assembled.{version_for, lists_for, most_steps_for, AreRowsOf, HasExponentsFor, HasExponents, HasFastExponents, IsFrame, AreGains, IsAssembledFor, IsAssembled, IsFastAssembled};

use crate::rounding::{Rows, rounded_rows};
use crate::widest::widest_gains;
use approx_inverse::Inverse;
use condensed_form::Condensed;
use frac_scaled::shift_left;
use overflow_check::{Controller, FAST_VERSION, FastController, Machine, greatest_for};
use qp_model::{ControllerParts, Design, DesignParts, Quantity, SizeFault};
use std::alloc::{AllocError, Global};

// The sum is too wide.
const WIDE: SizeFault = SizeFault::TooWide {
    quantity: Quantity::Width,
};

/// The chosen numbers of a controller.
#[derive(Clone, Copy)]
pub struct Settings {
    /// s, the step exponent.
    pub s: u32,
    /// f, the fraction bits.
    pub f: u32,
    /// K, the steps of a run.
    pub steps: u32,
    /// R: half the greatest multiplier.
    pub r: i128,
}

// `2 * r * 2^k`, where it is at most `2^126`.
fn clamp_of(r: i128, k: u32) -> Option<i128>
    requires low { pos 1 ≤ℤ r }
    requires high { r ≤ℤ pos (2 ^ 44) }
    requires bits { k ≤ 88 }
    ensures { SomeIff result (2 * unsigned_abs r * 2 ^ k ≤ 2 ^ 126) (pos (2 * unsigned_abs r * 2 ^ k)) }
{
    match shift_left(2 * r, k) {
        Some(clamp) if clamp <= 1 << 126 => Some(clamp),
        _ => None,
    }
}

// The box of a design's states: the least and the greatest of each coordinate, over `2^g`.
#[derive(Drop)]
struct StateBox {
    lo: Vec<i128>,
    hi: Vec<i128>,
}

fn state_box(parts: &DesignParts) -> Result<StateBox, AllocError>
    ensures low { IfOk result (λ held. held.lo.items ≡ parts.now.lo.items) }
    ensures high { IfOk result (λ held. held.hi.items ≡ parts.now.hi.items) }
{
    Ok(StateBox {
        lo: parts.lo.clone()?,
        hi: parts.hi.clone()?,
    })
}

// The version of the text of a design's controller.
fn version_of(parts: &DesignParts, machine: Machine) -> u32
    ensures { result ≡ version_for machine (design_of parts.now) }
{
    match machine {
        Machine::Plain => parts.version,
        Machine::Accelerated => FAST_VERSION,
    }
}

// The lists of multipliers that a machine holds.
fn lists_of(machine: Machine) -> usize
    ensures value { result ≡ lists_for machine }
    ensures few { result ≤ 3 }
{
    match machine {
        Machine::Plain => 1,
        Machine::Accelerated => 3,
    }
}

// A controller's parts with these numbers, a greatest multiplier, step exponents of the rows, rows, gains and box. Its width is not chosen yet.
fn parts_with(
    machine: Machine,
    parts: &DesignParts,
    settings: Settings,
    clamp: i128,
    exps: Vec<u32>,
    rows: Rows,
    gains: Inverse,
    held: StateBox,
) -> ControllerParts
    requires design { IsDesign parts.now }
    requires rows { AreRowsOf (design_of parts.now) settings.f rows }
    requires low { held.lo.items ≡ parts.now.lo.items }
    requires high { held.hi.items ≡ parts.now.hi.items }
    ensures frame { (r : ℕ) → clamp ≡ pos (2 * r * 2 ^ (settings.f + settings.s)) →
        IsFrame machine (design_of parts.now) r settings.s exps.items settings.steps settings.f (numbers result) }
    ensures gains { AreGains gains (numbers result) }
{
    let (m, nu) = (rows.g_mat.rows(), rows.g_mat.cols());
    ControllerParts {
        version: version_of(parts, machine),
        n: parts.states,
        p: parts.inputs,
        stages: parts.stages,
        m,
        f: settings.f,
        g: parts.grid,
        s: settings.s,
        w: 128,
        steps: settings.steps,
        clamp,
        words: parts.states + lists_of(machine) * m + 2 * nu,
        exps,
        lo: held.lo,
        hi: held.hi,
        p_mat: gains.p_mat,
        t: gains.t,
        w_mat: gains.w_mat,
        g_mat: rows.g_mat,
        e_mat: rows.e_mat,
        bound: rows.bound,
    }
}

// A controller's parts with these numbers, whose gains are as large as those of any good solutions. Its width is not chosen yet.
fn widest_parts(
    alloc: Global,
    machine: Machine,
    design: &Design,
    condensed: &Condensed,
    settings: Settings,
    clamp: i128,
    exps: Vec<u32>,
) -> Result<ControllerParts, AllocError>
    requires form { IsFormOf design.now condensed.now }
    requires room { descent_size (form_of (design_of design.now)) settings.f ≤ 2 ^ 126 }
    requires bits { LiesIn design.now.grid 48 settings.f }
    requires exponent { settings.s ≤ 40 }
    requires exponents { HasExponentsFor machine (design_of design.now) settings.s exps.items }
    requires steps { LiesIn 1 (most_steps_for machine) settings.steps }
    requires clamp { clamp ≡ pos (2 * unsigned_abs settings.r * 2 ^ (settings.f + settings.s)) }
    requires limit { 2 * unsigned_abs settings.r * 2 ^ (settings.f + settings.s) ≤ 2 ^ 126 }
    ensures frame { IfOk result (λ c. IsFrame machine (design_of design.now) (unsigned_abs settings.r) settings.s exps.items settings.steps settings.f (numbers c)) }
    ensures sized { IfOk result (λ c. IsSizedFor machine (numbers c)) }
    ensures sum { IfOk result (λ c.
        machines.greatest_for machine (numbers c) ≡ width_size_for machine (design_of design.now) (unsigned_abs settings.r) settings.s settings.steps settings.f) }
{
    let rows = rounded_rows(alloc, condensed, settings.f)?;
    let widest = match widest_gains(alloc, condensed, settings.f) {
        Ok(widest) => widest,
        Err(fault) => {
            drop(rows);
            return Err(fault);
        }
    };
    let parts = design.parts();
    match state_box(parts) {
        Ok(held) => Ok(parts_with(machine, parts, settings, clamp, exps, rows, widest, held)),
        Err(fault) => {
            drop(rows);
            drop(widest);
            Err(fault)
        }
    }
}

// The parts with these gains in place of others.
fn with_gains(parts: ControllerParts, gains: Inverse) -> ControllerParts
    ensures gains { AreGains gains (numbers result) }
    ensures frame { (m : kinds.Machine) (d : model.Design) (r s : ℕ) (es : List ℕ) (k f : ℕ) →
        IsFrame m d r s es k f (numbers parts) → IsFrame m d r s es k f (numbers result) }
{
    ControllerParts {
        p_mat: gains.p_mat,
        t: gains.t,
        w_mat: gains.w_mat,
        ..parts
    }
}

// The parts of a controller of a design with these numbers, a step exponent of each row, and gains, which its width is still to be chosen for. `TooWide` exactly where its
// absolute sums could be above 2^126 with gains as large as those of any good solutions.
fn assembled(
    alloc: Global,
    machine: Machine,
    design: &Design,
    condensed: &Condensed,
    settings: Settings,
    exps: Vec<u32>,
    gains: Inverse,
) -> Result<ControllerParts, SizeFault>
    requires form { IsFormOf design.now condensed.now }
    requires gains { IsInverseOf (form_of (design_of design.now)) settings.f gains }
    requires room { descent_size (form_of (design_of design.now)) settings.f ≤ 2 ^ 126 }
    requires bits { LiesIn design.now.grid 48 settings.f }
    requires exponent { settings.s ≤ 40 }
    requires exponents { HasExponentsFor machine (design_of design.now) settings.s exps.items }
    requires steps { LiesIn 1 (most_steps_for machine) settings.steps }
    requires low { pos 1 ≤ℤ settings.r }
    requires high { settings.r ≤ℤ pos (2 ^ 44) }
    ensures sized { IfOk result (λ c. IsSizedFor machine (numbers c)) }
    ensures room { IfOk result (λ c. machines.greatest_for machine (numbers c) ≤ 2 ^ 126) }
    ensures made { IfOk result (λ c. (w : ℕ) → IsWidth (machines.greatest_for machine (numbers c)) w →
        IsAssembledFor machine (design_of design.now) (unsigned_abs settings.r) settings.s exps.items settings.steps settings.f (record (numbers c) { width = w })) }
    ensures fits { OnOk result (width_size_for machine (design_of design.now) (unsigned_abs settings.r) settings.s settings.steps settings.f ≤ 2 ^ 126) }
    ensures wide { IfErr result (λ e.
        IsWidthFault e (2 ^ 126 < width_size_for machine (design_of design.now) (unsigned_abs settings.r) settings.s settings.steps settings.f)) }
{
    // What is given back is dropped by one call: else each of its matrices is dropped beside the others.
    let Some(clamp) = clamp_of(settings.r, settings.f + settings.s) else {
        drop(gains);
        return Err(WIDE);
    };
    let Ok(parts) = widest_parts(alloc, machine, design, condensed, settings, clamp, exps) else {
        drop(gains);
        return Err(SizeFault::Memory);
    };
    if greatest_for(&parts, machine).is_none() {
        drop(parts);
        drop(gains);
        return Err(WIDE);
    }
    Ok(with_gains(parts, gains))
}

// The controller with these parts and the least width that their absolute sums let pass.
fn with_width(parts: ControllerParts) -> Controller
    requires sized { IsSized (numbers parts) }
    requires room { greatest_sum (numbers parts) ≤ 2 ^ 126 }
    ensures parts { result ≡ record (numbers parts) { width = result.width } }
    ensures width { IsWidth (greatest_sum (numbers parts)) result.width }
{
    match Controller::with_least_width(parts) {
        Some(controller) => controller,
        None => unreachable!(),
    }
}

// That of the accelerated machine.
fn with_fast_width(parts: ControllerParts) -> FastController
    requires sized { IsFastSized (numbers parts) }
    requires room { greatest_fast_sum (numbers parts) ≤ 2 ^ 126 }
    ensures parts { result ≡ record (numbers parts) { width = result.width } }
    ensures width { IsWidth (greatest_fast_sum (numbers parts)) result.width }
{
    match FastController::with_least_width(parts) {
        Some(controller) => controller,
        None => unreachable!(),
    }
}

/// The controller of a design with these numbers, a step exponent of each row, and gains: its width is the least that its absolute sums let pass. `TooWide`
/// exactly where these sums could be above `2^126` with gains as large as those of any good solutions.
pub fn controller_of(
    alloc: Global,
    design: &Design,
    condensed: &Condensed,
    settings: Settings,
    exps: Vec<u32>,
    gains: Inverse,
) -> Result<Controller, SizeFault>
    requires form { IsFormOf design.now condensed.now }
    requires gains { IsInverseOf (form_of (design_of design.now)) settings.f gains }
    requires room { descent_size (form_of (design_of design.now)) settings.f ≤ 2 ^ 126 }
    requires bits { LiesIn design.now.grid 48 settings.f }
    requires exponent { settings.s ≤ 40 }
    requires exponents { HasExponents (design_of design.now) settings.s exps.items }
    requires steps { LiesIn 1 (2 ^ 22) settings.steps }
    requires low { pos 1 ≤ℤ settings.r }
    requires high { settings.r ≤ℤ pos (2 ^ 44) }
    ensures made { IfOk result (IsAssembled (design_of design.now) (unsigned_abs settings.r) settings.s exps.items settings.steps settings.f) }
    ensures fits { OnOk result (width_size (design_of design.now) (unsigned_abs settings.r) settings.s settings.steps settings.f ≤ 2 ^ 126) }
    ensures wide { IfErr result (λ e.
        IsWidthFault e (2 ^ 126 < width_size (design_of design.now) (unsigned_abs settings.r) settings.s settings.steps settings.f)) }
{
    match assembled(
        alloc,
        Machine::Plain,
        design,
        condensed,
        settings,
        exps,
        gains,
    ) {
        Ok(parts) => Ok(with_width(parts)),
        Err(fault) => Err(fault),
    }
}

/// The controller of the accelerated machine of a design, with these numbers, a step exponent of each row, and gains: its width is the least that its absolute sums let pass.
/// `TooWide` exactly where these sums could be above `2^126` with gains as large as those of any good solutions.
pub fn fast_controller_of(
    alloc: Global,
    design: &Design,
    condensed: &Condensed,
    settings: Settings,
    exps: Vec<u32>,
    gains: Inverse,
) -> Result<FastController, SizeFault>
    requires form { IsFormOf design.now condensed.now }
    requires gains { IsInverseOf (form_of (design_of design.now)) settings.f gains }
    requires room { descent_size (form_of (design_of design.now)) settings.f ≤ 2 ^ 126 }
    requires bits { LiesIn design.now.grid 48 settings.f }
    requires exponent { settings.s ≤ 40 }
    requires exponents { HasFastExponents (design_of design.now) settings.s exps.items }
    requires steps { LiesIn 1 most_fast_steps settings.steps }
    requires low { pos 1 ≤ℤ settings.r }
    requires high { settings.r ≤ℤ pos (2 ^ 44) }
    ensures made { IfOk result (IsFastAssembled (design_of design.now) (unsigned_abs settings.r) settings.s exps.items settings.steps settings.f) }
    ensures fits { OnOk result (fast_width_size (design_of design.now) (unsigned_abs settings.r) settings.s settings.steps settings.f ≤ 2 ^ 126) }
    ensures wide { IfErr result (λ e.
        IsWidthFault e (2 ^ 126 < fast_width_size (design_of design.now) (unsigned_abs settings.r) settings.s settings.steps settings.f)) }
{
    match assembled(
        alloc,
        Machine::Accelerated,
        design,
        condensed,
        settings,
        exps,
        gains,
    ) {
        Ok(parts) => Ok(with_fast_width(parts)),
        Err(fault) => Err(fault),
    }
}
