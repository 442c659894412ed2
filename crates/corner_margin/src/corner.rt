// The plan of one corner of the box, run in enclosures over a unit.
ghost use Rattle.std.specs.Prelude.{◌≡◌, ℕ, ◌+◌, ◌*◌, ◌^◌, ◌<◌, ◌≤◌, pos, ◌*ℤ◌, ◌≤ℤ◌, length, unsigned_abs, IfOk};
ghost use Rattle.integer_algebra.specs.Division.{floor_of};
ghost use Rattle.integer_algebra.specs.Sums.{at};
ghost use Rattle.enclosure.specs.Values.{pair};
ghost use Rattle.qp_model.specs.problem.Box.{corner};
ghost use Rattle.qp_model.specs.problem.Parts.{design_of, IsDesign};
ghost use Rattle.qp_model.specs.problem.Policy.{plans_of};
ghost use Rattle.scaled_run.specs.ScaledCorners.{over_unit, scaled_corner_state};
ghost use Rattle.scaled_run.specs.Lists.{HoldsEnclosures};
ghost use Rattle.corner_margin.specs.Corner.{IsCorner};

use crate::fault::MarginFault;
use crate::lists::{entry_weights, first_short, gaps, reaches, slacks, weighted_squares};
use condensed_form::{least_of, scaled_bounds, scaled_targets, weights_of};
use enclosure::{Enc, divided};
use frac_scaled::{Frac, ceil_div, floor_div, scaled};
use qp_model::{DesignParts, Policy};
use scaled_run::ScaledRun;
use std::alloc::{AllocError, Global};

/// Coordinate `i` of corner `c`, from 0 and over `2^grid`: the high one where the bit of value `2^i` is set in c.
pub fn coordinate(parts: &DesignParts, c: usize, i: usize) -> i128
    requires design { IsDesign parts.now }
    requires state { i < parts.now.states }
    ensures { result ≡ corner (design_of parts.now) (c + 1) i }
{
    if (c >> i) % 2 == 1 {
        parts.hi[i]
    } else {
        parts.lo[i]
    }
}

// A number as a signed one.
fn signed(number: u128) -> i128
    requires { number ≤ 2 ^ 126 }
    ensures { result ≡ pos number }
{
    number as i128
}

// A number, times `unit`.
fn brought(number: i128, unit: u128) -> i128
    requires unit { unit ≤ 2 ^ 126 }
    requires fits { unit * unsigned_abs number ≤ 2 ^ 126 }
    ensures { result ≡ pos unit *ℤ number }
{
    signed(unit) * number
}

// `num / den`, over `unit`.
fn over_unit(num: i128, den: i128, unit: u128) -> Enc
    requires divisor { pos 1 ≤ℤ den }
    requires unit { unit ≤ 2 ^ 126 }
    requires fits { unit * unsigned_abs num ≤ 2 ^ 126 }
    ensures { pair result ≡ over_unit unit num (unsigned_abs den) }
{
    let mid = brought(num, unit);
    divided(Enc { mid, rad: 0 }, den)
}

// The coordinates of corner `c`, from 0, over `unit`.
fn start_of(
    alloc: Global,
    parts: &DesignParts,
    c: usize,
    unit: u128,
) -> Result<Vec<Enc>, AllocError>
    requires design { IsDesign parts.now }
    requires unit { unit ≤ 2 ^ 63 }
    ensures { IfOk result (λ v. HoldsEnclosures v.items parts.now.states (scaled_corner_state unit (design_of parts.now) (c + 1))) }
{
    let grid = scaled(1, parts.grid);
    let mut out = Vec::new(alloc);
    for i in 0..parts.states {
        out.push(over_unit(coordinate(parts, c, i), grid, unit))?;
    }
    Ok(out)
}

// The entries of a plan, over `unit`.
fn plan_of(
    alloc: Global,
    numerators: &[i128],
    over: i128,
    unit: u128,
) -> Result<Vec<Enc>, AllocError>
    requires small { (j : ℕ) → j < length numerators.now → unsigned_abs (at numerators.now j) ≤ 2 ^ 63 }
    requires divisor { pos 1 ≤ℤ over }
    requires unit { unit ≤ 2 ^ 63 }
    ensures { IfOk result (λ v. HoldsEnclosures v.items (length numerators.now) (λ j. over_unit unit (at numerators.now j) (unsigned_abs over))) }
{
    let mut out = Vec::new(alloc);
    for number in numerators {
        out.push(over_unit(*number, over, unit))?;
    }
    Ok(out)
}

// `slack / den` in units of `2^-16`, rounded down.
fn in_units(slack: i128, den: i128) -> i128
    requires divisor { pos 1 ≤ℤ den }
    requires fits { 2 ^ 16 * unsigned_abs slack ≤ 2 ^ 126 }
    ensures { result ≡ floor_of (slack *ℤ pos (2 ^ 16)) (unsigned_abs den) }
{
    floor_div(scaled(slack, 16), den)
}

/// A corner with the run of its plan, in enclosures over `unit`.
#[derive(Drop)]
pub struct Corner<'a> {
    policy: &'a Policy,
    // The corner's number, from 0.
    number: usize,
    unit: u128,
    run: ScaledRun<'a>,
    ghost made: { IsCorner run.parts.now (plans_of policy.now) unit run.reach number run.start.items run.plan.items },
}

impl<'a> Corner<'a> {
    ghost use Rattle.std.specs.Prelude.{◌≡◌, ◌≢◌, ◌<◌, ◌+◌, ◌^◌, ℕ, IfOk, Err};
    ghost use Rattle.frac_scaled.specs.declared.fraction.Frac.{Frac};
    ghost use Rattle.qp_model.specs.declared.quantity.Quantity.{Quantity};
    ghost use Rattle.qp_model.specs.problem.Design.{rows};
    ghost use Rattle.qp_model.specs.problem.Parts.{design_of};
    ghost use Rattle.qp_model.specs.problem.Policy.{plans_of};
    ghost use Rattle.qp_model.specs.problem.Runs.{Holds};
    ghost use Rattle.scaled_run.specs.ScaledCorners.{scaled_least_slack, scaled_row_cost, scaled_input_cost};
    ghost use Rattle.corner_margin.specs.Corner.{IsCornerScale, shown_over};
    ghost use Rattle.corner_margin.specs.Simulation.{HasUnits, HasCornerCost, IsShortRow};

    /// Corner `number`, from 0, over `unit`, whose run reaches `reach` at most.
    pub fn new(
        alloc: Global,
        parts: &'a DesignParts,
        policy: &'a Policy,
        unit: u128,
        reach: u128,
        number: usize,
    ) -> Result<Corner<'a>, AllocError>
        requires { IsCornerScale parts.now (plans_of policy.now) unit reach number }
        ensures { IfOk result (λ r. (r.run.parts.now ≡ parts.now) × (r.policy.now ≡ policy.now) × (r.unit ≡ unit) × (r.number ≡ number)) }
    {
        let start = start_of(alloc, parts, number, unit)?;
        let plan = plan_of(alloc, policy.plans.row(number), policy.dens[number], unit)?;
        let run = ScaledRun::new(alloc, parts, reach, start, plan)?;
        Ok(Corner {
            policy,
            number,
            unit,
            run,
        })
    }

    // What the slack of each limit row is at least, over `limit_den * unit`.
    fn slacks(&self, alloc: Global) -> Result<Vec<i128>, AllocError>
        ensures { IfOk result (λ v. Holds v.items (rows (design_of self.now.run.parts.now))
            (scaled_least_slack self.now.unit (design_of self.now.run.parts.now) (plans_of self.now.policy.now) (self.now.number + 1))) }
    {
        let values = self.run.limits(alloc)?;
        let bounds = scaled_bounds(alloc, self.run.parts, signed(self.unit))?;
        slacks(alloc, &bounds, &values)
    }

    /// The least of these slacks of all limit rows in units of `2^-16`, rounded down, or the first row that has less than one.
    pub fn units(&self, alloc: Global) -> Result<i128, MarginFault>
        ensures units { let d = design_of self.now.run.parts.now in
            IfOk result (HasUnits (shown_over self.now.unit d (plans_of self.now.policy.now)) (rows d) (self.now.number + 1)) }
        ensures short { let d = design_of self.now.run.parts.now in (corner row : ℕ) (slack : Frac) →
            result ≡ Err (MarginFault.NoMargin corner row slack) →
            (corner ≡ self.now.number + 1) × IsShortRow (shown_over self.now.unit d (plans_of self.now.policy.now)) (rows d) (self.now.number + 1) row slack }
        ensures room { (quantity : Quantity) → result ≢ Err (MarginFault.TooWide quantity) }
    {
        let slacks = self.slacks(alloc)?;
        let den = brought(self.run.parts.limit_den, self.unit);
        match first_short(&slacks, den) {
            Some(i) => Err(MarginFault::NoMargin {
                corner: self.number as u32 + 1,
                row: i as u32 + 1,
                slack: Frac {
                    num: slacks[i],
                    den,
                },
            }),
            None => Ok(in_units(least_of(&slacks), den)),
        }
    }

    // What the rows cost at most, over `cost_den * (row_den * unit)^2`.
    fn row_cost(&self, alloc: Global) -> Result<i128, AllocError>
        ensures { IfOk result (λ sum.
            sum ≡ scaled_row_cost self.now.unit (design_of self.now.run.parts.now) (plans_of self.now.policy.now) (self.now.number + 1)) }
    {
        let weights = weights_of(alloc, self.run.parts)?;
        let values = self.run.costs(alloc)?;
        let targets = scaled_targets(alloc, self.run.parts, signed(self.unit))?;
        let gaps = gaps(alloc, &values, &targets)?;
        Ok(weighted_squares(&weights, &gaps))
    }

    // What the inputs cost at most, over the same.
    fn input_cost(&self, alloc: Global) -> Result<i128, AllocError>
        ensures { IfOk result (λ sum.
            sum ≡ scaled_input_cost self.now.unit (design_of self.now.run.parts.now) (plans_of self.now.policy.now) (self.now.number + 1)) }
    {
        let weights = entry_weights(alloc, self.run.parts)?;
        let inputs = reaches(alloc, &self.run.plan, self.run.parts.row_den)?;
        Ok(weighted_squares(&weights, &inputs))
    }

    /// The most that the plan costs, rounded up to a whole number.
    pub fn cost(&self, alloc: Global) -> Result<i128, AllocError>
        ensures { let d = design_of self.now.run.parts.now in
            IfOk result (HasCornerCost (shown_over self.now.unit d (plans_of self.now.policy.now)) (self.now.number + 1)) }
    {
        let rows = self.row_cost(alloc)?;
        let inputs = self.input_cost(alloc)?;
        let side = brought(self.run.parts.row_den, self.unit);
        Ok(ceil_div(rows + inputs, self.run.parts.cost_den * (side * side)))
    }
}
