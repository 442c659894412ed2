//! The places of a design text, read in their order.
ghost use Rattle.std.specs.Prelude.{◌≡◌, ◌⊎◌, ℕ, true, pos, ◌<◌, ◌≤◌, ◌+◌, ◌≤ℤ◌, ◌++◌, [], ◌∷◌, length, Some, Err, IfOk, IfErr, IsOkAnd};
ghost use Rattle.integer_algebra.specs.Sums.{at};
ghost use Rattle.qp_model.specs.declared.design_parts.DesignParts.{DesignParts};
ghost use Rattle.number_text.specs.declared.text_fault.TextFault.{TextFault};
ghost use Rattle.qp_model.specs.problem.Limits.{last_version, most_states, most_inputs};
ghost use Rattle.qp_model.specs.problem.Range.{LiesIn};
ghost use Rattle.qp_model.specs.problem.Parts.{IsDesign, design_numbers};
ghost use Rattle.qp_model.specs.problem.PartRules.{AreHighs, AreLimits};
ghost use Rattle.qp_model.specs.problem.Rules.{shape, range};
ghost use Rattle.design_files.specs.Numbers.{IsIntegerList, IsLists, count_of, list_of, lists_of};
ghost use Rattle.design_files.specs.Keys.{found, seen};
ghost use Rattle.design_files.specs.Values.{Values};
ghost use Rattle.design_files.specs.Places.{count_rules, denominator_rules, positive_rules, table_rules, cost_row_rules, input_rules, low_rules, size_places, plant_places, cost_places, limit_places, box_places, target_places, place_rules};
ghost use Rattle.design_files.specs.Sections.{HasCount, HasDenominator, HasPositive, HasTable, HasCosts, HasInputs, HasLine, HasSizeNumbers, HasPlant, HasCostNumbers, HasLimits, HasBox, HasTargets, HasFirst, HasLast};
ghost use Rattle.design_files.specs.DesignText.{HasNumbers, Reads, IsDesignText, IsDesignFault};
ghost use Rattle.toml.specs.View.{view};
ghost use Rattle.toml.specs.Data.{integer};
ghost use Rattle.design_files.specs.AskedText.{asks_fast, plain_values, IsAskedText, IsAskedFault};
ghost use Rattle.design_files.specs.declared.places.Asked.{Asked};

use crate::document::read_document;
use crate::keys::{Keys, find_keys};
use crate::numbers::{list, lists, number};
use mat_int::Mat;
use number_text::TextFault;
use qp_model::range::{
    are_costs, are_highs, are_limits, are_numerators, are_positive, has_numerators, is_denominator,
    is_positive,
};
use qp_model::rules::in_range;
use qp_model::{
    Design, DesignParts, FIRST_VERSION, LAST_VERSION, MOST_INPUTS, most_stages, most_states,
};
use std::alloc::Global;
use toml::Value;

/// The design that a text of version 1 or 2 writes, or the text's first fault: that it is no TOML document, then the first key in the
/// order of the places that is absent, then a further key, and then for each place in turn the shape of its value and the range of
/// its numbers. In version 1 a design has up to 4 states, 3 inputs and 20 stages, in version 2 up to 6, 3 and 30.
pub fn read_design(alloc: Global, bytes: &[u8]) -> Result<Design, TextFault>
    ensures text { IfOk result (λ design. IsDesignText bytes.now design) }
    ensures fault { IfErr result (λ fault. (fault ≡ TextFault.Memory) ⊎ IsDesignFault bytes.now fault) }

    // The other way round, unless memory runs out.
    ensures every_text { (p : DesignParts) → IsDesignText bytes.now p
        → (result ≡ Err TextFault.Memory) ⊎ IsOkAnd result (λ design. design_numbers design ≡ design_numbers p) }
    ensures every_fault { (fault : TextFault) → IsDesignFault bytes.now fault
        → (result ≡ Err TextFault.Memory) ⊎ (result ≡ Err fault) }
{
    match read_text(alloc, bytes, false) {
        Ok(asked) => Ok(asked.design),
        Err(fault) => Err(fault),
    }
}

/// What a design text asks for.
#[derive(Drop)]
pub struct Asked {
    /// The design.
    pub design: Design,
    /// Whether its controllers are to be those of the accelerated machine.
    pub fast: bool,
}

/// What a text of version 1, 2 or 3 asks for, or its first fault, as `read_design` tells it. A text of version 3 is the design that it would be with 2 in
/// its place, and asks for the accelerated machine.
pub fn read_any_design(alloc: Global, bytes: &[u8]) -> Result<Asked, TextFault>
    ensures text { IfOk result (λ asked. IsAskedText true bytes.now asked) }
    ensures fault { IfErr result (λ fault. (fault ≡ TextFault.Memory) ⊎ IsAskedFault true bytes.now fault) }

    // The other way round, unless memory runs out.
    ensures every_text { (k : Asked) → IsAskedText true bytes.now k
        → (result ≡ Err TextFault.Memory) ⊎ IsOkAnd result (λ asked. (design_numbers asked.design ≡ design_numbers k.design) × (asked.fast ≡ k.fast)) }
    ensures every_fault { (fault : TextFault) → IsAskedFault true bytes.now fault
        → (result ≡ Err TextFault.Memory) ⊎ (result ≡ Err fault) }
{
    read_text(alloc, bytes, true)
}

// The same, where the other way round follows, of version 1 or 2 alone or of any.
fn read_text(alloc: Global, bytes: &[u8], any: bool) -> Result<Asked, TextFault>
    ensures text { IfOk result (λ asked. IsAskedText any bytes.now asked) }
    ensures fault { IfErr result (λ fault. (fault ≡ TextFault.Memory) ⊎ IsAskedFault any bytes.now fault) }
{
    let document = read_document(alloc, bytes)?;
    let keys = find_keys(&document)?;
    let second = Value::Integer(2);
    let plain = plain_keys(&keys, any, &second);
    let parts = read_parts(alloc, &plain)?;
    Ok(Asked {
        design: Design::new(parts),
        fast: asks_fast(&keys, any),
    })
}

// Whether a text of any version asks for the accelerated machine.
fn asks_fast(keys: &Keys, any: bool) -> bool
    ensures { result ≡ asks_fast any (seen keys.now) }
{
    any && keys.is_fast()
}

// The keys, with 2 at the version where a text of any version asks for the accelerated machine.
fn plain_keys<'a>(keys: &Keys<'a>, any: bool, second: &'a Value) -> Keys<'a>
    requires { view second.now ≡ integer (pos 2) }
    ensures { seen result ≡ plain_values any (seen keys.now) }
{
    if asks_fast(keys, any) {
        keys.with_version(second)
    } else {
        *keys
    }
}

#[derive(Clone, Copy)]
struct Sizes {
    version: u32,
    states: usize,
    inputs: usize,
    stages: usize,
}

#[derive(Drop)]
struct PlantNumbers {
    den: i128,
    a: Mat,
    b: Mat,
}

#[derive(Drop)]
struct CostNumbers {
    den: i128,
    row_den: i128,
    input: Vec<i128>,
    stage: Mat,
    final_: Mat,
}

#[derive(Drop)]
struct LimitNumbers {
    den: i128,
    stage: Mat,
    final_: Mat,
}

#[derive(Drop)]
struct BoxNumbers {
    grid: u32,
    lo: Vec<i128>,
    hi: Vec<i128>,
}

#[derive(Clone, Copy)]
struct TargetNumbers {
    den: i128,
    violation: i128,
    gap: i128,
}

// What the text says before the limits.
#[derive(Drop)]
struct FirstNumbers {
    sizes: Sizes,
    plant: PlantNumbers,
    cost: CostNumbers,
}

// What it says from the limits on.
#[derive(Drop)]
struct LastNumbers {
    limits: LimitNumbers,
    bounds: BoxNumbers,
    targets: TargetNumbers,
}

fn read_parts(alloc: Global, keys: &Keys) -> Result<DesignParts, TextFault>
    ensures { let v = seen keys.now in Reads result (λ p. HasNumbers v p × IsDesign p) (place_rules v) }
{
    let first = read_first(alloc, keys)?;
    let last = read_last(alloc, keys, first.sizes.states, first.sizes.inputs)?;
    Ok(joined(first, last))
}

// The numbers of both halves.
fn joined(first: FirstNumbers, last: LastNumbers) -> DesignParts
    ensures { (v : Values) → HasFirst v first → HasLast v first.sizes.states first.sizes.inputs last → HasNumbers v result × IsDesign result }
{
    let FirstNumbers { sizes, plant, cost } = first;
    let LastNumbers {
        limits,
        bounds,
        targets,
    } = last;
    DesignParts {
        version: sizes.version,
        states: sizes.states,
        inputs: sizes.inputs,
        stages: sizes.stages,
        plant_den: plant.den,
        a: plant.a,
        b: plant.b,
        cost_den: cost.den,
        row_den: cost.row_den,
        input_weights: cost.input,
        stage_cost: cost.stage,
        final_cost: cost.final_,
        limit_den: limits.den,
        stage_rows: limits.stage,
        final_rows: limits.final_,
        grid: bounds.grid,
        lo: bounds.lo,
        hi: bounds.hi,
        target_den: targets.den,
        violation: targets.violation,
        gap: targets.gap,
    }
}

fn read_first(alloc: Global, keys: &Keys) -> Result<FirstNumbers, TextFault>
    ensures { let v = seen keys.now in let n = count_of v.states in let p = count_of v.inputs in
        Reads result (HasFirst v) (size_places v ++ (plant_places n p v ++ cost_places n p v)) }
{
    let sizes = read_sizes(keys)?;
    let plant = read_plant(alloc, keys, sizes.states, sizes.inputs)?;
    let cost = read_cost(alloc, keys, sizes.states, sizes.inputs)?;
    Ok(FirstNumbers { sizes, plant, cost })
}

fn read_last(alloc: Global, keys: &Keys, n: usize, p: usize) -> Result<LastNumbers, TextFault>
    requires states { n ≤ most_states last_version }
    requires inputs { p ≤ most_inputs last_version }
    ensures { let v = seen keys.now in
        Reads result (HasLast v n p) (limit_places n p v ++ (box_places n v ++ target_places v)) }
{
    let limits = read_limits(alloc, keys, n, p)?;
    let bounds = read_box(alloc, keys, n)?;
    let targets = read_targets(keys)?;
    Ok(LastNumbers {
        limits,
        bounds,
        targets,
    })
}

/// The integer at a place that lies from low to high.
fn read_count(keys: &Keys, place: u32, low: usize, high: usize) -> Result<usize, TextFault>
    requires { LiesIn 1 21 place }
    ensures { let seen = found keys.now place in
        Reads result (HasCount seen low high) (count_rules place low high seen) }
{
    let z = number(keys, place)?;
    in_range(place, low as i128 <= z && z <= high as i128)?;
    Ok(z as usize)
}

fn read_denominator(keys: &Keys, place: u32) -> Result<i128, TextFault>
    requires { LiesIn 1 21 place }
    ensures { let seen = found keys.now place in
        Reads result (HasDenominator seen) (denominator_rules place seen) }
{
    let z = number(keys, place)?;
    in_range(place, is_denominator(z))?;
    Ok(z)
}

fn read_positive(keys: &Keys, place: u32) -> Result<i128, TextFault>
    requires { LiesIn 1 21 place }
    ensures { let seen = found keys.now place in
        Reads result (HasPositive seen) (positive_rules place seen) }
{
    let z = number(keys, place)?;
    in_range(place, is_positive(z))?;
    Ok(z)
}

// Low to high lists of so many numerators each.
fn read_table(
    alloc: Global,
    keys: &Keys,
    place: u32,
    low: usize,
    high: usize,
    width: usize,
) -> Result<Mat, TextFault>
    requires { LiesIn 1 21 place }
    ensures { let seen = found keys.now place in
        Reads result (HasTable seen low high width) (table_rules place low high width seen) }
{
    let m = lists(alloc, keys, place, low, high, width)?;
    in_range(place, has_numerators(&m))?;
    Ok(m)
}

// Rows of n coefficients, a target and a weight.
fn read_cost_rows(alloc: Global, keys: &Keys, place: u32, n: usize) -> Result<Mat, TextFault>
    requires place { LiesIn 1 21 place }
    requires states { n ≤ most_states last_version }
    ensures { let seen = found keys.now place in
        Reads result (HasCosts seen n) (cost_row_rules place n seen) }
{
    let m = lists(alloc, keys, place, 0, 12, n + 2)?;
    in_range(place, are_costs(&m, n + 1))?;
    Ok(m)
}

fn read_inputs(alloc: Global, keys: &Keys, p: usize) -> Result<Vec<i128>, TextFault>
    ensures { let seen = found keys.now 10 in
        Reads result (λ zs. HasInputs seen p zs.items) (input_rules p seen) }
{
    let weights = list(alloc, keys, 10, p)?;
    in_range(10, are_positive(&weights))?;
    Ok(weights)
}

fn read_low(alloc: Global, keys: &Keys, n: usize) -> Result<Vec<i128>, TextFault>
    ensures { let seen = found keys.now 17 in
        Reads result (λ zs. HasLine seen n zs.items) (low_rules n seen) }
{
    let low = list(alloc, keys, 17, n)?;
    in_range(17, are_numerators(&low))?;
    Ok(low)
}

// As many numerators as low ones, each at least the low one at its place.
fn read_high(alloc: Global, keys: &Keys, low: &[i128]) -> Result<Vec<i128>, TextFault>
    ensures { let seen = found keys.now 18 in let n = length low.now in
        Reads result (λ zs. HasLine seen n zs.items × ((i : ℕ) → i < n → at low.now i ≤ℤ at zs.items i))
        (shape 18 (IsIntegerList n seen) ∷ range 18 (AreHighs (list_of seen) low.now n) ∷ []) }
{
    let high = list(alloc, keys, 18, low.len())?;
    in_range(18, are_highs(&high, low))?;
    Ok(high)
}

// Rows of n coefficients and a bound, where there is one here or among the others.
fn read_final_rows(alloc: Global, keys: &Keys, others: &Mat, n: usize) -> Result<Mat, TextFault>
    requires { n ≤ most_states last_version }
    ensures { let seen = found keys.now 15 in
        Reads result (λ m. HasTable seen 0 12 (n + 1) m × (1 ≤ length others.now.rows + length m.rows))
        (shape 15 (IsLists 0 12 (n + 1) seen) ∷ range 15 (AreLimits (lists_of seen) others.now.rows) ∷ []) }
{
    let m = lists(alloc, keys, 15, 0, 12, n + 1)?;
    in_range(15, are_limits(&m, others))?;
    Ok(m)
}

fn read_sizes(keys: &Keys) -> Result<Sizes, TextFault>
    ensures { let v = seen keys.now in Reads result (HasSizeNumbers v) (size_places v) }
{
    let version = read_count(keys, 1, FIRST_VERSION as usize, LAST_VERSION as usize)? as u32;
    Ok(Sizes {
        version,
        states: read_count(keys, 2, 1, most_states(version))?,
        inputs: read_count(keys, 3, 1, MOST_INPUTS)?,
        stages: read_count(keys, 4, 1, most_stages(version))?,
    })
}

fn read_plant(alloc: Global, keys: &Keys, n: usize, p: usize) -> Result<PlantNumbers, TextFault>
    ensures { let v = seen keys.now in Reads result (HasPlant v n p) (plant_places n p v) }
{
    Ok(PlantNumbers {
        den: read_denominator(keys, 5)?,
        a: read_table(alloc, keys, 6, n, n, n)?,
        b: read_table(alloc, keys, 7, n, n, p)?,
    })
}

fn read_cost(alloc: Global, keys: &Keys, n: usize, p: usize) -> Result<CostNumbers, TextFault>
    requires { n ≤ most_states last_version }
    ensures { let v = seen keys.now in Reads result (HasCostNumbers v n p) (cost_places n p v) }
{
    Ok(CostNumbers {
        den: read_denominator(keys, 8)?,
        row_den: read_denominator(keys, 9)?,
        input: read_inputs(alloc, keys, p)?,
        stage: read_cost_rows(alloc, keys, 11, n)?,
        final_: read_cost_rows(alloc, keys, 12, n)?,
    })
}

fn read_limits(alloc: Global, keys: &Keys, n: usize, p: usize) -> Result<LimitNumbers, TextFault>
    requires states { n ≤ most_states last_version }
    requires inputs { p ≤ most_inputs last_version }
    ensures { let v = seen keys.now in Reads result (HasLimits v n p) (limit_places n p v) }
{
    let den = read_denominator(keys, 13)?;
    let stage = read_table(alloc, keys, 14, 0, 12, n + p + 1)?;
    let final_ = read_final_rows(alloc, keys, &stage, n)?;
    Ok(LimitNumbers { den, stage, final_ })
}

fn read_box(alloc: Global, keys: &Keys, n: usize) -> Result<BoxNumbers, TextFault>
    ensures { let v = seen keys.now in Reads result (HasBox v n) (box_places n v) }
{
    let grid = read_count(keys, 16, 0, 24)? as u32;
    let lo = read_low(alloc, keys, n)?;
    let hi = read_high(alloc, keys, &lo)?;
    Ok(BoxNumbers { grid, lo, hi })
}

fn read_targets(keys: &Keys) -> Result<TargetNumbers, TextFault>
    ensures { let v = seen keys.now in Reads result (HasTargets v) (target_places v) }
{
    Ok(TargetNumbers {
        den: read_denominator(keys, 19)?,
        violation: read_positive(keys, 20)?,
        gap: read_positive(keys, 21)?,
    })
}
