//! The rules of a design's numbers, tested in the order of their places.
ghost use Rattle.std.specs.Prelude.{◌≡◌, ◌↔◌, ◌<◌, ◌≤◌, IsTrue, All, [], ◌∷◌, length};
ghost use Rattle.qp_model.specs.problem.Range.{IsNumerator};
ghost use Rattle.qp_model.specs.problem.Rules.{AllHold, Tests, shape, range};
ghost use Rattle.qp_model.specs.problem.PartRules.{HasSize, AreCosts, size_rules, plant_rules, cost_rules, limit_rules, box_rules, target_rules, part_rules};

use crate::design_parts::DesignParts;
use crate::limits::{FIRST_VERSION, LAST_VERSION, MOST_INPUTS, most_stages, most_states};
use crate::range::{
    are_costs, are_highs, are_limits, are_numerators, are_positive, has_numerators, is_denominator,
    is_positive, lies_in,
};
use crate::rules::{in_range, in_shape};
use mat_int::Mat;
use number_text::TextFault;

/// The rules of all places: the fault of the first that is broken.
pub fn test_parts(p: &DesignParts) -> Result<(), TextFault>
    ensures { Tests result (part_rules p.now) }
{
    test_sizes(p)?;
    test_plant(p)
        .and(test_cost(p))
        .and(test_limits(p))
        .and(test_box(p))
        .and(test_targets(p))
}

// Whether a matrix has low to high rows of so many numbers.
fn has_size(m: &Mat, low: usize, high: usize, width: usize) -> bool
    ensures { IsTrue result ↔ HasSize m.now low high width }
{
    lies_in(low, high, m.rows()) && m.cols() == width
}

// A table of numerators: its shape, and then its numbers.
fn test_table(place: u32, m: &Mat, low: usize, high: usize, width: usize) -> Result<(), TextFault>
    ensures { Tests result (shape place (HasSize m.now low high width) ∷ range place (All (All IsNumerator) m.now.rows) ∷ []) }
{
    in_shape(place, has_size(m, low, high, width)).and(in_range(place, has_numerators(m)))
}

// A table of cost rows, whose weights stand at the place `weight`.
fn test_costs(place: u32, m: &Mat, width: usize, weight: usize) -> Result<(), TextFault>
    requires { weight < width }
    ensures { Tests result (shape place (HasSize m.now 0 12 width) ∷ range place (AreCosts m.now.rows weight) ∷ []) }
{
    in_shape(place, has_size(m, 0, 12, width))?;
    in_range(place, are_costs(m, weight))
}

fn test_sizes(p: &DesignParts) -> Result<(), TextFault>
    ensures { Tests result (size_rules p.now) }
{
    let version = p.version as usize;
    in_range(
        1,
        lies_in(FIRST_VERSION as usize, LAST_VERSION as usize, version),
    )
    .and(in_range(2, lies_in(1, most_states(p.version), p.states)))
    .and(in_range(3, lies_in(1, MOST_INPUTS, p.inputs)))
    .and(in_range(4, lies_in(1, most_stages(p.version), p.stages)))
}

fn test_plant(p: &DesignParts) -> Result<(), TextFault>
    ensures { Tests result (plant_rules p.now) }
{
    in_range(5, is_denominator(p.plant_den))
        .and(test_table(6, &p.a, p.states, p.states, p.states))
        .and(test_table(7, &p.b, p.states, p.states, p.inputs))
}

fn test_cost(p: &DesignParts) -> Result<(), TextFault>
    requires { AllHold (size_rules p.now) }
    ensures { Tests result (cost_rules p.now) }
{
    let (width, weight) = (p.states + 2, p.states + 1);
    in_range(8, is_denominator(p.cost_den))
        .and(in_range(9, is_denominator(p.row_den)))
        .and(in_shape(10, p.input_weights.len() == p.inputs))
        .and(in_range(10, are_positive(&p.input_weights)))
        .and(test_costs(11, &p.stage_cost, width, weight))
        .and(test_costs(12, &p.final_cost, width, weight))
}

fn test_limits(p: &DesignParts) -> Result<(), TextFault>
    requires { AllHold (size_rules p.now) }
    ensures { Tests result (limit_rules p.now) }
{
    in_range(13, is_denominator(p.limit_den))
        .and(test_table(14, &p.stage_rows, 0, 12, p.states + p.inputs + 1))
        .and(in_shape(15, has_size(&p.final_rows, 0, 12, p.states + 1)))
        .and(in_range(15, are_limits(&p.final_rows, &p.stage_rows)))
}

// The rules of the box before those of its upper ends.
fn test_lows(p: &DesignParts) -> Result<(), TextFault>
    ensures { Tests result
        (range 16 (p.now.grid ≤ 24) ∷ shape 17 (length p.now.lo.items ≡ p.now.states) ∷ range 17 (All IsNumerator p.now.lo.items) ∷ []) }
{
    in_range(16, p.grid <= 24)
        .and(in_shape(17, p.lo.len() == p.states))
        .and(in_range(17, are_numerators(&p.lo)))
}

fn test_box(p: &DesignParts) -> Result<(), TextFault>
    ensures { Tests result (box_rules p.now) }
{
    test_lows(p)?;
    in_shape(18, p.hi.len() == p.states)?;
    in_range(18, are_highs(&p.hi, &p.lo))
}

fn test_targets(p: &DesignParts) -> Result<(), TextFault>
    ensures { Tests result (target_rules p.now) }
{
    in_range(19, is_denominator(p.target_den))
        .and(in_range(20, is_positive(p.violation)))
        .and(in_range(21, is_positive(p.gap)))
}
