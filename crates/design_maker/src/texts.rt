// The texts of a made design.
ghost use Rattle.std.specs.Prelude.{◌≡◌, ◌≤◌, ◌<◌, ◌^◌, length, IfOk, string_bytes};
ghost use Rattle.qp_model.specs.problem.Limits.{text_version, most_stages};
ghost use Rattle.number_text.specs.Lines.{text_of};
ghost use Rattle.design_maker.specs.MadeLaw.{AreMade};
ghost use Rattle.design_maker.specs.Texts.{cost_lines, design_lines, design_text, plant_lines, policy_line, policy_text, states_text};

use crate::draws::{Drawn, draw_numbers};
use std::alloc::{AllocError, Global};

/// The limits, the box and the targets of each made design.
const LIMITS: &str = "[limits]
den = 4
stage = [[0, 0, 4, 0, 4], [0, 0, -4, 0, 4], [0, 0, 0, 4, 4], [0, 0, 0, -4, 4], [4, 0, 0, 0, 5], [-4, 0, 0, 0, 5], [0, 4, 0, 0, 5], [0, -4, 0, 0, 5]]
final = [[4, 0, 5], [-4, 0, 5], [0, 4, 5], [0, -4, 5]]
[box]
grid = 4
lo = [-16, -16]
hi = [16, 16]
[targets]
den = 4
violation = 1
gap = 4
";

/// The texts of a made design, its policy and states of its box.
#[derive(Drop)]
pub struct Texts {
    pub design: Vec<u8>,
    pub policy: Vec<u8>,
    pub states: Vec<u8>,
}

/// The made design of a number and a horizon of 1 to 20 stages: two states and two inputs, a plant whose rows have absolute sums of at most 1, so
/// that a coasting state never leaves the box, drawn weights and targets, limits of 1 on the inputs and 5/4 on the states, and the box -1 .. 1.
/// Its policy coasts from every corner. The states are the corners.
pub fn make(alloc: Global, number: u32, stages: usize) -> Result<Texts, AllocError>
    requires low { 1 ≤ stages }
    requires high { stages ≤ most_stages text_version }
    ensures design { IfOk result (λ texts. texts.design.items ≡ design_text number stages) }
    ensures policy { IfOk result (λ texts. texts.policy.items ≡ policy_text stages) }
    ensures states { IfOk result (λ texts. texts.states.items ≡ states_text) }

    // They are as short as their readers ask.
    ensures policy_short { IfOk result (λ texts. length texts.policy.items < 2 ^ 32) }
    ensures states_short { IfOk result (λ texts. length texts.states.items < 2 ^ 32) }

    // What they are read as.
    ensures made { IfOk result (λ texts. AreMade number stages texts.design.items texts.policy.items texts.states.items) }
{
    let drawn = draw_numbers(number);
    let design = design_of(alloc, &drawn, stages)?;
    let policy = policy_of(alloc, stages)?;
    let states = String::from_str(alloc, "-16,-16\n16,-16\n-16,16\n16,16\n")?;
    Ok(Texts {
        design: design.into_bytes(),
        policy: policy.into_bytes(),
        states: states.into_bytes(),
    })
}

// The design.
fn design_of(alloc: Global, drawn: &Drawn, stages: usize) -> Result<String, AllocError>
    ensures { IfOk result (λ text. string_bytes text ≡ text_of (design_lines drawn.now stages)) }
{
    let plant = plant_of(alloc, drawn, stages)?;
    let cost = cost_of(alloc, drawn)?;
    format!(in alloc; "{plant}{cost}{LIMITS}")
}

// Its sizes and its plant.
fn plant_of(alloc: Global, drawn: &Drawn, stages: usize) -> Result<String, AllocError>
    ensures { IfOk result (λ text. string_bytes text ≡ text_of (plant_lines drawn.now stages)) }
{
    let Drawn {
        a11,
        a12,
        a21,
        a22,
        ..
    } = *drawn;
    format!(in alloc;
        "version = 1
states = 2
inputs = 2
stages = {stages}
[plant]
den = 4
a = [[{a11}, {a12}], [{a21}, {a22}]]
b = [[4, 0], [0, 4]]
"
    )
}

// Its cost.
fn cost_of(alloc: Global, drawn: &Drawn) -> Result<String, AllocError>
    ensures { IfOk result (λ text. string_bytes text ≡ text_of (cost_lines drawn.now)) }
{
    let Drawn {
        first_input,
        second_input,
        first_target,
        first_weight,
        second_target,
        second_weight,
        ..
    } = *drawn;
    format!(in alloc;
        "[cost]
den = 1
row_den = 1
input = [{first_input}, {second_input}]
stage = [[1, 0, {first_target}, {first_weight}], [0, 1, {second_target}, {second_weight}]]
final = []
"
    )
}

// The policy: a line for each corner.
fn policy_of(alloc: Global, stages: usize) -> Result<String, AllocError>
    requires { stages ≤ most_stages text_version }
    ensures { IfOk result (λ text. string_bytes text ≡ policy_text stages) }
{
    let line = coasting_line(alloc, stages)?;
    format!(in alloc; "{line}\n{line}\n{line}\n{line}\n")
}

// The line of a plan that coasts: the denominator 1, and two zeros for each stage.
fn coasting_line(alloc: Global, stages: usize) -> Result<String, AllocError>
    ensures { IfOk result (λ text. string_bytes text ≡ policy_line stages) }
{
    let mut line = String::from_str(alloc, "1")?;
    for _ in 0..stages {
        line.push_str(",0,0")?;
    }
    Ok(line)
}
