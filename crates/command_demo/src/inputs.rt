// The design, the policy and the states of made texts.
ghost use Rattle.std.specs.Prelude.{◌≡◌, ◌<◌, ◌^◌, length, Ok, IfOk, IfErr};
ghost use Rattle.qp_model.specs.problem.Policy.{plans_of};
ghost use Rattle.design_maker.specs.Texts.{policy_text, states_text};
ghost use Rattle.design_maker.specs.MadeLaw.{AreMadeTexts};
ghost use Rattle.command_demo.specs.Demo.{demo_stages};
ghost use Rattle.command_demo.specs.Making.{AreOnlyMade, AreReadOf};

use design_files::read_design;
use design_maker::{Texts, made_law, make};
use number_text::TextFault;
use packed_rows::PackedRows;
use policy_file::read_policy;
use qp_model::{Design, Policy};
use state_files::read_states;
use std::alloc::{AllocError, Global};

/// The stages of a made design.
const STAGES: usize = 6;

/// What the made texts are read as.
#[derive(Drop)]
pub struct Inputs {
    pub design: Design,
    pub policy: Policy,
    pub states: PackedRows,
}

/// The design, the policy and the states that the texts made from a number are of; the states lie in the design's box. An error is out of memory.
pub fn inputs_of(alloc: Global, number: u32) -> Result<Inputs, AllocError>
    ensures made { IfOk result (λ i. AreOnlyMade number i.design (plans_of i.policy)) }
    ensures read { IfOk result (AreReadOf (policy_text demo_stages) states_text) }
{
    made_law();
    let texts = make(alloc, number, STAGES)?;
    let design = right(read_design(alloc, &texts.design))?;
    inputs_with(alloc, &texts, design)
}

// The policy and the states of made texts, with the design that was read of the first.
fn inputs_with(alloc: Global, texts: &Texts, design: Design) -> Result<Inputs, AllocError>
    requires right { AreMadeTexts design texts.now.design.items texts.now.policy.items texts.now.states.items }
    requires policy_short { length texts.now.policy.items < 2 ^ 32 }
    requires states_short { length texts.now.states.items < 2 ^ 32 }
    ensures design { IfOk result (λ i. i.design ≡ design) }
    ensures read { IfOk result (AreReadOf texts.now.policy.items texts.now.states.items) }
{
    let policy = right(read_policy(alloc, &texts.policy, &design))?;
    let states = right(read_states(alloc, &texts.states, design.parts().states));
    inputs_from(design, policy, states)
}

// A design, a policy and the states that were read; or out of memory, where they weren't.
fn inputs_from(
    design: Design,
    policy: Policy,
    states: Result<PackedRows, AllocError>,
) -> Result<Inputs, AllocError>
    ensures design { IfOk result (λ i. i.design ≡ design) }
    ensures policy { IfOk result (λ i. i.policy ≡ policy) }
    ensures states { IfOk result (λ i. states ≡ Ok i.states) }
{
    match states {
        Ok(states) => Ok(Inputs {
            design,
            policy,
            states,
        }),
        Err(_) => Err(AllocError),
    }
}

// What was read of a text that is right, so that nothing but memory can fail.
fn right<T>(read: Result<T, TextFault>) -> Result<T, AllocError>
    requires { IfErr read (λ fault. fault ≡ TextFault.Memory) }
    ensures { IfOk result (λ value. read ≡ Ok value) }
{
    match read {
        Ok(value) => Ok(value),
        Err(TextFault::Memory) => Err(AllocError),
        Err(_) => unreachable!(),
    }
}
