// Texts of records as plans.
ghost use Rattle.std.specs.Prelude.{◌≡◌, ◌⊎◌, ◌<◌, ◌≤◌, ◌^◌, length, IfOk, IfErr, MatchResult};
ghost use Rattle.qp_model.specs.problem.Limits.{last_version, most_states};
ghost use Rattle.qp_model.specs.problem.Parts.{design_of, IsDesign};
ghost use Rattle.qp_model.specs.problem.Policy.{Plans, plans_of, IsPolicyFor};
ghost use Rattle.number_text.specs.declared.text_fault.TextFault.{TextFault};
ghost use Rattle.number_text.specs.declared.text_fault.TextFault.TheVariants.{Memory};
ghost use Rattle.policy_file.specs.PolicyText.{IsPolicyText, IsPolicyFault, ArePlans, IsPlansFault};

use crate::headed::{Headed, read_headed};
use crate::record::Layout;
use number_text::TextFault;
use qp_model::{Design, DesignParts, Policy};
use std::alloc::Global;

/// The plans of a text of `2^n` records, one for each corner of the box of n states (16 at most in version 1, 64 in version 2), of a
/// denominator `1 .. 2^40` and the numerators of a plan, stage by stage. The text has fewer than `2^32` bytes.
///
/// # Errors
/// The first fault: for the records in turn `Fields` where one has another number of fields, then `Number` for its first field that
/// holds no number, or no denominator where that is wanted. After all records `Count` where there isn't one for each corner.
pub fn read_policy(alloc: Global, bytes: &[u8], design: &Design) -> Result<Policy, TextFault>
    requires { length bytes.now < 2 ^ 32 }
    ensures found { IfOk result (λ p. IsPolicyText bytes.now (design_of design.now) (plans_of p)) }
    ensures sized { IfOk result (λ p. IsPolicyFor (design_of design.now) (plans_of p)) }
    ensures fault { IfErr result (λ e. (e ≡ Memory) ⊎ IsPolicyFault bytes.now (design_of design.now) e) }

    // The other way round, with nothing but out of memory in between.
    ensures right { (plans : Plans) → IsPolicyText bytes.now (design_of design.now) plans →
        MatchResult result (λ p. plans_of p ≡ plans) (λ e. e ≡ Memory) }
    ensures first { (told : TextFault) → IsPolicyFault bytes.now (design_of design.now) told →
        MatchResult result (λ _. ⊥) (λ e. (e ≡ told) ⊎ (e ≡ Memory)) }
{
    read_plans(alloc, bytes, design, corner_count(design.parts().states))
}

/// The plans of a text of `number` records, of a denominator `1 .. 2^40` and the numerators of a plan for the design, stage by stage. The text has fewer
/// than `2^32` bytes.
///
/// # Errors
/// The first fault, as of a policy. After all records `Count` where there aren't so many.
pub fn read_plans(
    alloc: Global,
    bytes: &[u8],
    design: &Design,
    number: usize,
) -> Result<Policy, TextFault>
    requires { length bytes.now < 2 ^ 32 }
    ensures found { IfOk result (λ p. ArePlans bytes.now (design_of design.now) number (plans_of p)) }
    ensures fault { IfErr result (λ e. (e ≡ Memory) ⊎ IsPlansFault bytes.now (design_of design.now) number e) }

    // The other way round, with nothing but out of memory in between.
    ensures right { (plans : Plans) → ArePlans bytes.now (design_of design.now) number plans →
        MatchResult result (λ p. plans_of p ≡ plans) (λ e. e ≡ Memory) }
    ensures first { (told : TextFault) → IsPlansFault bytes.now (design_of design.now) number told →
        MatchResult result (λ _. ⊥) (λ e. (e ≡ told) ⊎ (e ≡ Memory)) }
{
    plans_in(alloc, bytes, design.parts(), number)
}

// The same, said one way.
fn plans_in(
    alloc: Global,
    bytes: &[u8],
    parts: &DesignParts,
    number: usize,
) -> Result<Policy, TextFault>
    requires small { length bytes.now < 2 ^ 32 }
    requires design { IsDesign parts.now }
    ensures found { IfOk result (λ p. ArePlans bytes.now (design_of parts.now) number (plans_of p)) }
    ensures fault { IfErr result (λ e. (e ≡ Memory) ⊎ IsPlansFault bytes.now (design_of parts.now) number e) }
{
    let entries = parts.stages * parts.inputs;
    let read = read_headed(alloc, bytes, Layout::Policy, entries, number)?;
    let Headed { heads, rows } = read;
    Ok(Policy {
        dens: heads,
        plans: rows,
    })
}

/// How many corners a box of so many states has.
pub fn corner_count(states: usize) -> usize
    requires { states ≤ most_states last_version }
    ensures { result ≡ 2 ^ states }
{
    1 << states
}
