// The policies of all cells in one text.
ghost use Rattle.std.specs.Prelude.{◌≡◌, ◌⊎◌, ◌↔◌, List, Option, ◌<◌, ◌≤◌, ◌^◌, length, map, All, IfOk, IfErr, IfSome, IsTrue, MatchResult};
ghost use Rattle.std.specs.Option.{option_map};
ghost use Rattle.number_text.specs.declared.text_fault.TextFault.{TextFault};
ghost use Rattle.number_text.specs.declared.text_fault.TextFault.TheVariants.{Memory};
ghost use Rattle.qp_model.specs.problem.Parts.{IsDesign, design_of};
ghost use Rattle.qp_model.specs.problem.Policy.{Plans, plans_of, IsPolicyFor};
ghost use Rattle.cell_split.specs.PoliciesText.{covered, ArePolicies, IsPoliciesFault};

use crate::read_cells::{cells_in, count_fault};
use number_text::TextFault;
use policy_file::all_records;
use qp_model::{Design, DesignParts, Policy};
use std::alloc::Global;

/// The policies of `cells` cells of a design's box, one after the other in one text of fewer than `2^32` bytes; for a cell without a controller the
/// text has one record, `none`.
///
/// # Errors
/// The first fault, as of a policy. After all records `Count` where there aren't as many as the cells take, and last `Range` with place 0 where no
/// cell has plans.
pub fn read_cell_policies(
    alloc: Global,
    bytes: &[u8],
    design: &Design,
    cells: u32,
) -> Result<Vec<Option<Policy>>, TextFault>
    requires small { length bytes.now < 2 ^ 32 }
    requires few { cells ≤ 64 }
    ensures found { IfOk result (λ v. ArePolicies bytes.now (design_of design.now) cells (map (option_map plans_of) v.items)) }
    ensures sized { IfOk result (λ v. All (λ o. IfSome o (λ p. IsPolicyFor (design_of design.now) (plans_of p))) v.items) }
    ensures fault { IfErr result (λ e. (e ≡ Memory) ⊎ IsPoliciesFault bytes.now (design_of design.now) cells e) }

    // The other way round, with nothing but out of memory in between.
    ensures right { (all : List (Option Plans)) → ArePolicies bytes.now (design_of design.now) cells all →
        MatchResult result (λ v. map (option_map plans_of) v.items ≡ all) (λ e. e ≡ Memory) }
    ensures first { (told : TextFault) → IsPoliciesFault bytes.now (design_of design.now) cells told →
        MatchResult result (λ _. ⊥) (λ e. (e ≡ told) ⊎ (e ≡ Memory)) }
{
    policies_of(alloc, bytes, design.parts(), cells as usize)
}

// The same, said one way.
fn policies_of(
    alloc: Global,
    bytes: &[u8],
    parts: &DesignParts,
    cells: usize,
) -> Result<Vec<Option<Policy>>, TextFault>
    requires small { length bytes.now < 2 ^ 32 }
    requires design { IsDesign parts.now }
    ensures found { IfOk result (λ v. ArePolicies bytes.now (design_of parts.now) cells (map (option_map plans_of) v.items)) }
    ensures fault { IfErr result (λ e. (e ≡ Memory) ⊎ IsPoliciesFault bytes.now (design_of parts.now) cells e) }
{
    let records = all_records(alloc, bytes)?;
    let read = cells_in(alloc, &records, parts, cells)?;
    if read.end < records.len() {
        return Err(count_fault(alloc, &records, parts, read.end));
    }
    if !has_plans(&read.policies) {
        return Err(TextFault::Range { place: 0 });
    }
    Ok(read.policies)
}

// Whether one of the cells has plans.
fn has_plans(policies: &[Option<Policy>]) -> bool
    ensures { IsTrue result ↔ (1 ≤ covered (map (option_map plans_of) policies.now) (length policies.now)) }
{
    for policy in policies {
        if policy.is_some() {
            return true;
        }
    }
    false
}
