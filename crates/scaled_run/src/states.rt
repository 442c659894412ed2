// The next state of the plant in enclosures.
ghost use Rattle.std.specs.Prelude.{◌≡◌, ◌≤◌, ◌<◌, ◌^◌, ◌+◌, ◌++◌, ◌≤ℤ◌, ℕ, pos, length, unsigned_abs, IfOk};
ghost use Rattle.mat_int.specs.Enclosures.{combined, combination_magnitude};
ghost use Rattle.mat_int.specs.Matrix.{entry_of};
ghost use Rattle.enclosure.specs.Values.{pair_at};
ghost use Rattle.qp_model.specs.problem.Parts.{IsDesign};
ghost use Rattle.qp_model.specs.form.FineForm.{followed};
ghost use Rattle.scaled_run.specs.Lists.{HoldsEnclosures};

use enclosure::{Enc, combine};
use qp_model::DesignParts;
use std::alloc::{AllocError, Global};

// One list after another.
fn joined<T: Copy>(alloc: Global, a: &[T], b: &[T]) -> Result<Vec<T>, AllocError>
    ensures { IfOk result (λ v. v.items ≡ a.now ++ b.now) }
{
    let mut out = Vec::new(alloc);
    out.extend_from_slice(a)?;
    out.extend_from_slice(b)?;
    Ok(out)
}

/// The state after `state` under `input`.
pub fn next_state(
    alloc: Global,
    parts: &DesignParts,
    state: &[Enc],
    input: &[Enc],
) -> Result<Vec<Enc>, AllocError>
    requires design { IsDesign parts.now }
    requires state { length state.now ≡ parts.now.states }
    requires input { length input.now ≡ parts.now.inputs }
    requires room { let p = parts.now in (i : ℕ) → i < p.states → combination_magnitude (p.states + p.inputs)
        (followed p.states (entry_of p.a i) (entry_of p.b i)) (followed p.states (pair_at state.now) (pair_at input.now)) ≤ℤ pos (2 ^ 126) }
    ensures { let p = parts.now in IfOk result (λ v. HoldsEnclosures v.items p.states (λ i. combined (p.states + p.inputs)
        (followed p.states (entry_of p.a i) (entry_of p.b i)) (followed p.states (pair_at state.now) (pair_at input.now)) (unsigned_abs p.plant_den))) }
{
    let numbers = joined(alloc, state, input)?;
    let mut out = Vec::new(alloc);
    for i in 0..parts.states {
        let coefficients = joined(alloc, parts.a.row(i), parts.b.row(i))?;
        let Some(entry) = combine(&coefficients, &numbers, parts.plant_den) else {
            unreachable!();
        };
        out.push(entry)?;
    }
    Ok(out)
}
