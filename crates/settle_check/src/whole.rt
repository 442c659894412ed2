// Numbers of the state that are whole after each turn, and so never rounded.
ghost use Rattle.std.specs.Prelude.{◌≡◌, ◌↔◌, ◌<◌, ◌%◌, IsTrue, unsigned_abs};
ghost use Rattle.integer_algebra.specs.Sizes.{amount, size};
ghost use Rattle.mat_int.specs.Matrix.{entry_of};
ghost use Rattle.qp_model.specs.problem.Parts.{IsDesign, design_of};
ghost use Rattle.settle_check.specs.ClosedRows.{parted};

use qp_model::DesignParts;

// Whether the denominator divides all that coordinate `i` of the plant has of the state.
fn is_divided(parts: &DesignParts, i: usize) -> bool
    requires design { IsDesign parts.now }
    requires coordinate { i < parts.now.states }
    ensures { IsTrue result ↔ (amount parts.now.states (λ k. unsigned_abs (entry_of parts.now.a i k) % unsigned_abs parts.now.plant_den) ≡ 0) }
{
    let over = parts.plant_den.unsigned_abs();
    for k in 0..parts.states {
        if parts.a.at(i, k).unsigned_abs() % over != 0 {
            return false;
        }
    }
    true
}

// Whether it has nothing of the inputs.
fn is_free(parts: &DesignParts, i: usize) -> bool
    requires design { IsDesign parts.now }
    requires coordinate { i < parts.now.states }
    ensures { IsTrue result ↔ (size parts.now.inputs (entry_of parts.now.b i) ≡ 0) }
{
    for l in 0..parts.inputs {
        if parts.b.at(i, l) != 0 {
            return false;
        }
    }
    true
}

/// Whether the plant's next number `i` of the state is whole at every whole state.
pub(crate) fn is_whole(parts: &DesignParts, i: usize) -> bool
    requires design { IsDesign parts.now }
    requires coordinate { i < parts.now.states }
    ensures { IsTrue result ↔ (parted (design_of parts.now) i ≡ 0) }
{
    is_divided(parts, i) && is_free(parts, i)
}
