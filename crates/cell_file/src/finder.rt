// The controller that serves a state.
ghost use Rattle.std.specs.Prelude.{◌≡◌, ◌↔◌, ◌<◌, ℕ, length, get_or, IsTrue, MatchOption};
ghost use Rattle.qp_model.specs.machine.Machine.{IsAdmissible};
ghost use Rattle.controller_file.specs.AnyText.{any_numbers};
ghost use Rattle.controller_file.specs.declared.any_controller.AnyController.{AnyController};
ghost use Rattle.cell_file.specs.Finding.{NoneHolds, IsFirstHolding};

use controller_file::AnyController;
use qp_model::range::is_ordered;

/// The first controller whose box holds a state, from 0. None exactly where none does.
pub fn find(cells: &[AnyController], state: &[i128]) -> Option<usize>
    requires { (k : ℕ) (c : AnyController) → k < length cells.now → length state.now ≡ (any_numbers (get_or cells.now k c)).states }
    ensures { MatchOption result (NoneHolds cells.now state.now (length cells.now)) (λ k. IsFirstHolding cells.now state.now k) }
{
    for i in 0..cells.len() {
        if holds(&cells[i], state) {
            return Some(i);
        }
    }
    None
}

// Whether a controller's box holds a state.
fn holds(cell: &AnyController, state: &[i128]) -> bool
    requires { length state.now ≡ (any_numbers cell.now).states }
    ensures { IsTrue result ↔ IsAdmissible (any_numbers cell.now) state.now }
{
    let parts = cell.parts();
    is_ordered(&parts.lo, state) && is_ordered(state, &parts.hi)
}
