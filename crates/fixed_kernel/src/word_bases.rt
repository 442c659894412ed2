// What a state adds to each sum of a step, in words of 64 bits. It is made once a run.
ghost use Rattle.std.specs.Prelude.{◌≡◌, ◌<◌, length};
ghost use Rattle.qp_model.specs.machine.Controller.{numbers};
ghost use Rattle.qp_model.specs.machine.AbsoluteSums.{IsController, state_magnitudes};
ghost use Rattle.qp_model.specs.machine.Within.{AreWithin};
ghost use Rattle.overflow_check.specs.FastController.{with_last_version};
ghost use Rattle.fixed_kernel.specs.WordForm.{entry_base, entry_bases, row_base, row_bases, IsWordSized};

use crate::entry::short_scaled;
use mat_int::dot;
use qp_model::ControllerParts;

// What the state and the offset add to the sum of plan entry `j`.
fn word_entry_base(c: &ControllerParts, state: &[i128], j: usize) -> i64
    requires sound { IsController (with_last_version (numbers c.now)) }
    requires words { IsWordSized (numbers c.now) }
    requires state { AreWithin state.now (state_magnitudes (numbers c.now)) }
    requires in_range { j < length c.now.t.items }
    ensures { result ≡ entry_base (numbers c.now) state.now j }
{
    let own = dot(c.p_mat.row(j), state);
    short_scaled(own + short_scaled(c.t[j], c.f), c.s) as i64
}

/// What a state and the offsets add to the sum of each plan entry, of a controller of either machine.
pub fn put_entry_bases(c: &ControllerParts, state: &[i128], out: &mut [i64])
    requires sound { IsController (with_last_version (numbers c.now)) }
    requires words { IsWordSized (numbers c.now) }
    requires state { AreWithin state.now (state_magnitudes (numbers c.now)) }
    requires out { length out.old ≡ length c.now.t.items }
    ensures { out.new ≡ entry_bases (numbers c.now) state.now }
{
    for j in 0..out.len() {
        out[j] = word_entry_base(c, state, j);
    }
}

// What the state and the bound add to the sum of row `i`.
fn word_row_base(c: &ControllerParts, state: &[i128], i: usize) -> i64
    requires sound { IsController (with_last_version (numbers c.now)) }
    requires words { IsWordSized (numbers c.now) }
    requires state { AreWithin state.now (state_magnitudes (numbers c.now)) }
    requires in_range { i < length c.now.bound.items }
    ensures { result ≡ row_base (numbers c.now) state.now i }
{
    let own = dot(c.e_mat.row(i), state);
    (own - short_scaled(c.bound[i], c.f)) as i64
}

/// What a state and the bounds add to the sum of each row, of a controller of either machine.
pub fn put_row_bases(c: &ControllerParts, state: &[i128], out: &mut [i64])
    requires sound { IsController (with_last_version (numbers c.now)) }
    requires words { IsWordSized (numbers c.now) }
    requires state { AreWithin state.now (state_magnitudes (numbers c.now)) }
    requires out { length out.old ≡ length c.now.bound.items }
    ensures { out.new ≡ row_bases (numbers c.now) state.now }
{
    for i in 0..out.len() {
        out[i] = word_row_base(c, state, i);
    }
}
