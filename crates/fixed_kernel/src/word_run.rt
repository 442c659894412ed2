// A run in words of 64 bits, from a region's words and back to them.
ghost use Rattle.std.specs.Prelude.{◌≡◌, ◌≤◌, length, All};
ghost use Rattle.qp_model.specs.machine.Controller.{numbers};
ghost use Rattle.qp_model.specs.machine.Machine.{after};
ghost use Rattle.qp_model.specs.machine.AbsoluteSums.{IsController, state_magnitudes};
ghost use Rattle.qp_model.specs.machine.Within.{AreWithin};
ghost use Rattle.mat_products.specs.Narrow.{IsNarrow};
ghost use Rattle.fixed_kernel.specs.Raised.{with_raised};
ghost use Rattle.fixed_kernel.specs.Spans.{words_of, made_of, state_in, made_in};
ghost use Rattle.fixed_kernel.specs.WordMachine.{IsWordSetting, IsMachineOf};

use crate::word_bases::{put_entry_bases, put_row_bases};
use crate::word_machine::{WordForm, WordMachine};
use crate::word_mat::narrowed;
use crate::word_step::word_steps;
use qp_model::ControllerParts;

/// Takes narrow numbers over.
pub fn take_words(from: &[i128], to: &mut [i64])
    requires narrow { All IsNarrow from.now }
    requires long { length to.old ≡ length from.now }
    ensures { to.new ≡ from.now }
{
    for (i, x) in from.iter().enumerate() {
        to[i] = narrowed(*x);
    }
}

/// Puts them back.
pub fn put_words(from: &[i64], to: &mut [i128])
    requires long { length to.old ≡ length from.now }
    ensures { to.new ≡ from.now }
{
    for (i, x) in from.iter().enumerate() {
        to[i] = i128::from(*x);
    }
}

// The steps that are left of a run, of which `made` were made: from what the region's words hold, and back into them. The multipliers there
// are raised.
fn finish_in_words(
    c: &ControllerParts,
    form: &WordForm,
    made: u32,
    state: &[i128],
    entry_room: &mut [i64],
    row_room: &mut [i64],
    multiplier_room: &mut [i64],
    plan_room: &mut [i64],
    sum_room: &mut [i64],
    multipliers: &mut [i128],
    plan: &mut [i128],
    sums: &mut [i128],
)
    requires setting { IsWordSetting (numbers c.now) form.now state.now }
    requires entry_room { length entry_room.old ≡ length c.now.t.items }
    requires row_room { length row_room.old ≡ length c.now.bound.items }
    requires multiplier_room { length multiplier_room.old ≡ length multipliers.old }
    requires plan_room { length plan_room.old ≡ length plan.old }
    requires sum_room { length sum_room.old ≡ length sums.old }
    requires made { made ≤ c.now.steps }
    requires start { made_of plan.old multipliers.old sums.old ≡ with_raised (numbers c.now) (after (numbers c.now) state.now made) }
    ensures { made_of plan.new multipliers.new sums.new ≡ with_raised (numbers c.now) (after (numbers c.now) state.now c.now.steps) }
{
    put_entry_bases(c, state, entry_room);
    put_row_bases(c, state, row_room);
    take_words(multipliers, multiplier_room);
    take_words(plan, plan_room);
    take_words(sums, sum_room);
    word_steps(
        c,
        form,
        state,
        entry_room,
        row_room,
        made,
        multiplier_room,
        plan_room,
        sum_room,
    );
    put_words(multiplier_room, multipliers);
    put_words(plan_room, plan);
    put_words(sum_room, sums);
}

impl WordMachine {
    // The steps that are left of a run, of which `made` were made, in a region's words, which are lent.
    pub fn finish(&mut self, c: &ControllerParts, made: u32, words: &mut [i128])
        requires sound { IsController (numbers c.now) }
        requires machine { IsMachineOf (numbers c.now) self.old }
        requires made { made ≤ c.now.steps }
        requires long { length words.old ≡ c.now.words }
        requires state { AreWithin (state_in (numbers c.now) words.old) (state_magnitudes (numbers c.now)) }
        requires start { made_in (numbers c.now) words.old ≡ with_raised (numbers c.now) (after (numbers c.now) (state_in (numbers c.now) words.old) made) }
        ensures machine { IsMachineOf (numbers c.now) self.new }
        ensures words { let state = state_in (numbers c.now) words.old in
            words.new ≡ words_of state (with_raised (numbers c.now) (after (numbers c.now) state c.now.steps)) }
    {
        let (state, rest) = words.split_at_mut(c.n);
        let (multipliers, rest) = rest.split_at_mut(c.m);
        let (plan, sums) = rest.split_at_mut(c.t.len());
        let room = &mut self.room;
        finish_in_words(
            c,
            &self.form,
            made,
            state,
            &mut room.entry_starts,
            &mut room.row_starts,
            &mut room.multipliers,
            &mut room.plan,
            &mut room.sums,
            multipliers,
            plan,
            sums,
        );
    }
}
