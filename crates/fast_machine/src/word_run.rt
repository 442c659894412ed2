// A run in words of 64 bits, from a kernel's lists and back to them.
ghost use Rattle.std.specs.Prelude.{◌≡◌, ◌≤◌, length};
ghost use Rattle.qp_model.specs.machine.Controller.{numbers};
ghost use Rattle.overflow_check.specs.FastMachine.{fast_lists, fast_after};
ghost use Rattle.fast_machine.specs.FastReady.{IsFastSetting};
ghost use Rattle.fast_machine.specs.FastWords.{IsFastWordSetting, IsFastMachineOf};

use crate::word_machine::FastWords;
use crate::word_step::word_steps;
use fixed_kernel::{WordForm, put_entry_bases, put_row_bases, put_words, take_words};
use qp_model::ControllerParts;

// The steps that are left of a run, of which `made` were made: from what a kernel's lists hold, and back into them.
fn finish_in_words(
    c: &ControllerParts,
    form: &WordForm,
    state: &[i128],
    made: u32,
    entry_room: &mut [i64],
    row_room: &mut [i64],
    mean_room: &mut [i64],
    plan_room: &mut [i64],
    multiplier_room: &mut [i64],
    reached_room: &mut [i64],
    sum_room: &mut [i64],
    means: &mut [i128],
    plan: &mut [i128],
    multipliers: &mut [i128],
    reached: &mut [i128],
    sums: &mut [i128],
)
    requires setting { IsFastWordSetting (numbers c.now) form.now state.now }
    requires entry_room { length entry_room.old ≡ length c.now.t.items }
    requires row_room { length row_room.old ≡ length c.now.bound.items }
    requires mean_room { length mean_room.old ≡ length means.old }
    requires plan_room { length plan_room.old ≡ length plan.old }
    requires multiplier_room { length multiplier_room.old ≡ length multipliers.old }
    requires reached_room { length reached_room.old ≡ length reached.old }
    requires sum_room { length sum_room.old ≡ length sums.old }
    requires made { made ≤ c.now.steps }
    requires start { fast_lists means.old plan.old multipliers.old reached.old sums.old ≡ fast_after (numbers c.now) state.now made }
    ensures { fast_lists means.new plan.new multipliers.new reached.new sums.new ≡ fast_after (numbers c.now) state.now c.now.steps }
{
    put_entry_bases(c, state, entry_room);
    put_row_bases(c, state, row_room);
    take_words(means, mean_room);
    take_words(plan, plan_room);
    take_words(multipliers, multiplier_room);
    take_words(reached, reached_room);
    take_words(sums, sum_room);
    word_steps(
        c,
        form,
        state,
        entry_room,
        row_room,
        made,
        mean_room,
        plan_room,
        multiplier_room,
        reached_room,
        sum_room,
    );
    put_words(mean_room, means);
    put_words(plan_room, plan);
    put_words(multiplier_room, multipliers);
    put_words(reached_room, reached);
    put_words(sum_room, sums);
}

impl FastWords {
    // The steps that are left of a run, of which `made` were made, in a kernel's lists.
    pub fn finish(
        &mut self,
        c: &ControllerParts,
        state: &[i128],
        made: u32,
        means: &mut [i128],
        plan: &mut [i128],
        multipliers: &mut [i128],
        reached: &mut [i128],
        sums: &mut [i128],
    )
        requires setting { IsFastSetting (numbers c.now) state.now }
        requires machine { IsFastMachineOf (numbers c.now) self.old }
        requires made { made ≤ c.now.steps }
        requires start { fast_lists means.old plan.old multipliers.old reached.old sums.old ≡ fast_after (numbers c.now) state.now made }
        ensures machine { IsFastMachineOf (numbers c.now) self.new }
        ensures lists { fast_lists means.new plan.new multipliers.new reached.new sums.new ≡ fast_after (numbers c.now) state.now c.now.steps }
    {
        let room = &mut self.machine.room;
        finish_in_words(
            c,
            &self.machine.form,
            state,
            made,
            &mut room.entry_starts,
            &mut room.row_starts,
            &mut self.means,
            &mut room.plan,
            &mut room.multipliers,
            &mut self.reached,
            &mut room.sums,
            means,
            plan,
            multipliers,
            reached,
            sums,
        );
    }
}
