// Where a kernel's words stand in its region.
ghost use Rattle.std.specs.Prelude.{◌≡◌, ◌≤◌, ◌+◌, length};
ghost use Rattle.qp_model.specs.machine.Controller.{numbers, IsSized};
ghost use Rattle.fixed_kernel.specs.Spans.{spans_of};

use qp_model::ControllerParts;
use word_region::{Region, Span};

// The spans of the state, the multipliers, the plan and the sums.
#[derive(Clone, Copy)]
pub struct Spans {
    pub state: Span,
    pub multipliers: Span,
    pub plan: Span,
    pub sums: Span,
}

// The next `len` words of a region, which has so many.
fn take_next(region: &mut Region, len: usize) -> Span
    requires { region.old.used + len ≤ length region.old.words }
    ensures span { result ≡ record { start = region.old.used; len = len } }
    ensures used { region.new.used ≡ region.old.used + len }
    ensures size { length region.new.words ≡ length region.old.words }
{
    let Some(span) = region.take(len) else {
        unreachable!();
    };
    span
}

// Takes the words that a controller says into use, of a region that has so many and none in use.
pub fn take_spans(region: &mut Region, c: &ControllerParts) -> Spans
    requires sized { IsSized (numbers c.now) }
    requires free { region.old.used ≡ 0 }
    requires room { c.now.words ≤ length region.old.words }
    ensures spans { result ≡ spans_of (numbers c.now) }
    ensures used { region.new.used ≡ c.now.words }
    ensures size { length region.new.words ≡ length region.old.words }
{
    let state = take_next(region, c.n);
    let multipliers = take_next(region, c.m);
    let plan = take_next(region, c.t.len());
    let sums = take_next(region, c.t.len());
    Spans {
        state,
        multipliers,
        plan,
        sums,
    }
}
