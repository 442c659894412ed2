// States of the box.
ghost use Rattle.std.specs.Prelude.{◌≡◌, ◌↔◌, length, pos, replicate, IsNone, IfSome};
ghost use Rattle.qp_model.specs.machine.Controller.{numbers};
ghost use Rattle.qp_model.specs.machine.Machine.{IsAdmissible, loaded, start_of};
ghost use Rattle.qp_model.specs.machine.AbsoluteSums.{IsController};
ghost use Rattle.fixed_kernel.specs.Outside.{HasBox, IsFirstOutside};
ghost use Rattle.fixed_kernel.specs.Spans.{words_of};

use frac_scaled::scaled;
use qp_model::ControllerParts;
use std::fmt;
use thiserror::Error;

/// A state that lies outside the box.
#[derive(Clone, Copy, PartialEq, Eq, Error)]
#[error("outside box")]
pub struct OutsideBox {
    /// The first coordinate that does, from 1.
    pub coordinate: u32,
}

// An error type has `Debug`, and nothing here prints by it: to write what `Display` does is proved in half the time of a derived one.
impl fmt::Debug for OutsideBox {
    fn fmt<W: fmt::Write>(&self, f: &mut fmt::Formatter<W>) -> fmt::Result {
        fmt::Display::fmt(self, f)
    }
}

/// The first coordinate of a state, over `2^g`, that lies outside the box of a controller's numbers, of either machine, from 1. None exactly where the state
/// lies inside.
pub fn first_outside(c: &ControllerParts, state: &[i128]) -> Option<u32>
    requires boxed { HasBox (numbers c.now) }
    requires long { length state.now ≡ c.now.n }
    ensures inside { IsNone result ↔ IsAdmissible (numbers c.now) state.now }
    ensures first { IfSome result (λ k. IsFirstOutside (numbers c.now) state.now k) }
{
    let mut coordinate = 1;
    for (i, x) in state.iter().enumerate() {
        if *x < c.lo[i] || c.hi[i] < *x {
            return Some(coordinate);
        }
        coordinate += 1;
    }
    None
}

// Puts a grid state over `2^f`.
fn load_state(c: &ControllerParts, state: &[i128], out: &mut [i128])
    requires sound { IsController (numbers c.now) }
    requires inside { IsAdmissible (numbers c.now) state.now }
    requires long { length out.old ≡ c.now.n }
    ensures { out.new ≡ loaded (numbers c.now) state.now }
{
    for (i, x) in state.iter().enumerate() {
        out[i] = scaled(*x, c.f - c.g);
    }
}

// Puts zeros.
fn clear(numbers: &mut [i128])
    ensures { numbers.new ≡ replicate (length numbers.old) (pos 0) }
{
    for x in numbers.iter_mut() {
        *x = 0;
    }
}

// Puts the words of a fresh start from a grid state: the state over `2^f`, and zeros.
pub fn put_start(c: &ControllerParts, state: &[i128], words: &mut [i128])
    requires sound { IsController (numbers c.now) }
    requires inside { IsAdmissible (numbers c.now) state.now }
    requires long { length words.old ≡ c.now.words }
    ensures { words.new ≡ words_of (loaded (numbers c.now) state.now) (start_of (numbers c.now)) }
{
    let (first, rest) = words.split_at_mut(c.n);
    load_state(c, state, first);
    clear(rest);
}
