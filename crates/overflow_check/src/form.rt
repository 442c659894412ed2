// Whether numbers are a controller's.
ghost use Rattle.std.specs.Prelude.{ℕ, ◌≡◌, ◌≤◌, ◌<◌, ◌+◌, ◌*◌, ◌^◌, ◌≤ℤ◌, ◌↔◌, pos, replicate, length, All, IsTrue};
ghost use Rattle.integer_algebra.specs.Sums.{at};
ghost use Rattle.qp_model.specs.problem.Range.{LiesIn, IsNumerator};
ghost use Rattle.qp_model.specs.machine.Controller.{numbers, plan_length, HasShape, IsShaped, IsSized, IsInForm};
ghost use Rattle.qp_model.specs.problem.Limits.{text_version, last_version, most_states, most_inputs, most_stages, most_rows};
ghost use Rattle.overflow_check.specs.FastController.{as_version, with_last_version};
ghost use Rattle.overflow_check.specs.Machines.{IsInFormFor};

use crate::machine::Machine;
use mat_int::Mat;
use qp_model::range::{are_numerators, is_ordered, lies_in};
use qp_model::{
    ControllerParts, FIRST_VERSION, LAST_VERSION, MOST_INPUTS, most_rows, most_stages, most_states,
};

/// The version of the controllers of the accelerated machine.
pub const FAST_VERSION: u32 = 3;

/// The most steps of a run of it.
pub const MOST_FAST_STEPS: u32 = 65534;

// Whether a version, and the sizes by it, lie in their ranges.
fn are_sizes_in_range(c: &ControllerParts, version: u32) -> bool
    ensures { IsTrue result ↔ (LiesIn text_version last_version version × LiesIn 1 (most_states version) c.now.n
        × LiesIn 1 (most_inputs version) c.now.p × LiesIn 1 (most_stages version) c.now.stages × LiesIn 1 (most_rows version) c.now.m) }
{
    (FIRST_VERSION..=LAST_VERSION).contains(&version)
        && lies_in(1, most_states(version), c.n)
        && lies_in(1, MOST_INPUTS, c.p)
        && lies_in(1, most_stages(version), c.stages)
        && lies_in(1, most_rows(version), c.m)
}

// Whether each exponent is at most the greatest.
fn are_exponents(exps: &[u32], s: u32) -> bool
    ensures { IsTrue result ↔ All (λ e. e ≤ s) exps.now }
{
    exps.iter().all(|e| *e <= s)
}

// Whether each exponent is the greatest.
fn are_greatest(exps: &[u32], s: u32) -> bool
    ensures { IsTrue result ↔ (exps.now ≡ replicate (length exps.now) s) }
{
    exps.iter().all(|e| *e == s)
}

// Whether the exponents of the rows are those of a controller of this version.
fn have_exponents(c: &ControllerParts, version: u32) -> bool
    ensures { IsTrue result ↔ (All (λ e. e ≤ c.now.s) c.now.exps.items
        × (version ≡ text_version → c.now.exps.items ≡ replicate (length c.now.exps.items) c.now.s)) }
{
    if !are_exponents(&c.exps, c.s) {
        return false;
    }
    version != FIRST_VERSION || are_greatest(&c.exps, c.s)
}

// Whether the numbers of bits lie in their ranges.
fn are_bits_in_range(c: &ControllerParts) -> bool
    ensures { IsTrue result ↔ ((c.now.g ≤ 24) × LiesIn c.now.g 48 c.now.f × (c.now.s ≤ 40) × LiesIn 2 128 c.now.w) }
{
    c.g <= 24 && (c.g..=48).contains(&c.f) && c.s <= 40 && (2..=128).contains(&c.w)
}

// Whether the clamp lies in its range.
fn is_clamp(clamp: i128) -> bool
    ensures { IsTrue result ↔ ((pos 0 ≤ℤ clamp) × (clamp ≤ℤ pos (2 ^ 126))) }
{
    0 <= clamp && clamp <= 1 << 126
}

// Whether a matrix has this shape.
fn has_shape(a: &Mat, rows: usize, cols: usize) -> bool
    ensures { IsTrue result ↔ HasShape a.now rows cols }
{
    a.rows() == rows && a.cols() == cols
}

// Whether the lists and matrices have the lengths of the sizes, with `nu` plan entries.
fn is_shaped(c: &ControllerParts, nu: usize) -> bool
    requires { nu ≡ plan_length (numbers c.now) }
    ensures { IsTrue result ↔ IsShaped (numbers c.now) }
{
    c.exps.len() == c.m
        && c.lo.len() == c.n
        && c.hi.len() == c.n
        && has_shape(&c.p_mat, nu, c.n)
        && c.t.len() == nu
        && has_shape(&c.w_mat, nu, c.m)
        && has_shape(&c.g_mat, c.m, nu)
        && has_shape(&c.e_mat, c.m, c.n)
        && c.bound.len() == c.m
}

// Whether the steps of a run and the clamp lie in their ranges.
fn are_counts_in_range(c: &ControllerParts) -> bool
    ensures { IsTrue result ↔ (LiesIn 1 4194304 c.now.steps × (pos 0 ≤ℤ c.now.clamp) × (c.now.clamp ≤ℤ pos (2 ^ 126))) }
{
    (1..=4194304).contains(&c.steps) && is_clamp(c.clamp)
}

// Whether the words are those of a run with so many lists of multipliers.
fn has_words(c: &ControllerParts, lists: usize) -> bool
    requires sized { IsSized (with_last_version (numbers c.now)) }
    requires few { lists ≤ 3 }
    ensures { IsTrue result ↔ (c.now.words ≡ c.now.n + lists * c.now.m + 2 * plan_length (numbers c.now)) }
{
    c.words == c.n + lists * c.m + 2 * (c.p * c.stages)
}

// Whether the box of the states is one of numerators, its lower ends at most the upper ones.
fn is_box(c: &ControllerParts) -> bool
    requires { length c.now.lo.items ≡ length c.now.hi.items }
    ensures { IsTrue result ↔ (All IsNumerator c.now.lo.items × All IsNumerator c.now.hi.items
        × ((i : ℕ) → i < length c.now.lo.items → at c.now.lo.items i ≤ℤ at c.now.hi.items i)) }
{
    are_numerators(&c.lo) && are_numerators(&c.hi) && is_ordered(&c.lo, &c.hi)
}

// Whether the shapes and ranges of a controller of this version hold, whatever its words.
fn has_form(c: &ControllerParts, version: u32) -> bool
    ensures { IsTrue result ↔ IsInForm (as_version version (numbers c.now)) }
{
    if !are_sizes_in_range(c, version) || !are_bits_in_range(c) {
        return false;
    }
    are_counts_in_range(c)
        && is_shaped(c, c.p * c.stages)
        && have_exponents(c, version)
        && is_box(c)
}

// Whether the shapes and ranges of a controller of this machine hold.
pub fn is_in_form(c: &ControllerParts, machine: Machine) -> bool
    ensures { IsTrue result ↔ IsInFormFor machine (numbers c.now) }
{
    match machine {
        Machine::Plain => has_form(c, c.version) && has_words(c, 1),
        Machine::Accelerated => {
            c.version == FAST_VERSION
                && c.steps <= MOST_FAST_STEPS
                && has_form(c, LAST_VERSION)
                && has_words(c, 3)
        }
    }
}
