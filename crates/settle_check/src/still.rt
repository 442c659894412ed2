// The test of a row: what its residual can be at most over a box, where no multiplier moves.
ghost use Rattle.std.specs.Prelude.{◌≡◌, ◌↔◌, ◌<◌, ◌≤◌, ◌^◌, pos, length, IsSome, IfSome};
ghost use Rattle.integer_algebra.specs.Sums.{at, coimage};
ghost use Rattle.mat_int.specs.Matrix.{entry_of};
ghost use Rattle.qp_model.specs.machine.Controller.{numbers, plan_length, IsSized};
ghost use Rattle.overflow_check.specs.FastController.{with_last_version};
ghost use Rattle.settle_check.specs.Still.{box_of, greatest_over, greatest_less, still_coefficient, still_sum};
ghost use Rattle.settle_check.specs.StillSize.{gains_size, still_coefficient_size, over_size, less_size, still_size};

use crate::counted::Counted;
use qp_model::ControllerParts;

// Number `j` of a list.
pub(crate) fn number_at(list: &[i128], j: usize) -> i128
    requires { j < length list.now }
    ensures { result ≡ at list.now j }
{
    list[j]
}

// `2^bits`.
pub(crate) fn power(bits: u32) -> Counted
    requires { bits ≤ 96 }
    ensures value { result.value ≡ pos (2 ^ bits) }
    ensures size { result.size ≡ 2 ^ bits }
{
    Counted::of(1 << bits)
}

// What row `i` has of number `j` of the state through the plan.
fn gains(c: &ControllerParts, i: usize, j: usize) -> Option<Counted>
    requires sized { IsSized (with_last_version (numbers c.now)) }
    requires row { i < c.now.m }
    requires state { j < c.now.n }
    ensures value { IfSome result (λ a. a.value ≡ coimage (plan_length (numbers c.now)) (entry_of c.now.p_mat) (entry_of c.now.g_mat i) j) }
    ensures size { IfSome result (λ a. a.size ≡ gains_size (numbers c.now) i j) }
    ensures room { IsSome result ↔ (gains_size (numbers c.now) i j ≤ 2 ^ 126) }
{
    let mut sum = Counted::of(0);
    for l in 0..c.t.len() {
        let gain = Counted::of(c.p_mat.at(l, j));
        let product = gain.times(Counted::of(c.g_mat.at(i, l)))?;
        sum = sum.plus(product)?;
    }
    Some(sum)
}

// And together with its own.
fn coefficient(c: &ControllerParts, i: usize, j: usize) -> Option<Counted>
    requires sized { IsSized (with_last_version (numbers c.now)) }
    requires row { i < c.now.m }
    requires state { j < c.now.n }
    ensures value { IfSome result (λ a. a.value ≡ still_coefficient (numbers c.now) i j) }
    ensures size { IfSome result (λ a. a.size ≡ still_coefficient_size (numbers c.now) i j) }
    ensures room { IsSome result ↔ (still_coefficient_size (numbers c.now) i j ≤ 2 ^ 126) }
{
    let own = power(c.f).times(Counted::of(c.e_mat.at(i, j)))?;
    own.less(gains(c, i, j)?)
}

// Over the box from `low` to `high`.
fn over_box(c: &ControllerParts, low: &[i128], high: &[i128], i: usize) -> Option<Counted>
    requires sized { IsSized (with_last_version (numbers c.now)) }
    requires low { length low.now ≡ c.now.n }
    requires high { length high.now ≡ c.now.n }
    requires row { i < c.now.m }
    ensures value { IfSome result (λ a. a.value ≡ greatest_over c.now.n (box_of low.now high.now) (still_coefficient (numbers c.now) i)) }
    ensures size { IfSome result (λ a. a.size ≡ over_size (numbers c.now) (box_of low.now high.now) i) }
    ensures room { IsSome result ↔ (over_size (numbers c.now) (box_of low.now high.now) i ≤ 2 ^ 126) }
{
    let mut sum = Counted::of(0);
    for j in 0..c.n {
        let most = coefficient(c, i, j)?.greatest_over(number_at(low, j), number_at(high, j))?;
        sum = sum.plus(most)?;
    }
    Some(sum)
}

// What row `i` has of offsets and floors.
fn less_offsets(c: &ControllerParts, i: usize) -> Option<Counted>
    requires sized { IsSized (with_last_version (numbers c.now)) }
    requires row { i < c.now.m }
    ensures value { IfSome result (λ a. a.value ≡ greatest_less (plan_length (numbers c.now)) (entry_of c.now.g_mat i) (at c.now.t.items)) }
    ensures size { IfSome result (λ a. a.size ≡ less_size (numbers c.now) i) }
    ensures room { IsSome result ↔ (less_size (numbers c.now) i ≤ 2 ^ 126) }
{
    let mut sum = Counted::of(0);
    for l in 0..c.t.len() {
        let most = Counted::of(c.g_mat.at(i, l)).greatest_less(c.t[l])?;
        sum = sum.plus(most)?;
    }
    Some(sum)
}

/// What row `i` can exceed its bound by at most over the box from `low` to `high` where no multiplier moves, over `2^(3f)`.
pub(crate) fn still_sum(
    c: &ControllerParts,
    low: &[i128],
    high: &[i128],
    i: usize,
) -> Option<Counted>
    requires sized { IsSized (with_last_version (numbers c.now)) }
    requires low { length low.now ≡ c.now.n }
    requires high { length high.now ≡ c.now.n }
    requires row { i < c.now.m }
    ensures value { IfSome result (λ a. a.value ≡ still_sum (numbers c.now) (box_of low.now high.now) i) }
    ensures size { IfSome result (λ a. a.size ≡ still_size (numbers c.now) (box_of low.now high.now) i) }
    ensures room { IsSome result ↔ (still_size (numbers c.now) (box_of low.now high.now) i ≤ 2 ^ 126) }
{
    let over = power(c.f - c.g).times(over_box(c, low, high, i)?)?;
    let bound = power(c.f).times(Counted::of(c.bound[i]))?;
    let rest = power(c.f).times(less_offsets(c, i)?.less(bound)?)?;
    over.plus(rest)
}
