// The first rows of a design, number by number.
ghost use Rattle.std.specs.Prelude.{◌≡◌, ◌<◌, ◌==◌, ◌*◌, ◌^◌, ◌≤◌, length, get_or, unsigned_abs};
ghost use Rattle.integer_algebra.specs.Sums.{at};
ghost use Rattle.integer_algebra.specs.Sizes.{size};
ghost use Rattle.qp_model.specs.problem.Design.{rows};
ghost use Rattle.qp_model.specs.problem.Parts.{IsDesign, design_of};
ghost use Rattle.stay_check.specs.FirstRows.{next_limit, next_limits, is_on_state, limits_on_state, row_at_next, first_row_count, first_row};
ghost use Rattle.stay_check.specs.Columns.{IsColumn, plant_at, limit_coefficient, coefficient};

use qp_model::DesignParts;

/// A state or an input, from 0: of either the plant and a limit have a column.
#[derive(Clone, Copy)]
pub(crate) enum Column {
    State(usize),
    Input(usize),
}

// What coordinate `i` of the plant has of it, over the plant's denominator.
pub(crate) fn plant_at(parts: &DesignParts, i: usize, column: Column) -> i128
    requires design { IsDesign parts.now }
    requires coordinate { i < parts.now.states }
    requires column { IsColumn (design_of parts.now) column }
    ensures value { result ≡ plant_at (design_of parts.now) i column }
    ensures small { unsigned_abs result < 2 ^ 31 }
{
    match column {
        Column::State(j) => parts.a.at(i, j),
        Column::Input(l) => parts.b.at(i, l),
    }
}

// What stage limit `i` has of it.
fn stage_limit_at(parts: &DesignParts, i: usize, column: Column) -> i128
    requires design { IsDesign parts.now }
    requires limit { i < length parts.now.stage_rows.rows }
    requires column { IsColumn (design_of parts.now) column }
    ensures value { result ≡ limit_coefficient ((design_of parts.now).stage_limit i) column }
    ensures small { unsigned_abs result < 2 ^ 31 }
{
    match column {
        Column::State(j) => parts.stage_rows.at(i, j),
        Column::Input(l) => parts.stage_rows.at(i, parts.states + l),
    }
}

// Among how many limits those on the state of stage 1 are.
fn next_limits(parts: &DesignParts) -> usize
    requires { IsDesign parts.now }
    ensures value { result ≡ next_limits (design_of parts.now) }
    ensures few { result ≤ 12 }
{
    if parts.stages == 1 {
        parts.final_rows.rows()
    } else {
        parts.stage_rows.rows()
    }
}

// What limit `i` of those has of state `j`.
fn next_limit_at(parts: &DesignParts, i: usize, j: usize) -> i128
    requires design { IsDesign parts.now }
    requires limit { i < next_limits (design_of parts.now) }
    requires state { j < parts.now.states }
    ensures value { result ≡ (next_limit (design_of parts.now) i).of_state j }
    ensures small { unsigned_abs result < 2 ^ 31 }
{
    if parts.stages == 1 {
        parts.final_rows.at(i, j)
    } else {
        parts.stage_rows.at(i, j)
    }
}

// Whether no input is a part of stage limit `i`.
fn has_no_input(parts: &DesignParts, i: usize) -> bool
    requires design { IsDesign parts.now }
    requires limit { i < length parts.now.stage_rows.rows }
    ensures { result ≡ (size parts.now.inputs ((design_of parts.now).stage_limit i).of_input == 0) }
{
    for l in 0..parts.inputs {
        if stage_limit_at(parts, i, Column::Input(l)) != 0 {
            return false;
        }
    }
    true
}

// Whether limit `i` of those is on the state of stage 1 alone.
fn is_on_state(parts: &DesignParts, i: usize) -> bool
    requires design { IsDesign parts.now }
    requires limit { i < next_limits (design_of parts.now) }
    ensures { result ≡ is_on_state (design_of parts.now) i }
{
    parts.stages == 1 || has_no_input(parts, i)
}

// How many limits are.
fn limits_on_state(parts: &DesignParts) -> usize
    requires { IsDesign parts.now }
    ensures value { result ≡ length (limits_on_state (design_of parts.now)) }
    ensures few { result ≤ 12 }
{
    let mut count = 0;
    for i in 0..next_limits(parts) {
        if is_on_state(parts, i) {
            count += 1;
        }
    }
    count
}

// Number `k` of them, from 0.
fn limit_on_state(parts: &DesignParts, k: usize) -> usize
    requires design { IsDesign parts.now }
    requires inside { k < length (limits_on_state (design_of parts.now)) }
    ensures value { result ≡ get_or (limits_on_state (design_of parts.now)) k 0 }
    ensures limit { result < next_limits (design_of parts.now) }
{
    let mut left = k;
    for i in 0..next_limits(parts) {
        if is_on_state(parts, i) {
            if left == 0 {
                return i;
            }
            left -= 1;
        }
    }
    unreachable!()
}

/// How many first rows a design has: its stage limits at stage 0, and its limits on the state of stage 1 alone.
pub(crate) fn first_row_count(parts: &DesignParts) -> usize
    requires { IsDesign parts.now }
    ensures value { result ≡ first_row_count (design_of parts.now) }
    ensures few { result ≤ 24 }
{
    parts.stage_rows.rows() + limits_on_state(parts)
}

// What limit `i` on the state of stage 1 has of a column, through the plant.
fn through_plant(parts: &DesignParts, i: usize, column: Column) -> i128
    requires design { IsDesign parts.now }
    requires limit { i < next_limits (design_of parts.now) }
    requires column { IsColumn (design_of parts.now) column }
    ensures value { result ≡ coefficient (row_at_next (design_of parts.now) i) column }
    ensures small { unsigned_abs result < 2 ^ 66 }
{
    let mut sum = 0;
    for k in 0..parts.states {
        sum += plant_at(parts, k, column) * next_limit_at(parts, i, k);
    }
    sum
}

/// What first row `r` has of a column.
pub(crate) fn coefficient(parts: &DesignParts, r: usize, column: Column) -> i128
    requires design { IsDesign parts.now }
    requires row { r < first_row_count (design_of parts.now) }
    requires column { IsColumn (design_of parts.now) column }
    ensures value { result ≡ coefficient (first_row (design_of parts.now) r) column }
    ensures small { unsigned_abs result < 2 ^ 66 }
{
    let count = parts.stage_rows.rows();
    if r < count {
        parts.plant_den * stage_limit_at(parts, r, column)
    } else {
        through_plant(parts, limit_on_state(parts, r - count), column)
    }
}

/// The bound of first row `r`.
pub(crate) fn first_bound(parts: &DesignParts, r: usize) -> i128
    requires design { IsDesign parts.now }
    requires row { r < first_row_count (design_of parts.now) }
    ensures value { result ≡ (first_row (design_of parts.now) r).bound }
    ensures small { unsigned_abs result < 2 ^ 31 }
{
    let count = parts.stage_rows.rows();
    let (n, p) = (parts.states, parts.inputs);
    if r < count {
        return parts.stage_rows.at(r, n + p);
    }
    let limit = limit_on_state(parts, r - count);
    if parts.stages == 1 {
        parts.final_rows.at(limit, n)
    } else {
        parts.stage_rows.at(limit, n + p)
    }
}

// Which row of the design first row `r` is, from 0.
fn row_number(parts: &DesignParts, r: usize) -> usize
    requires design { IsDesign parts.now }
    requires row { r < first_row_count (design_of parts.now) }
    ensures { result ≡ (first_row (design_of parts.now) r).row }
{
    let count = parts.stage_rows.rows();
    if r < count {
        r
    } else {
        count + limit_on_state(parts, r - count)
    }
}

/// By how much first row `r` is exceeded at most, over `2^40`, where each row of the design is by at most its number.
pub(crate) fn first_excess(parts: &DesignParts, excess: &[i128], r: usize) -> i128
    requires design { IsDesign parts.now }
    requires excess { length excess.now ≡ rows (design_of parts.now) }
    requires row { r < first_row_count (design_of parts.now) }
    ensures { result ≡ at excess.now (first_row (design_of parts.now) r).row }
{
    excess[row_number(parts, r)]
}
