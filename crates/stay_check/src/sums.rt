// A face's sums over the first rows, and how far it lets the coordinate of the next state go.
ghost use Rattle.std.specs.Prelude.{◌≡◌, ◌*◌, ◌/◌, ◌%◌, ◌^◌, ◌<◌, ◌≤◌, ◌==◌, if◌then◌else◌, neg_ℤ, pos, ◌*ℤ◌, ◌↔◌, IsTrue, length, unsigned_abs};
ghost use Rattle.integer_algebra.specs.Sums.{at};
ghost use Rattle.qp_model.specs.problem.Design.{rows};
ghost use Rattle.qp_model.specs.problem.Parts.{IsDesign, IsNumeratorList, design_of};
ghost use Rattle.stay_check.specs.FirstRows.{first_row_count, first_row};
ghost use Rattle.stay_check.specs.FaceForms.{AreFacesFor, faces_of, face_of, towards, weighted, state_rest, rest_over_box, greatest_rest, row_left, left_by_rows, face_reach, farthest_next, IsOnSide};
ghost use Rattle.stay_check.specs.Columns.{IsColumn, plant_at, coefficient};
ghost use Rattle.stay_check.specs.StaySize.{rest_size, left_term, left_size, reach_size};

use crate::faces::Faces;
use crate::rows::{Column, coefficient, first_bound, first_excess, first_row_count, plant_at};
use crate::size::{next_scale, reach_over};
use frac_scaled::round_div;
use qp_model::DesignParts;

// A number towards face `e`: itself of an upper face, and its negative of a lower one.
fn towards(e: usize, number: i128) -> i128
    requires { unsigned_abs number < 2 ^ 127 }
    ensures { result ≡ (if e % 2 == 0 then number else neg_ℤ number) }
{
    if e % 2 == 0 { number } else { -number }
}

/// What the coordinate of face `e` has of a column, towards the face.
pub(crate) fn of_coordinate(parts: &DesignParts, faces: &Faces, e: usize, column: Column) -> i128
    requires design { IsDesign parts.now }
    requires faces { AreFacesFor (design_of parts.now) (faces_of faces.now) }
    requires face { e < 2 * parts.now.states }
    requires column { IsColumn (design_of parts.now) column }
    ensures value { let face = face_of (faces_of faces.now) e in
        result ≡ towards face (pos face.factor *ℤ plant_at (design_of parts.now) face.coordinate column) }
    ensures small { unsigned_abs result ≤ 2 ^ 62 }
{
    towards(e, faces.kappa[e] * plant_at(parts, e / 2, column))
}

/// What the rows of face `e` have of a column, each times its weight.
pub(crate) fn of_rows(parts: &DesignParts, faces: &Faces, e: usize, column: Column) -> i128
    requires design { IsDesign parts.now }
    requires faces { AreFacesFor (design_of parts.now) (faces_of faces.now) }
    requires face { e < 2 * parts.now.states }
    requires column { IsColumn (design_of parts.now) column }
    ensures value { result ≡ weighted (design_of parts.now) (face_of (faces_of faces.now) e) (λ r. coefficient (first_row (design_of parts.now) r) column) }
    ensures small { unsigned_abs result ≤ 2 ^ 102 }
{
    let mut sum = 0;
    for r in 0..first_row_count(parts) {
        sum += faces.weights.at(e, r) * coefficient(parts, r, column);
    }
    sum
}

// What the coordinate has of state `j` beside the rows.
fn state_rest(parts: &DesignParts, faces: &Faces, e: usize, j: usize) -> i128
    requires design { IsDesign parts.now }
    requires faces { AreFacesFor (design_of parts.now) (faces_of faces.now) }
    requires face { e < 2 * parts.now.states }
    requires state { j < parts.now.states }
    ensures { result ≡ state_rest (design_of parts.now) (face_of (faces_of faces.now) e) j }
{
    of_coordinate(parts, faces, e, Column::State(j)) - of_rows(parts, faces, e, Column::State(j))
}

// What it has of state `j` at most, over the box.
fn rest_over_box(parts: &DesignParts, faces: &Faces, e: usize, j: usize) -> i128
    requires design { IsDesign parts.now }
    requires faces { AreFacesFor (design_of parts.now) (faces_of faces.now) }
    requires face { e < 2 * parts.now.states }
    requires state { j < parts.now.states }
    requires narrow { rest_size (design_of parts.now) (face_of (faces_of faces.now) e) ≤ 2 ^ 125 }
    ensures { result ≡ rest_over_box (design_of parts.now) (face_of (faces_of faces.now) e) j }
{
    let state_rest = state_rest(parts, faces, e, j);
    (state_rest * parts.lo[j]).max(state_rest * parts.hi[j])
}

// And of all states.
fn greatest_rest(parts: &DesignParts, faces: &Faces, e: usize) -> i128
    requires design { IsDesign parts.now }
    requires faces { AreFacesFor (design_of parts.now) (faces_of faces.now) }
    requires face { e < 2 * parts.now.states }
    requires narrow { rest_size (design_of parts.now) (face_of (faces_of faces.now) e) ≤ 2 ^ 125 }
    ensures { result ≡ greatest_rest (design_of parts.now) (face_of (faces_of faces.now) e) }
{
    let mut sum = 0;
    for j in 0..parts.states {
        sum += rest_over_box(parts, faces, e, j);
    }
    sum
}

// What first row `r` leaves.
fn left_by_row(parts: &DesignParts, faces: &Faces, excess: &[i128], e: usize, r: usize) -> i128
    requires design { IsDesign parts.now }
    requires faces { AreFacesFor (design_of parts.now) (faces_of faces.now) }
    requires excess { length excess.now ≡ rows (design_of parts.now) }
    requires face { e < 2 * parts.now.states }
    requires row { r < first_row_count (design_of parts.now) }
    requires narrow { left_term (design_of parts.now) (at excess.now) (face_of (faces_of faces.now) e) r ≤ 2 ^ 125 }
    ensures { result ≡ row_left (design_of parts.now) (at excess.now) (face_of (faces_of faces.now) e) r }
{
    let weight = faces.weights.at(e, r);
    let own = weight * ((1 << 40) * first_bound(parts, r));
    own + weight * parts.limit_den * first_excess(parts, excess, r)
}

// What all of them leave.
fn left_by_rows(parts: &DesignParts, faces: &Faces, excess: &[i128], e: usize) -> i128
    requires design { IsDesign parts.now }
    requires faces { AreFacesFor (design_of parts.now) (faces_of faces.now) }
    requires excess { length excess.now ≡ rows (design_of parts.now) }
    requires face { e < 2 * parts.now.states }
    requires narrow { left_size (design_of parts.now) (at excess.now) (face_of (faces_of faces.now) e) ≤ 2 ^ 125 }
    ensures { result ≡ left_by_rows (design_of parts.now) (at excess.now) (face_of (faces_of faces.now) e) }
{
    let mut sum = 0;
    for r in 0..first_row_count(parts) {
        sum += left_by_row(parts, faces, excess, e, r);
    }
    sum
}

// The reach of face `e`.
fn face_reach(parts: &DesignParts, faces: &Faces, excess: &[i128], e: usize) -> i128
    requires design { IsDesign parts.now }
    requires faces { AreFacesFor (design_of parts.now) (faces_of faces.now) }
    requires excess { length excess.now ≡ rows (design_of parts.now) }
    requires face { e < 2 * parts.now.states }
    requires narrow { reach_size (design_of parts.now) (at excess.now) (face_of (faces_of faces.now) e) ≤ 2 ^ 125 }
    ensures value { result ≡ face_reach (design_of parts.now) (at excess.now) (face_of (faces_of faces.now) e) }
    ensures small { unsigned_abs result ≤ 2 ^ 125 }
{
    let own = (1 << 40) * greatest_rest(parts, faces, e);
    own + next_scale(parts) as i128 * left_by_rows(parts, faces, excess, e)
}

// The greatest shift of the coordinate of face `e` towards it.
fn shift_of(low: &[i128], high: &[i128], e: usize) -> i128
    requires low { IsNumeratorList low.now (length low.now) }
    requires high { IsNumeratorList high.now (length low.now) }
    requires face { e < 2 * length low.now }
    ensures value { result ≡ (if e % 2 == 0 then at high.now (e / 2) else at low.now (e / 2)) }
    ensures small { unsigned_abs result < 2 ^ 31 }
{
    if e % 2 == 0 { high[e / 2] } else { low[e / 2] }
}

/// How far the coordinate of the next grid state of face `e` can go at most, with a shift from `low` to `high`.
pub(crate) fn farthest_next(
    parts: &DesignParts,
    faces: &Faces,
    excess: &[i128],
    low: &[i128],
    high: &[i128],
    e: usize,
) -> i128
    requires design { IsDesign parts.now }
    requires faces { AreFacesFor (design_of parts.now) (faces_of faces.now) }
    requires excess { length excess.now ≡ rows (design_of parts.now) }
    requires low { IsNumeratorList low.now parts.now.states }
    requires high { IsNumeratorList high.now parts.now.states }
    requires face { e < 2 * parts.now.states }
    requires narrow { reach_size (design_of parts.now) (at excess.now) (face_of (faces_of faces.now) e) ≤ 2 ^ 125 }
    ensures { result ≡ farthest_next (design_of parts.now) (at excess.now) (at low.now) (at high.now) (face_of (faces_of faces.now) e) }
{
    let over = reach_over(parts, faces, e) as i128;
    let rounded = round_div(towards(e, face_reach(parts, faces, excess, e)), over);
    rounded + shift_of(low, high, e)
}

/// Whether a number over `2^grid` is not beyond face `e`.
pub(crate) fn is_on_side(parts: &DesignParts, e: usize, number: i128) -> bool
    requires design { IsDesign parts.now }
    requires face { e < 2 * parts.now.states }
    ensures { IsTrue result ↔ IsOnSide (e % 2 == 0) (at parts.now.lo.items (e / 2)) (at parts.now.hi.items (e / 2)) number }
{
    if e % 2 == 0 {
        number <= parts.hi[e / 2]
    } else {
        parts.lo[e / 2] <= number
    }
}
