// The quantity `stay`, computed. None stands for a number above `2^126`.
ghost use Rattle.std.specs.Prelude.{◌≡◌, ◌+◌, ◌*◌, ◌^◌, ◌<◌, ◌≤◌, length, unsigned_abs};
ghost use Rattle.std.specs.Option.{SomeIff};
ghost use Rattle.integer_algebra.specs.Sums.{at};
ghost use Rattle.integer_algebra.specs.Sizes.{amount};
ghost use Rattle.qp_model.specs.problem.Design.{rows};
ghost use Rattle.qp_model.specs.problem.Parts.{IsDesign, design_of};
ghost use Rattle.stay_check.specs.FirstRows.{first_row_count};
ghost use Rattle.stay_check.specs.FaceForms.{AreFacesFor, faces_of, face_of, reach_over};
ghost use Rattle.stay_check.specs.Columns.{IsColumn};
ghost use Rattle.stay_check.specs.declared.rows.Column.TheVariants.{State, Input};
ghost use Rattle.stay_check.specs.StaySize.{weighted_rows_size, coefficient_size, left_term, left_size, reach_size, face_size, stay_size};

use crate::faces::Faces;
use crate::rows::{Column, coefficient, first_bound, first_excess, first_row_count, plant_at};
use frac_scaled::{limited_product, limited_sum};
use qp_model::{DesignParts, box_magnitude};

// 1 over `2^40`.
const ONE: u128 = 1 << 40;

// What the rows of face `e` have of a column at most.
fn weighted_rows_size(parts: &DesignParts, faces: &Faces, e: usize, column: Column) -> u128
    requires design { IsDesign parts.now }
    requires faces { AreFacesFor (design_of parts.now) (faces_of faces.now) }
    requires face { e < 2 * parts.now.states }
    requires column { IsColumn (design_of parts.now) column }
    ensures value { result ≡ weighted_rows_size (design_of parts.now) (face_of (faces_of faces.now) e) column }
    ensures small { result ≤ 2 ^ 102 }
{
    let mut sum = 0;
    for r in 0..first_row_count(parts) {
        let weight = faces.weights.at(e, r).unsigned_abs();
        sum += weight * coefficient(parts, r, column).unsigned_abs();
    }
    sum
}

// What its coordinate and its rows have of it.
fn coefficient_size(parts: &DesignParts, faces: &Faces, e: usize, column: Column) -> u128
    requires design { IsDesign parts.now }
    requires faces { AreFacesFor (design_of parts.now) (faces_of faces.now) }
    requires face { e < 2 * parts.now.states }
    requires column { IsColumn (design_of parts.now) column }
    ensures value { result ≡ coefficient_size (design_of parts.now) (face_of (faces_of faces.now) e) column }
    ensures small { result ≤ 2 ^ 103 }
{
    let own = plant_at(parts, e / 2, column).unsigned_abs();
    faces.kappa[e].unsigned_abs() * own + weighted_rows_size(parts, faces, e, column)
}

// Of all states.
fn states_size(parts: &DesignParts, faces: &Faces, e: usize) -> u128
    requires design { IsDesign parts.now }
    requires faces { AreFacesFor (design_of parts.now) (faces_of faces.now) }
    requires face { e < 2 * parts.now.states }
    ensures { result ≡ amount parts.now.states (λ j. coefficient_size (design_of parts.now) (face_of (faces_of faces.now) e) (State j)) }
{
    let mut sum = 0;
    for j in 0..parts.states {
        sum += coefficient_size(parts, faces, e, Column::State(j));
    }
    sum
}

// Of all inputs.
fn inputs_size(parts: &DesignParts, faces: &Faces, e: usize) -> u128
    requires design { IsDesign parts.now }
    requires faces { AreFacesFor (design_of parts.now) (faces_of faces.now) }
    requires face { e < 2 * parts.now.states }
    ensures { result ≡ amount parts.now.inputs (λ l. coefficient_size (design_of parts.now) (face_of (faces_of faces.now) e) (Input l)) }
{
    let mut sum = 0;
    for l in 0..parts.inputs {
        sum += coefficient_size(parts, faces, e, Column::Input(l));
    }
    sum
}

// What first row `r` leaves at most.
fn left_term(
    parts: &DesignParts,
    faces: &Faces,
    excess: &[i128],
    e: usize,
    r: usize,
) -> Option<u128>
    requires design { IsDesign parts.now }
    requires faces { AreFacesFor (design_of parts.now) (faces_of faces.now) }
    requires excess { length excess.now ≡ rows (design_of parts.now) }
    requires face { e < 2 * parts.now.states }
    requires row { r < first_row_count (design_of parts.now) }
    ensures { let term = left_term (design_of parts.now) (at excess.now) (face_of (faces_of faces.now) e) r in SomeIff result (term ≤ 2 ^ 126) term }
{
    let weight = faces.weights.at(e, r).unsigned_abs();
    let own = weight * (ONE * first_bound(parts, r).unsigned_abs());
    let over = weight * parts.limit_den.unsigned_abs();
    let beyond = limited_product(over, first_excess(parts, excess, r).unsigned_abs())?;
    limited_sum(own, beyond)
}

// What all of them leave.
fn left_size(parts: &DesignParts, faces: &Faces, excess: &[i128], e: usize) -> Option<u128>
    requires design { IsDesign parts.now }
    requires faces { AreFacesFor (design_of parts.now) (faces_of faces.now) }
    requires excess { length excess.now ≡ rows (design_of parts.now) }
    requires face { e < 2 * parts.now.states }
    ensures { let size = left_size (design_of parts.now) (at excess.now) (face_of (faces_of faces.now) e) in SomeIff result (size ≤ 2 ^ 126) size }
{
    let mut sum = 0;
    for r in 0..first_row_count(parts) {
        sum = limited_sum(sum, left_term(parts, faces, excess, e, r)?)?;
    }
    Some(sum)
}

/// What a grid state of 1 is over the plant's next states: `2^grid * plant_den`.
pub(crate) fn next_scale(parts: &DesignParts) -> u128
    requires { IsDesign parts.now }
    ensures value { result ≡ 2 ^ parts.now.grid * (design_of parts.now).plant_denominator }
    ensures small { result ≤ 2 ^ 44 }
{
    (1u128 << parts.grid) * parts.plant_den.unsigned_abs()
}

// The reach of face `e`.
fn reach_size(parts: &DesignParts, faces: &Faces, excess: &[i128], e: usize) -> Option<u128>
    requires design { IsDesign parts.now }
    requires faces { AreFacesFor (design_of parts.now) (faces_of faces.now) }
    requires excess { length excess.now ≡ rows (design_of parts.now) }
    requires face { e < 2 * parts.now.states }
    ensures { let size = reach_size (design_of parts.now) (at excess.now) (face_of (faces_of faces.now) e) in SomeIff result (size ≤ 2 ^ 126) size }
{
    let own = limited_product(ONE * box_magnitude(parts), states_size(parts, faces, e))?;
    let left = left_size(parts, faces, excess, e)?;
    limited_sum(own, limited_product(next_scale(parts), left)?)
}

/// What the reach of face `e` is over.
pub(crate) fn reach_over(parts: &DesignParts, faces: &Faces, e: usize) -> u128
    requires design { IsDesign parts.now }
    requires faces { AreFacesFor (design_of parts.now) (faces_of faces.now) }
    requires face { e < 2 * parts.now.states }
    ensures value { result ≡ reach_over (design_of parts.now) (face_of (faces_of faces.now) e) }
    ensures some { 1 ≤ result }
    ensures small { result ≤ 2 ^ 91 }
{
    faces.kappa[e].unsigned_abs() * parts.plant_den.unsigned_abs() * ONE
}

// All of face `e`.
fn face_size(parts: &DesignParts, faces: &Faces, excess: &[i128], e: usize) -> Option<u128>
    requires design { IsDesign parts.now }
    requires faces { AreFacesFor (design_of parts.now) (faces_of faces.now) }
    requires excess { length excess.now ≡ rows (design_of parts.now) }
    requires face { e < 2 * parts.now.states }
    ensures { let size = face_size (design_of parts.now) (at excess.now) (face_of (faces_of faces.now) e) in SomeIff result (size ≤ 2 ^ 126) size }
{
    let face_reach = limited_product(2, reach_size(parts, faces, excess, e)?)?;
    let forms = limited_sum(face_reach, inputs_size(parts, faces, e))?;
    limited_sum(forms, 2 * reach_over(parts, faces, e))
}

/// The quantity `stay` of faces for a design, whose rows are exceeded by at most `excess` over `2^40`.
pub(crate) fn stay_size(parts: &DesignParts, faces: &Faces, excess: &[i128]) -> Option<u128>
    requires design { IsDesign parts.now }
    requires faces { AreFacesFor (design_of parts.now) (faces_of faces.now) }
    requires excess { length excess.now ≡ rows (design_of parts.now) }
    ensures { let size = stay_size (design_of parts.now) (at excess.now) (faces_of faces.now) in SomeIff result (size ≤ 2 ^ 126) size }
{
    let mut most = 0u128;
    for e in 0..2 * parts.states {
        most = most.max(face_size(parts, faces, excess, e)?);
    }
    Some(most)
}
