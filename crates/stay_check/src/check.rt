// The check of faces.
ghost use Rattle.std.specs.Prelude.{◌≡◌, ◌+◌, ◌*◌, ◌^◌, ◌≤◌, ◌<◌, ◌≤ℤ◌, pos, length, IfOk, IfErr, Ok, Err, replicate};
ghost use Rattle.integer_algebra.specs.Sums.{at, none};
ghost use Rattle.qp_model.specs.problem.Design.{rows};
ghost use Rattle.qp_model.specs.problem.Parts.{IsDesign, IsNumeratorList, design_of};
ghost use Rattle.stay_check.specs.FaceForms.{AreFacesFor, faces_of, face_of, HasEqualInputs, FaceHolds};
ghost use Rattle.stay_check.specs.Staying.{KeepsInBox};
ghost use Rattle.stay_check.specs.StaySize.{face_size};
ghost use Rattle.stay_check.specs.Answers.{IsUnequalFault, IsFaceFault, IsStayFault, Stays};
ghost use Rattle.stay_check.specs.declared.fault.StayFault.{StayFault};

use crate::faces::Faces;
use crate::fault::StayFault;
use crate::rows::Column;
use crate::size::stay_size;
use crate::sums::{farthest_next, is_on_side, of_coordinate, of_rows};
use qp_model::{Design, DesignParts, MOST_STATES, Quantity};

// Whether the rows of face `e` have together of each input as much as its coordinate has.
fn test_inputs(parts: &DesignParts, faces: &Faces, e: usize) -> Result<(), StayFault>
    requires design { IsDesign parts.now }
    requires faces { AreFacesFor (design_of parts.now) (faces_of faces.now) }
    requires face { e < 2 * parts.now.states }
    ensures right { IfOk result (λ _. HasEqualInputs (design_of parts.now) (face_of (faces_of faces.now) e)) }
    ensures fault { IfErr result (IsUnequalFault (design_of parts.now) (face_of (faces_of faces.now) e) (e + 1)) }
{
    for l in 0..parts.inputs {
        let left = of_rows(parts, faces, e, Column::Input(l));
        let right = of_coordinate(parts, faces, e, Column::Input(l));
        if left != right {
            return Err(StayFault::Unequal {
                entry: e as u32 + 1,
                input: l as u32 + 1,
                left,
                right,
            });
        }
    }
    Ok(())
}

// Whether face `e` holds.
fn test_face(
    parts: &DesignParts,
    faces: &Faces,
    excess: &[i128],
    low: &[i128],
    high: &[i128],
    e: usize,
) -> Result<(), StayFault>
    requires design { IsDesign parts.now }
    requires faces { AreFacesFor (design_of parts.now) (faces_of faces.now) }
    requires excess { length excess.now ≡ rows (design_of parts.now) }
    requires low { IsNumeratorList low.now parts.now.states }
    requires high { IsNumeratorList high.now parts.now.states }
    requires face { e < 2 * parts.now.states }
    requires narrow { face_size (design_of parts.now) (at excess.now) (face_of (faces_of faces.now) e) ≤ 2 ^ 126 }
    ensures right { IfOk result (λ _. FaceHolds (design_of parts.now) (at excess.now) (at low.now) (at high.now) (face_of (faces_of faces.now) e)) }
    ensures fault { IfErr result (IsFaceFault (design_of parts.now) (at excess.now) (at low.now) (at high.now) (face_of (faces_of faces.now) e) (e + 1)) }
{
    test_inputs(parts, faces, e)?;
    let bound = farthest_next(parts, faces, excess, low, high, e);
    if is_on_side(parts, e, bound) {
        Ok(())
    } else {
        Err(StayFault::NoStay {
            entry: e as u32 + 1,
            bound,
        })
    }
}

// Whether every face holds.
fn test_faces(
    parts: &DesignParts,
    faces: &Faces,
    excess: &[i128],
    low: &[i128],
    high: &[i128],
) -> Result<(), StayFault>
    requires design { IsDesign parts.now }
    requires faces { AreFacesFor (design_of parts.now) (faces_of faces.now) }
    requires excess { length excess.now ≡ rows (design_of parts.now) }
    requires low { IsNumeratorList low.now parts.now.states }
    requires high { IsNumeratorList high.now parts.now.states }
    ensures right { IfOk result (λ _. Stays (design_of parts.now) (at excess.now) (at low.now) (at high.now) (faces_of faces.now)) }
    ensures fault { IfErr result (IsStayFault (design_of parts.now) (at excess.now) (at low.now) (at high.now) (faces_of faces.now)) }
{
    let Some(_) = stay_size(parts, faces, excess) else {
        return Err(StayFault::TooWide {
            quantity: Quantity::Stay,
        });
    };
    for e in 0..2 * parts.states {
        test_face(parts, faces, excess, low, high, e)?;
    }
    Ok(())
}

/// Whether the faces show that a turn of a closed loop stays in the box of the design, where the plan exceeds each row of the design by at
/// most its number of `excess` over `2^40`, and the next grid state is shifted by numbers over `2^grid` from `low` to `high`. It takes no
/// memory.
///
/// # Errors
/// `TooWide` where the quantity `stay` is above `2^126`. Else for the faces in turn: `Unequal` for the first input of which its rows have
/// together another part than its coordinate has, then `NoStay` where its coordinate may go beyond it.
pub fn check_faces_under(
    design: &Design,
    faces: &Faces,
    excess: &[i128],
    low: &[i128],
    high: &[i128],
) -> Result<(), StayFault>
    requires faces { AreFacesFor (design_of design.now) (faces_of faces.now) }
    requires excess { length excess.now ≡ rows (design_of design.now) }
    requires low { IsNumeratorList low.now design.now.states }
    requires high { IsNumeratorList high.now design.now.states }
    ensures stays { IfOk result (λ _. KeepsInBox (design_of design.now) (at excess.now) (at low.now) (at high.now)) }
    ensures right { Stays (design_of design.now) (at excess.now) (at low.now) (at high.now) (faces_of faces.now) → result ≡ Ok tt }
    ensures found { IfOk result (λ _. Stays (design_of design.now) (at excess.now) (at low.now) (at high.now) (faces_of faces.now)) }
    ensures fault { IfErr result (IsStayFault (design_of design.now) (at excess.now) (at low.now) (at high.now) (faces_of faces.now)) }
    ensures first { (told : StayFault) →
        IsStayFault (design_of design.now) (at excess.now) (at low.now) (at high.now) (faces_of faces.now) told → result ≡ Err told }
{
    test_faces(design.parts(), faces, excess, low, high)
}

// The same with zeros for shifts.
fn check_unshifted(
    design: &Design,
    faces: &Faces,
    excess: &[i128],
    zeros: &[i128],
) -> Result<(), StayFault>
    requires faces { AreFacesFor (design_of design.now) (faces_of faces.now) }
    requires excess { length excess.now ≡ rows (design_of design.now) }
    requires zeros { zeros.now ≡ replicate design.now.states (pos 0) }
    ensures stays { IfOk result (λ _. KeepsInBox (design_of design.now) (at excess.now) none none) }
    ensures right { Stays (design_of design.now) (at excess.now) none none (faces_of faces.now) → result ≡ Ok tt }
    ensures found { IfOk result (λ _. Stays (design_of design.now) (at excess.now) none none (faces_of faces.now)) }
    ensures fault { IfErr result (IsStayFault (design_of design.now) (at excess.now) none none (faces_of faces.now)) }
    ensures first { (told : StayFault) → IsStayFault (design_of design.now) (at excess.now) none none (faces_of faces.now) told → result ≡ Err told }
{
    check_faces_under(design, faces, excess, zeros, zeros)
}

/// The same without shifts.
pub fn check_faces(design: &Design, faces: &Faces, excess: &[i128]) -> Result<(), StayFault>
    requires faces { AreFacesFor (design_of design.now) (faces_of faces.now) }
    requires excess { length excess.now ≡ rows (design_of design.now) }
    ensures stays { IfOk result (λ _. KeepsInBox (design_of design.now) (at excess.now) none none) }
    ensures right { Stays (design_of design.now) (at excess.now) none none (faces_of faces.now) → result ≡ Ok tt }
    ensures found { IfOk result (λ _. Stays (design_of design.now) (at excess.now) none none (faces_of faces.now)) }
    ensures fault { IfErr result (IsStayFault (design_of design.now) (at excess.now) none none (faces_of faces.now)) }
    ensures first { (told : StayFault) → IsStayFault (design_of design.now) (at excess.now) none none (faces_of faces.now) told → result ≡ Err told }
{
    let zeros = &[0; MOST_STATES][..design.parts().states];
    check_unshifted(design, faces, excess, zeros)
}
