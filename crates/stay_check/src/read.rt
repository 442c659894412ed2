// The text of faces.
ghost use Rattle.std.specs.Prelude.{◌≡◌, ◌⊎◌, ◌^◌, ◌<◌, length, IfOk, IfErr, MatchResult};
ghost use Rattle.qp_model.specs.problem.Parts.{IsDesign, design_of};
ghost use Rattle.number_text.specs.declared.text_fault.TextFault.{TextFault};
ghost use Rattle.number_text.specs.declared.text_fault.TextFault.TheVariants.{Memory};
ghost use Rattle.stay_check.specs.FaceForms.{FaceNumbers, faces_of, AreFacesFor};
ghost use Rattle.stay_check.specs.FacesText.{IsFacesText, IsFacesTextFault};

use crate::faces::Faces;
use crate::rows::first_row_count;
use number_text::TextFault;
use policy_file::{Headed, Layout, read_headed};
use qp_model::{Design, DesignParts};
use std::alloc::Global;

/// The faces of a text of `2n` records, for each coordinate that of the upper face, then that of the lower: a factor `1 .. 2^31 - 1` and a weight
/// `0 .. 2^31 - 1` for each first row of the design. The text has fewer than `2^32` bytes.
///
/// # Errors
/// The first fault: for the records in turn `Fields` where one has another number of fields, then `Number` for its first field that
/// holds no number in its range. After all records `Count` where there isn't one for each face.
pub fn read_faces(alloc: Global, bytes: &[u8], design: &Design) -> Result<Faces, TextFault>
    requires { length bytes.now < 2 ^ 32 }
    ensures found { IfOk result (λ f. IsFacesText bytes.now (design_of design.now) (faces_of f)) }
    ensures sized { IfOk result (λ f. AreFacesFor (design_of design.now) (faces_of f)) }
    ensures fault { IfErr result (λ e. (e ≡ Memory) ⊎ IsFacesTextFault bytes.now (design_of design.now) e) }

    // The other way round, with nothing but out of memory in between.
    ensures right { (faces : FaceNumbers) → IsFacesText bytes.now (design_of design.now) faces →
        MatchResult result (λ f. faces_of f ≡ faces) (λ e. e ≡ Memory) }
    ensures first { (told : TextFault) → IsFacesTextFault bytes.now (design_of design.now) told →
        MatchResult result (λ _. ⊥) (λ e. (e ≡ told) ⊎ (e ≡ Memory)) }
{
    faces_in(alloc, bytes, design.parts())
}

// The same, said one way.
fn faces_in(alloc: Global, bytes: &[u8], parts: &DesignParts) -> Result<Faces, TextFault>
    requires small { length bytes.now < 2 ^ 32 }
    requires design { IsDesign parts.now }
    ensures found { IfOk result (λ f. IsFacesText bytes.now (design_of parts.now) (faces_of f)) }
    ensures fault { IfErr result (λ e. (e ≡ Memory) ⊎ IsFacesTextFault bytes.now (design_of parts.now) e) }
{
    let weights_of = first_row_count(parts);
    let read = read_headed(alloc, bytes, Layout::Face, weights_of, 2 * parts.states)?;
    let Headed { heads, rows } = read;
    Ok(Faces {
        kappa: heads,
        weights: rows,
    })
}
