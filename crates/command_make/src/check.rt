// Whether the loop of what was made stays in the box.
ghost use Rattle.std.specs.Prelude.{◌≡◌, length, IfOk, IfErr};
ghost use Rattle.integer_algebra.specs.Sums.{at};
ghost use Rattle.qp_model.specs.problem.Design.{rows};
ghost use Rattle.qp_model.specs.problem.Parts.{design_of};
ghost use Rattle.stay_check.specs.FaceForms.{faces_of, AreFacesFor};
ghost use Rattle.state_files.specs.RangeText.{IsShiftRange};
ghost use Rattle.command_make.specs.Stay.{stay_status};
ghost use Rattle.command_make.specs.Checking.{IsKeptWith, IsCaughtWith};

use command_line::Status;
use mat_int::Mat;
use qp_model::{Design, Refusal};
use stay_check::{Faces, StayFault, check_faces_under};

// The status that tells of a fault of the faces.
fn stay_status(fault: StayFault) -> Status
    ensures { result ≡ stay_status fault }
{
    match fault {
        StayFault::TooWide { quantity } => Status::Refused {
            refusal: Refusal::TooWide { quantity },
        },
        StayFault::Unequal {
            entry,
            input,
            left,
            right,
        } => Status::Unequal {
            entry,
            input,
            left,
            right,
        },
        StayFault::NoStay { entry, bound } => Status::NoStay { entry, bound },
    }
}

/// Whether the faces show that a turn of a closed loop stays in the box under shifts of this range, where each row is exceeded by at most its number of
/// `excess` over `2^40`; or the status that tells why not. It takes no memory.
pub fn check_under(
    design: &Design,
    faces: &Faces,
    excess: &[i128],
    range: &Mat,
) -> Result<(), Status>
    requires faces { AreFacesFor (design_of design.now) (faces_of faces.now) }
    requires range { IsShiftRange design.now.states range.now }
    requires excess { length excess.now ≡ rows (design_of design.now) }
    ensures kept { IfOk result (λ _. IsKeptWith (design_of design.now) (at excess.now) (faces_of faces.now) range.now) }
    ensures caught { IfErr result (IsCaughtWith (design_of design.now) (at excess.now) (faces_of faces.now) range.now) }
{
    match check_faces_under(design, faces, excess, range.row(0), range.row(1)) {
        Ok(()) => Ok(()),
        Err(fault) => Err(stay_status(fault)),
    }
}
