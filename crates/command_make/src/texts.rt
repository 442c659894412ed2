// The texts that are written, of what was read.
ghost use Rattle.std.specs.Prelude.{Some, None, true, false};
ghost use Rattle.qp_model.specs.problem.Parts.{design_of};
ghost use Rattle.stay_check.specs.FaceForms.{faces_of, AreFacesFor};
ghost use Rattle.state_files.specs.RangeText.{IsShiftRange};
ghost use Rattle.command_generate.specs.Made.{Makes};
ghost use Rattle.command_make.specs.Inputs.{AreInputs, under_in, MakesTextsOf, MakesFreeTexts, MakingCallsOf, IsPricedFor};

use crate::check::check_under;
use crate::excess::{fast_excess, row_excess};
use crate::fast::{make_fast, texts_of_fast};
use crate::inputs::Inputs;
use crate::made::make;
use command_generate::texts_made;
use command_line::{Status, Texts};
use mat_int::Mat;
use stay_check::Faces;
use std::alloc::Global;

/// Both texts of what was read, or the status that tells why there are none.
pub fn texts_of(alloc: Global, inputs: &Inputs, report_name: &str) -> Result<Texts, Status>
    requires { AreInputs inputs.now }
    ensures { MakesTextsOf inputs.now (under_in inputs.now) report_name.now result }
{
    match &inputs.faces {
        None => free_texts(alloc, inputs, report_name),
        Some(faces) => match &inputs.range {
            Some(range) => faced_texts(alloc, inputs, faces, range, report_name),
            None => {
                let none = Mat::zero(alloc, 2, inputs.design.parts().states)?;
                faced_texts(alloc, inputs, faces, &none, report_name)
            }
        },
    }
}

// The texts where there are no faces.
fn free_texts(alloc: Global, inputs: &Inputs, report_name: &str) -> Result<Texts, Status>
    requires { AreInputs inputs.now }
    ensures { MakesTextsOf inputs.now None report_name.now result }
{
    if inputs.fast {
        fast_texts(alloc, inputs, report_name)
    } else {
        plain_texts(alloc, inputs, report_name)
    }
}

// By the plain machine.
fn plain_texts(alloc: Global, inputs: &Inputs, report_name: &str) -> Result<Texts, Status>
    requires { AreInputs inputs.now }
    ensures { MakesFreeTexts inputs.now false report_name.now result }
{
    let made = make(alloc, &inputs.design, &inputs.policy, &inputs.reference)?;
    texts_made(alloc, &made, report_name)
}

// By the accelerated machine.
fn fast_texts(alloc: Global, inputs: &Inputs, report_name: &str) -> Result<Texts, Status>
    requires { AreInputs inputs.now }
    ensures { MakesFreeTexts inputs.now true report_name.now result }
{
    let made = make_fast(alloc, &inputs.design, &inputs.policy, &inputs.reference)?;
    texts_of_fast(alloc, &made, report_name)
}

// The texts where the faces show that the loop stays in the box under shifts of this range.
fn faced_texts(
    alloc: Global,
    inputs: &Inputs,
    faces: &Faces,
    range: &Mat,
    report_name: &str,
) -> Result<Texts, Status>
    requires inputs { AreInputs inputs.now }
    requires faces { AreFacesFor (design_of inputs.now.design) (faces_of faces.now) }
    requires range { IsShiftRange inputs.now.design.states range.now }
    ensures { MakesTextsOf inputs.now (Some (record { faces = faces_of faces.now; range = range.now })) report_name.now result }
{
    let priced = price(alloc, inputs, report_name)?;
    check_under(&inputs.design, faces, &priced.excess, range)?;
    Ok(priced.texts)
}

/// Both texts of what was made, and by how much each row is exceeded at most, over `2^40`, whichever good solutions the gains are.
#[derive(Drop)]
pub struct Priced {
    pub texts: Texts,
    pub excess: Vec<i128>,
}

// What was made with its numbers, by the machine that is asked for.
fn price(alloc: Global, inputs: &Inputs, report_name: &str) -> Result<Priced, Status>
    requires { AreInputs inputs.now }
    ensures { Makes (MakingCallsOf inputs.now inputs.now.fast) (IsPricedFor inputs.now inputs.now.fast report_name.now) result }
{
    if inputs.fast {
        price_fast(alloc, inputs, report_name)
    } else {
        price_plain(alloc, inputs, report_name)
    }
}

// By the plain machine.
fn price_plain(alloc: Global, inputs: &Inputs, report_name: &str) -> Result<Priced, Status>
    requires { AreInputs inputs.now }
    ensures { Makes (MakingCallsOf inputs.now false) (IsPricedFor inputs.now false report_name.now) result }
{
    let made = make(alloc, &inputs.design, &inputs.policy, &inputs.reference)?;
    let excess = row_excess(alloc, &inputs.design, &inputs.reference, &made)?;
    let texts = texts_made(alloc, &made, report_name)?;
    Ok(Priced { texts, excess })
}

// By the accelerated machine.
fn price_fast(alloc: Global, inputs: &Inputs, report_name: &str) -> Result<Priced, Status>
    requires { AreInputs inputs.now }
    ensures { Makes (MakingCallsOf inputs.now true) (IsPricedFor inputs.now true report_name.now) result }
{
    let made = make_fast(alloc, &inputs.design, &inputs.policy, &inputs.reference)?;
    let excess = fast_excess(alloc, &inputs.design, &inputs.reference, &made)?;
    let texts = texts_of_fast(alloc, &made, report_name)?;
    Ok(Priced { texts, excess })
}
