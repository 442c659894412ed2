// What a controller is made of, read from files.
ghost use Rattle.std.specs.Prelude.{IfOk, IfSome};
ghost use Rattle.qp_model.specs.problem.Parts.{design_of};
ghost use Rattle.qp_model.specs.problem.Policy.{plans_of, IsPolicyFor};
ghost use Rattle.stay_check.specs.FaceForms.{faces_of, AreFacesFor};
ghost use Rattle.state_files.specs.RangeText.{IsShiftRange};
ghost use Rattle.command_line.specs.Words.{word_of};
ghost use Rattle.command_line.specs.Kind.{ReadsWhere};
ghost use Rattle.command_line.specs.Script.{ends};
ghost use Rattle.command_line.specs.Running.{ReadsAlong};
ghost use Rattle.command_design_files.specs.Reading.{policy_kind};
ghost use Rattle.command_files.specs.Reading.{faces_kind, range_kind};
ghost use Rattle.command_make.specs.Make.{make_after, after_policy, make_deeds, IsAsked};
ghost use Rattle.command_make.specs.Inputs.{AreInputs, act_of};

use crate::command::Asked;
use command_design_files::{Wanted, read_policy_file};
use command_files::{read_faces_file, read_range_file};
use command_line::Status;
use io_edge::{Store, Words};
use mat_int::Mat;
use qp_model::{Design, Policy};
use stay_check::Faces;
use std::alloc::Global;

/// A design, whether it asks for the accelerated machine, and the plans of a policy for it; where a command asks for them reference plans, faces, and the
/// range of the shifts under which these are to hold.
#[derive(Drop)]
pub struct Inputs {
    pub fast: bool,
    pub design: Design,
    pub policy: Policy,
    pub reference: Option<Policy>,
    pub faces: Option<Faces>,
    pub range: Option<Mat>,
}

/// All that is asked for behind the design, or the status that ends the run.
pub fn read_inputs<S: Store>(
    alloc: Global,
    words: &Words,
    asked: &Asked,
    wanted: Wanted,
    store: &mut S,
) -> Result<Inputs, Status>
    requires { IsAsked words.now asked.now }
    ensures along { ReadsAlong S.Store words.now (make_deeds asked.now) (make_after asked.now wanted.fast wanted.design) (λ i. ends (act_of asked.now i))
        result store.old store.new }
    ensures inputs { IfOk result AreInputs }
{
    let policy = read_policy_file(alloc, 2, words.at(2), &wanted.design, store)?;
    read_others(alloc, words, asked, wanted, policy, store)
}

// What is asked for behind the policy.
fn read_others<S: Store>(
    alloc: Global,
    words: &Words,
    asked: &Asked,
    wanted: Wanted,
    policy: Policy,
    store: &mut S,
) -> Result<Inputs, Status>
    requires asked { IsAsked words.now asked.now }
    requires plans { IsPolicyFor (design_of wanted.design) (plans_of policy) }
    ensures along { ReadsAlong S.Store words.now (make_deeds asked.now) (after_policy asked.now wanted.fast wanted.design (plans_of policy))
        (λ i. ends (act_of asked.now i)) result store.old store.new }
    ensures inputs { IfOk result AreInputs }
{
    let reference = read_reference(alloc, words, asked, &wanted.design, store)?;
    let faces = read_faces(alloc, words, asked, &wanted.design, store)?;
    let range = read_range(alloc, words, asked, &wanted.design, store)?;
    Ok(Inputs {
        fast: wanted.fast,
        design: wanted.design,
        policy,
        reference,
        faces,
        range,
    })
}

// The reference plans, where they are asked for.
fn read_reference<S: Store>(
    alloc: Global,
    words: &Words,
    asked: &Asked,
    design: &Design,
    store: &mut S,
) -> Result<Option<Policy>, Status>
    requires { IsAsked words.now asked.now }
    ensures read { ReadsWhere S.Store asked.now.lean (policy_kind (design_of design.now)) 3 (word_of words.now 3) plans_of result store.old store.new }
    ensures sized { IfOk result (λ o. IfSome o (λ r. IsPolicyFor (design_of design.now) (plans_of r))) }
{
    if asked.lean {
        let name = words.at(3);
        Ok(Some(read_policy_file(alloc, 3, name, design, store)?))
    } else {
        Ok(None)
    }
}

// The faces, where they are asked for.
fn read_faces<S: Store>(
    alloc: Global,
    words: &Words,
    asked: &Asked,
    design: &Design,
    store: &mut S,
) -> Result<Option<Faces>, Status>
    requires { IsAsked words.now asked.now }
    ensures read { ReadsWhere S.Store asked.now.faced (faces_kind (design_of design.now)) asked.now.faces (word_of words.now asked.now.faces) faces_of
        result store.old store.new }
    ensures sized { IfOk result (λ o. IfSome o (λ f. AreFacesFor (design_of design.now) (faces_of f))) }
{
    if asked.faced {
        let name = words.at(asked.faces as usize);
        Ok(Some(read_faces_file(alloc, asked.faces, name, design, store)?))
    } else {
        Ok(None)
    }
}

// The range of the disturbances, where there are any.
fn read_range<S: Store>(
    alloc: Global,
    words: &Words,
    asked: &Asked,
    design: &Design,
    store: &mut S,
) -> Result<Option<Mat>, Status>
    requires { IsAsked words.now asked.now }
    ensures read { ReadsWhere S.Store asked.now.disturbed (range_kind design.now.states) asked.now.range (word_of words.now asked.now.range) (λ m. m)
        result store.old store.new }
    ensures sized { IfOk result (λ o. IfSome o (IsShiftRange design.now.states)) }
{
    if asked.disturbed {
        let n = design.parts().states;
        let name = words.at(asked.range as usize);
        Ok(Some(read_range_file(alloc, asked.range, name, n, store)?))
    } else {
        Ok(None)
    }
}
