// The files of a design and of a policy.
ghost use Rattle.std.specs.Prelude.{IfOk};
ghost use Rattle.qp_model.specs.problem.Parts.{design_of};
ghost use Rattle.qp_model.specs.problem.Policy.{plans_of, IsPolicyFor};
ghost use Rattle.command_line.specs.Kind.{ReadsFile};
ghost use Rattle.command_design_files.specs.Reading.{design_kind, asked_kind, policy_kind};

use crate::bytes::{FILE_LIMIT, read_bytes};
use crate::statuses::told_text;
use command_line::Status;
use design_files::{Asked, read_any_design, read_design};
use io_edge::Store;
use policy_file::read_policy;
use qp_model::{Design, Policy};
use std::alloc::Global;

/// The design under the name at a position among the arguments, or the status that ends the run.
pub fn read_design_file<S: Store>(
    alloc: Global,
    file: u32,
    name: &str,
    store: &mut S,
) -> Result<Design, Status>
    ensures { ReadsFile S.Store design_kind file name.now (λ d. d) result store.old store.new }
{
    let bytes = read_bytes(alloc, FILE_LIMIT, file, name, store)?;
    told_text(file, read_design(alloc, &bytes))
}

/// The design under the name at a position among the arguments, of any version, with the machine that it asks for; or the status that ends the run.
pub fn read_asked_file<S: Store>(
    alloc: Global,
    file: u32,
    name: &str,
    store: &mut S,
) -> Result<Asked, Status>
    ensures { ReadsFile S.Store asked_kind file name.now (λ a. a) result store.old store.new }
{
    let bytes = read_bytes(alloc, FILE_LIMIT, file, name, store)?;
    told_text(file, read_any_design(alloc, &bytes))
}

/// The policy for a design under the name at a position among the arguments, or the status that ends the run.
pub fn read_policy_file<S: Store>(
    alloc: Global,
    file: u32,
    name: &str,
    design: &Design,
    store: &mut S,
) -> Result<Policy, Status>
    ensures read { ReadsFile S.Store (policy_kind (design_of design.now)) file name.now plans_of result store.old store.new }
    ensures sized { IfOk result (λ p. IsPolicyFor (design_of design.now) (plans_of p)) }
{
    let bytes = read_bytes(alloc, FILE_LIMIT, file, name, store)?;
    told_text(file, read_policy(alloc, &bytes, design))
}
