// A corner of the box with its plan and its reference plan.
ghost use Rattle.std.specs.Prelude.{◌≡◌, ℕ, suc, ◌<◌, ◌^◌, IfOk};
ghost use Rattle.qp_model.specs.problem.Box.{corner};
ghost use Rattle.qp_model.specs.problem.Parts.{design_of, IsDesign};
ghost use Rattle.qp_model.specs.problem.Policy.{plans_of, IsPolicyFor};
ghost use Rattle.qp_model.specs.problem.Runs.{Holds};
ghost use Rattle.plan_excess.specs.Slopes.{IsCornerOf};

use corner_margin::coordinate;
use frac_scaled::scaled;
use qp_model::{DesignParts, Policy};
use std::alloc::{AllocError, Global};

/// The corner's state over `grid`, its plan's numerators over `over` and those of its reference plan over `under`.
#[derive(Drop)]
pub(crate) struct Corner<'a> {
    pub(crate) state: Vec<i128>,
    pub(crate) grid: i128,
    pub(crate) plan: &'a [i128],
    pub(crate) over: i128,
    pub(crate) reference: &'a [i128],
    pub(crate) under: i128,
}

// The coordinates of corner `c`, from 0, over `2^grid`.
fn state_of(alloc: Global, parts: &DesignParts, c: usize) -> Result<Vec<i128>, AllocError>
    requires { IsDesign parts.now }
    ensures { IfOk result (λ v. Holds v.items parts.now.states (corner (design_of parts.now) (suc c))) }
{
    let mut out = Vec::new(alloc);
    for i in 0..parts.states {
        out.push(coordinate(parts, c, i))?;
    }
    Ok(out)
}

/// Corner `c`, from 0, of a policy and its reference plans.
pub(crate) fn corner_of<'a>(
    alloc: Global,
    parts: &DesignParts,
    policy: &'a Policy,
    reference: &'a Policy,
    c: usize,
) -> Result<Corner<'a>, AllocError>
    requires design { IsDesign parts.now }
    requires plans { IsPolicyFor (design_of parts.now) (plans_of policy.now) }
    requires references { IsPolicyFor (design_of parts.now) (plans_of reference.now) }
    requires corner { c < 2 ^ parts.now.states }
    ensures { IfOk result (IsCornerOf (design_of parts.now) (plans_of policy.now) (plans_of reference.now) c) }
{
    let state = state_of(alloc, parts, c)?;
    let grid = scaled(1, parts.grid);
    let plan = policy.plans.row(c);
    let goal = reference.plans.row(c);
    Ok(Corner {
        state,
        grid,
        plan,
        over: policy.dens[c],
        reference: goal,
        under: reference.dens[c],
    })
}
