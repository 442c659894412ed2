// The controllers of all cells, or the first refusal.
ghost use Rattle.std.specs.Prelude.{◌≡◌, ◌⊎◌, ◌+◌, ◌<◌, ◌++◌, [], ◌∷◌, ℕ, List, All, length, map, IfOk, IfErr, IfSome, OnOk};
ghost use Rattle.std.specs.Option.{option_map};
ghost use Rattle.qp_model.specs.problem.Parts.{design_of};
ghost use Rattle.qp_model.specs.problem.Policy.{plans_of, IsPolicyFor};
ghost use Rattle.cell_split.specs.Cells.{cell_count, AreCutsFor};
ghost use Rattle.cell_maker.specs.Made.{AreMadeCells, IsOnlyRefused};

use crate::cell::{MadeCell, make_cell};
use cell_split::Cuts;
use controller_file::AnyController;
use qp_model::{Bounds, Design, Policy, Refusal};
use std::alloc::{AllocError, Global};

/// The cell, from 1, whose design with its policy is refused, and why.
#[derive(Clone, Copy)]
pub struct CellRefusal {
    pub cell: u32,
    pub refusal: Refusal,
}

/// The controllers of cells, all of one machine, and the bounds of each.
#[derive(Drop)]
pub struct MadeCells {
    pub controllers: Vec<AnyController>,
    pub bounds: Vec<Bounds>,
}

/// The controllers and the bounds of all cells that have a policy, in their order: each is what `generate` makes of the cell's design and policy, by the
/// machine that is asked for.
///
/// # Errors
/// The first refusal, cell by cell. `Memory` where memory runs out before.
pub fn make_cells(
    alloc: Global,
    design: &Design,
    fast: bool,
    cuts: &Cuts,
    policies: &[Option<Policy>],
) -> Result<MadeCells, CellRefusal>
    requires cuts { AreCutsFor (design_of design.now) cuts.now }
    requires count { length policies.now ≡ cell_count cuts.now }
    requires sized { All (λ o. IfSome o (λ p. IsPolicyFor (design_of design.now) (plans_of p))) policies.now }
    ensures made { IfOk result (AreMadeCells design.now fast cuts.now (map (option_map plans_of) policies.now)) }
    ensures refused { IfErr result (λ e. (e.refusal ≡ Refusal.Memory) ⊎ IsOnlyRefused design.now fast cuts.now (map (option_map plans_of) policies.now) e) }
{
    let mut all = MadeCells {
        controllers: Vec::new(alloc),
        bounds: Vec::new(alloc),
    };
    for k in 0..cuts.cells() {
        let Some(policy) = &policies[k as usize] else {
            continue;
        };
        match make_cell(alloc, design, fast, cuts, policy, k + 1) {
            Ok(made) => {
                if put(&mut all, made).is_err() {
                    return Err(refused(k + 1, Refusal::Memory));
                }
            }
            Err(refusal) => return Err(refused(k + 1, refusal)),
        }
    }
    Ok(all)
}

// What was made of the next cell, behind that of those before it.
fn put(all: &mut MadeCells, made: MadeCell) -> Result<(), AllocError>
    ensures controllers { OnOk result (all.new.controllers.items ≡ all.old.controllers.items ++ made.controller ∷ []) }
    ensures bounds { OnOk result (all.new.bounds.items ≡ all.old.bounds.items ++ made.bounds ∷ []) }
{
    all.controllers.push(made.controller)?;
    all.bounds.push(made.bounds)?;
    Ok(())
}

// A cell and its refusal.
fn refused(cell: u32, refusal: Refusal) -> CellRefusal
    ensures { result ≡ record { cell = cell; refusal = refusal } }
{
    CellRefusal { cell, refusal }
}
