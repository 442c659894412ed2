// What runs in words of 64 bits are made with: a controller's matrices and clamp in such words, and room for what a run makes.
ghost use Rattle.std.specs.Prelude.{◌≡◌, ◌↔◌, IsTrue, length, IfOk, IfSome};
ghost use Rattle.qp_model.specs.machine.Controller.{numbers, IsSized};
ghost use Rattle.qp_model.specs.machine.AbsoluteSums.{IsController};
ghost use Rattle.overflow_check.specs.FastController.{with_last_version};
ghost use Rattle.fixed_kernel.specs.Factors.{HasNarrowFactors};
ghost use Rattle.fixed_kernel.specs.WordForm.{IsWordSized};
ghost use Rattle.fixed_kernel.specs.WordMachine.{IsWordFormOf, IsRoomFor, IsMachineOf};

use crate::half::has_half_factors;
use crate::word_mat::{WordMat, narrowed};
use qp_model::ControllerParts;
use std::alloc::{AllocError, Global};

/// The matrices that each step multiplies by, and the clamp.
#[derive(Drop)]
pub struct WordForm {
    pub gains: WordMat,
    pub rows: WordMat,
    pub top: i64,
    // Only where each factor of a step's products fits half a word.
    pub half: bool,
    // Where products by the spans of the rows are faster.
    pub sparse: bool,
}

impl WordForm {
    // Those of a controller.
    fn of(alloc: Global, c: &ControllerParts) -> Result<WordForm, AllocError>
        requires sized { IsSized (with_last_version (numbers c.now)) }
        requires narrow { HasNarrowFactors (numbers c.now) }
        ensures { IfOk result (IsWordFormOf (numbers c.now)) }
    {
        let gains = WordMat::of(alloc, &c.w_mat)?;
        let rows = WordMat::of(alloc, &c.g_mat)?;
        let sparse = rows.is_sparse();
        Ok(WordForm {
            gains,
            rows,
            top: narrowed(c.clamp),
            half: has_half_factors(c),
            sparse,
        })
    }
}

/// Room for what the state adds to each sum, and for the multipliers, the plan and the sums.
#[derive(Drop)]
pub struct WordRoom {
    pub entry_starts: Vec<i64>,
    pub row_starts: Vec<i64>,
    pub multipliers: Vec<i64>,
    pub plan: Vec<i64>,
    pub sums: Vec<i64>,
}

impl WordRoom {
    // Room for a controller's.
    fn of(alloc: Global, c: &ControllerParts) -> Result<WordRoom, AllocError>
        requires { IsController (with_last_version (numbers c.now)) }
        ensures { IfOk result (IsRoomFor (numbers c.now)) }
    {
        Ok(WordRoom {
            entry_starts: vec![in alloc; 0; c.t.len()]?,
            row_starts: vec![in alloc; 0; c.bound.len()]?,
            multipliers: vec![in alloc; 0; c.bound.len()]?,
            plan: vec![in alloc; 0; c.t.len()]?,
            sums: vec![in alloc; 0; c.t.len()]?,
        })
    }
}

/// What runs in words of 64 bits are made with, of a controller of either machine.
#[derive(Drop)]
pub struct WordMachine {
    pub form: WordForm,
    pub room: WordRoom,
}

impl WordMachine {
    /// A controller's, where its steps are made in words of 64 bits.
    pub fn of(
        alloc: Global,
        c: &ControllerParts,
        narrow: bool,
    ) -> Result<Option<WordMachine>, AllocError>
        requires sound { IsController (with_last_version (numbers c.now)) }
        requires narrow { IsTrue narrow → HasNarrowFactors (numbers c.now) }
        ensures { IfOk result (λ machine. IfSome machine (IsMachineOf (numbers c.now))) }
    {
        if narrow && is_word_sized(c) {
            let form = WordForm::of(alloc, c)?;
            let room = WordRoom::of(alloc, c)?;
            Ok(Some(WordMachine { form, room }))
        } else {
            Ok(None)
        }
    }
}

// Whether a controller's steps are made in words of 64 bits.
fn is_word_sized(c: &ControllerParts) -> bool
    requires { IsSized (with_last_version (numbers c.now)) }
    ensures { IsTrue result ↔ IsWordSized (numbers c.now) }
{
    c.w <= 64 && c.f + c.s < 64
}
