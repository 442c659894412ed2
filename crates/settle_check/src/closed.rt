// What loops the turns are of.
ghost use Rattle.std.specs.Prelude.{◌≡◌, length};
ghost use Rattle.qp_model.specs.problem.Parts.{IsDesign, design_of};
ghost use Rattle.qp_model.specs.machine.Controller.{numbers, IsSized};
ghost use Rattle.overflow_check.specs.FastController.{with_last_version};
ghost use Rattle.qp_model.specs.machine.Successor.{IsFor};

use qp_model::{ControllerParts, DesignParts};

/// The closed loop of a controller and a plant, in a box of states from `low` to `high` over `2^grid`, its states shifted by numbers from `shift_low` to
/// `shift_high`.
#[derive(Drop)]
pub(crate) struct ClosedLoop<'a> {
    pub(crate) parts: &'a DesignParts,
    pub(crate) c: &'a ControllerParts,
    pub(crate) low: &'a [i128],
    pub(crate) high: &'a [i128],
    pub(crate) shift_low: &'a [i128],
    pub(crate) shift_high: &'a [i128],
    ghost design: { IsDesign parts.now },
    ghost sized: { IsSized (with_last_version (numbers c.now)) },
    ghost matched: { IsFor (numbers c.now) (design_of parts.now) },
    ghost lows: { length low.now ≡ parts.now.states },
    ghost highs: { length high.now ≡ parts.now.states },
    ghost shift_lows: { length shift_low.now ≡ parts.now.states },
    ghost shift_highs: { length shift_high.now ≡ parts.now.states },
}
