// Whether no multiplier moves.
ghost use Rattle.std.specs.Prelude.{◌≡◌, ℕ, ◌<◌, length, IfOk, IfErr, Err};
ghost use Rattle.qp_model.specs.machine.Controller.{numbers, IsSized};
ghost use Rattle.overflow_check.specs.FastController.{with_last_version};
ghost use Rattle.settle_check.specs.Still.{box_of, IsStill};
ghost use Rattle.settle_check.specs.declared.fault.SettleFault.{SettleFault};
ghost use Rattle.settle_check.specs.Answers.{RowIsStill, IsRowFault, IsStillFault};

use crate::fault::SettleFault;
use crate::still::{power, still_sum};
use qp_model::ControllerParts;

// Of row `i`.
fn test_row(c: &ControllerParts, low: &[i128], high: &[i128], i: usize) -> Result<(), SettleFault>
    requires sized { IsSized (with_last_version (numbers c.now)) }
    requires low { length low.now ≡ c.now.n }
    requires high { length high.now ≡ c.now.n }
    requires row { i < c.now.m }
    ensures right { IfOk result (λ _. RowIsStill (numbers c.now) (box_of low.now high.now) i) }
    ensures fault { IfErr result (IsRowFault (numbers c.now) (box_of low.now high.now) i) }
{
    let Some(most) = still_sum(c, low, high, i) else {
        return Err(SettleFault::TooWide);
    };
    let limit = power(2 * c.f);
    if most.value < limit.value {
        Ok(())
    } else {
        Err(SettleFault::Moves {
            row: i as u32 + 1,
            left: most.value,
            right: limit.value,
        })
    }
}

// Of each row.
fn test_rows(c: &ControllerParts, low: &[i128], high: &[i128]) -> Result<(), SettleFault>
    requires sized { IsSized (with_last_version (numbers c.now)) }
    requires low { length low.now ≡ c.now.n }
    requires high { length high.now ≡ c.now.n }
    ensures found { IfOk result (λ _. (i : ℕ) → i < c.now.m → RowIsStill (numbers c.now) (box_of low.now high.now) i) }
    ensures fault { IfErr result (IsStillFault (numbers c.now) (box_of low.now high.now)) }
{
    for i in 0..c.m {
        test_row(c, low, high, i)?;
    }
    Ok(())
}

/// Whether from each state of the box from `low` to `high`, over `2^g`, no multiplier of the controller moves, by a test of each row.
///
/// # Errors
/// For the rows in turn `TooWide` where a number of its test is above `2^126`, else `Moves` where its multiplier may move.
pub fn test_still(c: &ControllerParts, low: &[i128], high: &[i128]) -> Result<(), SettleFault>
    requires sized { IsSized (with_last_version (numbers c.now)) }
    requires low { length low.now ≡ c.now.n }
    requires high { length high.now ≡ c.now.n }
    ensures still { IfOk result (λ _. IsStill (numbers c.now) (box_of low.now high.now)) }
    ensures found { IfOk result (λ _. (i : ℕ) → i < c.now.m → RowIsStill (numbers c.now) (box_of low.now high.now) i) }
    ensures fault { IfErr result (IsStillFault (numbers c.now) (box_of low.now high.now)) }
    ensures first { (told : SettleFault) → IsStillFault (numbers c.now) (box_of low.now high.now) told → result ≡ Err told }
{
    test_rows(c, low, high)
}
