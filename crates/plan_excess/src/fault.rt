ghost use Rattle.std.specs.Prelude.{◌≡◌};
ghost use Rattle.qp_model.specs.declared.size_fault.SizeFault.TheVariants.{TooWide as excess_wide};
ghost use Rattle.qp_model.specs.declared.quantity.Quantity.TheVariants.{Excess};

use qp_model::{Quantity, SizeFault};

// The refusal of a number that is too long.
pub(crate) fn too_wide() -> SizeFault
    ensures { result ≡ excess_wide Excess }
{
    SizeFault::TooWide {
        quantity: Quantity::Excess,
    }
}
