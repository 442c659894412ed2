// Why a product is refused.
ghost use Rattle.std.specs.Prelude.{◌≡◌};
ghost use Rattle.mat_products.specs.declared.fault.MatFault.TheVariants.{Memory as out_of_memory};

use std::alloc::AllocError;
use thiserror::Error;

/// Why the product of two matrices is refused.
#[derive(Clone, Copy, Debug, Error)]
pub enum MatFault {
    /// No memory was left.
    #[error("memory")]
    Memory,
    /// The absolute values that some entry adds up are together above `2^127 - 1`.
    #[error("wide")]
    Wide,
}

impl From<AllocError> for MatFault {
    ghost from_gives = { λ _ e. e ≡ out_of_memory };

    fn from(_: AllocError) -> Self {
        MatFault::Memory
    }
}
