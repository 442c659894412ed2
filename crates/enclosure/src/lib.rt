//! Enclosures: a midpoint and a radius over `2^40`, which stand for every fraction within the radius of the midpoint. What the operands of a
//! call enclose, its result encloses.
#![tactic(auto)]

ghost use Rattle.enclosure.specs.Laws.{FractionLaw, EnclosedLaw, WholeLaw, SumLaw, ProductLaw, CombinedLaw, BroughtLaw, GramEnclosureLaw};

mod combination;
mod matrix;
mod room;
mod single;
mod sum;
mod types;
mod wide;

pub use combination::combine;
pub use matrix::{gram, gram_over};
pub use room::magnitude;
pub use single::{add, contains, divided, enclose, mul};
pub use types::{Enc, EncMat};
pub use wide::{enclose_wide, enclose_within};

/// An enclosure of a fraction encloses each fraction that is equal to it.
pub fn fraction_law()
    ensures { FractionLaw }
{}

/// What `enclose` makes of a fraction encloses it.
pub fn enclosed_law()
    ensures { EnclosedLaw }
{}

/// A midpoint of `2^40 n` with radius 0 encloses the whole number n.
pub fn whole_law()
    ensures { WholeLaw }
{}

/// What `add` makes encloses the sums of what its operands enclose.
pub fn sum_law()
    ensures { SumLaw }
{}

/// What `mul` makes encloses the products of what its operands enclose.
pub fn product_law()
    ensures { ProductLaw }
{}

/// What `combine` makes encloses the sums of multiples of fractions over one denominator.
pub fn combined_law()
    ensures { CombinedLaw }
{}

/// The same of fractions with denominators of their own.
pub fn brought_law()
    ensures { BroughtLaw }
{}

/// What `gram` makes encloses the weighted products of two columns of fractions.
pub fn gram_law()
    ensures { GramEnclosureLaw }
{}
