// A design, condensed to exact numbers or to enclosures.
ghost use Rattle.std.specs.Prelude.{◌≡◌, ◌⊎◌, ◌↔◌, false, Err, IfOk, IsSome, IfSome};
ghost use Rattle.qp_model.specs.declared.quantity.Quantity.{Quantity};
ghost use Rattle.qp_model.specs.problem.Parts.{design_of};
ghost use Rattle.qp_model.specs.form.FineSizes.{is_fine};
ghost use Rattle.qp_model.specs.form.Class.{FormLaw};
ghost use Rattle.condensed_form.specs.Form.{IsFormIn, IsFormOf};
ghost use Rattle.condensed_form.specs.Fault.{IsFirstWideForm};

use condensed_form::{Condensed, is_curvature_limited};
use qp_model::{Design, SizeFault};
use scaled_condense::{condense_exact, condense_fine};
use std::alloc::{AllocError, Global};

/// Where the quantity `hessian` of a design is within its limit, a controller may be made of the form that the design's class calls for.
pub fn form_law()
    ensures { FormLaw }
{}

// The exact form. None where a quantity of it is above the limit, and the design is to be condensed in enclosures.
fn exact_form(alloc: Global, design: &Design) -> Result<Option<Condensed>, AllocError>
    ensures form { IfOk result (λ form. IfSome form (λ condensed. IsFormIn false design.now condensed)) }
    ensures class { IfOk result (λ form. IsSome form ↔ (is_fine (design_of design.now) ≡ false)) }
{
    match condense_exact(alloc, design) {
        Ok(condensed) => Ok(is_curvature_limited(&condensed).then_some(condensed)),
        Err(SizeFault::TooWide { .. }) => Ok(None),
        Err(SizeFault::Memory) => Err(AllocError),
    }
}

/// The condensed form of a design: exact, or in enclosures where a quantity of the exact one, `prediction`, `hessian`, `rows` or
/// `curvature`, is above `2^126`. It refuses a design of which a quantity of the enclosures, `prediction`, `hessian` or `rows`, is above that
/// too, and names the first.
pub fn condense(alloc: Global, design: &Design) -> Result<Condensed, SizeFault>
    ensures form { IfOk result (λ condensed. IsFormOf design.now condensed) }
    ensures wide { (quantity : Quantity) → result ≡ Err (SizeFault.TooWide quantity) → IsFirstWideForm (design_of design.now) quantity }
    ensures every_refusal { (quantity : Quantity) → IsFirstWideForm (design_of design.now) quantity →
        (result ≡ Err (SizeFault.TooWide quantity)) ⊎ (result ≡ Err SizeFault.Memory) }
{
    match exact_form(alloc, design)? {
        Some(condensed) => Ok(condensed),
        None => condense_fine(alloc, design),
    }
}
