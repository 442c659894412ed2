// Designs from texts.
ghost use Rattle.std.specs.Prelude.{◌≡◌, ◌⊎◌, IfOk, IfErr};
ghost use Rattle.number_text.specs.declared.text_fault.TextFault.{TextFault};
ghost use Rattle.design_files.specs.DesignText.{IsDesignText, IsDesignFault};

use crate::changes::{Changed, changed_text};
use design_files::read_design;
use number_text::TextFault;
use qp_model::Design;
use std::alloc::Global;
use std::test::Fail;

/// The design that a text writes, or the text's first fault.
pub fn design(alloc: Global, text: &str) -> Result<Design, TextFault>
    ensures written { IfOk result (λ design. IsDesignText text.now design) }
    ensures fault { IfErr result (λ fault. (fault ≡ TextFault.Memory) ⊎ IsDesignFault text.now fault) }
{
    read_design(alloc, text.as_bytes())
}

/// The design of a changed text.
pub fn changed_design(alloc: Global, changed: Changed) -> Result<Design, Fail> {
    let text = changed_text(alloc, changed)?;
    Ok(design(alloc, &text)?)
}
