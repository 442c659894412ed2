ghost use Rattle.qp_model.specs.problem.Parts.{IsDesign};

use crate::design_parts::DesignParts;
use crate::part_rules::test_parts;
use number_text::TextFault;
use std::marker::Model;

/// Numbers that have a design's shapes and lie in its ranges.
#[derive(Drop)]
pub struct Design {
    parts: DesignParts,
}

impl Model for Design {
    ghost use Rattle.qp_model.specs.problem.Parts.{IsDesign};
    ghost use Rattle.qp_model.specs.declared.design_parts.DesignParts.{DesignParts};

    ghost Value = { DesignParts };

    ghost view = { λ d. d.parts };

    ghost invariant = { λ d. IsDesign d.parts };
}

impl Design {
    ghost use Rattle.std.specs.Prelude.{◌≡◌, ◌↔◌, IfOk, IfErr, IsOk, Err};
    ghost use Rattle.number_text.specs.declared.text_fault.TextFault.{TextFault};
    ghost use Rattle.qp_model.specs.problem.Rules.{IsFirstBroken};
    ghost use Rattle.qp_model.specs.problem.PartRules.{part_rules};

    /// The design with these numbers, or the first rule that they break: as `Shape` or `Range`, with its place. The places are
    /// those of the keys of a design text; within one the shape comes first. It takes no memory.
    pub fn from_parts(parts: DesignParts) -> Result<Design, TextFault>
        ensures numbers { IfOk result (λ design. design ≡ parts) }
        ensures sound { IsOk result ↔ IsDesign parts }
        ensures fault { IfErr result (IsFirstBroken (part_rules parts)) }
        ensures every_fault { (fault : TextFault) → IsFirstBroken (part_rules parts) fault → result ≡ Err fault }
    {
        test_parts(&parts)?;
        Ok(Design { parts })
    }

    /// The design with these numbers, which are known to be one's.
    pub fn new(parts: DesignParts) -> Design
        requires { IsDesign parts }
        ensures { result ≡ parts }
    {
        Design { parts }
    }

    /// The numbers.
    pub fn parts(&self) -> &DesignParts
        ensures value { result.now ≡ self.now }
        ensures sound { IsDesign result.now }
    {
        &self.parts
    }
}
