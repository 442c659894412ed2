// What is printed of loops that settle.
ghost use Rattle.std.specs.Prelude.{◌≡◌, ◌⊎◌, ◌≤◌, ◌++◌, IfSome, IsSomeAnd, option_map};
ghost use Rattle.io_edge.specs.Faults.{Rose, GrowsByPart};
ghost use Rattle.qp_model.specs.problem.Parts.{design_of};
ghost use Rattle.qp_model.specs.machine.Successor.{IsFor};
ghost use Rattle.state_files.specs.RangeText.{IsShiftRange};
ghost use Rattle.settle_check.specs.Certificates.{IsCertificateFor};
ghost use Rattle.settle_check.specs.CertificateText.{certificate_numbers};
ghost use Rattle.command_loop.specs.ControllerFile.AnyText.{any_numbers};
ghost use Rattle.command_settle.specs.Settle.{HasStillBoxIn, SettlingPrints};
ghost use Rattle.command_settle.specs.Files.{SettlingEnds};

use crate::check::text_settled;
use command_line::Status;
use command_loop::AnyController;
use io_edge::Sink;
use mat_int::Mat;
use qp_model::Design;
use settle_check::CertificateParts;
use std::alloc::Global;

// Prints a text.
fn put_text<O: Sink>(text: &[u8], out: &mut O) -> Status
    ensures only { (result ≡ Status.Done) ⊎ (result ≡ Status.WriteFault 0) }
    ensures done { result ≡ Status.Done → O.got out.new ≡ option_map (λ old. old ++ text.now) (O.got out.old) }
    ensures cut { result ≡ Status.WriteFault 0 → IfSome (O.got out.old) (λ old. IsSomeAnd (O.got out.new) (λ new. GrowsByPart old new text.now)) }
    ensures failed { result ≡ Status.WriteFault 0 → Rose (O.faults out.old) (O.faults out.new) }
    ensures no_fewer { O.faults out.old ≤ O.faults out.new }
{
    match out.put(text) {
        Ok(()) => Status::Done,
        Err(_) => Status::WriteFault { file: 0 },
    }
}

// Prints where loops settle.
pub fn print_settled<O: Sink>(
    alloc: Global,
    design: &Design,
    controller: &AnyController,
    certificate: &CertificateParts,
    range: &Mat,
    out: &mut O,
) -> Status
    requires matched { IsFor (any_numbers controller.now) (design_of design.now) }
    requires certificate { IsCertificateFor (any_numbers controller.now).states certificate.now }
    requires inside { HasStillBoxIn (any_numbers controller.now) certificate.now }
    requires range { IsShiftRange (any_numbers controller.now).states range.now }
    ensures ends { SettlingEnds (design_of design.now) (any_numbers controller.now) (certificate_numbers certificate.now) range.now result }
    ensures printed { IfSome (O.got out.old) (λ old. IsSomeAnd (O.got out.new)
        (SettlingPrints (design_of design.now) controller.now (certificate_numbers certificate.now) range.now result old)) }
    ensures quiet { (result ≡ Status.Done) ⊎ ((result ≡ Status.WriteFault 0) ⊎ (out.new ≡ out.old)) }
    ensures failed { result ≡ Status.WriteFault 0 → Rose (O.faults out.old) (O.faults out.new) }
    ensures no_fewer { O.faults out.old ≤ O.faults out.new }
{
    match text_settled(alloc, design, controller, certificate, range) {
        Ok(text) => put_text(&text, out),
        Err(status) => status,
    }
}
