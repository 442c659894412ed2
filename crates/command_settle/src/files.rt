// The files of `settle`, one after the other.
ghost use Rattle.qp_model.specs.problem.Parts.{design_of};
ghost use Rattle.qp_model.specs.machine.Successor.{IsFor};
ghost use Rattle.settle_check.specs.Certificates.{IsCertificateFor};
ghost use Rattle.settle_check.specs.CertificateText.{certificate_numbers};
ghost use Rattle.command_line.specs.Words.{IsSettle};
ghost use Rattle.command_line.specs.Running.{Runs};
ghost use Rattle.command_loop.specs.ControllerFile.AnyText.{any_numbers};
ghost use Rattle.command_settle.specs.Settle.{HasStillBoxIn, settle_range, settle_certificate, settle_deeds};

use crate::certificate::read_certificate_file;
use crate::printing::print_settled;
use command_line::Status;
use command_loop::{AnyController, read_range_file};
use io_edge::{Sink, Store, Words};
use mat_int::Mat;
use qp_model::Design;
use settle_check::CertificateParts;
use std::alloc::Global;

// The range of the disturbances, and what a certificate shows under it. Where there are none, the range is of zeros.
fn run_certificate<S: Store, O: Sink>(
    alloc: Global,
    words: &Words,
    disturbed: bool,
    design: &Design,
    controller: &AnyController,
    certificate: &CertificateParts,
    store: &mut S,
    out: &mut O,
) -> Status
    requires words { IsSettle words.now disturbed }
    requires matched { IsFor (any_numbers controller.now) (design_of design.now) }
    requires certificate { IsCertificateFor (any_numbers controller.now).states certificate.now }
    requires inside { HasStillBoxIn (any_numbers controller.now) certificate.now }
    ensures { Runs S.Store O.Sink words.now (settle_deeds disturbed) store.old store.new out.old out.new result
        (settle_range disturbed (design_of design.now) controller.now (certificate_numbers certificate.now)) }
{
    let n = controller.parts().n;
    if disturbed {
        match read_range_file(alloc, 4, words.at(4), n, store) {
            Ok(range) => print_settled(alloc, design, controller, certificate, &range, out),
            Err(status) => status,
        }
    } else {
        match Mat::zero(alloc, 2, n) {
            Ok(range) => print_settled(alloc, design, controller, certificate, &range, out),
            Err(_) => Status::Memory,
        }
    }
}

/// The certificate, and what comes after it, for a controller that is for the design.
pub fn run_controller<S: Store, O: Sink>(
    alloc: Global,
    words: &Words,
    disturbed: bool,
    design: &Design,
    controller: &AnyController,
    store: &mut S,
    out: &mut O,
) -> Status
    requires words { IsSettle words.now disturbed }
    requires matched { IsFor (any_numbers controller.now) (design_of design.now) }
    ensures { Runs S.Store O.Sink words.now (settle_deeds disturbed) store.old store.new out.old out.new result
        (settle_certificate disturbed (design_of design.now) controller.now) }
{
    match read_certificate_file(alloc, 3, words.at(3), controller, store) {
        Ok(certificate) => run_certificate(
            alloc,
            words,
            disturbed,
            design,
            controller,
            &certificate,
            store,
            out,
        ),
        Err(status) => status,
    }
}
