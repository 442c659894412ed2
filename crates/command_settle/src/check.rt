// Whether loops settle, and the text that tells where.
ghost use Rattle.std.specs.Prelude.{◌≡◌, IfOk, IfErr};
ghost use Rattle.qp_model.specs.problem.Parts.{design_of};
ghost use Rattle.qp_model.specs.machine.Successor.{IsFor};
ghost use Rattle.state_files.specs.RangeText.{IsShiftRange};
ghost use Rattle.settle_check.specs.Settling.{told_rows};
ghost use Rattle.settle_check.specs.Settles.{PassesSettling};
ghost use Rattle.settle_check.specs.Certificates.{IsCertificateFor, IsBoxOf};
ghost use Rattle.settle_check.specs.CertificateText.{certificate_numbers, certificate_in};
ghost use Rattle.command_line.specs.Answers.{IsAnswer};
ghost use Rattle.command_loop.specs.ControllerFile.AnyText.{any_numbers};
ghost use Rattle.command_settle.specs.Settle.{settle_status, HasStillBoxIn, range_box, CertificateCalls, told_box, told_costs, told_text};
ghost use Rattle.command_settle.specs.Files.{IsUntold};
ghost use Rattle.command_settle.specs.Loops.{LoopsSettleOf};

use crate::lines::settled_text;
use command_line::Status;
use command_loop::AnyController;
use mat_int::Mat;
use qp_model::{Design, Quantity, Refusal};
use settle_check::{CertificateParts, SettleFault, Settled, check_settling};
use std::alloc::Global;

// The status that tells why a certificate doesn't show that loops settle.
fn settle_status(fault: SettleFault) -> Status
    ensures { result ≡ settle_status fault }
{
    match fault {
        SettleFault::Memory => Status::Memory,
        SettleFault::TooWide => Status::Refused {
            refusal: Refusal::TooWide {
                quantity: Quantity::Settle,
            },
        },
        SettleFault::Moves { row, left, right } => Status::Moves { row, left, right },
        SettleFault::Unsettled {
            turn,
            coordinate,
            bound,
        } => Status::Unsettled {
            turn,
            coordinate,
            bound,
        },
        SettleFault::NoReturn {
            turn,
            coordinate,
            bound,
        } => Status::NoReturn {
            turn,
            coordinate,
            bound,
        },
    }
}

// The box in which loops settle under shifts of a range, by a certificate, or the status that tells why not.
fn box_settled(
    alloc: Global,
    design: &Design,
    controller: &AnyController,
    certificate: &CertificateParts,
    range: &Mat,
) -> Result<Settled, Status>
    requires matched { IsFor (any_numbers controller.now) (design_of design.now) }
    requires certificate { IsCertificateFor (any_numbers controller.now).states certificate.now }
    requires inside { HasStillBoxIn (any_numbers controller.now) certificate.now }
    requires range { IsShiftRange (any_numbers controller.now).states range.now }
    ensures rest { IfOk result (λ b. IsBoxOf (design_of design.now).states
        (told_box (design_of design.now) (any_numbers controller.now) (certificate_numbers certificate.now) range.now) b.rest) }
    ensures costs { IfOk result (λ b. IsBoxOf (told_rows (design_of design.now) certificate.now.after)
        (told_costs (design_of design.now) (any_numbers controller.now) (certificate_numbers certificate.now) range.now) b.costs) }
    ensures settles { IfOk result (λ _. LoopsSettleOf (design_of design.now) controller.now
        (range_box range.now) (certificate_in (certificate_numbers certificate.now))) }
    ensures passes { IfOk result (λ _. PassesSettling (design_of design.now) (any_numbers controller.now)
        (range_box range.now) (certificate_in (certificate_numbers certificate.now))) }
    ensures answer { IfOk result (λ _.
        IsAnswer (CertificateCalls (design_of design.now) (any_numbers controller.now) (certificate_numbers certificate.now) range.now) Status.Done) }
    ensures ends { IfErr result (IsUntold (design_of design.now) (any_numbers controller.now) (certificate_numbers certificate.now) range.now) }
{
    let (d, c) = (design.parts(), controller.parts());
    match check_settling(alloc, d, c, certificate, range.row(0), range.row(1)) {
        Ok(settled) => Ok(settled),
        Err(fault) => Err(settle_status(fault)),
    }
}

/// The text that tells where loops settle under shifts of a range, by a certificate, or the status that tells why not.
pub fn text_settled(
    alloc: Global,
    design: &Design,
    controller: &AnyController,
    certificate: &CertificateParts,
    range: &Mat,
) -> Result<Vec<u8>, Status>
    requires matched { IsFor (any_numbers controller.now) (design_of design.now) }
    requires certificate { IsCertificateFor (any_numbers controller.now).states certificate.now }
    requires inside { HasStillBoxIn (any_numbers controller.now) certificate.now }
    requires range { IsShiftRange (any_numbers controller.now).states range.now }
    ensures text { IfOk result (λ v. v.items ≡ told_text (design_of design.now) (any_numbers controller.now) (certificate_numbers certificate.now) range.now) }
    ensures settles { IfOk result (λ _. LoopsSettleOf (design_of design.now) controller.now
        (range_box range.now) (certificate_in (certificate_numbers certificate.now))) }
    ensures passes { IfOk result (λ _. PassesSettling (design_of design.now) (any_numbers controller.now)
        (range_box range.now) (certificate_in (certificate_numbers certificate.now))) }
    ensures answer { IfOk result (λ _.
        IsAnswer (CertificateCalls (design_of design.now) (any_numbers controller.now) (certificate_numbers certificate.now) range.now) Status.Done) }
    ensures ends { IfErr result (IsUntold (design_of design.now) (any_numbers controller.now) (certificate_numbers certificate.now) range.now) }
{
    let settled = box_settled(alloc, design, controller, certificate, range)?;
    let text = settled_text(alloc, certificate.turns, certificate.after, &settled);
    drop(settled);
    Ok(text?)
}
