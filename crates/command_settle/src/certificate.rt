// A certificate's file.
ghost use Rattle.std.specs.Prelude.{◌≡◌, ◌⊎◌, ◌<◌, ◌^◌, length, IfOk, IfErr, MatchResult};
ghost use Rattle.settle_check.specs.Certificates.{IsCertificateFor};
ghost use Rattle.number_text.specs.declared.text_fault.TextFault.{TextFault};
ghost use Rattle.number_text.specs.declared.text_fault.TextFault.TheVariants.{Memory};
ghost use Rattle.settle_check.specs.Still.{box_of};
ghost use Rattle.settle_check.specs.CertificateText.{CertificateNumbers, certificate_numbers, IsCertificateText, IsCertificateFault};
ghost use Rattle.command_line.specs.Kind.{ReadsFile};
ghost use Rattle.command_loop.specs.ControllerFile.AnyText.{any_numbers};
ghost use Rattle.command_settle.specs.CertificateFile.{certificate_kind};

use command_line::Status;
use command_loop::{AnyController, FILE_LIMIT, read_bytes, told_text};
use io_edge::Store;
use number_text::TextFault;
use settle_check::{CertificateParts, read_certificate};
use std::alloc::Global;

/// The certificate for a controller under the name at a position among the arguments, or the status that ends the run.
pub fn read_certificate_file<S: Store>(
    alloc: Global,
    file: u32,
    name: &str,
    controller: &AnyController,
    store: &mut S,
) -> Result<CertificateParts, Status>
    ensures read { ReadsFile S.Store (certificate_kind (any_numbers controller.now)) file name.now certificate_numbers result store.old store.new }
    ensures sized { IfOk result (IsCertificateFor (any_numbers controller.now).states) }
{
    let bytes = read_bytes(alloc, FILE_LIMIT, file, name, store)?;
    told_text(file, certificate_for(alloc, &bytes, controller))
}

// The certificate of a text for a controller.
fn certificate_for(
    alloc: Global,
    bytes: &[u8],
    controller: &AnyController,
) -> Result<CertificateParts, TextFault>
    requires { length bytes.now < 2 ^ 32 }
    ensures found { IfOk result (λ p.
        IsCertificateText bytes.now (any_numbers controller.now).states (box_of (any_numbers controller.now).low (any_numbers controller.now).high) (certificate_numbers p)) }
    ensures sized { IfOk result (IsCertificateFor (any_numbers controller.now).states) }
    ensures fault { IfErr result (λ e. (e ≡ Memory)
        ⊎ IsCertificateFault bytes.now (any_numbers controller.now).states (box_of (any_numbers controller.now).low (any_numbers controller.now).high) e) }
    ensures right { (f : CertificateNumbers)
        → IsCertificateText bytes.now (any_numbers controller.now).states (box_of (any_numbers controller.now).low (any_numbers controller.now).high) f
        → MatchResult result (λ p. certificate_numbers p ≡ f) (λ e. e ≡ Memory) }
    ensures first { (told : TextFault)
        → IsCertificateFault bytes.now (any_numbers controller.now).states (box_of (any_numbers controller.now).low (any_numbers controller.now).high) told
        → MatchResult result (λ _. ⊥) (λ e. (e ≡ told) ⊎ (e ≡ Memory)) }
{
    let c = controller.parts();
    read_certificate(alloc, bytes, &c.lo, &c.hi)
}
