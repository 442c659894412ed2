// The text of a controller's listing, and its file.
ghost use Rattle.std.specs.Prelude.{◌≡◌, ◌⊎◌, IfOk, IfSome, IsSomeAnd};
ghost use Rattle.io_edge.specs.Faults.{Rose, NoneFalls, IsWritten, IsCutShort};
ghost use Rattle.mac_listing.specs.Listing.{listing_of};
ghost use Rattle.mac_listing.specs.Text.{IsListingText};

use command_line::Status;
use io_edge::Store;
use mac_listing::{make_listing, write_listing};
use overflow_check::Controller;
use std::alloc::{AllocError, Global};

// The text of a controller's listing.
pub fn listing_text(alloc: Global, controller: &Controller) -> Result<Vec<u8>, AllocError>
    ensures { IfOk result (λ v. IsListingText v.items (listing_of controller.now)) }
{
    let listing = make_listing(alloc, controller)?;
    write_listing(alloc, &listing)
}

// Writes a text under the second name. It takes no memory.
pub fn write_text<S: Store>(name: &str, text: &[u8], store: &mut S) -> Status
    ensures only { (result ≡ Status.Done) ⊎ (result ≡ Status.WriteFault 2) }
    ensures done { result ≡ Status.Done → IfSome (S.held store.old) (λ old. IsSomeAnd (S.held store.new) (λ new. IsWritten old new name.now text.now)) }
    ensures cut { result ≡ Status.WriteFault 2 → IfSome (S.held store.old) (λ old.
        IsSomeAnd (S.held store.new) (λ new. IsCutShort old new name.now text.now)) }
    ensures failed { result ≡ Status.WriteFault 2 → Rose (S.write_faults store.old name.now) (S.write_faults store.new name.now) }
    ensures reads { NoneFalls (S.read_faults store.old) (S.read_faults store.new) }
    ensures writes { NoneFalls (S.write_faults store.old) (S.write_faults store.new) }
{
    match store.write_all(name, text) {
        Ok(()) => Status::Done,
        Err(_) => Status::WriteFault { file: 2 },
    }
}
