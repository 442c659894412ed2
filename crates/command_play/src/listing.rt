// A listing's file.
ghost use Rattle.std.specs.Prelude.{◌≡◌, ℕ};
ghost use Rattle.command_line.specs.Kind.{ReadsFile};
ghost use Rattle.command_play.specs.Texts.{listing_kind};

use command_design_files::{FILE_LIMIT, read_bytes};
use command_line::Status;
use io_edge::Store;
use mac_listing::{BadListing, Listing, read_listing};
use std::alloc::Global;

// The status that tells why the bytes of the file at a position are no listing's text.
fn listing_status(file: u32, fault: BadListing) -> Status
    ensures memory { fault ≡ BadListing.Memory → result ≡ Status.Memory }
    ensures line { (l : ℕ) → fault ≡ BadListing.Line l → result ≡ Status.Listing file l }
{
    match fault {
        BadListing::Memory => Status::Memory,
        BadListing::Line { line } => Status::Listing { file, line },
    }
}

// The listing under the name at a position among the arguments, or the status that ends the run.
pub fn read_listing_file<S: Store>(
    alloc: Global,
    file: u32,
    name: &str,
    store: &mut S,
) -> Result<Listing, Status>
    ensures { ReadsFile S.Store listing_kind file name.now (λ l. l) result store.old store.new }
{
    let bytes = read_bytes(alloc, FILE_LIMIT, file, name, store)?;
    match read_listing(alloc, &bytes) {
        Ok(listing) => Ok(listing),
        Err(fault) => Err(listing_status(file, fault)),
    }
}
