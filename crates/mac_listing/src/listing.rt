// Listings, and that of a controller.
ghost use Rattle.std.specs.Prelude.{◌≡◌, ◌+◌, pos, length, IfOk};
ghost use Rattle.qp_model.specs.machine.Controller.{numbers};
ghost use Rattle.qp_model.specs.machine.Machine.{average_denominator};
ghost use Rattle.qp_model.specs.machine.AbsoluteSums.{IsController};
ghost use Rattle.mac_listing.specs.Listing.{instructions, IsListing, listing_of};
ghost use Rattle.mac_listing.specs.Count.{left_out, full_length};

use crate::body::body_of;
use crate::listing_parts::ListingParts;
use frac_scaled::scaled;
use overflow_check::Controller;
use qp_model::ControllerParts;
use std::alloc::{AllocError, Global};
use std::marker::Model;

/// Instructions and what a machine needs to run them, each in its range. It is seen as the numbers of its text.
#[derive(Drop)]
pub struct Listing {
    parts: ListingParts,
}

impl Model for Listing {
    ghost use Rattle.mac_listing.specs.Listing.{Instructions, instructions, IsListing};

    ghost Value = { Instructions };

    ghost view = { λ l. instructions l.parts };

    ghost invariant = { λ l. IsListing (instructions l.parts) };
}

impl Listing {
    /// Its numbers, which are those of a listing.
    pub fn parts(&self) -> &ListingParts
        ensures value { instructions result.now ≡ self.now }
        ensures sound { IsListing (instructions result.now) }
    {
        &self.parts
    }
}

/// The listing of these numbers.
pub fn listing_from(parts: ListingParts) -> Listing
    requires { IsListing (instructions parts) }
    ensures { result ≡ instructions parts }
{
    Listing { parts }
}

// What the sums of a run are over: the steps times `2^f`.
fn denominator_of(c: &ControllerParts) -> i128
    requires { IsController (numbers c.now) }
    ensures { result ≡ pos (average_denominator (numbers c.now)) }
{
    scaled(i128::from(c.steps), c.f)
}

// The numbers of a controller's listing.
fn parts_of(alloc: Global, c: &ControllerParts) -> Result<ListingParts, AllocError>
    requires { IsController (numbers c.now) }
    ensures { IfOk result (λ l. instructions l ≡ listing_of (numbers c.now)) }
{
    let nu = c.t.len();
    Ok(ListingParts {
        word: c.w,
        inputs: c.n,
        shift: c.f - c.g,
        lo: Vec::from_slice(alloc, &c.lo)?,
        hi: Vec::from_slice(alloc, &c.hi)?,
        words: c.words,
        first: c.n + c.m + nu,
        outputs: nu,
        den: denominator_of(c),
        repeat: c.steps,
        body: body_of(alloc, c)?,
    })
}

/// The listing of a controller: its step in the order in which it is written, a product with the constant 0 left out.
pub fn make_listing(alloc: Global, controller: &Controller) -> Result<Listing, AllocError>
    ensures value { IfOk result (λ l. l ≡ listing_of controller.now) }
    ensures count { IfOk result (λ l. length l.body + left_out controller.now ≡ full_length controller.now) }
{
    Ok(Listing {
        parts: parts_of(alloc, controller.parts())?,
    })
}
