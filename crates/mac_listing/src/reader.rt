// A listing from its text.
ghost use Rattle.std.specs.Prelude.{◌≡◌, ◌≤◌, ◌⊎◌, ℕ, Err, IfOk, MatchResult, length, map};
ghost use Rattle.number_text.specs.Lines.{text_of};
ghost use Rattle.text_lines.specs.Lines.{view, views, spelled};
ghost use Rattle.mac_listing.specs.Listing.{Instructions, instructions, IsListing};
ghost use Rattle.mac_listing.specs.Text.{keyed_listing, IsListingText};
ghost use Rattle.mac_listing.specs.Whole.{IsWholeListing};
ghost use Rattle.mac_listing.specs.Reading.{op_in, body_in, listing_in};
ghost use Rattle.mac_listing.specs.FirstLine.{IsBadListingLine};

use crate::bad_listing::BadListing;
use crate::body_line::op_of;
use crate::grammar::ListingGrammar;
use crate::head_line::small_in;
use crate::instruction::Op;
use crate::listing::{Listing, listing_from};
use crate::listing_parts::ListingParts;
use std::alloc::{AllocError, Global};
use text_lines::{Line, lines_in, number_in, numbers_in};

/// The listing whose text the bytes are.
///
/// # Errors
/// `Line` exactly where the bytes are no listing's text: a line isn't the one that has its place, a number has another spelling or breaks its range, a
/// line is absent, or bytes are left. It names the first line with which, after those before it, no listing's text begins.
pub fn read_listing(alloc: Global, bytes: &[u8]) -> Result<Listing, BadListing>
    ensures found { IfOk result (IsListingText bytes.now) }
    ensures bad_line { (l : ℕ) → result ≡ Err (BadListing.Line l) → IsBadListingLine bytes.now l }

    // The other way round, with nothing but out of memory in between.
    ensures right { (l : Instructions) → IsListingText bytes.now l → MatchResult result (λ o. o ≡ l) (λ e. e ≡ BadListing.Memory) }
    ensures bad_first { (l : ℕ) → IsBadListingLine bytes.now l → (result ≡ Err (BadListing.Line l)) ⊎ (result ≡ Err BadListing.Memory) }
{
    match listing_lines(alloc, bytes)? {
        Ok(lines) => Ok(listing_of_lines(alloc, &lines)?),
        Err(line) => Err(BadListing::Line { line }),
    }
}

// The lines of a listing's text, or the number of the first line at which the bytes are none.
fn listing_lines(alloc: Global, bytes: &[u8]) -> Result<Result<Vec<Line<'_>>, u32>, AllocError>
    ensures { IfOk result (λ r.
        MatchResult r (λ v. IsWholeListing (views v.items) × (bytes.now ≡ text_of (map spelled (views v.items)))) (IsBadListingLine bytes.now)) }
{
    lines_in::<ListingGrammar>(alloc, bytes)
}

// The listing whose lines these are.
fn listing_of_lines(alloc: Global, lines: &[Line]) -> Result<Listing, AllocError>
    requires { IsWholeListing (views lines.now) }
    ensures { IfOk result (λ l. l ≡ listing_in (views lines.now)) }
{
    Ok(listing_from(parts_of(alloc, lines)?))
}

// Their numbers.
fn parts_of(alloc: Global, lines: &[Line]) -> Result<ListingParts, AllocError>
    requires { 10 ≤ length lines.now }
    ensures { IfOk result (λ l. instructions l ≡ listing_in (views lines.now)) }
{
    Ok(ListingParts {
        word: small_in(lines, 1, 0),
        inputs: small_in(lines, 2, 0) as usize,
        shift: small_in(lines, 2, 1),
        lo: Vec::from_slice(alloc, numbers_in(lines, 3))?,
        hi: Vec::from_slice(alloc, numbers_in(lines, 4))?,
        words: small_in(lines, 5, 0) as usize,
        first: small_in(lines, 6, 0) as usize,
        outputs: small_in(lines, 6, 1) as usize,
        den: number_in(lines, 6, 2),
        repeat: small_in(lines, 7, 0),
        body: body_of_lines(alloc, lines)?,
    })
}

// The instructions of the lines between the head and the last one.
fn body_of_lines(alloc: Global, lines: &[Line]) -> Result<Vec<Op>, AllocError>
    requires { 10 ≤ length lines.now }
    ensures { IfOk result (λ v. v.items ≡ body_in (views lines.now)) }
{
    ops_of(alloc, &lines[9..lines.len() - 1])
}

// The instructions of these lines.
fn ops_of(alloc: Global, lines: &[Line]) -> Result<Vec<Op>, AllocError>
    ensures { IfOk result (λ v. v.items ≡ map (λ l. op_in (view l)) lines.now) }
{
    lines.iter().map(|line| op_of(line)).collect(alloc)
}
