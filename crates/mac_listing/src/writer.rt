// The text of a listing.
ghost use Rattle.std.specs.Prelude.{◌≡◌, ◌<◌, ◌++◌, ◌∷◌, [], IfOk, OnOk, All, string_bytes, map, slice_index_or};
ghost use Rattle.number_text.specs.Lines.{text_of};
ghost use Rattle.mac_listing.specs.Listing.{instructions, IsListing};
ghost use Rattle.mac_listing.specs.Text.{op_line, head_lines, listing_text, OpFitsWord, IsListingText};

use crate::instruction::Op;
use crate::listing::Listing;
use crate::listing_parts::ListingParts;
use number_text::push_line;
use std::alloc::{AllocError, Global};

/// The one text of a listing: lines of a word and numbers, `mpc-listing` first and `end` last.
pub fn write_listing(alloc: Global, listing: &Listing) -> Result<Vec<u8>, AllocError>
    ensures { IfOk result (λ v. IsListingText v.items listing.now) }
{
    Ok(parts_text(alloc, listing.parts())?.into_bytes())
}

// The text that these numbers make.
fn parts_text(alloc: Global, l: &ListingParts) -> Result<String, AllocError>
    requires { IsListing (instructions l.now) }
    ensures text { IfOk result (λ text. string_bytes text ≡ listing_text (instructions l.now)) }
    ensures word { OnOk result (All OpFitsWord l.now.body.items) }
{
    let mut text = String::new(alloc);
    push_head(alloc, &mut text, l)?;
    push_body(alloc, &mut text, &l.body)?;
    push_line(alloc, &mut text, "end", &[])?;
    Ok(text)
}

// The lines before the body, at the end.
fn push_head(alloc: Global, text: &mut String, l: &ListingParts) -> Result<(), AllocError>
    requires { IsListing (instructions l.now) }
    ensures { OnOk result (string_bytes text.new ≡ string_bytes text.old ++ text_of (head_lines (instructions l.now))) }
{
    for i in 0..9 {
        push_head_line(alloc, text, l, i)?;
    }
    Ok(())
}

// The line of this index.
fn push_head_line(
    alloc: Global,
    text: &mut String,
    l: &ListingParts,
    i: usize,
) -> Result<(), AllocError>
    requires sound { IsListing (instructions l.now) }
    requires inside { i < 9 }
    ensures { OnOk result (string_bytes text.new ≡ string_bytes text.old ++ text_of (slice_index_or (head_lines (instructions l.now)) i [] ∷ [])) }
{
    match i {
        0 => push_line(alloc, text, "mpc-listing", &[1]),
        1 => push_line(alloc, text, "word", &[l.word as i128]),
        2 => push_line(alloc, text, "input", &[l.inputs as i128, l.shift as i128]),
        3 => push_line(alloc, text, "lo", &l.lo),
        4 => push_line(alloc, text, "hi", &l.hi),
        5 => push_line(alloc, text, "words", &[l.words as i128]),
        6 => push_line(
            alloc,
            text,
            "output",
            &[l.first as i128, l.outputs as i128, l.den],
        ),
        7 => push_line(
            alloc,
            text,
            "repeat",
            &[l.repeat as i128, l.body.len() as i128],
        ),
        _ => push_line(
            alloc,
            text,
            "count",
            &[(u64::from(l.repeat) * l.body.len() as u64) as i128],
        ),
    }
}

// A line for each instruction, at the end.
fn push_body(alloc: Global, text: &mut String, body: &[Op]) -> Result<(), AllocError>
    ensures text { OnOk result (string_bytes text.new ≡ string_bytes text.old ++ text_of (map op_line body.now)) }
    ensures word { OnOk result (All OpFitsWord body.now) }
{
    for op in body {
        push_op(alloc, text, *op)?;
    }
    Ok(())
}

// The line of an instruction.
fn push_op(alloc: Global, text: &mut String, op: Op) -> Result<(), AllocError>
    ensures text { OnOk result (string_bytes text.new ≡ string_bytes text.old ++ text_of (op_line op ∷ [])) }
    ensures word { OpFitsWord op }
{
    match op {
        Op::Clear => push_line(alloc, text, "clear", &[]),
        Op::Load { a } => push_line(alloc, text, "load", &[a as i128]),
        Op::Store { a } => push_line(alloc, text, "store", &[a as i128]),
        Op::Mac { a, c, k } => push_line(alloc, text, "mac", &[a as i128, c, k as i128]),
        Op::Con { c, k } => push_line(alloc, text, "con", &[c, k as i128]),
        Op::AddM { a } => push_line(alloc, text, "addm", &[a as i128]),
        Op::Shl { k } => push_line(alloc, text, "shl", &[k as i128]),
        Op::Shr { k } => push_line(alloc, text, "shr", &[k as i128]),
        Op::Neg => push_line(alloc, text, "neg", &[]),
        Op::Low => push_line(alloc, text, "low", &[]),
        Op::Cap { c } => push_line(alloc, text, "cap", &[c]),
    }
}
