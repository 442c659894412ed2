// A list of enclosures as its midpoints and its radii.
ghost use Rattle.std.specs.Prelude.{◌≡◌, IfOk};
ghost use Rattle.scaled_condense.specs.Lists.{mids, rads};

use enclosure::Enc;
use std::alloc::{AllocError, Global};

// The midpoints.
fn mids_of(alloc: Global, xs: &[Enc]) -> Result<Vec<i128>, AllocError>
    ensures { IfOk result (λ v. v.items ≡ mids xs.now) }
{
    xs.iter().map(|x| x.mid).collect(alloc)
}

// The radii.
fn rads_of(alloc: Global, xs: &[Enc]) -> Result<Vec<i128>, AllocError>
    ensures { IfOk result (λ v. v.items ≡ rads xs.now) }
{
    xs.iter().map(|x| x.rad).collect(alloc)
}

/// The midpoints and the radii of a list.
#[derive(Drop)]
pub struct SplitList {
    pub mids: Vec<i128>,
    pub rads: Vec<i128>,
}

/// Those of this list.
pub fn split(alloc: Global, xs: &[Enc]) -> Result<SplitList, AllocError>
    ensures mids { IfOk result (λ s. s.mids.items ≡ mids xs.now) }
    ensures rads { IfOk result (λ s. s.rads.items ≡ rads xs.now) }
{
    let mids = mids_of(alloc, xs)?;
    let rads = rads_of(alloc, xs)?;
    Ok(SplitList { mids, rads })
}
