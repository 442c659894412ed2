// Bytes that a reader has left and that a writer gets, piece by piece.
ghost use Rattle.std.specs.Prelude.{◌≡◌, ◌≤◌, ◌<◌, ◌+◌, length, IfOk, IfSome, IsErrOf, OnOk, OnErr};
ghost use Rattle.std.specs.Io.KnownBytes.{Appends};
ghost use Rattle.io_edge.specs.Pieces.{TakesAtMost, AppendsProperFront};
ghost use Rattle.io_edge.specs.declared.store.ReadRefusal.TheVariants.{Long as read_long};

use crate::store::{Failed, ReadRefusal};
use std::alloc::Global;
use std::io::{Read, Write};

// The most bytes that are asked for in one call.
const PIECE: usize = 4096;

// All bytes that a reader has left, where they are at most `limit`. At most one more than that is taken.
pub fn read_to_limit<F: Read>(
    alloc: Global,
    from: &mut F,
    limit: usize,
) -> Result<Vec<u8>, ReadRefusal>
    ensures short { IfOk result (λ bytes. length bytes.items ≤ limit) }
    ensures all { IfOk result (λ bytes. IfSome (F.remaining from.old) (λ left. bytes.items ≡ left)) }
    ensures long { IsErrOf result read_long → IfSome (F.remaining from.old) (λ left. limit < length left) }
    ensures taken { TakesAtMost (F.remaining from.old) (F.remaining from.new) (limit + 1) }
{
    let mut bytes = Vec::new(alloc);
    let mut piece = [0u8; PIECE];
    while bytes.len() <= limit {
        let room = PIECE.min((limit - bytes.len()).saturating_add(1));
        let Ok(count) = from.read(&mut piece[..room]) else {
            return Err(ReadRefusal::Failed);
        };
        if count == 0 {
            return Ok(bytes);
        }
        bytes.extend_from_slice(&piece[..count])?;
    }
    Err(ReadRefusal::Long)
}

// Writes the bytes, by as many calls as it takes. A call that fails or takes none ends it.
pub fn write_to_end<W: Write>(to: &mut W, bytes: &[u8]) -> Result<(), Failed>
    ensures ok { OnOk result (Appends (W.contents to.old) (W.contents to.new) bytes.now) }
    ensures err { OnErr result (AppendsProperFront (W.contents to.old) (W.contents to.new) bytes.now) }
{
    let mut rest = bytes;
    while !rest.is_empty() {
        let Ok(count) = to.write(rest) else {
            return Err(Failed);
        };
        if count == 0 {
            return Err(Failed);
        }
        rest = &rest[count..];
    }
    Ok(())
}
