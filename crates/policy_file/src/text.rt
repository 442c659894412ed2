// The records of a text.
ghost use Rattle.std.specs.Prelude.{◌≡◌, IfOk, map};
ghost use Rattle.csv.specs.Records.{fields_of};
ghost use Rattle.policy_file.specs.Records.{records_of};
ghost use Rattle.policy_file.specs.RecordsLeft.{HasLeft};

use csv::{ByteRecord, ByteRecordsIntoIter, ReaderBuilder};
use std::alloc::{AllocError, Global};

/// The records of a text, read one by one. The reader stands over bytes and takes records of any length, so that each error of it is out of memory.
pub fn text_records(alloc: Global, text: &[u8]) -> ByteRecordsIntoIter<&[u8]>
    ensures { HasLeft result (records_of text.now) }
{
    ReaderBuilder::new()
        .has_headers(false)
        .flexible(true)
        .from_reader(alloc, text)
        .into_byte_records()
}

/// Every record of a text.
pub fn all_records(alloc: Global, text: &[u8]) -> Result<Vec<ByteRecord>, AllocError>
    ensures { IfOk result (λ v. map fields_of v.items ≡ records_of text.now) }
{
    let mut rows = Vec::new(alloc);
    for row in text_records(alloc, text) {
        let Ok(row) = row else {
            return Err(AllocError);
        };
        rows.push(row)?;
    }
    Ok(rows)
}
