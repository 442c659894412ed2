// The bytes of a file.
ghost use Rattle.std.specs.Prelude.{◌≡◌, ◌≤◌, Some, length, IfOk, IfErr, IfSome};
ghost use Rattle.command_line.specs.Kind.{Passes};
ghost use Rattle.command_design_files.specs.Reading.{IsUnread};

use command_line::Status;
use io_edge::{ReadRefusal, Store};
use std::alloc::Global;

/// The most bytes of a file that holds one text.
pub const FILE_LIMIT: usize = 4194304;

/// The bytes, `limit` at most, under the name at a position among the arguments, or the status that ends the run.
pub fn read_bytes<S: Store>(
    alloc: Global,
    limit: usize,
    file: u32,
    name: &str,
    store: &mut S,
) -> Result<Vec<u8>, Status>
    ensures short { IfOk result (λ bytes. length bytes.items ≤ limit) }
    ensures told { IfOk result (λ bytes. IfSome (S.held store.old) (λ files. files name.now ≡ Some bytes.items)) }
    ensures ends { IfErr result (IsUnread limit file (S.held store.old) name.now (S.read_faults store.old name.now) (S.read_faults store.new name.now)) }
    ensures passes { Passes S.Store store.old store.new }
{
    match store.read_all(alloc, name, limit) {
        Ok(bytes) => Ok(bytes),
        Err(ReadRefusal::Failed) => Err(Status::ReadFault { file }),
        Err(ReadRefusal::Long) => Err(Status::Long { file }),
        Err(ReadRefusal::Memory) => Err(Status::Memory),
    }
}
