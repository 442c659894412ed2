// `c` with its arguments.
ghost use Rattle.command_line.specs.Words.{IsC};
ghost use Rattle.command_line.specs.Does.{DoesInStore};
ghost use Rattle.command_c.specs.Compiled.{compile_deeds};

use crate::texts::program_texts;
use command_files::read_any_controller_file;
use command_line::{Status, write_texts};
use io_edge::{Store, Words};
use std::alloc::Global;

/// Writes the source of the program of the first file's controller, of any version, to the third name and its header to the fourth; the second word is the program's name. Nothing is
/// written before both texts are there.
pub fn write_c<S: Store>(alloc: Global, words: &Words, store: &mut S) -> Status
    requires { IsC words.now }
    ensures { DoesInStore S.Store words.now compile_deeds store.old store.new result }
{
    match read_any_controller_file(alloc, 1, words.at(1), store) {
        Ok(controller) => {
            let made = program_texts(alloc, &controller, words.at(2));
            write_texts(words, 3, 4, made, store)
        }
        Err(status) => status,
    }
}
