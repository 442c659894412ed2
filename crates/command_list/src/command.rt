// `list` with its arguments.
ghost use Rattle.command_line.specs.Words.{word_of, IsList};
ghost use Rattle.command_line.specs.Kind.{IsRead};
ghost use Rattle.command_line.specs.Does.{DoesInStore, ActsInStore};
ghost use Rattle.command_files.specs.Reading.{controller_kind};
ghost use Rattle.command_list.specs.Listed.{list_act, list_deeds};

use crate::text::{listing_text, write_text};
use command_files::read_controller_file;
use command_line::Status;
use io_edge::{Store, Words};
use overflow_check::Controller;
use std::alloc::Global;

// The listing of a controller, which was read from the first file, to the second.
fn list_with<S: Store>(
    alloc: Global,
    words: &Words,
    controller: &Controller,
    store: &mut S,
) -> Status
    requires words { IsList words.now }
    requires right { IsRead controller_kind 1 (S.held store.now) (word_of words.now 1) controller.now }
    ensures { ActsInStore S.Store words.now list_deeds store.old store.new result (list_act controller.now) }
{
    match listing_text(alloc, controller) {
        Ok(text) => write_text(words.at(2), &text, store),
        Err(_) => Status::Memory,
    }
}

/// Writes the text of the listing of the first file's controller to the second. Nothing is written before the text is there.
pub fn list<S: Store>(alloc: Global, words: &Words, store: &mut S) -> Status
    requires { IsList words.now }
    ensures { DoesInStore S.Store words.now list_deeds store.old store.new result }
{
    match read_controller_file(alloc, 1, words.at(1), store) {
        Ok(controller) => list_with(alloc, words, &controller, store),
        Err(ended) => ended,
    }
}
