// `play` with its arguments.
ghost use Rattle.command_line.specs.Words.{IsPlay};
ghost use Rattle.command_line.specs.Does.{Does};
ghost use Rattle.command_play.specs.Play.{play_deeds};

use crate::lines::player_of;
use crate::listing::read_listing_file;
use command_files::read_states_file;
use command_line::Status;
use io_edge::{Sink, Store, Words};
use plan_lines::print_prepared;
use std::alloc::Global;

/// Prints a line for each state of the second file: what the machine of the first file's listing puts out from it, over the listing's denominator.
/// Nothing where a file is refused or a state lies outside the box; the lines before where a run traps.
pub fn play<S: Store, O: Sink>(alloc: Global, words: &Words, store: &mut S, out: &mut O) -> Status
    requires { IsPlay words.now }
    ensures { Does S.Store O.Sink words.now play_deeds store.old store.new out.old out.new result }
{
    let listing = match read_listing_file(alloc, 1, words.at(1), store) {
        Ok(listing) => listing,
        Err(ended) => return ended,
    };
    match read_states_file(alloc, 2, words.at(2), listing.parts().inputs, store) {
        Ok(states) => print_prepared(alloc, player_of(alloc, &listing), &states, out),
        Err(status) => status,
    }
}
