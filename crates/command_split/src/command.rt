// `split` with its arguments.
ghost use Rattle.qp_model.specs.problem.Parts.{design_of};
ghost use Rattle.cell_split.specs.Cells.{AreCutsFor};
ghost use Rattle.command_line.specs.Words.{IsSplit};
ghost use Rattle.command_line.specs.Does.{DoesInStore};
ghost use Rattle.command_line.specs.Running.{RunsInStore};
ghost use Rattle.command_split.specs.Split.{split_after_cuts, split_deeds};

use crate::cells::texts_of;
use cell_split::Cuts;
use command_design_files::{Wanted, read_asked_file};
use command_files::{read_cell_policies_file, read_cuts_file};
use command_line::{Status, write_texts};
use io_edge::{Store, Words};
use std::alloc::Global;

/// Makes a controller for each cell of the box of the design in the first file, as the cuts in the second split it, that has a policy in the third, and
/// writes the text of all controllers to the fourth and the texts of their reports, one after the other, to the fifth. Nothing is written before both are
/// there. A design of version 3 has controllers of the accelerated machine.
pub fn split<S: Store>(alloc: Global, words: &Words, store: &mut S) -> Status
    requires { IsSplit words.now }
    ensures { DoesInStore S.Store words.now split_deeds store.old store.new result }
{
    let wanted = match read_asked_file(alloc, 1, words.at(1), store) {
        Ok(wanted) => wanted,
        Err(ended) => return ended,
    };
    match read_cuts_file(alloc, 2, words.at(2), &wanted.design, store) {
        Ok(cuts) => after_cuts(alloc, words, &wanted, &cuts, store),
        Err(status) => status,
    }
}

// Reads the policies of all cells, and writes the texts.
fn after_cuts<S: Store>(
    alloc: Global,
    words: &Words,
    wanted: &Wanted,
    cuts: &Cuts,
    store: &mut S,
) -> Status
    requires words { IsSplit words.now }
    requires split { AreCutsFor (design_of wanted.now.design) cuts.now }
    ensures { RunsInStore S.Store words.now split_deeds store.old store.new result (split_after_cuts wanted.now.design wanted.now.fast cuts.now) }
{
    let cells = cuts.cells();
    match read_cell_policies_file(alloc, 3, words.at(3), &wanted.design, cells, store) {
        Ok(policies) => {
            let made = texts_of(alloc, wanted, cuts, &policies);
            write_texts(words, 4, 5, made, store)
        }
        Err(status) => status,
    }
}
