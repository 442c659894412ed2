// `generate` with its arguments, where it stands alone: of designs of versions 1 and 2.
ghost use Rattle.std.specs.Prelude.{◌≡◌, IfSome, IsSomeAnd};
ghost use Rattle.command_line.specs.Words.{IsGenerate};
ghost use Rattle.command_line.specs.Does.{DoesInStore};
ghost use Rattle.command_generate.specs.Generate.{IsGenerated, plain_deeds};

use crate::texts::texts_of;
use command_design_files::{read_design_file, read_policy_file};
use command_line::{Status, write_texts};
use io_edge::{Store, Words};
use std::alloc::Global;

/// Makes a controller of the design in the first file with the policy in the second, and writes its text to the third and the report of its bounds to
/// the fourth: as JSON where that name ends in `.json`, and else as lines. Nothing is written before both texts are there. A design of version 3, which asks for
/// the accelerated machine, is refused at its version.
pub fn generate<S: Store>(alloc: Global, words: &Words, store: &mut S) -> Status
    requires { IsGenerate words.now }
    // What is written.
    ensures generated { result ≡ Status.Done → IfSome (S.held store.old) (λ files. IsSomeAnd (S.held store.new) (IsGenerated words.now files)) }
    // And all that it does.
    ensures does { DoesInStore S.Store words.now plain_deeds store.old store.new result }
{
    let design = match read_design_file(alloc, 1, words.at(1), store) {
        Ok(design) => design,
        Err(ended) => return ended,
    };
    match read_policy_file(alloc, 2, words.at(2), &design, store) {
        Ok(policy) => {
            let made = texts_of(alloc, &design, &policy, words.at(4));
            write_texts(words, 3, 4, made, store)
        }
        Err(status) => status,
    }
}
