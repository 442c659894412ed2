// The commands with their arguments.
ghost use Rattle.std.specs.Prelude.{◌≡◌};
ghost use Rattle.command_line.specs.Words.{IsGenerate, IsStay, IsLean, IsLeanStay};
ghost use Rattle.command_line.specs.Does.{DoesInStore};
ghost use Rattle.command_line.specs.Running.{RunsInStore};
ghost use Rattle.command_make.specs.Make.{make_after, make_deeds, IsAsked, generate_deeds, stay_deeds, lean_deeds, lean_stay_deeds, asked_of};

use crate::inputs::read_inputs;
use crate::texts::texts_of;
use command_design_files::{Wanted, read_asked_file};
use command_line::{Status, write_texts};
use io_edge::{Store, Words};
use std::alloc::Global;

/// What a command asks for, and at which positions its files stand.
#[derive(Drop)]
pub struct Asked {
    /// Reference plans.
    pub lean: bool,
    pub faced: bool,
    pub disturbed: bool,
    pub controller: u32,
    pub report: u32,
    pub faces: u32,
    pub range: u32,
}

/// Makes a controller of the design in the first file with the policy in the second, and writes its text to the third and the report of its bounds to the
/// fourth: as JSON where that name ends in `.json`, and else as lines. Nothing is written before both texts are there. A design of version 3 has a controller
/// of the accelerated machine.
pub fn generate<S: Store>(alloc: Global, words: &Words, store: &mut S) -> Status
    requires { IsGenerate words.now }
    ensures { DoesInStore S.Store words.now generate_deeds store.old store.new result }
{
    make_asked(alloc, words, &asked_of(false, false, false), store)
}

/// Does what `generate` does, where the faces in the fifth file show that the controller's closed loop stays in the box, under all disturbances of the range in
/// the sixth where there is one. Nothing is written before both texts are there and the faces were tested. A design of version 3 has a controller of the
/// accelerated machine, by which its loop runs.
pub fn stay<S: Store>(alloc: Global, words: &Words, disturbed: bool, store: &mut S) -> Status
    requires { IsStay words.now disturbed }
    ensures { DoesInStore S.Store words.now (stay_deeds disturbed) store.old store.new result }
{
    make_asked(alloc, words, &asked_of(false, true, disturbed), store)
}

/// Makes a controller of the design in the first file with the policy in the second and the reference plans in the third, and writes its text to the fourth
/// and the report of its bounds to the fifth: as JSON where that name ends in `.json`, and else as lines. Nothing is written before both texts are there. A
/// design of version 3 has a controller of the accelerated machine.
pub fn lean<S: Store>(alloc: Global, words: &Words, store: &mut S) -> Status
    requires { IsLean words.now }
    ensures { DoesInStore S.Store words.now lean_deeds store.old store.new result }
{
    make_asked(alloc, words, &asked_of(true, false, false), store)
}

/// Does what `lean` does, where the faces in the sixth file show that the controller's closed loop stays in the box, under all disturbances of the range in the
/// seventh where there is one. Nothing is written before both texts are there and the faces were tested. A design of version 3 has a controller of the
/// accelerated machine, by which its loop runs.
pub fn lean_stay<S: Store>(alloc: Global, words: &Words, disturbed: bool, store: &mut S) -> Status
    requires { IsLeanStay words.now disturbed }
    ensures { DoesInStore S.Store words.now (lean_stay_deeds disturbed) store.old store.new result }
{
    make_asked(alloc, words, &asked_of(true, true, disturbed), store)
}

// What is asked for, where reference plans move the files behind the policy by one.
fn asked_of(lean: bool, faced: bool, disturbed: bool) -> Asked
    ensures { result ≡ asked_of lean faced disturbed }
{
    let controller = if lean { 4 } else { 3 };
    Asked {
        lean,
        faced,
        disturbed,
        controller,
        report: controller + 1,
        faces: controller + 2,
        range: controller + 3,
    }
}

// Reads what is asked for, and writes both texts.
fn make_asked<S: Store>(alloc: Global, words: &Words, asked: &Asked, store: &mut S) -> Status
    requires { IsAsked words.now asked.now }
    ensures { DoesInStore S.Store words.now (make_deeds asked.now) store.old store.new result }
{
    match read_asked_file(alloc, 1, words.at(1), store) {
        Ok(wanted) => make_of(alloc, words, asked, wanted, store),
        Err(status) => status,
    }
}

// What comes after the design.
fn make_of<S: Store>(
    alloc: Global,
    words: &Words,
    asked: &Asked,
    wanted: Wanted,
    store: &mut S,
) -> Status
    requires { IsAsked words.now asked.now }
    ensures { RunsInStore S.Store words.now (make_deeds asked.now) store.old store.new result (make_after asked.now wanted.fast wanted.design) }
{
    match read_inputs(alloc, words, asked, wanted, store) {
        Ok(inputs) => {
            let made = texts_of(alloc, &inputs, words.at(asked.report as usize));
            write_texts(words, asked.controller, asked.report, made, store)
        }
        Err(status) => status,
    }
}
