// The arguments, the files and the output.
ghost use Rattle.std.specs.Prelude.{◌≡◌, ◌≢◌, ◌⊎◌, ◌↔◌, ℕ, ◌≤◌, Bool, IfSome, IsSomeAnd};
ghost use Rattle.io_edge.specs.Faults.{Rose, NoneFalls};
ghost use Rattle.number_text.specs.declared.text_fault.TextFault.TheVariants.{Memory as no_room};
ghost use Rattle.controller_text.specs.declared.bad_controller.BadController.TheVariants.{Memory as no_space};
ghost use Rattle.command_line.specs.Words.{word_of, IsGenerate, IsStay, IsPlay, IsLean, IsLeanStay, IsSplit, IsServe, IsC, IsSettle};
ghost use Rattle.command_line.specs.Commands.{AreOf, IsUsage};
ghost use Rattle.command_line.specs.Answers.{ForContents, IsAnswer, IsCaused};
ghost use Rattle.command_line.specs.Does.{Does};
ghost use Rattle.command_line.specs.Deeds.{IsCalledFor, UsesNoFile, IsUnwritten, IsUnprinted, WriteFailed, NoneRises};
ghost use Rattle.command_play.specs.AsSolved.{PlaysAsSolved};
ghost use Rattle.command_make.specs.Fast.{IsAnyGenerated, IsAnyGeneratedStayed, IsAnyWritten, IsAnyStayed};
ghost use Rattle.command_split.specs.Split.{IsSplitWritten};
ghost use Rattle.command_serve.specs.Held.{ServesHeld};
ghost use Rattle.command_c.specs.Compiled.{IsCompiled};
ghost use Rattle.command_settle.specs.Settled.{AreLoopsSettled};
ghost use Rattle.command_run.specs.Table.{deeds_of};

use command_c::write_c;
use command_demo::demo;
use command_line::{Command, Status, command_of};
use command_list::list;
use command_loop::run_loops;
use command_make::{generate, lean, lean_stay, stay};
use command_play::play;
use command_serve::serve;
use command_settle::settle;
use command_solve::solve;
use command_split::split;
use io_edge::{Sink, Store, Words};
use std::alloc::Global;

// Runs this command, by its row in the table.
fn answer<S: Store, O: Sink>(
    alloc: Global,
    words: &Words,
    command: Command,
    store: &mut S,
    out: &mut O,
) -> Status
    requires { AreOf command words.now }
    ensures { Does S.Store O.Sink words.now (deeds_of command) store.old store.new out.old out.new result }
{
    match command {
        Command::Generate => generate(alloc, words, store),
        Command::Solve => solve(alloc, words, store, out),
        Command::Loop { turns, disturbed } => run_loops(alloc, words, turns, disturbed, store, out),
        Command::Demo { number } => demo(alloc, number, out),
        Command::List => list(alloc, words, store),
        Command::Stay { disturbed } => stay(alloc, words, disturbed, store),
        Command::Play => play(alloc, words, store, out),
        Command::Lean => lean(alloc, words, store),
        Command::LeanStay { disturbed } => lean_stay(alloc, words, disturbed, store),
        Command::Split => split(alloc, words, store),
        Command::Serve => serve(alloc, words, store, out),
        Command::C => write_c(alloc, words, store),
        Command::Settle { disturbed } => settle(alloc, words, disturbed, store, out),
    }
}

/// Runs the command that the arguments are.
///
/// `generate`, a design file, a policy file, a controller file and a report file: makes a controller of the design, and writes its text and the
/// report of its bounds, as JSON where the report's name ends in `.json`. `solve`, a controller file, of any version, and a states file: prints a line for
/// each state, the averaged plan of the controller from it. `loop`, a design file and a controller file, of any version, a states file and a number of turns: prints
/// a line for each turn of the closed loop from each state; with a file of disturbances the state after each turn is shifted by the turn's record. `demo` and a number:
/// prints the report and four plans of a made design. `list`, a controller file and a listing file: writes the listing of the controller's step.
/// `play`, a listing file and a states file: prints a line for each state, what the listing's machine puts out from it. `stay`, the files of `generate`,
/// a file of faces of the box, and one of a range of disturbances or none: does what `generate` does, where the faces show that the closed loop stays
/// in the box. `lean`, a design file, a policy file, a file of reference plans, a controller file and a report file: does what `generate` does, with as many
/// steps as the policy's excess over the reference plans asks for; with a file of faces, and one of a range of disturbances or none, where these show that
/// the closed loop stays in the box. `split`, a design file, a file of cuts, a file of policies, a file of cells and a report file: does what `generate` does
/// for each cell of the design's box that the cuts make and that has a policy. `serve`, a file of cells and a states file: prints a line for each state, the averaged plan of
/// the first cell's controller whose box holds it. `c`, a controller file, a name, a source file and a header file: writes the controller's program in C,
/// whose functions have that name. `settle`, a design file and a controller file, of any version, and a certificate file, and one of a range of disturbances or
/// none: prints the turn from which every closed loop from the certificate's start box lies in a small box for good, and that box.
pub fn run<S: Store, O: Sink>(alloc: Global, words: &Words, store: &mut S, out: &mut O) -> Status
    // Where `generate` answers `Done`, the controller's file holds the text of one controller and the report's file the report of its bounds, both
    // built of the design and the policy in the files. Run from any grid state of the box, the controller keeps every product and partial sum
    // within the printed width and makes exactly the printed steps; its averaged plan exceeds each constraint by at most the printed violation and
    // costs at most the printed gap more than any feasible plan, and some feasible plan costs at most the printed undercut more than it.
    // The printed violation and gap are at most the design's targets. Of a design of version 3 it is a controller of the accelerated machine, and the promise
    // is of that machine's run.
    ensures generated { IsGenerate words.now → result ≡ Status.Done
        → IfSome (S.held store.old) (λ files. IsSomeAnd (S.held store.new) (IsAnyGenerated words.now files)) }
    // So it does where `stay` answers `Done`, and the closed loop from any grid state of the box stays in the box for every number of turns, under every list
    // of disturbances within the range in the sixth file, and without disturbances where there is no such file. Of a design of version 3 it is the loop by the
    // accelerated machine.
    ensures stayed { (disturbed : Bool) → IsStay words.now disturbed → result ≡ Status.Done
        → IfSome (S.held store.old) (λ files. IsSomeAnd (S.held store.new) (IsAnyGeneratedStayed disturbed words.now files)) }
    // And where `lean` answers `Done`, its two files hold the text of one controller and the report of its bounds, made leanly of the design, the policy and
    // the reference plans in the files, whatever these plans are: with the same promise, and within the same targets. Of a design of version 3 it is a controller
    // of the accelerated machine, and the promise is of that machine's run.
    ensures leaned { IsLean words.now → result ≡ Status.Done
        → IfSome (S.held store.old) (λ files. IsSomeAnd (S.held store.new) (IsAnyWritten words.now files)) }

    // So it does where `lean` with faces answers `Done`, and the closed loop stays in the box, as that of `stay`: under every list of disturbances within
    // the range in the seventh file, and without disturbances where there is no such file. Of a design of version 3 it is the loop by that machine.
    ensures kept { (disturbed : Bool) → IsLeanStay words.now disturbed → result ≡ Status.Done
        → IfSome (S.held store.old) (λ files. IsSomeAnd (S.held store.new) (IsAnyStayed disturbed words.now files)) }

    // Where `split` answers `Done`, its two files hold the text of a controller for each cell of the design's box that has a policy, and the reports of their
    // bounds. The boxes of the cells split the design's box: no two have a state in common, and each grid state of the box lies in one. Where that cell has a
    // policy, the state lies in the box of one controller alone, which is certified there with its bounds, and else in that of none.
    ensures split { IsSplit words.now → result ≡ Status.Done
        → IfSome (S.held store.old) (λ files. IsSomeAnd (S.held store.new) (IsSplitWritten words.now files)) }
    // Where the first file of `serve` holds such a text, and the second states each of which lies in some cell's box, all is done but for want of memory and
    // faults, and the output gets for each state the line of the averaged plan of the first controller whose box holds it; of a text that `split` wrote it
    // is the only one.
    ensures served { IsServe words.now → ServesHeld words.now (S.held store.old) result (O.got out.old) (O.got out.new) }

    // Where the first file of `play` holds the text of the listing of a controller, as `list` writes it, and the second states of the controller's box, then no
    // value of the runs leaves the controller's width, and the output gets the bytes that `solve` prints of the controller and these states: the lines of
    // its averaged plans.
    ensures played { IsPlay words.now → PlaysAsSolved words.now (S.held store.old) result (O.got out.old) (O.got out.new) }

    // Where `c` answers `Done`, its third file holds the source of the program of the controller in the first, and its fourth the header, with the name that the
    // second word is. Run from any grid state of the box, C defines each statement of the program; it answers 0, and puts out the numerators of the averaged plan,
    // which `solve` prints, and of these the averaged first inputs. From any other state it answers the first coordinate outside the box, and puts out nothing.
    ensures compiled { IsC words.now → result ≡ Status.Done
        → IfSome (S.held store.old) (λ files. IsSomeAnd (S.held store.new) (IsCompiled words.now files)) }

    // Where `settle` answers `Done`, every closed loop of the plant of the design and the controller in the first two files from the start box of the
    // certificate in the third, under every list of disturbances within the range in the fourth, and without disturbances where there is no such file, lies
    // at each turn in the certificate's box where no multiplier moves, and from the printed turn on in the printed box, for every number of turns.
    ensures settled { (disturbed : Bool) → IsSettle words.now disturbed → result ≡ Status.Done
        → AreLoopsSettled disturbed words.now (S.held store.old) (O.got out.old) (O.got out.new) }

    // `Usage` is the answer exactly where the arguments are those of no command, and then nothing is used.
    ensures usage { (result ≡ Status.Usage) ↔ IsUsage words.now }
    ensures unused { IsUsage words.now → (store.new ≡ store.old) × (out.new ≡ out.old) }

    // The arguments are those of one command at most (`one_command_law`), and what follows is said of it, by its row in the table of commands.
    // Why: this answer is called for by what the files hold, and no other. Out of memory and a fault have no cause in them.
    ensures called { (c : Command) → AreOf c words.now → IsCaused result
        → ForContents words.now (S.held store.old) (λ contents. IsAnswer ((deeds_of c).calls contents) result) }
    // No text is told to be wrong for want of memory. What the files call for never is such an answer, so this follows from `called` and `usage`, but only by the
    // row of every command; it stands here so that who reads this contract needs none of them.
    ensures no_inner_memory { (file : ℕ) → (result ≢ Status.Text file no_room) × (result ≢ Status.Controller file no_space) }

    // It doesn't give up: where whatever the files may hold calls for an answer, and no count rises that the command can raise, the answer is that one,
    // or out of memory.
    ensures complete { (c : Command) → AreOf c words.now → (s : Status) → IsCalledFor (deeds_of c) words.now (S.held store.old) s
        → NoneRises (deeds_of c) words.now (S.read_faults store.old) (S.read_faults store.new) (S.write_faults store.old) (S.write_faults store.new)
        (O.faults out.old) (O.faults out.new)
        → (result ≡ s) ⊎ (result ≡ Status.Memory) }

    // What it leaves in the output, and in the store, also where a write failed.
    ensures prints { (c : Command) → AreOf c words.now
        → IfSome (O.got out.old) (λ old. IsSomeAnd (O.got out.new)
        (λ new. ForContents words.now (S.held store.old) (λ contents. (deeds_of c).shows contents result old new))) }
    ensures quiet { (c : Command) → AreOf c words.now → IsUnprinted (deeds_of c) result → out.new ≡ out.old }
    ensures leaves { (c : Command) → AreOf c words.now → (deeds_of c).leaves words.now result (S.held store.old) (S.held store.new) }
    ensures held { (c : Command) → AreOf c words.now → IsUnwritten (deeds_of c) result → S.held store.new ≡ S.held store.old }
    ensures no_file { (c : Command) → AreOf c words.now → UsesNoFile (deeds_of c) → store.new ≡ store.old }

    // A fault comes only where the count of that very file, or of the output, rose, and where all that comes before it is in order.
    ensures read_fault { (c : Command) → AreOf c words.now → (file : ℕ) → result ≡ Status.ReadFault file
        → ForContents words.now (S.held store.old) (λ contents. (deeds_of c).reaches contents file)
        × Rose (S.read_faults store.old (word_of words.now file)) (S.read_faults store.new (word_of words.now file)) }
    ensures write_fault { (c : Command) → AreOf c words.now → (file : ℕ) → result ≡ Status.WriteFault file
        → ForContents words.now (S.held store.old) (deeds_of c).starts
        × WriteFailed (deeds_of c) words.now file (S.write_faults store.old) (S.write_faults store.new) (O.faults out.old) (O.faults out.new) }

    // No count falls.
    ensures reads { NoneFalls (S.read_faults store.old) (S.read_faults store.new) }
    ensures writes { NoneFalls (S.write_faults store.old) (S.write_faults store.new) }
    ensures no_fewer { O.faults out.old ≤ O.faults out.new }
{
    match command_of(words) {
        Some(command) => answer(alloc, words, command, store, out),
        None => Status::Usage,
    }
}
