// What a run answers, and its exit status.
ghost use Rattle.std.specs.Prelude.{◌≡◌};
ghost use Rattle.command_line.specs.Status.{refusal_number, status_number, status_of};
ghost use Rattle.command_line.specs.declared.status.Status.TheVariants.{Memory as no_memory};

use controller_text::BadController;
use number_text::TextFault;
use qp_model::Refusal;
use std::alloc::AllocError;

/// What a design and a controller may differ in.
#[derive(Clone, Copy, PartialEq, Eq)]
pub enum Field {
    States,
    Inputs,
    Grid,
}

/// What a run answers. Files are told by their positions among the arguments, where the command is at position 0; records, turns, coordinates, corners and
/// rows are counted from 1.
#[derive(Clone, Copy, PartialEq, Eq)]
pub enum Status {
    /// All was done.
    Done,
    /// Out of memory.
    Memory,
    /// The arguments are those of no command.
    Usage,
    /// The file at this position was not read.
    ReadFault {
        file: u32,
    },
    /// The file at this position was not written whole; 0 is the output.
    WriteFault {
        file: u32,
    },
    /// The file at this position has this as its first fault.
    Text {
        file: u32,
        fault: TextFault,
    },
    /// The design is refused. Out of memory is no such answer, but `Memory`.
    Refused {
        refusal: Refusal,
    },
    /// The bytes of the file at this position are no controller's text, or no text of cells.
    Controller {
        file: u32,
        fault: BadController,
    },
    /// That coordinate of the state of a record lies outside the box of the controller or of the listing, or that of the first cell where no cell's box holds
    /// the state; it is the first. Of a closed loop it is the state at `turn`, where turn 1 has the record's own; else `turn` is 0.
    OutsideBox {
        entry: u32,
        turn: u32,
        coordinate: u32,
    },
    /// The file at this position holds more bytes than its kind may: 268435456 where it is to hold the text of cells, and else 4194304.
    Long {
        file: u32,
    },
    /// The design and the controller differ in this, with both numbers; it is the first of states, inputs and grid.
    Mismatch {
        field: Field,
        design: i128,
        controller: i128,
    },
    /// Of that input the first rows have by the weights of that record of the faces `left`, and its coordinate `right`; it is the first.
    Unequal {
        entry: u32,
        input: u32,
        left: i128,
        right: i128,
    },
    /// That record of the faces lets its coordinate go as far as to `bound` over `2^grid`, which is beyond its face; it is the first.
    NoStay {
        entry: u32,
        bound: i128,
    },
    /// The design of that cell, from 1, is refused; it is the first. Out of memory is no such answer, but `Memory`.
    Cell {
        cell: u32,
        refusal: Refusal,
    },
    /// The bytes of the file at this position are no listing's text; the line with this number, from 1, is the first that no listing's text has there.
    Listing {
        file: u32,
        line: u32,
    },
    /// In the run from the state of a record a value has no room in a word: the first, in this repetition and at this instruction of the body. Both are 0
    /// at an input.
    Trap {
        entry: u32,
        step: u32,
        place: u32,
    },
    /// A controller of this width has no program in C: values of more than 64 bits.
    TooWideForC {
        width: u32,
    },
    /// In the box where no multiplier is to move that of this row may: what it must stay below, `right`, isn't above `left`; it is the first.
    Moves {
        row: u32,
        left: i128,
        right: i128,
    },
    /// After this turn a loop from the start box may have gone in this coordinate as far as to `bound` over `2^grid`: beyond the box where no multiplier moves, or, at
    /// the last turn, beyond the box of rest; it is the first.
    Unsettled {
        turn: u32,
        coordinate: u32,
        bound: i128,
    },
    /// The same of a loop from the box of rest.
    NoReturn {
        turn: u32,
        coordinate: u32,
        bound: i128,
    },
}

impl From<AllocError> for Status {
    ghost from_gives = { λ _ e. e ≡ no_memory };

    fn from(_: AllocError) -> Self {
        Status::Memory
    }
}

impl From<Refusal> for Status {
    ghost from_gives = { λ refusal e. e ≡ status_of refusal };

    fn from(refusal: Refusal) -> Self {
        match refusal {
            Refusal::Memory => Status::Memory,
            _ => Status::Refused { refusal },
        }
    }
}

// The exit status of the program, where a design is refused.
fn refusal_number(refusal: &Refusal) -> u8
    ensures { result ≡ refusal_number refusal.now }
{
    match refusal {
        Refusal::Memory => 1,
        Refusal::NoMargin { .. } => 6,
        Refusal::Curvature => 7,
        Refusal::TooManySteps { .. } => 8,
        Refusal::TooFine { .. } => 9,
        Refusal::TooWide { .. } => 10,
    }
}

/// The exit status of the program.
pub fn status_number(status: &Status) -> u8
    ensures { result ≡ status_number status.now }
{
    match status {
        Status::Done => 0,
        Status::Memory => 1,
        Status::Usage => 2,
        Status::ReadFault { .. } => 3,
        Status::WriteFault { .. } => 4,
        Status::Text { .. } => 5,
        Status::Refused { refusal } => refusal_number(refusal),
        Status::Controller { .. } => 11,
        Status::OutsideBox { .. } => 12,
        Status::Long { .. } => 13,
        Status::Mismatch { .. } => 14,
        Status::Unequal { .. } => 16,
        Status::NoStay { .. } => 17,
        Status::Cell { .. } => 18,
        Status::Listing { .. } => 20,
        Status::Trap { .. } => 21,
        Status::TooWideForC { .. } => 22,
        Status::Moves { .. } => 23,
        Status::Unsettled { .. } => 24,
        Status::NoReturn { .. } => 25,
    }
}
