// What the program of a controller does.
ghost use Rattle.c_program.specs.Laws.{
  FastProgramLaw,
  FastShortTextLaw,
  PartedProgramLaw,
  PartedShortTextLaw,
  ProgramLaw,
  ShortTextLaw,
  WrittenProgramLaw,
  WrittenTextLaw,
};
ghost use Rattle.c_program.specs.Worked.{WorkedLines};
ghost use Rattle.c_program.specs.FastWorked.{FastWorkedLines};
ghost use Rattle.c_program.specs.PartedWorked.{PartedWorkedLines};

/// The program of a controller of at most 64 bits, run from a state of its box, is defined by C throughout and puts out the averaged plan's numerators, and of these the
/// averaged first inputs. From any other state it answers the first coordinate outside.
pub fn program_law()
    ensures { ProgramLaw }
{}

/// That of an accelerated controller of at most 64 bits does the same of its machine, whose averaged plan is by the weights.
pub fn fast_program_law()
    ensures { FastProgramLaw }
{}

/// The program in two parts of a controller whose sums pass 64 bits does the same, of either machine: C defines each statement of its run, and it puts out that
/// machine's numerators.
pub fn parted_program_law()
    ensures { PartedProgramLaw }
{}

/// So of any controller that has a program, in one part or in two, and of either machine: what is written for it puts out that machine's numerators.
pub fn written_program_law()
    ensures { WrittenProgramLaw }
{}

/// Each number in the text of a controller's program is below 2^64, so that the program can be told from its text.
pub fn short_text_law()
    ensures { ShortTextLaw }
{}

/// And each in that of a controller of the accelerated machine.
pub fn fast_short_text_law()
    ensures { FastShortTextLaw }
{}

/// And each in that of a program in two parts.
pub fn parted_short_text_law()
    ensures { PartedShortTextLaw }
{}

/// And so of any controller that has a program, of at most 64 bits or in parts.
pub fn written_text_law()
    ensures { WrittenTextLaw }
{}

/// The lines of a worked program.
pub fn worked_lines()
    ensures { WorkedLines }
{}

/// And those of one of the accelerated machine.
pub fn fast_worked_lines()
    ensures { FastWorkedLines }
{}

/// And those of one in parts.
pub fn parted_worked_lines()
    ensures { PartedWorkedLines }
{}
