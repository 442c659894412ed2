// What is said of the lines of states.
ghost use Rattle.command_serve.specs.Laws.{OneCellLaw, OneTextLaw};

/// A state that one cell alone holds has that cell's line.
pub fn one_cell_law()
    ensures { OneCellLaw }
{}

/// The lines of states are one text.
pub fn one_text_law()
    ensures { OneTextLaw }
{}
