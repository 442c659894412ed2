// What a text tells.
ghost use Rattle.c_language.specs.Laws.{ExpressionTextLaw, ProgramTextLaw, StatementTextLaw};

/// Two expressions never have one text.
pub fn expression_text_law()
    ensures { ExpressionTextLaw }
{}

/// Two statements never have one text.
pub fn statement_text_law()
    ensures { StatementTextLaw }
{}

/// Two programs never have one text, nor one program under two names: from a text the name, the box, the statements with the types that they are written with, the repetitions,
/// the outputs and the averages can be told.
pub fn program_text_law()
    ensures { ProgramTextLaw }
{}
