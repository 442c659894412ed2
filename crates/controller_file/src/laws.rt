ghost use Rattle.controller_file.specs.Laws.{HasOneController, HasNoPrefix};

/// A controller text is the text of one controller alone.
pub fn one_controller_law()
    ensures { HasOneController }
{}

/// No controller text is a proper prefix of another.
pub fn prefix_law()
    ensures { HasNoPrefix }
{}
