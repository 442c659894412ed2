ghost use Rattle.controller_text.specs.Laws.{TextFormLaw, TextLengthLaw};

/// The numbers of a text are in form where they are so as a controller's of their version.
pub fn text_form_law()
    ensures { TextFormLaw }
{}

/// A controller's text has at most 2,900,000 bytes.
pub fn text_length_law()
    ensures { TextLengthLaw }
{}
