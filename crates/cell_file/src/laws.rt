ghost use Rattle.cell_file.specs.Laws.{HasOneList, CellsHaveNoPrefix, CellsLengthLaw};

/// A text of cells is the text of one list of controllers.
pub fn one_list_law()
    ensures { HasOneList }
{}

/// No text of cells is a proper prefix of another.
pub fn prefix_law()
    ensures { CellsHaveNoPrefix }
{}

/// A text of cells has at most 186,000,000 bytes.
pub fn cells_length_law()
    ensures { CellsLengthLaw }
{}
