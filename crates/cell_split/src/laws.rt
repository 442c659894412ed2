// What the definitions give, as the contract of a function with nothing to do.
ghost use Rattle.cell_split.specs.Cells.{SplitLaw};

/// The cells' boxes lie inside the box, no two have a state in common, and each grid state of the box lies in exactly one.
pub fn split_law()
    ensures { SplitLaw }
{}
