// Good solutions, however they were found.
ghost use Rattle.approx_inverse.specs.Laws.{GoodEntryLaw};

/// No entry of a good solution is large: it is at most the sum of `2^(f+1)` times the column's absolute sum and of the matrix's trace,
/// divided by twice the floor.
pub fn entry_law()
    ensures { GoodEntryLaw }
{}
