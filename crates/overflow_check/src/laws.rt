// What the absolute sums promise of a run.
ghost use Rattle.overflow_check.specs.Laws.{ValuesLaw};
ghost use Rattle.overflow_check.specs.SubSums.{SubSumsLaw};

/// No value that a controller's machine meets in a run from a state of its box leaves the controller's width: no product,
/// no partial sum, nothing before or after a floor, and no sum of the run.
pub fn values_law()
    ensures { ValuesLaw }
{}

/// In a run from a state of its box the sum of any terms of a plan entry or of a row is at most its absolute sum: so the terms may be added in any order, with
/// parts that are made once a run and with two terms taken together, and no such sum leaves the controller's width.
pub fn sub_sums_law()
    ensures { SubSumsLaw }
{}
