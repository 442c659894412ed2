// What a lent span leaves.
ghost use Rattle.word_region.specs.Lending.{LendingLaw};

/// What is written through `cells_mut` stands in the span afterwards, and all other words are as before.
pub fn lending_law()
    ensures { LendingLaw }
{}
