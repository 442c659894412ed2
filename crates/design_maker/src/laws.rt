// What the texts of made designs are, as the contract of a function with nothing to do.
ghost use Rattle.design_maker.specs.MadeLaw.{MadeLaw};

/// The design text of every number and 1 to 20 stages is that of each design with the made numbers, the policy text that of plans for it, and the
/// states text that of states in its box.
pub fn made_law()
    ensures { MadeLaw }
{}
