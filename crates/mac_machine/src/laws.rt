// What a controller's listing does.
ghost use Rattle.mac_machine.specs.Laws.{ListingLaw};

/// The listing of a controller, run from a state of its box, makes after each step the words of the controller's machine, and no value that an
/// instruction meets leaves the controller's width. What it puts out in the end is the line of the averaged plan.
pub fn listing_law()
    ensures { ListingLaw }
{}
