// How long a listing is.
ghost use Rattle.mac_listing.specs.Count.{LengthLaw};
ghost use Rattle.mac_listing.specs.Laws.{HasOneListing, ListingHasNoPrefix, AreLines};

/// With `nu` plan entries, `n` states and `m` rows a step has `nu * (n + 2m + 9) + m * (n + 7)` instructions, less the products whose constant is 0,
/// which are left out.
pub fn length_law()
    ensures { LengthLaw }
{}

/// A listing text is the text of one listing alone.
pub fn one_listing_law()
    ensures { HasOneListing }
{}

/// No listing text is a proper prefix of another.
pub fn listing_prefix_law()
    ensures { ListingHasNoPrefix }
{}

/// The texts of listings are those of a grammar of lines.
pub fn grammar_law()
    ensures { AreLines }
{}
