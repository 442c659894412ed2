/// What the policy shows at the corners of the box.
#[derive(Clone, Copy, PartialEq, Eq)]
pub struct Margin {
    /// The least slack of all corners and rows in units of `2^-16`, rounded down.
    pub units: i128,
    /// The greatest cost of all corners, rounded up to a whole number.
    pub cost: i128,
}

/// What a report prints of a controller.
#[derive(Drop)]
pub struct Bounds {
    /// The version of the design's and the controller's text, 1 or 2.
    pub version: u32,
    /// The corners' least slack, over `2^16`.
    pub margin: i128,
    /// Whether it is made leanly: by how much more than the best the corners' plans cost at most, in place of their cost.
    pub lean: bool,
    /// The corners' greatest cost; made leanly, the greatest excess of their plans, over `2^16`.
    pub cost: i128,
    /// R: half the greatest multiplier.
    pub multiplier: i128,
    /// s: a step is at least `2^-s`.
    pub step: u32,
    /// K, the steps of a run.
    pub steps: u32,
    /// f, the fraction bits.
    pub bits: u32,
    /// w, the width of a word in bits.
    pub width: u32,
    /// The words of memory that a run needs.
    pub words: usize,
    /// By how much a plan exceeds a constraint at most, over `2^40`.
    pub violation: i128,
    /// By how much it exceeds each of the m constraints at most, over `2^40`: in version 1 the same for all, in version 2 less for a row with a
    /// smaller step exponent.
    pub rows: Vec<i128>,
    /// How much more than any feasible plan it costs at most, over `2^40`.
    pub gap: i128,
    /// How much more than it some feasible plan costs at most, over `2^40`.
    pub undercut: i128,
}
