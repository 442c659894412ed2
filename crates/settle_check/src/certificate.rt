// A certificate that loops settle.
/// A box of states: a number for each coordinate, over `2^grid`.
#[derive(Drop)]
pub struct StateBox {
    pub low: Vec<i128>,
    pub high: Vec<i128>,
}

/// Where loops start, where no multiplier moves, and where loops settle: after `turns` turns from the start box, and after `back` turns again. Where `after`
/// isn't 0, so many turns from where no multiplier moves show how far the rows of the cost lie from 0.
#[derive(Drop)]
pub struct CertificateParts {
    pub turns: u32,
    pub after: u32,
    pub back: u32,
    pub start: StateBox,
    pub still: StateBox,
    pub rest: StateBox,
}

/// Where loops lie from the certificate's turn on, and where so many turns after others rows of the cost do, those that are told: over `2^grid`, and over
/// `row_den` too.
#[derive(Drop)]
pub struct Settled {
    pub rest: StateBox,
    pub costs: StateBox,
}
