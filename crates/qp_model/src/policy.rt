use mat_int::Mat;

/// One plan for each corner of the box, in the corners' order.
#[derive(Drop)]
pub struct Policy {
    /// What each corner's plan is over.
    pub dens: Vec<i128>,
    /// The plans' numerators, a row of nu numbers for each corner.
    pub plans: Mat,
}
