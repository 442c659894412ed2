use mat_int::Mat;

/// For each coordinate of the state the upper face of the box, then the lower.
#[derive(Drop)]
pub struct Faces {
    /// The factor of each face's coordinate.
    pub kappa: Vec<i128>,
    /// A row of weights for each face, one for each first row of the design.
    pub weights: Mat,
}
