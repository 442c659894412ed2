use mat_int::Mat;

/// The condensed form of a design: its cost and its limits as functions of the plan alone. With nu plan entries, n states and
/// m limit rows, the cost is `1/2 u'Hu + (F x + h0)'u` and a constant, and the residuals are `G u + E x - b`. The numbers are exact, or
/// midpoints that the exact ones are no further from than the radii beside them; the bounds of the rows are exact.
#[derive(Drop)]
pub struct Condensed {
    /// H, nu by nu, over `hess_den`.
    pub hess: Mat,
    /// The radii of H.
    pub hess_rad: Mat,
    /// F, nu by n, over `hess_den`.
    pub lin: Mat,
    /// The radii of F.
    pub lin_rad: Mat,
    /// h0, nu numbers over `hess_den`.
    pub off: Vec<i128>,
    /// The radii of h0.
    pub off_rad: Vec<i128>,
    /// `weight_den * cost_row_den^2 * power^2`, or `weight_den * cost_row_den^2 * 2^40` where there are radii.
    pub hess_den: i128,
    /// G, m by nu, over `row_den`.
    pub g: Mat,
    /// The radii of G.
    pub g_rad: Mat,
    /// E, m by n, over `row_den`.
    pub e: Mat,
    /// The radii of E.
    pub e_rad: Mat,
    /// b, m numbers over `row_den`.
    pub bound: Vec<i128>,
    /// `limit_den * power`, or `limit_den * 2^40` where there are radii.
    pub row_den: i128,
    /// What `limit_den * hess` bends every plan up by at least, times the squares of its entries, up to `2^126`: `2 * limit_den *
    /// cost_row_den^2 * power^2 * input_floor`; or `2 * limit_den * cost_row_den^2 * 2^40 * input_floor`, less `limit_den` times the greatest sum of a
    /// row of H's radii.
    pub floor: i128,
    /// The plant's denominator to the power of the stages, or 1 where there are radii.
    pub power: i128,
    /// What the weights are over.
    pub weight_den: i128,
    /// What the cost rows are over.
    pub cost_row_den: i128,
    /// What the limit rows are over.
    pub limit_den: i128,
    /// The least input weight, over `weight_den`.
    pub input_floor: i128,
    /// The quantity `hessian`: the absolute values of all numbers of H, F and h0 and their radii are together at most that.
    pub hess_size: i128,
    /// The quantity `rows`: the squares of all numbers of G, E and b, with their radii, are together at most that.
    pub rows_size: i128,
    /// Whether the numbers have radii.
    pub fine: bool,
}
