use mat_int::Mat;

/// The numbers of a design, of any shapes and sizes: the plant `x+ = (a x + b u) / plant_den`, the cost's rows and weights, the
/// limits' rows, the box of initial states and the targets.
#[derive(Drop)]
pub struct DesignParts {
    /// The version of its text, 1 or 2.
    pub version: u32,
    /// n, the states.
    pub states: usize,
    /// p, the inputs of a stage.
    pub inputs: usize,
    /// N, the stages of the horizon.
    pub stages: usize,
    pub plant_den: i128,
    /// n by n, over `plant_den`.
    pub a: Mat,
    /// n by p, over `plant_den`.
    pub b: Mat,
    /// What the weights are over.
    pub cost_den: i128,
    /// What the cost rows are over.
    pub row_den: i128,
    /// p weights of the inputs, over `cost_den`.
    pub input_weights: Vec<i128>,
    /// Rows of n coefficients, a target and a weight, counted at each of the states of stages 1 to N.
    pub stage_cost: Mat,
    /// The same, counted at stage N alone.
    pub final_cost: Mat,
    /// What the limit rows are over.
    pub limit_den: i128,
    /// Rows of n coefficients of the state, p of the input, and a bound, kept at each of the stages 0 to N - 1.
    pub stage_rows: Mat,
    /// Rows of n coefficients of the state and a bound, kept at stage N.
    pub final_rows: Mat,
    /// g: initial states are over `2^g`.
    pub grid: u32,
    /// n numbers over `2^g`.
    pub lo: Vec<i128>,
    /// n numbers over `2^g`.
    pub hi: Vec<i128>,
    /// What the targets are over.
    pub target_den: i128,
    /// How far a constraint may be exceeded, over `target_den`.
    pub violation: i128,
    /// How much more a plan may cost than the best, over `target_den`.
    pub gap: i128,
}
