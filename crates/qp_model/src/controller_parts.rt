use mat_int::Mat;

/// The numbers of a controller, of any shapes and sizes. With `nu = p * stages` plan entries:
#[derive(Drop)]
pub struct ControllerParts {
    /// The version of its text, 1 or 2. In version 1 each row has the step exponent `s`.
    pub version: u32,
    /// States.
    pub n: usize,
    /// Inputs of a stage.
    pub p: usize,
    /// Stages of the horizon.
    pub stages: usize,
    /// Constraint rows in all.
    pub m: usize,
    /// Fraction bits: plans are over `2^f`.
    pub f: u32,
    /// Grid bits: states are over `2^g`.
    pub g: u32,
    /// The greatest step exponent: gains are multiplied with multipliers over `2^(f+s)`.
    pub s: u32,
    /// The width of a word, in bits.
    pub w: u32,
    /// Steps of a run.
    pub steps: u32,
    /// The greatest multiplier of any row, over `2^(f+s)`.
    pub clamp: i128,
    /// Words of memory that a run needs.
    pub words: usize,
    /// The step exponents of the m rows, each at most `s`: multiplier `i` is over `2^(f + exps[i])`.
    pub exps: Vec<u32>,
    /// The least state of the box, over `2^g`.
    pub lo: Vec<i128>,
    /// The greatest state of the box, over `2^g`.
    pub hi: Vec<i128>,
    /// P, nu by n, over `2^f`.
    pub p_mat: Mat,
    /// T, nu numbers over `2^f`.
    pub t: Vec<i128>,
    /// W, nu by m, over `2^f`.
    pub w_mat: Mat,
    /// G, m by nu, over `2^f`.
    pub g_mat: Mat,
    /// E, m by n, over `2^f`.
    pub e_mat: Mat,
    /// b, m numbers over `2^f`.
    pub bound: Vec<i128>,
}
