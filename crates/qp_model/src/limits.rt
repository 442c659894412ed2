// The greatest sizes of a design and of a controller, by the version of its text.
ghost use Rattle.std.specs.Prelude.{◌≡◌};
ghost use Rattle.qp_model.specs.problem.Limits as limits;

/// The first version of the texts of a design and of a controller.
pub const FIRST_VERSION: u32 = 1;

/// Their last version.
pub const LAST_VERSION: u32 = 2;

/// The most states of any version.
pub const MOST_STATES: usize = 6;

/// The most inputs of a stage.
pub const MOST_INPUTS: usize = 3;

/// The most stages of any version.
pub const MOST_STAGES: usize = 30;

/// The most limit rows of any version, those of all stages and the final ones: 12 of each kind.
pub const MOST_ROWS: usize = MOST_STAGES * 12 + 12;

/// The most states of a version.
pub fn most_states(version: u32) -> usize
    ensures { result ≡ limits.most_states version }
{
    if version == FIRST_VERSION {
        4
    } else {
        MOST_STATES
    }
}

/// The most stages of a version.
pub fn most_stages(version: u32) -> usize
    ensures { result ≡ limits.most_stages version }
{
    if version == FIRST_VERSION {
        20
    } else {
        MOST_STAGES
    }
}

/// The most limit rows of a version, those of all stages and the final ones: 12 of each kind.
pub fn most_rows(version: u32) -> usize
    ensures { result ≡ limits.most_rows version }
{
    most_stages(version) * 12 + 12
}
