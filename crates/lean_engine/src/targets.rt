// The target of the violation, and its shares.
ghost use Rattle.std.specs.Prelude.{◌≡◌, pos};
ghost use Rattle.qp_model.specs.problem.Parts.{IsDesign};
ghost use Rattle.design_engine.specs.Targets.{targets_of, violation_target, step_target, rest_target, floor_target};

use qp_model::DesignParts;

/// What a design lets the violation be, over `2^40`, rounded down.
pub fn violation_target(parts: &DesignParts) -> i128
    requires { IsDesign parts.now }
    ensures { result ≡ pos (violation_target (targets_of parts.now)) }
{
    (parts.violation << 40) / parts.target_den
}

/// What the steps may leave of it: 15/16, over `2^40`, rounded down.
pub(crate) fn step_target(parts: &DesignParts) -> i128
    requires { IsDesign parts.now }
    ensures { result ≡ pos (step_target (targets_of parts.now)) }
{
    ((15 * parts.violation) << 36) / parts.target_den
}

/// What R times the errors may be of it: 1/16, over `2^40`, rounded down.
pub(crate) fn rest_target(parts: &DesignParts) -> i128
    requires { IsDesign parts.now }
    ensures { result ≡ pos (rest_target (targets_of parts.now)) }
{
    (parts.violation << 36) / parts.target_den
}

/// Over `2^16`, rounded down.
pub fn floor_target(parts: &DesignParts) -> i128
    requires { IsDesign parts.now }
    ensures { result ≡ pos (floor_target (targets_of parts.now)) }
{
    (parts.violation << 16) / parts.target_den
}
