// What a controller that is made leanly promises, and that a refusal has one cause.
ghost use Rattle.lean_engine.specs.Lean.{LeanLaw};
ghost use Rattle.lean_engine.specs.Order.{LeanCausesLaw, LeanPassingLaw};

/// A controller that is made leanly keeps the whole promise of the bounds that are printed of it, at every state of the box; and these meet the targets.
pub fn lean_law()
    ensures { LeanLaw }
{}

/// A design with a policy and reference plans has at most one refusal with a cause, and none where it passes every test.
pub fn causes_law()
    ensures one { LeanCausesLaw }
    ensures none { LeanPassingLaw }
{}
