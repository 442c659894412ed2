// What a controller that is made for a design promises, why its bounds meet the design's targets, and that a refusal has one cause.
ghost use Rattle.design_engine.specs.Agreement.{AgreementLaw};
ghost use Rattle.design_engine.specs.Order.{CausesLaw, PassingLaw};
ghost use Rattle.design_engine.specs.Promise.{CertifiedLaw, TargetsLaw};
ghost use Rattle.design_engine.specs.Threshold.{CoverLaw, MadeAboveLaw, RepairsLaw, ThresholdCertifiedLaw, ThresholdTargetsLaw};

/// A controller whose numbers are derived from a form of a design with the margin of a policy, and whose errors at each grid state and step
/// are at most those that its bounds count, keeps the whole promise of these bounds, at every state of the box.
pub fn certified_law()
    ensures { CertifiedLaw }
{}

/// Where the steps are those that half of the violation's target asks for, and the errors cost at most the other half and the gap's target,
/// the printed violation and gap are at most the targets. This is the rule of `generate`; that of `lean` has `threshold_law`.
pub fn targets_law()
    ensures { TargetsLaw }
{}

/// The same where a repair's cost is known only of plans that exceed some row by more than a threshold: the greatest violation is the threshold or
/// what steps and errors leave, whichever is more, and a row has half of that and its own share. So where these leave no more than the threshold, the
/// bounds by it are kept; and they meet the targets where the threshold is the violation's, and steps and errors have a share of it each.
pub fn threshold_law()
    ensures cover { CoverLaw }
    ensures repairs { RepairsLaw }
    ensures certified { ThresholdCertifiedLaw }
    ensures targets { ThresholdTargetsLaw }
    ensures made { MadeAboveLaw }
{}

/// Two controllers that are built for one design and policy are the same but for their gains and their width. So are their bounds, but for the
/// width, the violation, the gap and the undercut. The width and these three are functions of the gains.
pub fn agreement_law()
    ensures { AgreementLaw }
{}

/// A design with a policy has at most one refusal with a cause, and none where it passes every test.
pub fn causes_law()
    ensures one { CausesLaw }
    ensures none { PassingLaw }
{}
