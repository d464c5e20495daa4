//! What holds of growing, for crates that depend on this one.

ghost use Rattle.cpa_slack.specs.Laws.{LessHolds, LongerKeepsRules, SlackExists, SlackIsOne};

/// A system in which a task may take longer is a system, and so has a least solution. What holds with
/// more time holds with less. A task has exactly one slack.
pub fn slack_has_laws()
    ensures rules { LongerKeepsRules }
    ensures less { LessHolds }
    ensures some { SlackExists }
    ensures one { SlackIsOne }
{}
