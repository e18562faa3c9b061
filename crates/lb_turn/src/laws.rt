//! A law of the rule, as the contract of a call, so that it is proved: what the count of parts means in live views.
ghost use Rattle.lb_turn.specs.Laws.{LiveViews};

use crate::standing::Standing;

/// Ties the parts that the rule counts to live views: beside the chief's view there are as many live views as the
/// chief's number says, at most 64. It does nothing when it runs.
pub fn live_views<S: Standing>()
    ensures { LiveViews S.history S.root S.number }
{}
