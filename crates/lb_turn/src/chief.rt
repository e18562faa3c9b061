//! The chief of a turn, who hands passes out and takes them back.
ghost use Rattle.std.specs.Prelude.{◌≡◌};
ghost use types.Logic.{sem};
ghost use Rattle.lb_turn.specs.Lending.{lends_pass};
ghost use Rattle.lb_turn.specs.Passes.{pass_of};

use crate::pass::Pass;

/// The most passes that may be live beside the chief's own.
pub(crate) const SEATS: u64 = 64;

/// Why no pass was split.
#[derive(Clone, Copy, Debug, PartialEq, Eq)]
pub enum SplitFault {
    /// As many passes are live as there may be, which is the number.
    SeatsFull(u64),
}

/// One pass, and how many were split from it and not joined again.
#[derive(Drop)]
pub struct Chief<N> {
    pub(crate) pass: Pass<N>,
    pub(crate) passes: u64,
}

impl<N> Chief<N> {
    /// The chief's own pass. Later calls with the chief ask that this pass is in it still.
    pub fn pass(&mut self) -> &mut Pass<N>
        ensures* writes_back { sem 𝓛 (lends_pass N.row self.entry result) }
        ensures value { result.now ≡ pass_of self.old }
    {
        &mut self.pass
    }
}
