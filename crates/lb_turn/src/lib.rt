//! A ticket turn over one value, whose history grows by one entry at a time.
//!
//! Threads share a [`Turn`] by reference, each with a [`Pass`] of its own. [`Turn::hold`] waits for the pass's turn
//! and lends the value; [`Held::record`] tells that the value's history has one entry more, and [`Held::give_back`]
//! passes the turn on. A [`Chief`] hands passes out and takes them back.
#![tactic(auto)]

mod chief;
mod held;
mod laws;
mod pass;
mod rule;
mod seats;
mod standing;
mod steps;
mod turn;

pub use chief::{Chief, SplitFault};
pub use held::Held;
pub use laws::live_views;
pub use pass::Pass;
pub use standing::Standing;
pub use turn::Turn;
