//! The outside of the programs: where bytes come from and go to, what gives the day, and how a
//! whole run ended.
#![tactic(auto)]

mod day_clock;
mod memory;
mod outside;
mod status;
mod std_ends;
mod transfer;

pub use day_clock::DayClock;
pub use memory::{MemClock, MemSink, MemSource};
pub use outside::{Clock, Failed, Sink, Source};
pub use status::Status;
pub use std_ends::{StdSink, StdSource};
pub use transfer::{InputFault, MOST_INPUT_BYTES, put_all, read_all};
