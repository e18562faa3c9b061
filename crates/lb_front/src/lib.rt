//! The top calls: from bytes to bytes.
#![tactic(auto)]

mod book;
mod output;
mod run;
mod section;
mod stop;

pub use run::{run_alone, run_within};
