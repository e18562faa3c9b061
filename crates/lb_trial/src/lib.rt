//! A catalogue that goes on from change to change, as it does under a journal: for programs that try changes or time them.
#![tactic(auto)]

mod fault;
mod trial;

pub use fault::Fault;
pub use trial::Trial;
