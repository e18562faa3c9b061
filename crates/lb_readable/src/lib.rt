//! Statements whose canonical texts can be read again.
#![tactic(auto)]

mod reading;
mod statement;

pub use lb_read::ReadFault;
pub use reading::{read_back, readable};
pub use statement::Readable;
