//! The book: one journal, with the catalogue and the rows that it leaves.
#![tactic(auto)]

mod asking;
mod book;
mod changing;
mod entering;
mod taken;
mod versions;
mod writing;

pub use asking::{Asking, Over, outcome};
pub use book::{Book, ReserveFault};
pub use taken::{Begun, Prepared};
