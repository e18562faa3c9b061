//! The text of answers: the block that shows an answer, the line of a section, the line of a script that breaks the form, and
//! the lines of a journal.
#![tactic(auto)]

mod answer;
mod entries;
mod part;
mod refusal;
mod row;
mod word;

pub use answer::{bad_script, block, header};
pub use entries::{entry, journal};
