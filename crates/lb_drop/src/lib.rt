//! DROP TABLE: a table goes, with its rows and all privileges on it.
#![tactic(auto)]

mod dropping;
mod grants;

pub use dropping::drop_table;
