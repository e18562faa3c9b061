//! What a journal means: catalogue, rows, the row-by-row reference, replay, and what is told of a run.
#![tactic(auto)]

mod catalog;
mod laws;

pub use catalog::{ColumnRec, PermissionRec, TableRec, TableVersion};
pub use laws::{journal_has_a_replay, root_stays, statement_has_a_reply};
