//! What stored conditions mention: the first permission or mask that reads a table, and whether one calls a policy or a label.
#![tactic(auto)]

mod query;
mod sought;
mod stored;

pub use stored::{calls_label, calls_policy, user_of_table};
