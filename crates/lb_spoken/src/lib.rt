//! What every statement that a text spells keeps, as laws over the grammar.
#![tactic(auto)]

mod laws;

pub use laws::{spoken_changes_are_as_read, spoken_statements_have_days};
