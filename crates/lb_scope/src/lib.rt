//! What is in sight where a name stands, and what it means there, looked up in a catalogue.
#![tactic(auto)]

mod column;
mod from;
mod kind;
mod policy;
mod sight;
mod sort;

pub use column::{
    Meaning, column_named, columns_in, columns_of, has_column, has_table, is_same_column, resolve,
};
pub use from::{calls, correlation, table_of, tables, tables_of_chain};
pub use kind::{Kind, kind_of};
pub use policy::{has_label, has_policy, label_fault};
pub use sight::Sight;
pub use sort::{meant, position};
