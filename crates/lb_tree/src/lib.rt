//! Queries, conditions and expressions as they are written.
#![tactic(auto)]

mod copy_query;
mod query;

pub use copy_query::{copy_name, copy_names, copy_texts};
pub use query::{
    Aggregate, Arm, Atom, Chain, Choice, Column, Comparison, Cond, Direction, Expr, Function, Item,
    Join, Query, Select, Signed, SortKey, Tab,
};
