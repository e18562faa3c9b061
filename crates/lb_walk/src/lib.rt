//! Walks over queries, conditions and expressions that answer yes or no: whether there is an aggregate or arithmetic, and
//! whether all columns belong to one query.
#![tactic(auto)]

mod own;
mod sures;
mod totals;

pub use own::{names_own_columns, table_joined};
pub use sures::{cond_is_sure, expr_is_sure};
pub use totals::{cond_has_total, expr_has_total};
