//! Whether two expressions are the same, as DISTINCT asks of the keys of ORDER BY.
#![tactic(auto)]

mod same;

pub use same::is_same_expr;
