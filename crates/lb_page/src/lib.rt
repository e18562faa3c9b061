//! The page on which a text is laid out piece by piece, and the queries, conditions and expressions on it. The only error
//! is out of memory.
#![tactic(auto)]

mod condition;
mod day;
mod expression;
mod list;
mod page;
mod query;
mod word;

pub use condition::cond;
pub use day::push_date;
pub use expression::{expr, exprs};
pub use list::{names, separator, tab, texts};
pub use page::{Page, push_quoted};
pub use query::select;
