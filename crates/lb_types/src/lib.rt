//! The types of expressions, conditions and queries: the kind of each, and the first node that breaks a rule.
#![tactic(auto)]

mod conds;
mod exprs;
mod items;
mod kind;
mod node;
mod place;
mod queries;
mod stop;

pub use conds::typed;
pub use exprs::kind_of;
pub use kind::{is_label, takes};
pub use node::next;
pub use place::{GroupBy, Place, Role, shown_place};
pub use queries::{groups_of, kinds_of};
pub use stop::Stop;
