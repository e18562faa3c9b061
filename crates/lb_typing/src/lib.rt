//! The types of statements: whether a query or a write, or the condition of a permission or mask, has a node that breaks a rule.
#![tactic(auto)]

mod insert;
mod orders;
mod place;
mod statements;
mod stored;
mod told;

pub use statements::types_refused;
pub use stored::{mask_types_refused, permission_types_refused};
