//! Conditions and CASE expressions with each column qualified, as permissions and masks store them.
#![tactic(auto)]

mod form;
mod leaf;
mod qualified;

pub use qualified::{qualified_condition, qualified_mask};
