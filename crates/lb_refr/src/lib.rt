//! The plain reference: runs each statement row by row over the catalogue and the rows that it owns.
#![tactic(auto)]

mod change;
mod condition;
mod find;
mod insert;
mod limits;
mod permission;
mod query;
mod refused;
mod small;
mod store;

pub use insert::given_rows;
pub use store::Store;
