//! The statements that change tables: CREATE TABLE, and ALTER TABLE with its columns, policy and access control.
#![tactic(auto)]

mod alter;
mod columns;
mod control;
mod create;
mod elements;
mod flaws;
mod made;
mod nulls;
mod secured;
mod types;

pub use alter::{add_column, add_policy, secure_column, unsecure_column};
pub use control::activate;
pub use create::create_table;
