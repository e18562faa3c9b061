//! Loops over the records of a catalogue that several statements share: the first table or user that passes a test, and a change of all
//! users whom a statement touches.
#![tactic(auto)]

mod table;
mod user;
mod users;

pub use table::{TableTest, alters_table, first_table, no_table_uses};
pub use user::{UserTest, first_user, no_user_uses};
pub use users::{UserChange, with_user_keys, with_users_changed};
