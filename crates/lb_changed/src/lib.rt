//! What all changes of the catalogue have in common: who may, what is there, and what a change leaves.
#![tactic(auto)]

mod changed;
mod lists;
mod may;
mod put;
mod stop;

pub use changed::{Changed, alters, alters_policy, done, one_key, settled};
pub use lists::{Entry, entry_of, with_entry, without};
pub use may::{label_of, owner, secadm, the_label, the_policy, the_table};
pub use put::{with_component, with_policy, with_role, with_table, with_user, without_role};
pub use stop::{Stop, bad_table, exists, in_use, limit, needs_control, unknown};
