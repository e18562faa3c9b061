//! The statements that change access control: labels and all that they are made of, permissions and masks, roles and authorities, and
//! what is active.
#![tactic(auto)]

mod controls;
mod grants;
mod labels;
mod security;

pub use security::change;
