//! The statements that make, alter and drop tables, and those that grant and revoke privileges on them.
#![tactic(auto)]

mod tables;

pub use tables::change;
