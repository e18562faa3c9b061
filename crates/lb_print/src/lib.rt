//! The printer: the canonical text of a statement.
#![tactic(auto)]

mod access;
mod change;
mod grant;
mod keyword;
mod label;
mod statement;
mod table;
mod word;
mod write;

pub use statement::canonical;
