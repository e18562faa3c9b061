//! Queries and writes, read from their tokens by recursive descent.
//!
//! [`query_or_write`] answers the statement, or the offset of the first token with which no statement goes on. The contract of each
//! reader is the reader of `specs/Queries` that stands for the same production of the grammar. What stands in a bracket is
//! read by `level`, the one function that leads back to itself, once for each bracket that is open, at most 64 times.
#![tactic(auto)]

mod clause;
mod item;
mod laws;
mod level;
mod opener;
mod parse;
mod reader;
mod select_statement;
mod table;
mod write;

pub use laws::{no_tokens_spell_two_queries_or_writes, reading_is_exact};
pub use opener::open;
pub use parse::{MOST_BRACKETS, at_end, offset, query_or_write, unless_cut};
pub use reader::{case, cond, select};
pub use table::tab;
