//! Definitions, the statements that change the catalogue, by recursive descent, with the offset of the first token that
//! cannot go on.
#![tactic(auto)]

mod alter;
mod change;
mod control;
mod label;
mod laws;
mod parse;
mod parts;
mod table;
mod types;

pub use laws::{defining_is_exact, first_token_decides, no_tokens_have_two_definitions};
pub use parse::definition;
