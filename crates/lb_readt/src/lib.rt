//! Names, texts, numbers and columns, and lists of them, read from the front of a list of tokens.
//!
//! A reader is given the tokens that are left. It answers what it read and the tokens after that, or a [`Fault`]: `Bad`
//! with the tokens from the first on with which no statement goes on, `Deep` with the tokens from the opener of one bracket
//! too many on, or `Memory`. It looks at one token beyond what it read. Its contract is the reader of `specs/Tokens` that
//! stands for the same production of the grammar, or what `specs/Readers` makes of it.
#![tactic(auto)]

mod fault;
mod list;
mod next;
mod qualified;

pub use fault::{Fault, Read};
pub use list::{flag, further, listed, many, names, noise, texts, with_first};
pub use next::{
    comparison, count, day, int, name, negative, next_is, next_is_comparison, next_is_either,
    next_is_name, take, take_if, text, word,
};
pub use qualified::{column, columns};
