//! The tokens of a text, and the grammar of statements.
#![tactic(auto)]

mod call;
mod kind;
mod laws;
mod lex;
mod token;

pub use call::Call;
pub use kind::Kind;
pub use laws::{canonical_text_spells_its_statement, no_text_has_two_token_lists};
pub use lex::{MOST_STATEMENT_BYTES, ReadFault, tokens};
pub use token::{Content, Span, Token, Tokens};
