// A token, its span, and the tokens of a whole text.
use crate::Kind;
use lb_base::{Listing, Name, Str};

/// What a token says beyond its kind.
#[derive(Debug, Drop)]
pub enum Content {
    /// Nothing: a symbol.
    Nothing,
    /// A name or keyword, in upper case.
    Word(Name),
    /// The value of a numeral, from 0 to 2^63.
    Number(u64),
    /// The bytes of a text between its quotes, with each doubled quote once.
    Text(Str),
}

/// A token of a statement.
#[derive(Debug, Drop)]
pub struct Token {
    pub kind: Kind,
    pub content: Content,
}

/// Where a token stands in its text.
#[derive(Clone, Copy, Debug, PartialEq, Eq)]
pub struct Span {
    /// The offset of its first byte.
    pub from: u32,
    /// The offset after its last byte.
    pub to: u32,
}

/// The tokens of a text before the first byte that begins no token.
#[derive(Debug, Drop)]
pub struct Tokens {
    pub tokens: Listing<Token>,
    /// The span of each token, in the same order.
    pub spans: Listing<Span>,
    /// The offset of the first byte that begins no token, where there is one.
    pub stop: Option<u32>,
    /// The length of the text in bytes.
    pub length: u32,
}
