//! Pieces of scripts and tokens of statements agree: `lb_split` and `lb_tok` each say what quotes, comments and white space
//! are, and these laws tie the two, so that what is proved of the one may be used of the other.
#![tactic(auto)]

mod laws;

pub use laws::{
    a_blank_statement_has_no_tokens, a_statement_that_is_read_is_cut_nowhere,
    pieces_and_tokens_agree, quit_is_its_one_token, the_first_token_stands_after_the_gap,
};
