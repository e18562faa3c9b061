//! The statement that a text spells, or the byte at which the text goes wrong.
#![tactic(auto)]

mod laws;
mod reading;

pub use laws::{
    a_canonical_text_is_read_again, a_text_goes_wrong_at_one_byte,
    a_text_that_goes_wrong_is_no_statement, canonical_texts_tell_statements_apart,
    no_text_is_two_statements, no_tokens_spell_two_statements,
};
pub use lb_tok::ReadFault;
pub use reading::read;
