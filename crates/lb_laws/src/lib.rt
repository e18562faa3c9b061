//! Laws over the meaning of a journal that rest on the reader's: no text is two statements.
#![tactic(auto)]

mod laws;

pub use laws::{
    journal_has_one_replay, place_has_one_reply, script_has_one_journal,
    whole_journal_has_one_replay,
};
