//! What a journal means: what stands after each entry, the reply at each place, what sessions are told of it, and what an
//! engine promises.
#![tactic(auto)]

mod engine;
mod laws;

pub use engine::{Engine, Outcome};
pub use laws::{
    a_journal_has_one_replay, a_journal_leaves_a_state, a_statement_has_a_reply, answers_stay,
    right_plans_last, root_stays, stamps_are_last_touches, stamps_tell, stored_rules_are_steady,
    write_dependencies_last, written_again,
};
