//! What writes and statements are answered: candidates, the checks of each row, keys, and the rows that are left, as
//! definitions and laws.
#![tactic(auto)]

mod laws;

pub use laws::{
    candidates_are_kept_rows, catalogues_answer_statements_alike, deleting_keeps_keys,
    keys_are_doubled, new_rows_fit, others_stay, rows_are_left_by_writes,
    sessions_answer_statements_alike, statements_have_a_frame,
};
