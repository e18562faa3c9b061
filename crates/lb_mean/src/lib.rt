//! What queries mean: evaluation, visible rows, masks, the refusals of a query and its answer, as definitions and laws.
#![tactic(auto)]

mod laws;

pub use laws::{
    catalogues_answer_queries_alike, meaning_has_a_frame, queries_have_a_frame,
    sessions_answer_queries_alike, stable_sort_is_sorted, two_worlds_answer_alike,
};
