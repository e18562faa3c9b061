//! Names and types: what a statement names, what its names mean, and the kinds of its expressions.
#![tactic(auto)]

mod laws;
mod place;
mod refused;

pub use laws::{
    columns_stay, forms_are_qualified, forms_have_a_frame, forms_keep_mentions, forms_keep_names,
    forms_keep_types, mentions_are_marked, mentions_are_there, names_have_a_frame,
    names_outlast_columns, types_have_a_frame, types_outlast_columns, typing_carries_marks,
    worked_names,
};
pub use place::{Group, Seen, Spot};
pub use refused::Refused;
