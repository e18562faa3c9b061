//! The first refusal for names of a query, a write, a permission or a mask, over a catalogue.
#![tactic(auto)]

mod mark;
mod query;
mod refused;
mod source;
mod statement;
mod stop;
mod target;

pub use refused::{mask_names_refused, names_refused, permission_names_refused};
pub use source::{condition_source, value_source};
