//! Security label components, security policies and security labels, made and dropped over a catalogue.
#![tactic(auto)]

mod component;
mod dropping;
mod elements;
mod fitting;
mod label;
mod left;
mod numbers;
mod policy;
mod stops;
mod used;

pub use component::{create_component, drop_component};
pub use dropping::drop_policy;
pub use label::{create_label, drop_label};
pub use policy::create_policy;
