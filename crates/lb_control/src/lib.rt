//! Row permissions and column masks: enabled, disabled and dropped over a catalogue.
#![tactic(auto)]

mod kind;
mod mask;
mod permission;
mod stands;
mod switch;

pub use kind::ControlKind;
pub use mask::{drop_mask, switch_mask};
pub use permission::{drop_permission, switch_permission};
pub use switch::is_enabled;
