//! The statements that make row permissions and column masks.
#![tactic(auto)]

mod mask;
mod permission;
mod refused;
mod taken;

pub use mask::create_mask;
pub use permission::create_permission;
