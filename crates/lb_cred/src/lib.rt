//! What a session of a user with groups may do, read off the catalogue.
#![tactic(auto)]

mod held;
mod session;

pub use session::credentials;
