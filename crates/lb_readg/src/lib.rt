//! GRANT and REVOKE by recursive descent, and what they share with other definitions: keywords that may be names, and names
//! of labels.
//!
//! Each function reads from the front of the tokens, and returns what it read with the tokens that are left. A refusal is
//! `Fault::Bad` with the tokens from the first one on with which nothing goes on, or `Fault::Memory`, where a copy or a list
//! found no memory.
#![tactic(auto)]

mod grant;
mod user;
mod word;

pub use grant::{granted, revoked};
pub use user::label_behind;
pub use word::{means, name_or, name_or_either, named};
