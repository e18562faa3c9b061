//! Expressions and conditions, read from the front of a list of tokens by recursive descent.
//!
//! A reader answers what it read and the tokens after that, or a fault, as those of `lb_readt` do, on which it stands. Its
//! contract is the reader of `specs/Expressions` that stands for the same production of the grammar. What stands in a
//! bracket is read through [`Brackets`], so that no function of this crate leads back to itself.
#![tactic(auto)]

mod atom;
mod brackets;
mod condition;
mod expression;
mod inside;

pub use atom::column_of;
pub use brackets::Brackets;
pub use condition::{cond, mixed};
pub use expression::{called, case, expr, exprs, in_parens, literal, rest_on};
pub use inside::{Inside, Mixed, Wanted};
