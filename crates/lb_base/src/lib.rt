//! Names, texts, values and lists: the plain data that every other crate speaks of.
#![tactic(auto)]

mod arithmetic;
mod compare;
mod concat;
mod day;
mod fault;
mod key;
mod list;
mod rule;
mod text;
mod truth;
mod value;

pub use arithmetic::{add_part, multiply_by};
pub use compare::{equal, less, order, values_stand_in_one_order};
pub use concat::concatenate;
pub use day::{civil, date_of};
pub use fault::Fault;
pub use key::{Key, Ty};
pub use list::Listing;
pub use rule::Rule;
pub use text::{Name, NoMemory, Str};
pub use truth::Truth;
pub use value::{Names, Parts, Row, RowList, Value};
