//! The rows of tables: versions of a table that share chunks of rows, and snapshots of all tables.
#![tactic(auto)]

mod builder;
mod chunk;
mod edit;
mod item;
mod rows;
mod snap;
mod version;

pub use chunk::CHUNK_LIMIT;
pub use edit::ChangedRow;
pub use rows::Rows;
pub use snap::{Snap, StampedVersion, TABLE_LIMIT};
pub use version::TableVersion;
