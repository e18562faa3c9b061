//! What a statement that changes the catalogue leaves, made or refused: as the definitions say, and sound.
#![tactic(auto)]

mod leaving;

pub use leaving::{changes_tables, settled};
