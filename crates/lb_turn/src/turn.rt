//! The turn itself: a table of three words and a slot, which threads share by reference.
ghost use Rattle.std.specs.Prelude.{◌≡◌};

use crate::rule::{Ruled, View};
use crate::standing::Standing;
use atomic_table::Table;
use std::alloc::Global;
use std::snapshot::Snapshot;

/// One state, under which a history grows, and which threads hold in turn.
#[derive(Drop)]
pub struct Turn<S: Standing> {
    pub(crate) table: Table<Option<S>, View<S::Entry>, Snapshot<S>, Ruled<S>, Global>,
    ghost shape: { (table.shared.table_id.words ≡ 3) × (table.shared.table_id.slots ≡ 1) },
}
