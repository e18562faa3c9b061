// Edits of rows by their places: which row is changed or left out, found by halves.
ghost use Rattle.std.specs.Prelude.{◌≡◌, ◌+◌, ◌<◌, ◌^◌, find, IfOk};
ghost use Rattle.std.specs.Option.{option_copied};
ghost use Rattle.std.specs.List.{list_any};
ghost use Rattle.lb_rows.specs.Edits.{AreInOrder, changed_row, is_one_of, place_of};
ghost use Rattle.lb_rows.specs.Within.{is_change_within, is_within};

use crate::item::item_at;
use lb_base::{NoMemory, Row};
use std::alloc::Global;

/// The new row at a place of a table, which is counted from 0.
#[derive(Drop)]
pub struct ChangedRow {
    pub place: u32,
    pub row: Row,
}

/// The first change of a row at a place from `first` on and below `end`.
pub(crate) fn change_within(changes: &[ChangedRow], first: u32, end: u32) -> Option<&ChangedRow>
    requires { AreInOrder place_of changes.now }
    ensures { option_copied result ≡ find (is_change_within first end) changes.now }
{
    let at = changes.partition_point(|change| change.place < first);
    match item_at(changes, at) {
        Some(change) => {
            if change.place < end {
                Some(change)
            } else {
                None
            }
        }
        None => None,
    }
}

/// Whether one of the places is from `first` on and below `end`.
pub(crate) fn has_place_within(places: &[u32], first: u32, end: u32) -> bool
    requires { AreInOrder (λ place. place) places.now }
    ensures { result ≡ list_any (is_within first end) places.now }
{
    let at = places.partition_point(|place| *place < first);
    match item_at(places, at) {
        Some(place) => *place < end,
        None => false,
    }
}

/// A copy of the row, or of its new row where it is changed.
pub(crate) fn row_after(
    alloc: Global,
    changes: &[ChangedRow],
    place: u32,
    row: &Row,
) -> Result<Row, NoMemory>
    requires order { AreInOrder place_of changes.now }
    requires inside { place + 1 < 2 ^ 32 }
    ensures { IfOk result (λ r. r ≡ changed_row changes.now place row.now) }
{
    match change_within(changes, place, place + 1) {
        Some(change) => change.row.copy(alloc),
        None => row.copy(alloc),
    }
}

/// Whether the row at a place is one of those.
pub(crate) fn is_at(places: &[u32], place: u32) -> bool
    requires order { AreInOrder (λ place. place) places.now }
    requires inside { place + 1 < 2 ^ 32 }
    ensures { result ≡ is_one_of places.now place }
{
    has_place_within(places, place, place + 1)
}
