// The rows of a version as they are put together: chunks of another version that are shared, and rows that are copied.
ghost use Rattle.std.specs.Prelude.{◌≡◌, ◌≤◌, ◌<◌, ◌+◌, ◌++◌, ◌∷◌, ◌^◌, [], length, IfOk, OnOk};
ghost use Rattle.std.specs.Arc.{arc_value};
ghost use Rattle.lb_rows.specs.Chunks.{ArePlaced, rows_in, rows_in_chunks};
ghost use Rattle.lb_rows.specs.Edits.{AreInOrder, rows_changed_from, rows_remaining_from, place_of};

use crate::chunk::{CHUNK_LIMIT, Chunk, Chunks};
use crate::edit::{ChangedRow, change_within, has_place_within, is_at, row_after};
use lb_base::{Listing, NoMemory, Row, RowList};
use std::alloc::Global;
use std::marker::Model;
use std::mem;
use std::sync::Arc;

/// Full chunks and shared ones, and the rows after them that are no chunk yet. Contracts see the list of all rows.
/// Where a call is refused memory, the builder is of no more use.
#[derive(Drop)]
pub(crate) struct Builder {
    chunks: Chunks,
    last: RowList,
}

impl Model for Builder {
    ghost use Rattle.std.specs.Prelude.{◌≤◌, ◌++◌, List, length};
    ghost use Rattle.lb_base.specs.declared.value.Value.{Value as Cell};

    ghost Value = { List (List Cell) };

    ghost view = { λ b. b.chunks ++ b.last };

    ghost invariant = { λ b. length b.last ≤ 256 };
}

impl Builder {
    /// No rows. It takes no memory yet.
    pub(crate) fn empty(alloc: Global) -> Builder
        ensures { result ≡ [] }
    {
        Builder {
            chunks: Chunks::empty(alloc),
            last: Listing::empty(alloc),
        }
    }

    /// Puts a row at the end.
    pub(crate) fn push(&mut self, alloc: Global, row: Row) -> Result<(), NoMemory>
        requires fits { length self.old + 1 < 2 ^ 32 }
        ensures { OnOk result (self.new ≡ self.old ++ row ∷ []) }
    {
        if self.last.len() < CHUNK_LIMIT {
            return self.last.push(row);
        }
        let last = mem::replace(&mut self.last, one_row(alloc, row)?);
        self.chunks.push(Arc::new(alloc, last)?)
    }

    /// Puts the rows of a chunk at the end, which are shared.
    pub(crate) fn share(&mut self, alloc: Global, rows: &Arc<RowList>) -> Result<(), NoMemory>
        requires few { length (arc_value rows.now) ≤ CHUNK_LIMIT }
        requires fits { length self.old + length (arc_value rows.now) < 2 ^ 32 }
        ensures { OnOk result (self.new ≡ self.old ++ arc_value rows.now) }
    {
        let last = mem::replace(&mut self.last, Listing::empty(alloc));
        push_some(alloc, &mut self.chunks, last)?;
        self.chunks.push(rows.clone()?)
    }

    /// Puts copies of rows at the end.
    pub(crate) fn extend(&mut self, alloc: Global, rows: &[Row]) -> Result<(), NoMemory>
        requires fits { length self.old + length rows.now < 2 ^ 32 }
        ensures { OnOk result (self.new ≡ self.old ++ rows.now) }
    {
        for row in rows {
            self.push(alloc, row.copy(alloc)?)?;
        }
        Ok(())
    }

    /// Puts all rows of these chunks at the end, which are shared.
    pub(crate) fn share_all(&mut self, alloc: Global, chunks: &[Chunk]) -> Result<(), NoMemory>
        requires placed { ArePlaced 0 chunks.now }
        requires fits { length self.old + length (rows_in_chunks chunks.now) < 2 ^ 32 }
        ensures { OnOk result (self.new ≡ self.old ++ rows_in_chunks chunks.now) }
    {
        for chunk in chunks {
            self.share(alloc, &chunk.rows)?;
        }
        Ok(())
    }

    /// Puts copies of the rows at the end, the first of which has the given place, or their new rows where they are changed.
    pub(crate) fn extend_changed(
        &mut self,
        alloc: Global,
        first: u32,
        rows: &[Row],
        changes: &[ChangedRow],
    ) -> Result<(), NoMemory>
        requires order { AreInOrder place_of changes.now }
        requires inside { first + length rows.now < 2 ^ 32 }
        requires fits { length self.old + length rows.now < 2 ^ 32 }
        ensures { OnOk result (self.new ≡ self.old ++ rows_changed_from changes.now first rows.now) }
    {
        let mut place = first;
        for row in rows {
            self.push(alloc, row_after(alloc, changes, place, row)?)?;
            place += 1;
        }
        Ok(())
    }

    /// The rows of a chunk after the changes; they are shared where none of them is changed.
    pub(crate) fn change(
        &mut self,
        alloc: Global,
        first: u32,
        rows: &Arc<RowList>,
        changes: &[ChangedRow],
    ) -> Result<(), NoMemory>
        requires order { AreInOrder place_of changes.now }
        requires few { length (arc_value rows.now) ≤ CHUNK_LIMIT }
        requires inside { first + length (arc_value rows.now) < 2 ^ 32 }
        requires fits { length self.old + length (arc_value rows.now) < 2 ^ 32 }
        ensures { OnOk result (self.new ≡ self.old ++ rows_changed_from changes.now first (arc_value rows.now)) }
    {
        let end = first + rows.len() as u32;
        match change_within(changes, first, end) {
            Some(_) => self.extend_changed(alloc, first, rows.as_slice(), changes),
            None => self.share(alloc, rows),
        }
    }

    /// The rows of these chunks after the changes.
    pub(crate) fn change_all(
        &mut self,
        alloc: Global,
        chunks: &[Chunk],
        changes: &[ChangedRow],
    ) -> Result<(), NoMemory>
        requires order { AreInOrder place_of changes.now }
        requires placed { ArePlaced 0 chunks.now }
        requires inside { length (rows_in_chunks chunks.now) < 2 ^ 32 }
        requires fits { length self.old + length (rows_in_chunks chunks.now) < 2 ^ 32 }
        ensures { OnOk result (self.new ≡ self.old ++ rows_changed_from changes.now 0 (rows_in_chunks chunks.now)) }
    {
        for chunk in chunks {
            self.change(alloc, chunk.first, &chunk.rows, changes)?;
        }
        Ok(())
    }

    /// Puts copies of the rows at the end, the first of which has the given place, without those at the places.
    pub(crate) fn extend_left(
        &mut self,
        alloc: Global,
        first: u32,
        rows: &[Row],
        places: &[u32],
    ) -> Result<(), NoMemory>
        requires order { AreInOrder (λ place. place) places.now }
        requires inside { first + length rows.now < 2 ^ 32 }
        requires fits { length self.old + length rows.now < 2 ^ 32 }
        ensures { OnOk result (self.new ≡ self.old ++ rows_remaining_from places.now first rows.now) }
    {
        let mut place = first;
        for row in rows {
            self.leave(alloc, place, row, places)?;
            place += 1;
        }
        Ok(())
    }

    /// Puts a copy of the row at the end, unless its place is one of those.
    fn leave(
        &mut self,
        alloc: Global,
        place: u32,
        row: &Row,
        places: &[u32],
    ) -> Result<(), NoMemory>
        requires order { AreInOrder (λ place. place) places.now }
        requires inside { place + 1 < 2 ^ 32 }
        requires fits { length self.old + 1 < 2 ^ 32 }
        ensures { OnOk result (self.new ≡ self.old ++ rows_remaining_from places.now place (row.now ∷ [])) }
    {
        if is_at(places, place) {
            Ok(())
        } else {
            self.push(alloc, row.copy(alloc)?)
        }
    }

    /// The rows of a chunk without those at the places; they are shared where all of them stay.
    pub(crate) fn leave_out(
        &mut self,
        alloc: Global,
        first: u32,
        rows: &Arc<RowList>,
        places: &[u32],
    ) -> Result<(), NoMemory>
        requires order { AreInOrder (λ place. place) places.now }
        requires few { length (arc_value rows.now) ≤ CHUNK_LIMIT }
        requires inside { first + length (arc_value rows.now) < 2 ^ 32 }
        requires fits { length self.old + length (arc_value rows.now) < 2 ^ 32 }
        ensures { OnOk result (self.new ≡ self.old ++ rows_remaining_from places.now first (arc_value rows.now)) }
    {
        let end = first + rows.len() as u32;
        if has_place_within(places, first, end) {
            self.extend_left(alloc, first, rows.as_slice(), places)
        } else {
            self.share(alloc, rows)
        }
    }

    /// The rows of these chunks without those at the places.
    pub(crate) fn leave_out_all(
        &mut self,
        alloc: Global,
        chunks: &[Chunk],
        places: &[u32],
    ) -> Result<(), NoMemory>
        requires order { AreInOrder (λ place. place) places.now }
        requires placed { ArePlaced 0 chunks.now }
        requires inside { length (rows_in_chunks chunks.now) < 2 ^ 32 }
        requires fits { length self.old + length (rows_in_chunks chunks.now) < 2 ^ 32 }
        ensures { OnOk result (self.new ≡ self.old ++ rows_remaining_from places.now 0 (rows_in_chunks chunks.now)) }
    {
        for chunk in chunks {
            self.leave_out(alloc, chunk.first, &chunk.rows, places)?;
        }
        Ok(())
    }

    /// The chunks, and the rows after them, in parts.
    pub(crate) fn parts(self) -> (Chunks, RowList)
        ensures rows { result.0 ++ result.1 ≡ self }
        ensures few { length result.1 ≤ CHUNK_LIMIT }
    {
        let Builder { chunks, last } = self;
        (chunks, last)
    }

    /// All rows as chunks.
    pub(crate) fn close(self, alloc: Global) -> Result<Chunks, NoMemory>
        requires fits { length self < 2 ^ 32 }
        ensures { IfOk result (λ c. c ≡ self) }
    {
        let (mut chunks, last) = self.parts();
        push_some(alloc, &mut chunks, last)?;
        Ok(chunks)
    }
}

fn one_row(alloc: Global, row: Row) -> Result<RowList, NoMemory>
    ensures { IfOk result (λ rows. rows ≡ row ∷ []) }
{
    let mut rows = Listing::empty(alloc);
    rows.push(row)?;
    Ok(rows)
}

/// Puts the rows at the end as a chunk of their own, where there are any.
fn push_some(alloc: Global, chunks: &mut Chunks, rows: RowList) -> Result<(), NoMemory>
    requires few { length rows ≤ CHUNK_LIMIT }
    requires fits { length chunks.old + length rows < 2 ^ 32 }
    ensures ok { OnOk result (chunks.new ≡ chunks.old ++ rows) }
{
    if rows.len() == 0 {
        return Ok(());
    }
    chunks.push(Arc::new(alloc, rows)?)
}
