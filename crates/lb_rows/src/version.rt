// The rows of one table at one time, and the versions that come of them by an INSERT, an UPDATE or a DELETE.
ghost use Rattle.std.specs.Prelude.{◌≡◌, ◌≤◌, ◌<◌, ◌+◌, ◌++◌, ◌^◌, [], length, IfOk, slice_get};
ghost use Rattle.std.specs.Option.{option_copied};
ghost use Rattle.std.specs.Arc.{arc_value};
ghost use Rattle.lb_rows.specs.Runs.{IsRun};
ghost use Rattle.lb_rows.specs.Edits.{AreInOrder, rows_changed, rows_changed_from, rows_remaining, rows_remaining_from, place_of};

use crate::builder::Builder;
use crate::chunk::{CHUNK_LIMIT, Chunks, rest_of, run_from};
use crate::edit::{ChangedRow, change_within, has_place_within};
use crate::rows::Rows;
use lb_base::{Listing, Name, NoMemory, Row, RowList};
use std::alloc::Global;
use std::marker::Model;
use std::sync::Arc;

/// The rows of a table, which it names, in table order, fewer than 2^32. They stand in chunks of at most 256 rows, which
/// the versions of a table share. Contracts see the name and the list of the rows.
#[derive(Drop)]
pub struct TableVersion {
    name: Name,
    front: Arc<Chunks>,
    last: Arc<RowList>,
}

impl Model for TableVersion {
    ghost use Rattle.std.specs.Prelude.{◌≤◌, ◌<◌, ◌+◌, ◌++◌, ◌^◌, length};
    ghost use Rattle.std.specs.Arc.{arc_value};
    ghost use Rattle.lb_rows.specs.Tables.{Version};

    ghost Value = { Version };

    ghost view = { λ t. record { name = t.name; rows = arc_value t.front ++ arc_value t.last } };

    ghost invariant = { λ t. (length (arc_value t.last) ≤ 256) × (length (arc_value t.front) + length (arc_value t.last) < 2 ^ 32) };
}

impl TableVersion {
    /// The table without rows.
    pub fn empty(alloc: Global, name: &Name) -> Result<Arc<TableVersion>, NoMemory>
        ensures { IfOk result (λ v. arc_value v ≡ record { name = name.now; rows = [] }) }
    {
        finish(alloc, name, Builder::empty(alloc))
    }

    /// The name of the table.
    pub fn name(&self) -> &Name
        ensures { result.now ≡ self.now.name }
    {
        &self.name
    }

    /// How many rows there are.
    pub fn len(&self) -> u32
        ensures { result ≡ length self.now.rows }
    {
        self.front.len() + self.last.len() as u32
    }

    /// The row at a place, counted from 0. None exactly past the last row. Its chunk is found by halves.
    pub fn row(&self, place: u32) -> Option<&Row>
        ensures { option_copied result ≡ slice_get self.now.rows place }
    {
        self.rows_from(place).first()
    }

    /// Rows from a place on, as far as they stand in one chunk: at most 256, and none exactly past the last row. A scan that
    /// goes on after each run looks for each chunk once.
    pub fn rows_from(&self, place: u32) -> &[Row]
        ensures { IsRun self.now.rows place result.now }
    {
        let front = self.front.len();
        if place < front {
            run_from(self.front.as_slice(), place)
        } else {
            rest_of(self.last.as_slice(), (place - front) as usize)
        }
    }

    /// Goes over the rows in table order, chunk after chunk.
    pub fn iter(&self) -> Rows<'_>
        ensures { result ≡ self.now.rows }
    {
        Rows::of(self)
    }

    /// The table with these rows in place of its own.
    pub fn with_rows(&self, alloc: Global, rows: RowList) -> Result<Arc<TableVersion>, NoMemory>
        requires fits { length rows < 2 ^ 32 }
        ensures { IfOk result (λ v. arc_value v ≡ record { name = self.now.name; rows = rows }) }
    {
        let mut builder = Builder::empty(alloc);
        builder.extend(alloc, rows.as_slice())?;
        finish(alloc, &self.name, builder)
    }

    /// The table with these rows after its own (INSERT statement). All chunks are shared but the last one, whose rows are
    /// copied where it has room for more.
    pub fn with_appended(&self, alloc: Global, rows: RowList) -> Result<Arc<TableVersion>, NoMemory>
        requires fits { length self.now.rows + length rows < 2 ^ 32 }
        ensures { IfOk result (λ v. arc_value v ≡ record { name = self.now.name; rows = self.now.rows ++ rows }) }
    {
        if self.last.len() + rows.len() <= CHUNK_LIMIT {
            let mut last = self.last.copy(alloc)?;
            last.append(rows)?;
            return made(
                alloc,
                &self.name,
                self.front.clone()?,
                Arc::new(alloc, last)?,
            );
        }
        let mut builder = self.reopened(alloc)?;
        builder.extend(alloc, rows.as_slice())?;
        finish(alloc, &self.name, builder)
    }

    /// The rows to go on with. All chunks are shared but the last one, unless it is full.
    fn reopened(&self, alloc: Global) -> Result<Builder, NoMemory>
        ensures { IfOk result (λ b. b ≡ self.now.rows) }
    {
        let mut builder = Builder::empty(alloc);
        builder.share_all(alloc, self.front.as_slice())?;
        if self.last.len() == CHUNK_LIMIT {
            builder.share(alloc, &self.last)?;
            return Ok(builder);
        }
        builder.extend(alloc, self.last.as_slice())?;
        Ok(builder)
    }

    /// The table after changes of some rows, which get new ones (UPDATE statement). The changes come in the order of their
    /// places; where two have one place the first counts, and one past the last row changes nothing. Chunks without a change
    /// are shared.
    pub fn with_changed(
        &self,
        alloc: Global,
        changes: &[ChangedRow],
    ) -> Result<Arc<TableVersion>, NoMemory>
        requires { AreInOrder place_of changes.now }
        ensures { IfOk result (λ v. arc_value v ≡ record { name = self.now.name; rows = rows_changed changes.now self.now.rows }) }
    {
        let mut builder = Builder::empty(alloc);
        builder.change_all(alloc, self.front.as_slice(), changes)?;
        finish_changed(
            alloc,
            &self.name,
            builder,
            self.front.len(),
            &self.last,
            changes,
        )
    }

    /// The table without the rows at some places, which come in order (DELETE statement). Chunks that lose no row are shared.
    pub fn without(&self, alloc: Global, places: &[u32]) -> Result<Arc<TableVersion>, NoMemory>
        requires { AreInOrder (λ place. place) places.now }
        ensures { IfOk result (λ v. arc_value v ≡ record { name = self.now.name; rows = rows_remaining places.now self.now.rows }) }
    {
        let mut builder = Builder::empty(alloc);
        builder.leave_out_all(alloc, self.front.as_slice(), places)?;
        finish_left(
            alloc,
            &self.name,
            builder,
            self.front.len(),
            &self.last,
            places,
        )
    }
}

/// The version with these rows.
fn finish(alloc: Global, name: &Name, builder: Builder) -> Result<Arc<TableVersion>, NoMemory>
    requires { length builder < 2 ^ 32 }
    ensures { IfOk result (λ v. arc_value v ≡ record { name = name.now; rows = builder }) }
{
    let (chunks, last) = builder.parts();
    made(
        alloc,
        name,
        Arc::new(alloc, chunks)?,
        Arc::new(alloc, last)?,
    )
}

/// The version with these rows and a last chunk, which is shared.
fn finish_with(
    alloc: Global,
    name: &Name,
    builder: Builder,
    last: &Arc<RowList>,
) -> Result<Arc<TableVersion>, NoMemory>
    requires few { length (arc_value last.now) ≤ CHUNK_LIMIT }
    requires fits { length builder + length (arc_value last.now) < 2 ^ 32 }
    ensures { IfOk result (λ v. arc_value v ≡ record { name = name.now; rows = builder ++ arc_value last.now }) }
{
    let chunks = builder.close(alloc)?;
    made(alloc, name, Arc::new(alloc, chunks)?, last.clone()?)
}

/// The version with these rows and those of a last chunk after the changes, which begins at the given place. It is shared where
/// none of its rows is changed.
fn finish_changed(
    alloc: Global,
    name: &Name,
    mut builder: Builder,
    first: u32,
    last: &Arc<RowList>,
    changes: &[ChangedRow],
) -> Result<Arc<TableVersion>, NoMemory>
    requires order { AreInOrder place_of changes.now }
    requires few { length (arc_value last.now) ≤ CHUNK_LIMIT }
    requires inside { first + length (arc_value last.now) < 2 ^ 32 }
    requires fits { length builder + length (arc_value last.now) < 2 ^ 32 }
    ensures { IfOk result (λ v. arc_value v ≡ record { name = name.now; rows = builder ++ rows_changed_from changes.now first (arc_value last.now) }) }
{
    let end = first + last.len() as u32;
    if change_within(changes, first, end).is_none() {
        return finish_with(alloc, name, builder, last);
    }
    builder.extend_changed(alloc, first, last.as_slice(), changes)?;
    finish(alloc, name, builder)
}

/// The version with these rows and those of a last chunk without the rows at the places, which begins at the given place. It is
/// shared where all of its rows stay.
fn finish_left(
    alloc: Global,
    name: &Name,
    mut builder: Builder,
    first: u32,
    last: &Arc<RowList>,
    places: &[u32],
) -> Result<Arc<TableVersion>, NoMemory>
    requires order { AreInOrder (λ place. place) places.now }
    requires few { length (arc_value last.now) ≤ CHUNK_LIMIT }
    requires inside { first + length (arc_value last.now) < 2 ^ 32 }
    requires fits { length builder + length (arc_value last.now) < 2 ^ 32 }
    ensures { IfOk result (λ v. arc_value v ≡ record { name = name.now; rows = builder ++ rows_remaining_from places.now first (arc_value last.now) }) }
{
    let end = first + last.len() as u32;
    if !has_place_within(places, first, end) {
        return finish_with(alloc, name, builder, last);
    }
    builder.extend_left(alloc, first, last.as_slice(), places)?;
    finish(alloc, name, builder)
}

fn made(
    alloc: Global,
    name: &Name,
    front: Arc<Chunks>,
    last: Arc<RowList>,
) -> Result<Arc<TableVersion>, NoMemory>
    requires few { length (arc_value last) ≤ CHUNK_LIMIT }
    requires fits { length (arc_value front) + length (arc_value last) < 2 ^ 32 }
    ensures { IfOk result (λ v. arc_value v ≡ record { name = name.now; rows = arc_value front ++ arc_value last }) }
{
    let name = name.copy()?;
    let version = Arc::new(alloc, TableVersion { name, front, last })?;
    Ok(version)
}
