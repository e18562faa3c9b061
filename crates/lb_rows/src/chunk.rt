// Rows in chunks, which the versions of a table share.
ghost use Rattle.std.specs.Prelude.{◌≡◌, ◌≤◌, ◌<◌, ◌+◌, ◌-◌, ◌++◌, ◌^◌, ◌↔◌, [], length, IfOk, OnOk, OnErr, slice_get, drop, take};
ghost use Rattle.std.specs.Option.{option_copied};
ghost use Rattle.std.specs.Arc.{arc_value};
ghost use Rattle.lb_rows.specs.Chunks.{ArePlaced, rows_in_chunks};
ghost use Rattle.lb_rows.specs.Runs.{IsRun};

use lb_base::{NoMemory, Row, RowList};
use std::alloc::Global;
use std::marker::Model;
use std::sync::Arc;

/// How many rows a chunk has at most.
pub const CHUNK_LIMIT: usize = 256;

/// At most 256 rows of a table that stand one after another, and the place of the first of them, counted from 0.
#[derive(Drop)]
pub(crate) struct Chunk {
    pub(crate) first: u32,
    pub(crate) rows: Arc<RowList>,
}

/// Rows in chunks, fewer than 2^32. Contracts see the list of the rows.
#[derive(Drop)]
pub(crate) struct Chunks {
    chunks: Vec<Chunk>,
    count: u32,
}

impl Model for Chunks {
    ghost use Rattle.std.specs.Prelude.{◌≡◌, List, length};
    ghost use Rattle.lb_base.specs.declared.value.Value.{Value as Cell};
    ghost use Rattle.lb_rows.specs.Chunks.{rows_in_chunks, ArePlaced};

    ghost Value = { List (List Cell) };

    ghost view = { λ c. rows_in_chunks c.chunks.items };

    ghost invariant = { λ c. ArePlaced 0 c.chunks.items × (c.count ≡ length (rows_in_chunks c.chunks.items)) };
}

impl Chunks {
    /// No rows. It takes no memory yet.
    pub(crate) fn empty(alloc: Global) -> Chunks
        ensures { result ≡ [] }
    {
        Chunks {
            chunks: Vec::new(alloc),
            count: 0,
        }
    }

    /// How many rows there are.
    pub(crate) fn len(&self) -> u32
        ensures { result ≡ length self.now }
    {
        self.count
    }

    /// The chunks in order.
    pub(crate) fn as_slice(&self) -> &[Chunk]
        ensures rows { rows_in_chunks result.now ≡ self.now }
        ensures places { ArePlaced 0 result.now }
        ensures few { length self.now < 2 ^ 32 }
    {
        let _count = self.count;
        self.chunks.as_slice()
    }

    /// Puts the rows of a chunk at the end, which are shared. Where memory is refused nothing changes.
    pub(crate) fn push(&mut self, rows: Arc<RowList>) -> Result<(), NoMemory>
        requires few { length (arc_value rows) ≤ CHUNK_LIMIT }
        requires fits { length self.old + length (arc_value rows) < 2 ^ 32 }
        ensures ok { OnOk result (self.new ≡ self.old ++ arc_value rows) }
        ensures err { OnErr result (self.new ≡ self.old) }
    {
        let first = self.count;
        let count = first + rows.len() as u32;
        self.chunks.push(Chunk { first, rows })?;
        self.count = count;
        Ok(())
    }
}

/// The rows from a place on that stand in one chunk; none exactly where the place is past the last row.
pub(crate) fn run_from(chunks: &[Chunk], place: u32) -> &[Row]
    requires { ArePlaced 0 chunks.now }
    ensures { IsRun (rows_in_chunks chunks.now) place result.now }
{
    let after = chunks.partition_point(|chunk| chunk.first <= place);
    if after == 0 {
        return &[];
    }
    let chunk = &chunks[after - 1];
    rest_of(chunk.rows.as_slice(), (place - chunk.first) as usize)
}

/// The rows from a place on; none past the last one.
pub(crate) fn rest_of(rows: &[Row], from: usize) -> &[Row]
    ensures { result.now ≡ drop from rows.now }
{
    if from < rows.len() {
        &rows[from..]
    } else {
        &rows[rows.len()..]
    }
}
