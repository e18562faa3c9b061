//! Appends single rows to a table that has as many rows as the first argument says: 256 of them one after the other, as often
//! as the second argument says, each time to the same table. Prints how many rows there were and are. bench/rows.sh times it.
#![tactic(auto)]

use anyhow::{Context, Result, ensure};
use lb_base::{Listing, Name, Row, RowList, Str, Value};
use lb_rows::TableVersion;
use std::alloc::Global;
use std::env;
use std::sync::Arc;

/// How many rows are appended one after the other: as many as fill a chunk, whatever it has already.
const APPENDS: u32 = 256;

fn row(alloc: Global, number: u32) -> Result<Row> {
    let mut row = Listing::empty(alloc);
    row.push(Value::Int(i64::from(number)))?;
    row.push(Value::Text(Str::of(alloc, "a note of some length")?))?;
    Ok(row)
}

fn rows(alloc: Global, count: u32) -> Result<RowList> {
    let mut rows = Listing::empty(alloc);
    for number in 0..count {
        rows.push(row(alloc, number)?)?;
    }
    Ok(rows)
}

fn table(alloc: Global, count: u32) -> Result<Arc<TableVersion>> {
    let name = Name::of(alloc, "NOTES")?.context("the name of the table")?;
    let rows = rows(alloc, count)?;
    ensure!(rows.len() <= 100_000_000, "at most 100,000,000 rows");
    Ok(TableVersion::empty(alloc, &name)?.with_rows(alloc, rows)?)
}

/// The table with one row more.
fn appended(alloc: Global, table: &TableVersion, number: u32) -> Result<Arc<TableVersion>> {
    ensure!(table.len() <= 200_000_000, "at most 200,000,000 rows");
    let mut rows = Listing::empty(alloc);
    rows.push(row(alloc, number)?)?;
    ensure!(rows.len() == 1, "one row");
    Ok(table.with_appended(alloc, rows)?)
}

/// The number of rows after the appends.
fn fill(alloc: Global, table: &Arc<TableVersion>) -> Result<u32> {
    let mut version = table.clone()?;
    for number in 0..APPENDS {
        version = appended(alloc, &version, number)?;
    }
    Ok(version.len())
}

fn main(rt: HostRuntime) -> Result<()> {
    let alloc = rt.alloc();
    let mut words = env::args(&rt)?.skip(1);
    let (count, rounds) = match (words.next(), words.next()) {
        (Some(count), Some(rounds)) => (
            count.as_str().parse::<u32>().context("the number of rows")?,
            rounds
                .as_str()
                .parse::<u32>()
                .context("the number of rounds")?,
        ),
        _ => (0, 0),
    };
    let table = table(alloc, count)?;
    let mut last = table.len();
    for _ in 0..rounds {
        last = fill(alloc, &table)?;
    }
    println!(rt; "{} rows, then {last}", table.iter().count())?;
    Ok(())
}
