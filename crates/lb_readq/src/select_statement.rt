// A whole SELECT: the query, its order, and how many of its first rows are fetched.
ghost use Rattle.std.specs.Prelude.{◌<◌, Some, None};
ghost use Rattle.lb_readt.specs.Readers.{listed};
ghost use Rattle.lb_readt.specs.Answering.{Gives};
ghost use Rattle.lb_readq.specs.Queries.{direction_at, sort_key_at, order_at, row_count_at, fetch_at, may_fetch_at, select_at};

use crate::clause::query;
use lb_reade::{Brackets, expr};
use lb_readt::{Read, count, listed, next_is, take, take_if};
use lb_tok::{Kind, Token};
use lb_tree::{Direction, Select, SortKey};
use sqlite_items::Items;
use std::alloc::Global;

// [ASC | DESC]
#[tactic(auto, unfolding(crate::specs::Queries::direction_at))]
fn direction<'a>(tokens: &'a [Token]) -> Read<'a, Direction>
    ensures { Gives (λ r. (r.0, r.1.now)) result (direction_at tokens.now) }
{
    if let Some(rest) = take_if(tokens, Kind::Asc) {
        Ok((Direction::Ascending, rest))
    } else if let Some(rest) = take_if(tokens, Kind::Desc) {
        Ok((Direction::Descending, rest))
    } else {
        Ok((Direction::Ascending, tokens))
    }
}

// expr [ASC | DESC]
#[tactic(auto, unfolding(crate::specs::Queries::sort_key_at))]
fn sort_key<'a, B: Brackets>(alloc: Global, tokens: &'a [Token], brackets: &B) -> Read<'a, SortKey>
    requires { B.ready brackets.now }
    ensures { Gives (λ r. (r.0, r.1.now)) result (sort_key_at (B.readers brackets.now) tokens.now) }
{
    let (by, rest) = expr(alloc, tokens, brackets)?;
    let (direction, rest) = direction(rest)?;
    Ok((SortKey { by, direction }, rest))
}

// key {, key}
fn sort_keys<'a, B: Brackets>(
    alloc: Global,
    tokens: &'a [Token],
    brackets: &B,
) -> Read<'a, Items<SortKey>>
    requires { B.ready brackets.now }
    ensures { Gives (λ r. (r.0, r.1.now)) result (listed (sort_key_at (B.readers brackets.now)) tokens.now) }
{
    listed(alloc, tokens, |rest| sort_key(alloc, rest, brackets))
}

// [ORDER BY ..]
#[tactic(auto, unfolding(crate::specs::Queries::order_at))]
fn order<'a, B: Brackets>(
    alloc: Global,
    tokens: &'a [Token],
    brackets: &B,
) -> Read<'a, Items<SortKey>>
    requires { B.ready brackets.now }
    ensures { Gives (λ r. (r.0, r.1.now)) result (order_at (B.readers brackets.now) tokens.now) }
{
    if let Some(rest) = take_if(tokens, Kind::Order) {
        let rest = take(rest, Kind::By)?;
        sort_keys(alloc, rest, brackets)
    } else {
        Ok((Items::new(alloc), tokens))
    }
}

// [int], at least 1; 1 where none is written
#[tactic(auto, unfolding(crate::specs::Queries::row_count_at))]
fn row_count<'a>(tokens: &'a [Token]) -> Read<'a, i64>
    ensures { Gives (λ r. (r.0, r.1.now)) result (row_count_at tokens.now) }
{
    if next_is(tokens, Kind::Numeral) {
        count(tokens)
    } else {
        Ok((1, tokens))
    }
}

// fetch = FETCH FIRST [int] (ROW | ROWS) ONLY
#[tactic(auto, unfolding(crate::specs::Queries::fetch_at))]
fn fetched<'a>(tokens: &'a [Token]) -> Read<'a, i64>
    ensures { Gives (λ r. (r.0, r.1.now)) result (fetch_at tokens.now) }
{
    let rest = take(tokens, Kind::Fetch)?;
    let rest = take(rest, Kind::First)?;
    let (row_count, rest) = row_count(rest)?;
    if let Some(rest) = take_if(rest, Kind::Row) {
        let rest = take(rest, Kind::Only)?;
        Ok((row_count, rest))
    } else {
        let rest = take(rest, Kind::Rows)?;
        let rest = take(rest, Kind::Only)?;
        Ok((row_count, rest))
    }
}

// [fetch]
#[tactic(auto, unfolding(crate::specs::Queries::may_fetch_at))]
fn fetch<'a>(tokens: &'a [Token]) -> Read<'a, Option<i64>>
    ensures { Gives (λ r. (r.0, r.1.now)) result (may_fetch_at tokens.now) }
{
    if next_is(tokens, Kind::Fetch) {
        let (row_count, rest) = fetched(tokens)?;
        Ok((Some(row_count), rest))
    } else {
        Ok((None, tokens))
    }
}

/// Reads a query with its order and the number of rows to fetch, `query [order] [fetch]`.
#[tactic(auto, unfolding(crate::specs::Queries::select_at))]
pub fn select<'a, B: Brackets>(alloc: Global, tokens: &'a [Token], brackets: &B) -> Read<'a, Select>
    requires { B.ready brackets.now }
    ensures { Gives (λ r. (r.0, r.1.now)) result (select_at (B.readers brackets.now) tokens.now) }
{
    let (query, rest) = query(alloc, tokens, brackets)?;
    let (order, rest) = order(alloc, rest, brackets)?;
    let (fetch, rest) = fetch(rest)?;
    Ok((
        Select {
            query,
            order,
            fetch,
        },
        rest,
    ))
}
