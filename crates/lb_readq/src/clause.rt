// Reads a query, clause by clause.
ghost use Rattle.std.specs.Prelude.{◌<◌, Some, None};
ghost use Rattle.lb_readt.specs.Readers.{flag};
ghost use Rattle.lb_readt.specs.Answering.{Gives};
ghost use Rattle.lb_readq.specs.Queries.{where_at, having_at, group_at, query_at};

use crate::item::items;
use crate::table::chains;
use lb_reade::{Brackets, cond};
use lb_readt::{Read, columns, flag, take, take_if};
use lb_tok::{Kind, Token};
use lb_tree::{Column, Cond, Query};
use sqlite_items::{Boxed, Items};
use std::alloc::Global;

// [WHERE cond]
#[tactic(auto, unfolding(crate::specs::Queries::where_at))]
fn filter<'a, B: Brackets>(
    alloc: Global,
    tokens: &'a [Token],
    brackets: &B,
) -> Read<'a, Option<Boxed<Cond>>>
    requires { B.ready brackets.now }
    ensures { Gives (λ r. (r.0, r.1.now)) result (where_at (B.readers brackets.now) tokens.now) }
{
    if let Some(rest) = take_if(tokens, Kind::Where) {
        let (value, rest) = cond(alloc, rest, brackets)?;
        Ok((Some(Boxed::new(alloc, value)?), rest))
    } else {
        Ok((None, tokens))
    }
}

// [HAVING cond]
#[tactic(auto, unfolding(crate::specs::Queries::having_at))]
fn having<'a, B: Brackets>(
    alloc: Global,
    tokens: &'a [Token],
    brackets: &B,
) -> Read<'a, Option<Boxed<Cond>>>
    requires { B.ready brackets.now }
    ensures { Gives (λ r. (r.0, r.1.now)) result (having_at (B.readers brackets.now) tokens.now) }
{
    if let Some(rest) = take_if(tokens, Kind::Having) {
        let (value, rest) = cond(alloc, rest, brackets)?;
        Ok((Some(Boxed::new(alloc, value)?), rest))
    } else {
        Ok((None, tokens))
    }
}

// [GROUP BY col {, col}]
#[tactic(auto, unfolding(crate::specs::Queries::group_at))]
fn group<'a>(alloc: Global, tokens: &'a [Token]) -> Read<'a, Items<Column>>
    ensures { Gives (λ r. (r.0, r.1.now)) result (group_at tokens.now) }
{
    if let Some(rest) = take_if(tokens, Kind::Group) {
        let rest = take(rest, Kind::By)?;
        columns(alloc, rest)
    } else {
        Ok((Items::new(alloc), tokens))
    }
}

/// Reads a query without order, `SELECT [DISTINCT] items FROM chain {, chain} [WHERE cond] [GROUP BY col {, col}] [HAVING cond]`.
#[tactic(auto, unfolding(crate::specs::Queries::query_at))]
pub fn query<'a, B: Brackets>(alloc: Global, tokens: &'a [Token], brackets: &B) -> Read<'a, Query>
    requires { B.ready brackets.now }
    ensures { Gives (λ r. (r.0, r.1.now)) result (query_at (B.readers brackets.now) tokens.now) }
{
    let rest = take(tokens, Kind::Select)?;
    let (distinct, rest) = flag(rest, Kind::Distinct);
    let (items, rest) = items(alloc, rest, brackets)?;
    let rest = take(rest, Kind::From)?;
    let (from, rest) = chains(alloc, rest, brackets)?;
    let (filter, rest) = filter(alloc, rest, brackets)?;
    let (group, rest) = group(alloc, rest)?;
    let (having, rest) = having(alloc, rest, brackets)?;
    Ok((
        Query {
            distinct,
            items,
            from,
            filter,
            group,
            having,
        },
        rest,
    ))
}
