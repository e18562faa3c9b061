// INSERT, UPDATE and DELETE.
ghost use Rattle.std.specs.Prelude.{◌<◌, Some, None};
ghost use Rattle.lb_readt.specs.Readers.{listed};
ghost use Rattle.lb_readt.specs.Answering.{Gives};
ghost use Rattle.lb_readq.specs.Queries.{row_at, source_at, targets_at, insert_at, assignment_at, where_at, update_at, delete_at};

use crate::select_statement::select;
use crate::table::tab;
use lb_base::Name;
use lb_reade::{Brackets, cond, expr, exprs};
use lb_readt::{Read, listed, name, names, next_is, take, take_if};
use lb_stmt::{Assignment, Delete, Insert, InsertSource, Update};
use lb_tok::{Kind, Token};
use lb_tree::{Cond, Expr};
use sqlite_items::Items;
use std::alloc::Global;

// row = "(" expr {, expr} ")"
#[tactic(auto, unfolding(crate::specs::Queries::row_at, crate::specs::Queries::in_row_at))]
fn row<'a, B: Brackets>(alloc: Global, tokens: &'a [Token], brackets: &B) -> Read<'a, Items<Expr>>
    requires { B.ready brackets.now }
    ensures { Gives (λ r. (r.0, r.1.now)) result (row_at (B.readers brackets.now) tokens.now) }
{
    let rest = brackets.open(tokens, Kind::Open)?;
    let (row, rest) = exprs(alloc, rest, brackets)?;
    let rest = take(rest, Kind::Close)?;
    Ok((row, rest))
}

// row {, row}
fn rows<'a, B: Brackets>(
    alloc: Global,
    tokens: &'a [Token],
    brackets: &B,
) -> Read<'a, Items<Items<Expr>>>
    requires { B.ready brackets.now }
    ensures { Gives (λ r. (r.0, r.1.now)) result (listed (row_at (B.readers brackets.now)) tokens.now) }
{
    listed(alloc, tokens, |rest| row(alloc, rest, brackets))
}

// VALUES row {, row} | query [order] [fetch]
#[tactic(auto, unfolding(crate::specs::Queries::source_at))]
fn source<'a, B: Brackets>(
    alloc: Global,
    tokens: &'a [Token],
    brackets: &B,
) -> Read<'a, InsertSource>
    requires { B.ready brackets.now }
    ensures { Gives (λ r. (r.0, r.1.now)) result (source_at (B.readers brackets.now) tokens.now) }
{
    if let Some(rest) = take_if(tokens, Kind::Values) {
        let (rows, rest) = rows(alloc, rest, brackets)?;
        Ok((InsertSource::Rows(rows), rest))
    } else {
        let (select, rest) = select(alloc, tokens, brackets)?;
        Ok((InsertSource::Query(select), rest))
    }
}

// ["(" name {, name} ")"]
#[tactic(auto, unfolding(crate::specs::Queries::targets_at))]
fn targets<'a, B: Brackets>(
    alloc: Global,
    tokens: &'a [Token],
    brackets: &B,
) -> Read<'a, Option<Items<Name>>>
    requires { B.ready brackets.now }
    ensures { Gives (λ r. (r.0, r.1.now)) result (targets_at (B.readers brackets.now) tokens.now) }
{
    if next_is(tokens, Kind::Open) {
        let rest = brackets.open(tokens, Kind::Open)?;
        let (columns, rest) = names(alloc, rest)?;
        let rest = take(rest, Kind::Close)?;
        Ok((Some(columns), rest))
    } else {
        Ok((None, tokens))
    }
}

/// Reads `INSERT INTO name [..] (VALUES .. | query ..)`.
#[tactic(auto, unfolding(crate::specs::Queries::insert_at))]
pub fn insert<'a, B: Brackets>(alloc: Global, tokens: &'a [Token], brackets: &B) -> Read<'a, Insert>
    requires { B.ready brackets.now }
    ensures { Gives (λ r. (r.0, r.1.now)) result (insert_at (B.readers brackets.now) tokens.now) }
{
    let rest = take(tokens, Kind::Insert)?;
    let rest = take(rest, Kind::Into)?;
    let (table, rest) = name(rest)?;
    let (columns, rest) = targets(alloc, rest, brackets)?;
    let (source, rest) = source(alloc, rest, brackets)?;
    Ok((
        Insert {
            table,
            columns,
            source,
        },
        rest,
    ))
}

// name = expr
#[tactic(auto, unfolding(crate::specs::Queries::assignment_at))]
fn assignment<'a, B: Brackets>(
    alloc: Global,
    tokens: &'a [Token],
    brackets: &B,
) -> Read<'a, Assignment>
    requires { B.ready brackets.now }
    ensures { Gives (λ r. (r.0, r.1.now)) result (assignment_at (B.readers brackets.now) tokens.now) }
{
    let (column, rest) = name(tokens)?;
    let rest = take(rest, Kind::Equal)?;
    let (value, rest) = expr(alloc, rest, brackets)?;
    Ok((Assignment { column, value }, rest))
}

// name = expr {, name = expr}
fn assignments<'a, B: Brackets>(
    alloc: Global,
    tokens: &'a [Token],
    brackets: &B,
) -> Read<'a, Items<Assignment>>
    requires { B.ready brackets.now }
    ensures { Gives (λ r. (r.0, r.1.now)) result (listed (assignment_at (B.readers brackets.now)) tokens.now) }
{
    listed(alloc, tokens, |rest| assignment(alloc, rest, brackets))
}

// [WHERE cond]
#[tactic(auto, unfolding(crate::specs::Queries::where_at))]
fn filter<'a, B: Brackets>(
    alloc: Global,
    tokens: &'a [Token],
    brackets: &B,
) -> Read<'a, Option<Cond>>
    requires { B.ready brackets.now }
    ensures { Gives (λ r. (r.0, r.1.now)) result (where_at (B.readers brackets.now) tokens.now) }
{
    if let Some(rest) = take_if(tokens, Kind::Where) {
        let (value, rest) = cond(alloc, rest, brackets)?;
        Ok((Some(value), rest))
    } else {
        Ok((None, tokens))
    }
}

/// Reads `UPDATE tab SET name = expr {, name = expr} [WHERE cond]`.
#[tactic(auto, unfolding(crate::specs::Queries::update_at))]
pub fn update<'a, B: Brackets>(alloc: Global, tokens: &'a [Token], brackets: &B) -> Read<'a, Update>
    requires { B.ready brackets.now }
    ensures { Gives (λ r. (r.0, r.1.now)) result (update_at (B.readers brackets.now) tokens.now) }
{
    let rest = take(tokens, Kind::Update)?;
    let (target, rest) = tab(rest)?;
    let rest = take(rest, Kind::Set)?;
    let (assignments, rest) = assignments(alloc, rest, brackets)?;
    let (filter, rest) = filter(alloc, rest, brackets)?;
    Ok((
        Update {
            target,
            assignments,
            filter,
        },
        rest,
    ))
}

/// Reads `DELETE FROM tab [WHERE cond]`.
#[tactic(auto, unfolding(crate::specs::Queries::delete_at))]
pub fn delete<'a, B: Brackets>(alloc: Global, tokens: &'a [Token], brackets: &B) -> Read<'a, Delete>
    requires { B.ready brackets.now }
    ensures { Gives (λ r. (r.0, r.1.now)) result (delete_at (B.readers brackets.now) tokens.now) }
{
    let rest = take(tokens, Kind::Delete)?;
    let rest = take(rest, Kind::From)?;
    let (target, rest) = tab(rest)?;
    let (filter, rest) = filter(alloc, rest, brackets)?;
    Ok((Delete { target, filter }, rest))
}
