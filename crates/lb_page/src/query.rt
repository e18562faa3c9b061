// Queries, with ORDER BY and FETCH.
#![tactic(auto, using(crate::proofs::Rules::queries))]

ghost use Rattle.std.specs.Prelude.{◌≡◌, OnOk, map};
ghost use Rattle.std.specs.List.{flat_map};
ghost use Rattle.lb_tok.specs.Spacing.{laid};
ghost use Rattle.lb_tok.specs.QueryPieces.{chain_pieces, direction_pieces, fetch_pieces, item_pieces, join_pieces, key_pieces, listed, order_pieces, query_pieces, select_pieces};

use crate::condition::{cond, cond_clause};
use crate::expression::expr;
use crate::list::{alias, flag, group, separator, tab};
use crate::page::Page;
use lb_base::NoMemory;
use lb_tok::Kind;
use lb_tree::{Chain, Direction, Item, Join, Query, Select, SortKey};

/// Lays a query.
#[cycle(prints)]
pub fn query(page: &mut Page, query: &Query) -> Result<(), NoMemory>
    ensures { OnOk result (page.new ≡ laid page.old (query_pieces query.now)) }
{
    page.mark(Kind::Select)?;
    flag(page, Kind::Distinct, query.distinct)?;
    items(page, query.items.as_slice())?;
    page.mark(Kind::From)?;
    chains(page, query.from.as_slice())?;
    cond_clause(page, Kind::Where, &query.filter)?;
    group(page, query.group.as_slice())?;
    cond_clause(page, Kind::Having, &query.having)
}

#[cycle(prints)]
fn items(page: &mut Page, items: &[Item]) -> Result<(), NoMemory>
    ensures { OnOk result (page.new ≡ laid page.old (listed (map item_pieces items.now))) }
{
    for (place, part) in items.iter().enumerate() {
        separator(page, Kind::Comma, place)?;
        item(page, part)?;
    }
    Ok(())
}

#[cycle(prints)]
fn item(page: &mut Page, item: &Item) -> Result<(), NoMemory>
    ensures { OnOk result (page.new ≡ laid page.old (item_pieces item.now)) }
{
    match item {
        Item::Everything => page.mark(Kind::Star),
        Item::AllOf(name) => page.all_of(name),
        Item::Value(value, name) => {
            expr(page, value)?;
            alias(page, name)
        }
    }
}

#[cycle(prints)]
fn chains(page: &mut Page, chains: &[Chain]) -> Result<(), NoMemory>
    ensures { OnOk result (page.new ≡ laid page.old (listed (map chain_pieces chains.now))) }
{
    for (place, part) in chains.iter().enumerate() {
        separator(page, Kind::Comma, place)?;
        chain(page, part)?;
    }
    Ok(())
}

#[cycle(prints)]
fn chain(page: &mut Page, chain: &Chain) -> Result<(), NoMemory>
    ensures { OnOk result (page.new ≡ laid page.old (chain_pieces chain.now)) }
{
    tab(page, &chain.first)?;
    joins(page, chain.joins.as_slice())
}

#[cycle(prints)]
fn joins(page: &mut Page, joins: &[Join]) -> Result<(), NoMemory>
    ensures { OnOk result (page.new ≡ laid page.old (flat_map join_pieces joins.now)) }
{
    for part in joins {
        join(page, part)?;
    }
    Ok(())
}

#[cycle(prints)]
fn join(page: &mut Page, join: &Join) -> Result<(), NoMemory>
    ensures { OnOk result (page.new ≡ laid page.old (join_pieces join.now)) }
{
    match join {
        Join::Inner(table, on) => {
            page.mark(Kind::Join)?;
            tab(page, table)?;
            page.mark(Kind::On)?;
            cond(page, on)
        }
        Join::Left(table, on) => {
            page.mark(Kind::Left)?;
            page.mark(Kind::Join)?;
            tab(page, table)?;
            page.mark(Kind::On)?;
            cond(page, on)
        }
        Join::Cross(table) => {
            page.mark(Kind::Cross)?;
            page.mark(Kind::Join)?;
            tab(page, table)
        }
    }
}

fn direction(page: &mut Page, direction: Direction) -> Result<(), NoMemory>
    ensures { OnOk result (page.new ≡ laid page.old (direction_pieces direction)) }
{
    match direction {
        Direction::Ascending => Ok(()),
        Direction::Descending => page.mark(Kind::Desc),
    }
}

fn key(page: &mut Page, key: &SortKey) -> Result<(), NoMemory>
    ensures { OnOk result (page.new ≡ laid page.old (key_pieces key.now)) }
{
    expr(page, &key.by)?;
    direction(page, key.direction)
}

fn keys(page: &mut Page, keys: &[SortKey]) -> Result<(), NoMemory>
    ensures { OnOk result (page.new ≡ laid page.old (listed (map key_pieces keys.now))) }
{
    for (place, part) in keys.iter().enumerate() {
        separator(page, Kind::Comma, place)?;
        key(page, part)?;
    }
    Ok(())
}

fn order(page: &mut Page, order: &[SortKey]) -> Result<(), NoMemory>
    ensures { OnOk result (page.new ≡ laid page.old (order_pieces order.now)) }
{
    if order.is_empty() {
        return Ok(());
    }
    page.mark(Kind::Order)?;
    page.mark(Kind::By)?;
    keys(page, order)
}

fn fetch(page: &mut Page, fetch: Option<i64>) -> Result<(), NoMemory>
    ensures { OnOk result (page.new ≡ laid page.old (fetch_pieces fetch)) }
{
    match fetch {
        None => Ok(()),
        Some(count) => {
            page.mark(Kind::Fetch)?;
            page.mark(Kind::First)?;
            page.int(count)?;
            page.mark(Kind::Rows)?;
            page.mark(Kind::Only)
        }
    }
}

/// Lays a query, its ORDER BY and its FETCH.
pub fn select(page: &mut Page, select: &Select) -> Result<(), NoMemory>
    ensures { OnOk result (page.new ≡ laid page.old (select_pieces select.now)) }
{
    query(page, &select.query)?;
    order(page, select.order.as_slice())?;
    fetch(page, select.fetch)
}
