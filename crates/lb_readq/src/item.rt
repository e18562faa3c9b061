// Reads the items of a select list: `*`, `name.*`, expressions with their output names.
ghost use Rattle.std.specs.Prelude.{◌<◌};
ghost use Rattle.lb_readt.specs.Readers.{listed};
ghost use Rattle.lb_readt.specs.Answering.{Gives};
ghost use Rattle.lb_readq.specs.Queries.{value_on, starred_on, item_at, items_at};
ghost use Rattle.lb_reade.specs.Expressions.{unnamed_at};

use crate::table::alias;
use lb_base::Name;
use lb_reade::{Brackets, called, column_of, in_parens, literal, rest_on};
use lb_readt::{Read, listed, name, next_is, next_is_name, take_if, with_first, word};
use lb_tok::{Call, Kind, Token};
use lb_tree::{Expr, Item};
use sqlite_items::Items;
use std::alloc::Global;

// The rest of an item after its first factor, with its name if it has one.
#[tactic(auto, unfolding(crate::specs::Queries::value_on))]
fn value_on<'a, B: Brackets>(
    alloc: Global,
    tokens: &'a [Token],
    brackets: &B,
    first: Expr,
) -> Read<'a, Item>
    requires { B.ready brackets.now }
    ensures { Gives (λ r. (r.0, r.1.now)) result (value_on (B.readers brackets.now) first tokens.now) }
{
    let (value, rest) = rest_on(alloc, tokens, brackets, first)?;
    let (name, rest) = alias(rest)?;
    Ok((Item::Value(value, name), rest))
}

// The rest of an item after its first name: `. *`, or the rest of an expression.
#[tactic(auto, unfolding(crate::specs::Queries::starred_on))]
fn starred_on<'a, B: Brackets>(
    alloc: Global,
    tokens: &'a [Token],
    brackets: &B,
    call: Option<Call>,
    first: &Name,
) -> Read<'a, Item>
    requires { B.ready brackets.now }
    ensures { Gives (λ r. (r.0, r.1.now)) result (starred_on (B.readers brackets.now) (call, first.now) tokens.now) }
{
    if let Some(rest) = take_if(tokens, Kind::Dot) {
        if let Some(rest) = take_if(rest, Kind::Star) {
            Ok((Item::AllOf(first.copy()?), rest))
        } else {
            let (name, rest) = name(rest)?;
            value_on(alloc, rest, brackets, column_of(first, name)?)
        }
    } else {
        let (value, rest) = called(alloc, tokens, brackets, call, first)?;
        value_on(alloc, rest, brackets, value)
    }
}

// A factor that begins with no name.
#[tactic(auto, unfolding(lb_reade::specs::Expressions::unnamed_at))]
fn unnamed<'a, B: Brackets>(alloc: Global, tokens: &'a [Token], brackets: &B) -> Read<'a, Expr>
    requires { B.ready brackets.now }
    ensures { Gives (λ r. (r.0, r.1.now)) result (unnamed_at (B.readers brackets.now) tokens.now) }
{
    if next_is(tokens, Kind::Open) {
        in_parens(alloc, tokens, brackets)
    } else {
        literal(alloc, tokens, brackets)
    }
}

// item = name . * | expr [[AS] name]
#[tactic(auto, unfolding(crate::specs::Queries::item_at))]
fn item<'a, B: Brackets>(alloc: Global, tokens: &'a [Token], brackets: &B) -> Read<'a, Item>
    requires { B.ready brackets.now }
    ensures { Gives (λ r. (r.0, r.1.now)) result (item_at (B.readers brackets.now) tokens.now) }
{
    if next_is_name(tokens) {
        let (call, first, rest) = word(tokens)?;
        starred_on(alloc, rest, brackets, call, first)
    } else {
        let (first, rest) = unnamed(alloc, tokens, brackets)?;
        value_on(alloc, rest, brackets, first)
    }
}

// item {, item}
fn item_list<'a, B: Brackets>(
    alloc: Global,
    tokens: &'a [Token],
    brackets: &B,
) -> Read<'a, Items<Item>>
    requires { B.ready brackets.now }
    ensures { Gives (λ r. (r.0, r.1.now)) result (listed (item_at (B.readers brackets.now)) tokens.now) }
{
    listed(alloc, tokens, |rest| item(alloc, rest, brackets))
}

/// Reads the outputs of a query, `* | item {, item}`.
#[tactic(auto, unfolding(crate::specs::Queries::items_at))]
pub fn items<'a, B: Brackets>(
    alloc: Global,
    tokens: &'a [Token],
    brackets: &B,
) -> Read<'a, Items<Item>>
    requires { B.ready brackets.now }
    ensures { Gives (λ r. (r.0, r.1.now)) result (items_at (B.readers brackets.now) tokens.now) }
{
    if let Some(rest) = take_if(tokens, Kind::Star) {
        Ok((
            with_first(alloc, Item::Everything, Items::new(alloc))?,
            rest,
        ))
    } else {
        item_list(alloc, tokens, brackets)
    }
}
