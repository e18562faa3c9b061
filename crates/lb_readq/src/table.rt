// Reads the tables of FROM and their joins.
ghost use Rattle.std.specs.Prelude.{◌≡◌, ◌<◌, [], Some, None, false};
ghost use Rattle.lb_readt.specs.Readers.{heads, many, listed};
ghost use Rattle.lb_readt.specs.Answering.{Gives};
ghost use Rattle.lb_readq.specs.Queries.{alias_at, tab_at, joined_at, join_at, in_join, chain_at};

use lb_base::Name;
use lb_reade::{Brackets, cond};
use lb_readt::{Read, listed, many, name, next_is_name, noise, take, take_if};
use lb_tok::{Kind, Token};
use lb_tree::{Chain, Cond, Join, Tab};
use sqlite_items::Items;
use std::alloc::Global;

/// Reads a correlation or output name, `[[AS] name]`. `Bad` where no name follows AS.
#[tactic(auto, unfolding(crate::specs::Queries::alias_at))]
pub fn alias<'a>(tokens: &'a [Token]) -> Read<'a, Option<Name>>
    ensures { Gives (λ r. (r.0, r.1.now)) result (alias_at tokens.now) }
{
    if let Some(rest) = take_if(tokens, Kind::As) {
        let (name, rest) = name(rest)?;
        Ok((Some(name), rest))
    } else if next_is_name(tokens) {
        let (name, rest) = name(tokens)?;
        Ok((Some(name), rest))
    } else {
        Ok((None, tokens))
    }
}

/// Reads a table with its correlation name, `name [[AS] name]`. `Bad` where no name stands first or after AS.
#[tactic(auto, unfolding(crate::specs::Queries::tab_at))]
pub fn tab<'a>(tokens: &'a [Token]) -> Read<'a, Tab>
    ensures { Gives (λ r. (r.0, r.1.now)) result (tab_at tokens.now) }
{
    let (table, rest) = name(tokens)?;
    let (correlation, rest) = alias(rest)?;
    Ok((Tab { table, correlation }, rest))
}

// JOIN tab ON cond
#[tactic(auto, unfolding(crate::specs::Queries::joined_at))]
fn on<'a, B: Brackets>(alloc: Global, tokens: &'a [Token], brackets: &B) -> Read<'a, (Tab, Cond)>
    requires { B.ready brackets.now }
    ensures { Gives (λ r. (r.0, r.1.now)) result (joined_at (B.readers brackets.now) tokens.now) }
{
    let rest = take(tokens, Kind::Join)?;
    let (tab, rest) = tab(rest)?;
    let rest = take(rest, Kind::On)?;
    let (condition, rest) = cond(alloc, rest, brackets)?;
    Ok(((tab, condition), rest))
}

// join = [INNER] JOIN tab ON cond | LEFT [OUTER] JOIN tab ON cond | CROSS JOIN tab
#[tactic(auto, unfolding(crate::specs::Queries::join_at))]
fn join<'a, B: Brackets>(alloc: Global, tokens: &'a [Token], brackets: &B) -> Read<'a, Join>
    requires { B.ready brackets.now }
    ensures { Gives (λ r. (r.0, r.1.now)) result (join_at (B.readers brackets.now) tokens.now) }
{
    if let Some(rest) = take_if(tokens, Kind::Left) {
        let rest = noise(rest, Kind::Outer);
        let ((tab, condition), rest) = on(alloc, rest, brackets)?;
        Ok((Join::Left(tab, condition), rest))
    } else if let Some(rest) = take_if(tokens, Kind::Cross) {
        let rest = take(rest, Kind::Join)?;
        let (tab, rest) = tab(rest)?;
        Ok((Join::Cross(tab), rest))
    } else {
        let rest = noise(tokens, Kind::Inner);
        let ((tab, condition), rest) = on(alloc, rest, brackets)?;
        Ok((Join::Inner(tab, condition), rest))
    }
}

// {join}
fn joins<'a, B: Brackets>(alloc: Global, tokens: &'a [Token], brackets: &B) -> Read<'a, Items<Join>>
    requires { B.ready brackets.now }
    ensures { Gives (λ r. (r.0, r.1.now)) result (many in_join (join_at (B.readers brackets.now)) tokens.now) }
{
    many(
        alloc,
        tokens,
        |rest| next_is_join(rest),
        |rest| join(alloc, rest, brackets),
    )
}

// tab {join}
#[tactic(auto, unfolding(crate::specs::Queries::chain_at))]
fn chain<'a, B: Brackets>(alloc: Global, tokens: &'a [Token], brackets: &B) -> Read<'a, Chain>
    requires { B.ready brackets.now }
    ensures { Gives (λ r. (r.0, r.1.now)) result (chain_at (B.readers brackets.now) tokens.now) }
{
    let (first, rest) = tab(tokens)?;
    let (joins, rest) = joins(alloc, rest, brackets)?;
    Ok((Chain { first, joins }, rest))
}

/// Reads `chain {, chain}`.
pub fn chains<'a, B: Brackets>(
    alloc: Global,
    tokens: &'a [Token],
    brackets: &B,
) -> Read<'a, Items<Chain>>
    requires { B.ready brackets.now }
    ensures { Gives (λ r. (r.0, r.1.now)) result (listed (chain_at (B.readers brackets.now)) tokens.now) }
{
    listed(alloc, tokens, |rest| chain(alloc, rest, brackets))
}

// Whether the next token begins a join.
#[tactic(auto, using(crate::proofs::Joins::in_join_is))]
fn next_is_join(tokens: &[Token]) -> bool
    ensures { result ≡ heads in_join tokens.now }
{
    match tokens {
        [] => false,
        [first, ..] => {
            first.kind.is(Kind::Left)
                || first.kind.is(Kind::Cross)
                || first.kind.is(Kind::Inner)
                || first.kind.is(Kind::Join)
        }
    }
}
