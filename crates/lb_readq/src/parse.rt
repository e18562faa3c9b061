// The public call, which reads a query or a write from all of a text's tokens; and what readers of other statements share
// with it.
ghost use Rattle.std.specs.Prelude.{◌≡◌, ◌++◌, ℕ, List, [], length, Some, None, IfOk, IfErr};
ghost use Rattle.lb_tok.specs.Grammar.{IsQueryOrWrite};
ghost use Rattle.lb_tok.specs.declared.token.Token.{Token};
ghost use Rattle.lb_tok.specs.declared.lex.ReadFault.TheVariants.{Syntax};
ghost use Rattle.lb_readq.specs.Queries.{query_or_write_at, statement_at, ended};
ghost use Rattle.lb_readt.specs.Answering.{Gives};
ghost use Rattle.lb_tok.specs.Refusals.{IsSpelledWithin, FaultSays, StandsAt};
ghost use Rattle.lb_tok.specs.Limit.{most_brackets};

use crate::level::Depth;
use crate::select_statement::select;
use crate::write::{delete, insert, update};
use lb_reade::Brackets;
use lb_readt::{Fault, Read, next_is};
use lb_stmt::Stmt;
use lb_tok::{Kind, ReadFault, Token, Tokens};
use std::alloc::Global;

/// The most brackets that may be open at a time: `most_brackets` of the definitions.
pub const MOST_BRACKETS: u32 = 64;

/// The query or write that the tokens of a text spell. `Syntax` names the byte offset at which the text goes wrong: that of the
/// first token with which no query or write goes on or which opens a 65th bracket, else that of the byte that begins no token,
/// else the length of the text. `NoMemory` where no memory is left.
#[tactic(none)]
pub fn query_or_write(alloc: Global, tokens: &Tokens) -> Result<Stmt, ReadFault>
    requires { length tokens.now.spans ≡ length tokens.now.tokens }
    ensures read { IfOk result (λ s. IsSpelledWithin IsQueryOrWrite most_brackets tokens.now s) }
    ensures refused { IfErr result (λ e. FaultSays IsQueryOrWrite most_brackets tokens.now e) }
{
    match whole(alloc, tokens.tokens.as_slice()) {
        Ok(stmt) => unless_cut(stmt, tokens.stop),
        Err(Fault::Memory) => Err(ReadFault::NoMemory),
        Err(Fault::Bad(rest)) => Err(ReadFault::Syntax(offset(tokens, rest))),
        Err(Fault::Deep(rest)) => Err(ReadFault::Syntax(offset(tokens, rest))),
    }
}

// Reads a query or a write, `query [order] [fetch] | insert | update | delete`.
#[tactic(auto, unfolding(crate::specs::Queries::query_or_write_at))]
fn select_or_write<'a, B: Brackets>(
    alloc: Global,
    tokens: &'a [Token],
    brackets: &B,
) -> Read<'a, Stmt>
    requires { B.ready brackets.now }
    ensures { Gives (λ r. (r.0, r.1.now)) result (query_or_write_at (B.readers brackets.now) tokens.now) }
{
    if next_is(tokens, Kind::Select) {
        let (select, rest) = select(alloc, tokens, brackets)?;
        Ok((Stmt::Select(select), rest))
    } else if next_is(tokens, Kind::Insert) {
        let (insert, rest) = insert(alloc, tokens, brackets)?;
        Ok((Stmt::Insert(insert), rest))
    } else if next_is(tokens, Kind::Update) {
        let (update, rest) = update(alloc, tokens, brackets)?;
        Ok((Stmt::Update(update), rest))
    } else {
        let (delete, rest) = delete(alloc, tokens, brackets)?;
        Ok((Stmt::Delete(delete), rest))
    }
}

// The query or write that all of the tokens spell.
#[tactic(auto, unfolding(crate::specs::Queries::statement_at))]
fn whole<'a>(alloc: Global, tokens: &'a [Token]) -> Result<Stmt, Fault<'a>>
    ensures { Gives (λ s. (s, [])) result (statement_at most_brackets tokens.now) }
{
    let depth = Depth {
        left: MOST_BRACKETS,
    };
    let (stmt, rest) = select_or_write(alloc, tokens, &depth)?;
    at_end(stmt, rest)
}

/// What was read, where no token is left. `Bad` at the first token that is left.
pub fn at_end<'a, T: Drop>(value: T, rest: &'a [Token]) -> Result<T, Fault<'a>>
    ensures { Gives (λ v. (v, [])) result (ended value rest.now) }
{
    match rest {
        [] => Ok(value),
        _ => Err(Fault::Bad(rest)),
    }
}

/// What was read, unless `stop` is the offset of a byte that begins no token: then that is where the text goes wrong.
pub fn unless_cut<T: Drop>(value: T, stop: Option<u32>) -> Result<T, ReadFault>
    ensures ok { IfOk result (λ v. (v ≡ value) × (stop ≡ None)) }
    ensures err { IfErr result (λ e. (at : ℕ) × (stop ≡ Some at) × (e ≡ Syntax at)) }
{
    match stop {
        None => Ok(value),
        Some(stop) => Err(ReadFault::Syntax(stop)),
    }
}

/// The byte offset at which the tokens that are left begin: that of the first of them, else that of the byte that begins no
/// token, else the length of the text.
pub fn offset(found: &Tokens, rest: &[Token]) -> u32
    requires paired { length found.now.spans ≡ length found.now.tokens }
    requires left { (front : List Token) × (found.now.tokens ≡ front ++ rest.now) }
    ensures { (front : List Token) → found.now.tokens ≡ front ++ rest.now → StandsAt found.now front rest.now result }
{
    if rest.is_empty() {
        return found.stop.unwrap_or(found.length);
    }
    match found.spans.at(found.tokens.len() - rest.len()) {
        Some(span) => span.from,
        None => unreachable!(),
    }
}
