// Conditions: each function reads one production, and looks one token ahead.
ghost use Rattle.std.specs.Prelude.{◌≡◌, ◌<◌};
ghost use Rattle.lb_tok.specs.Kinds.{only};
ghost use Rattle.lb_tok.specs.declared.kind.Kind.TheVariants as kinds;
ghost use Rattle.lb_readt.specs.Readers.{heads, many, after};
ghost use Rattle.lb_readt.specs.Answering.{Gives};
ghost use Rattle.lb_reade.specs.Bracketed.{mixed_of, side_of};
ghost use Rattle.lb_reade.specs.Expressions.{parens, null_test_at, set_at, range_at, side_at, compared_at, pred_at, in_pred, may_pred, exists_at, prim_at, may_prim, neg_at, may_neg, and_on, conj_at, or_on, cond_at, mixed_at};

use crate::brackets::Brackets;
use crate::expression::{expr, exprs, plain, rest_on};
use crate::inside::{Mixed, Side};
use lb_readt::{Read, comparison, further, next_is, next_is_comparison, take, take_if, with_first};
use lb_tok::{Kind, Token};
use lb_tree::{Comparison, Cond, Expr};
use sqlite_items::{Boxed, Items};
use std::alloc::Global;

// [NOT] NULL
#[tactic(auto, unfolding(crate::specs::Expressions::null_test_at))]
fn null_test<'a>(alloc: Global, tokens: &'a [Token], left: Expr) -> Read<'a, Cond>
    ensures { Gives (λ r. (r.0, r.1.now)) result (null_test_at left tokens.now) }
{
    if let Some(rest) = take_if(tokens, Kind::Not) {
        let rest = take(rest, Kind::Null)?;
        let test = Cond::IsNull(Boxed::new(alloc, left)?);
        Ok((Cond::Not(Boxed::new(alloc, test)?), rest))
    } else {
        let rest = take(tokens, Kind::Null)?;
        Ok((Cond::IsNull(Boxed::new(alloc, left)?), rest))
    }
}

// query | expr {, expr}
#[tactic(auto, unfolding(crate::specs::Expressions::set_at))]
fn set<'a, B: Brackets>(
    alloc: Global,
    tokens: &'a [Token],
    brackets: &B,
    left: Expr,
) -> Read<'a, Cond>
    requires { B.ready brackets.now }
    ensures { Gives (λ r. (r.0, r.1.now)) result (set_at (B.readers brackets.now) left tokens.now) }
{
    let left = Boxed::new(alloc, left)?;
    if next_is(tokens, Kind::Select) {
        let (query, rest) = brackets.query(alloc, tokens)?;
        Ok((Cond::InQuery(left, Boxed::new(alloc, query)?), rest))
    } else {
        let (values, rest) = exprs(alloc, tokens, brackets)?;
        Ok((Cond::InList(left, values), rest))
    }
}

// IN "(" (query | expr {, expr}) ")" | BETWEEN expr AND expr
#[tactic(auto, unfolding(crate::specs::Expressions::range_at))]
fn range<'a, B: Brackets>(
    alloc: Global,
    tokens: &'a [Token],
    brackets: &B,
    left: Expr,
) -> Read<'a, Cond>
    requires { B.ready brackets.now }
    ensures { Gives (λ r. (r.0, r.1.now)) result (range_at (B.readers brackets.now) left tokens.now) }
{
    if let Some(rest) = take_if(tokens, Kind::In) {
        let rest = brackets.open(rest, Kind::Open)?;
        let (value, rest) = set(alloc, rest, brackets, left)?;
        let rest = take(rest, Kind::Close)?;
        Ok((value, rest))
    } else {
        let rest = take(tokens, Kind::Between)?;
        let (low, rest) = expr(alloc, rest, brackets)?;
        let rest = take(rest, Kind::And)?;
        let (high, rest) = expr(alloc, rest, brackets)?;
        let left = Boxed::new(alloc, left)?;
        let low = Boxed::new(alloc, low)?;
        let high = Boxed::new(alloc, high)?;
        Ok((Cond::Between(left, low, high), rest))
    }
}

// query | expr
#[tactic(auto, unfolding(crate::specs::Expressions::side_at))]
fn side<'a, B: Brackets>(alloc: Global, tokens: &'a [Token], brackets: &B) -> Read<'a, Side>
    requires { B.ready brackets.now }
    ensures { Gives (λ r. (side_of r.0, r.1.now)) result (side_at (B.readers brackets.now) tokens.now) }
{
    if next_is(tokens, Kind::Select) {
        let (query, rest) = brackets.query(alloc, tokens)?;
        Ok((Side::Query(query), rest))
    } else {
        let (value, rest) = brackets.expr(alloc, tokens)?;
        Ok((Side::Expr(value), rest))
    }
}

// "(" query ")" | expr, after a comparison sign
#[tactic(auto, unfolding(crate::specs::Expressions::compared_at))]
fn compared<'a, B: Brackets>(
    alloc: Global,
    tokens: &'a [Token],
    brackets: &B,
    left: Expr,
    comparison: Comparison,
) -> Read<'a, Cond>
    requires { B.ready brackets.now }
    ensures { Gives (λ r. (r.0, r.1.now)) result (compared_at (B.readers brackets.now) left comparison tokens.now) }
{
    let left = Boxed::new(alloc, left)?;
    if next_is(tokens, Kind::Open) {
        let rest = brackets.open(tokens, Kind::Open)?;
        let (side, rest) = side(alloc, rest, brackets)?;
        let rest = take(rest, Kind::Close)?;
        match side {
            Side::Query(query) => {
                let query = Boxed::new(alloc, query)?;
                Ok((Cond::CompareQuery(comparison, left, query), rest))
            }
            Side::Expr(first) => {
                let (right, rest) = rest_on(alloc, rest, brackets, first)?;
                let right = Boxed::new(alloc, right)?;
                Ok((Cond::Compare(comparison, left, right), rest))
            }
        }
    } else {
        let (first, rest) = plain(alloc, tokens, brackets)?;
        let (right, rest) = rest_on(alloc, rest, brackets, first)?;
        let right = Boxed::new(alloc, right)?;
        Ok((Cond::Compare(comparison, left, right), rest))
    }
}

// pred = cmp .. | IS [NOT] NULL | [NOT] IN .. | [NOT] BETWEEN ..
#[tactic(auto, unfolding(crate::specs::Expressions::pred_at))]
fn pred<'a, B: Brackets>(
    alloc: Global,
    tokens: &'a [Token],
    brackets: &B,
    left: Expr,
) -> Read<'a, Cond>
    requires { B.ready brackets.now }
    ensures { Gives (λ r. (r.0, r.1.now)) result (pred_at (B.readers brackets.now) left tokens.now) }
{
    if next_is_comparison(tokens) {
        let (comparison, rest) = comparison(tokens)?;
        compared(alloc, rest, brackets, left, comparison)
    } else if let Some(rest) = take_if(tokens, Kind::Is) {
        null_test(alloc, rest, left)
    } else if let Some(rest) = take_if(tokens, Kind::Not) {
        let (value, rest) = range(alloc, rest, brackets, left)?;
        Ok((Cond::Not(Boxed::new(alloc, value)?), rest))
    } else {
        range(alloc, tokens, brackets, left)
    }
}

// Whether the next token begins a predicate.
#[tactic(auto, using(crate::proofs::Among::in_pred_is))]
fn next_is_predicate(tokens: &[Token]) -> bool
    ensures { result ≡ heads in_pred tokens.now }
{
    match tokens {
        [] => false,
        [first, ..] => {
            first.kind.is_within(Kind::Equal, Kind::AtLeast)
                || first.kind.is(Kind::Is)
                || first.kind.is(Kind::Not)
                || first.kind.is(Kind::In)
                || first.kind.is(Kind::Between)
        }
    }
}

// What follows an expression in a parenthesis at the head of a condition: a predicate, or nothing.
#[tactic(auto, unfolding(crate::specs::Expressions::may_pred))]
fn may_pred<'a, B: Brackets>(
    alloc: Global,
    tokens: &'a [Token],
    brackets: &B,
    left: Expr,
) -> Read<'a, Mixed>
    requires { B.ready brackets.now }
    ensures { Gives (λ r. (mixed_of r.0, r.1.now)) result (may_pred (B.readers brackets.now) left tokens.now) }
{
    if next_is_predicate(tokens) {
        let (value, rest) = pred(alloc, tokens, brackets, left)?;
        Ok((Mixed::Cond(value), rest))
    } else {
        Ok((Mixed::Expr(left), tokens))
    }
}

// EXISTS "(" query ")"
#[tactic(auto, unfolding(crate::specs::Expressions::exists_at))]
fn exists<'a, B: Brackets>(alloc: Global, tokens: &'a [Token], brackets: &B) -> Read<'a, Cond>
    requires { B.ready brackets.now }
    ensures { Gives (λ r. (r.0, r.1.now)) result (exists_at (B.readers brackets.now) tokens.now) }
{
    let rest = take(tokens, Kind::Exists)?;
    let rest = brackets.open(rest, Kind::Open)?;
    let (query, rest) = brackets.query(alloc, rest)?;
    let rest = take(rest, Kind::Close)?;
    Ok((Cond::Exists(Boxed::new(alloc, query)?), rest))
}

// A parenthesis at the head of a condition, with a condition or an expression in it.
fn in_brackets<'a, B: Brackets>(alloc: Global, tokens: &'a [Token], brackets: &B) -> Read<'a, Mixed>
    requires { B.ready brackets.now }
    ensures { Gives (λ r. (mixed_of r.0, r.1.now)) result (parens (B.readers brackets.now) (B.readers brackets.now).mixed tokens.now) }
{
    let rest = brackets.open(tokens, Kind::Open)?;
    let (value, rest) = brackets.mixed(alloc, rest)?;
    let rest = take(rest, Kind::Close)?;
    Ok((value, rest))
}

// prim = "(" cond ")" | EXISTS "(" query ")" | expr pred
#[tactic(auto, unfolding(crate::specs::Expressions::prim_at, crate::specs::Expressions::prim_with))]
fn prim<'a, B: Brackets>(alloc: Global, tokens: &'a [Token], brackets: &B) -> Read<'a, Cond>
    requires { B.ready brackets.now }
    ensures { Gives (λ r. (r.0, r.1.now)) result (prim_at (B.readers brackets.now) tokens.now) }
{
    if next_is(tokens, Kind::Exists) {
        exists(alloc, tokens, brackets)
    } else if next_is(tokens, Kind::Open) {
        let (inside, rest) = in_brackets(alloc, tokens, brackets)?;
        match inside {
            Mixed::Cond(value) => Ok((value, rest)),
            Mixed::Expr(first) => {
                let (left, rest) = rest_on(alloc, rest, brackets, first)?;
                pred(alloc, rest, brackets, left)
            }
        }
    } else {
        let (first, rest) = plain(alloc, tokens, brackets)?;
        let (left, rest) = rest_on(alloc, rest, brackets, first)?;
        pred(alloc, rest, brackets, left)
    }
}

// prim, or an expression with which one may begin
#[tactic(auto, unfolding(crate::specs::Expressions::may_prim, crate::specs::Expressions::prim_with))]
fn may_prim<'a, B: Brackets>(alloc: Global, tokens: &'a [Token], brackets: &B) -> Read<'a, Mixed>
    requires { B.ready brackets.now }
    ensures { Gives (λ r. (mixed_of r.0, r.1.now)) result (may_prim (B.readers brackets.now) tokens.now) }
{
    if next_is(tokens, Kind::Exists) {
        let (value, rest) = exists(alloc, tokens, brackets)?;
        Ok((Mixed::Cond(value), rest))
    } else if next_is(tokens, Kind::Open) {
        let (inside, rest) = in_brackets(alloc, tokens, brackets)?;
        match inside {
            Mixed::Cond(value) => Ok((Mixed::Cond(value), rest)),
            Mixed::Expr(first) => {
                let (left, rest) = rest_on(alloc, rest, brackets, first)?;
                may_pred(alloc, rest, brackets, left)
            }
        }
    } else {
        let (first, rest) = plain(alloc, tokens, brackets)?;
        let (left, rest) = rest_on(alloc, rest, brackets, first)?;
        may_pred(alloc, rest, brackets, left)
    }
}

// neg = [NOT] prim
#[tactic(auto, unfolding(crate::specs::Expressions::neg_at))]
fn neg<'a, B: Brackets>(alloc: Global, tokens: &'a [Token], brackets: &B) -> Read<'a, Cond>
    requires { B.ready brackets.now }
    ensures { Gives (λ r. (r.0, r.1.now)) result (neg_at (B.readers brackets.now) tokens.now) }
{
    if let Some(rest) = take_if(tokens, Kind::Not) {
        let (value, rest) = prim(alloc, rest, brackets)?;
        Ok((Cond::Not(Boxed::new(alloc, value)?), rest))
    } else {
        prim(alloc, tokens, brackets)
    }
}

// neg, or an expression with which one may begin
#[tactic(auto, unfolding(crate::specs::Expressions::may_neg))]
fn may_neg<'a, B: Brackets>(alloc: Global, tokens: &'a [Token], brackets: &B) -> Read<'a, Mixed>
    requires { B.ready brackets.now }
    ensures { Gives (λ r. (mixed_of r.0, r.1.now)) result (may_neg (B.readers brackets.now) tokens.now) }
{
    if let Some(rest) = take_if(tokens, Kind::Not) {
        let (value, rest) = prim(alloc, rest, brackets)?;
        Ok((Mixed::Cond(Cond::Not(Boxed::new(alloc, value)?)), rest))
    } else {
        may_prim(alloc, tokens, brackets)
    }
}

// {AND neg}
fn negs<'a, B: Brackets>(alloc: Global, tokens: &'a [Token], brackets: &B) -> Read<'a, Items<Cond>>
    requires { B.ready brackets.now }
    ensures { Gives (λ r. (r.0, r.1.now)) result (many (only kinds.And) (after kinds.And (neg_at (B.readers brackets.now))) tokens.now) }
{
    further(alloc, tokens, Kind::And, |rest| neg(alloc, rest, brackets))
}

// The rest of conj after its first part, which alone makes no list.
#[tactic(auto, unfolding(crate::specs::Expressions::and_on))]
fn and_on<'a, B: Brackets>(
    alloc: Global,
    tokens: &'a [Token],
    brackets: &B,
    first: Cond,
) -> Read<'a, Cond>
    requires { B.ready brackets.now }
    ensures { Gives (λ r. (r.0, r.1.now)) result (and_on (B.readers brackets.now) first tokens.now) }
{
    let (more, rest) = negs(alloc, tokens, brackets)?;
    if more.is_empty() {
        Ok((first, rest))
    } else {
        Ok((Cond::And(with_first(alloc, first, more)?), rest))
    }
}

// conj = neg {AND neg}
#[tactic(auto, unfolding(crate::specs::Expressions::conj_at))]
fn conj<'a, B: Brackets>(alloc: Global, tokens: &'a [Token], brackets: &B) -> Read<'a, Cond>
    requires { B.ready brackets.now }
    ensures { Gives (λ r. (r.0, r.1.now)) result (conj_at (B.readers brackets.now) tokens.now) }
{
    let (first, rest) = neg(alloc, tokens, brackets)?;
    and_on(alloc, rest, brackets, first)
}

// {OR conj}
fn conjs<'a, B: Brackets>(alloc: Global, tokens: &'a [Token], brackets: &B) -> Read<'a, Items<Cond>>
    requires { B.ready brackets.now }
    ensures { Gives (λ r. (r.0, r.1.now)) result (many (only kinds.Or) (after kinds.Or (conj_at (B.readers brackets.now))) tokens.now) }
{
    further(alloc, tokens, Kind::Or, |rest| conj(alloc, rest, brackets))
}

// The rest of cond after its first part, which alone makes no list.
#[tactic(auto, unfolding(crate::specs::Expressions::or_on))]
fn or_on<'a, B: Brackets>(
    alloc: Global,
    tokens: &'a [Token],
    brackets: &B,
    first: Cond,
) -> Read<'a, Cond>
    requires { B.ready brackets.now }
    ensures { Gives (λ r. (r.0, r.1.now)) result (or_on (B.readers brackets.now) first tokens.now) }
{
    let (more, rest) = conjs(alloc, tokens, brackets)?;
    if more.is_empty() {
        Ok((first, rest))
    } else {
        Ok((Cond::Or(with_first(alloc, first, more)?), rest))
    }
}

/// Reads a condition, `conj {OR conj}` of the grammar. `Bad` where the tokens spell none.
#[tactic(auto, unfolding(crate::specs::Expressions::cond_at))]
pub fn cond<'a, B: Brackets>(alloc: Global, tokens: &'a [Token], brackets: &B) -> Read<'a, Cond>
    requires { B.ready brackets.now }
    ensures { Gives (λ r. (r.0, r.1.now)) result (cond_at (B.readers brackets.now) tokens.now) }
{
    let (first, rest) = conj(alloc, tokens, brackets)?;
    or_on(alloc, rest, brackets, first)
}

/// Reads what stands in a parenthesis at the head of a condition: a condition, or an expression with which one may begin.
/// Both are read in one pass, so that an error stands where neither goes on.
#[tactic(auto, unfolding(crate::specs::Expressions::mixed_at))]
pub fn mixed<'a, B: Brackets>(alloc: Global, tokens: &'a [Token], brackets: &B) -> Read<'a, Mixed>
    requires { B.ready brackets.now }
    ensures { Gives (λ r. (mixed_of r.0, r.1.now)) result (mixed_at (B.readers brackets.now) tokens.now) }
{
    let (first, rest) = may_neg(alloc, tokens, brackets)?;
    match first {
        Mixed::Cond(first) => {
            let (first, rest) = and_on(alloc, rest, brackets, first)?;
            let (value, rest) = or_on(alloc, rest, brackets, first)?;
            Ok((Mixed::Cond(value), rest))
        }
        Mixed::Expr(value) => Ok((Mixed::Expr(value), rest)),
    }
}
