// Prints conditions, with parentheses exactly where a part holds together less tightly than its place asks.
#![tactic(auto, using(crate::proofs::Rules::conditions))]

ghost use Rattle.std.specs.Prelude.{◌≡◌, OnOk, map};
ghost use Rattle.lb_tok.specs.Spacing.{laid};
ghost use Rattle.lb_tok.specs.QueryPieces.{at_least, clause, cond_phrase, cond_pieces, option_of, parens, query_pieces, separated};

use crate::expression::{expr, exprs};
use crate::list::separator;
use crate::page::Page;
use crate::query::query;
use crate::word::comparison;
use lb_base::NoMemory;
use lb_tok::Kind;
use lb_tree::{Cond, Query};
use sqlite_items::Boxed;

// How tightly the condition holds together: 0 for a list of OR, 1 for one of AND, 2 for NOT, else 3.
fn cond_rank(cond: &Cond) -> u8
    ensures { result ≡ (cond_phrase cond.now).rank }
{
    match cond {
        Cond::Or(_) => 0,
        Cond::And(_) => 1,
        Cond::Not(_) => 2,
        Cond::Exists(_) => 3,
        Cond::Compare(_, _, _) => 3,
        Cond::CompareQuery(_, _, _) => 3,
        Cond::IsNull(_) => 3,
        Cond::InQuery(_, _) => 3,
        Cond::InList(_, _) => 3,
        Cond::Between(_, _, _) => 3,
    }
}

/// Lays a condition.
#[cycle(prints)]
pub fn cond(page: &mut Page, cond: &Cond) -> Result<(), NoMemory>
    ensures { OnOk result (page.new ≡ laid page.old (cond_pieces cond.now)) }
{
    match cond {
        Cond::Or(parts) => operands(page, Kind::Or, 1, parts.as_slice()),
        Cond::And(parts) => operands(page, Kind::And, 2, parts.as_slice()),
        Cond::Not(part) => {
            page.mark(Kind::Not)?;
            operand(page, 3, part.get())
        }
        Cond::Exists(inner) => {
            page.mark(Kind::Exists)?;
            subquery(page, inner.get())
        }
        Cond::Compare(by, left, right) => {
            expr(page, left.get())?;
            page.mark(comparison(*by))?;
            expr(page, right.get())
        }
        Cond::CompareQuery(by, left, inner) => {
            expr(page, left.get())?;
            page.mark(comparison(*by))?;
            subquery(page, inner.get())
        }
        Cond::IsNull(part) => {
            expr(page, part.get())?;
            page.mark(Kind::Is)?;
            page.mark(Kind::Null)
        }
        Cond::InQuery(part, inner) => {
            expr(page, part.get())?;
            page.mark(Kind::In)?;
            subquery(page, inner.get())
        }
        Cond::InList(part, list) => {
            expr(page, part.get())?;
            page.mark(Kind::In)?;
            page.mark(Kind::Open)?;
            exprs(page, list.as_slice())?;
            page.mark(Kind::Close)
        }
        Cond::Between(part, low, high) => {
            expr(page, part.get())?;
            page.mark(Kind::Between)?;
            expr(page, low.get())?;
            page.mark(Kind::And)?;
            expr(page, high.get())
        }
    }
}

// The condition, in parentheses unless it holds together as tightly as `rank`.
#[cycle(prints)]
fn operand(page: &mut Page, rank: u8, part: &Cond) -> Result<(), NoMemory>
    ensures { OnOk result (page.new ≡ laid page.old (at_least rank (cond_phrase part.now))) }
{
    if rank <= cond_rank(part) {
        cond(page, part)
    } else {
        page.mark(Kind::Open)?;
        cond(page, part)?;
        page.mark(Kind::Close)
    }
}

// Conditions with their operator between them.
#[cycle(prints)]
fn operands(page: &mut Page, kind: Kind, rank: u8, parts: &[Cond]) -> Result<(), NoMemory>
    ensures { OnOk result (page.new ≡ laid page.old (separated kind (map (λ x. at_least rank (cond_phrase x)) parts.now))) }
{
    for (place, part) in parts.iter().enumerate() {
        separator(page, kind, place)?;
        operand(page, rank, part)?;
    }
    Ok(())
}

// A query in parentheses.
#[cycle(prints)]
fn subquery(page: &mut Page, inner: &Query) -> Result<(), NoMemory>
    ensures { OnOk result (page.new ≡ laid page.old (parens (query_pieces inner.now))) }
{
    page.mark(Kind::Open)?;
    query(page, inner)?;
    page.mark(Kind::Close)
}

/// Lays the word and the condition after it, where there is one.
#[cycle(prints)]
pub fn cond_clause(page: &mut Page, kind: Kind, part: &Option<Boxed<Cond>>) -> Result<(), NoMemory>
    ensures { OnOk result (page.new ≡ laid page.old (clause kind (option_of cond_pieces part.now))) }
{
    match part {
        None => Ok(()),
        Some(part) => {
            page.mark(kind)?;
            cond(page, part.get())
        }
    }
}
