// Prints INSERT, UPDATE and DELETE.
#![tactic(auto, using(lb_page::proofs::Rules::laying))]

ghost use Rattle.std.specs.Prelude.{◌≡◌, OnOk, map};
ghost use Rattle.lb_tok.specs.Canonical.{assignment_pieces, delete_pieces, insert_pieces, row_pieces, source_pieces, targets_pieces, update_pieces};
ghost use Rattle.lb_tok.specs.QueryPieces.{listed, where_pieces};
ghost use Rattle.lb_tok.specs.Spacing.{laid};

use lb_base::{Name, NoMemory};
use lb_page::{Page, cond, expr, exprs, names, select, separator, tab};
use lb_stmt::{Assignment, Delete, Insert, InsertSource, Update};
use lb_tok::Kind;
use lb_tree::{Cond, Expr};
use sqlite_items::Items;

/// Lays INSERT.
pub fn insert(page: &mut Page, insert: &Insert) -> Result<(), NoMemory>
    ensures { OnOk result (page.new ≡ laid page.old (insert_pieces insert.now)) }
{
    page.mark(Kind::Insert)?;
    page.mark(Kind::Into)?;
    page.name(&insert.table)?;
    targets(page, &insert.columns)?;
    source(page, &insert.source)
}

fn targets(page: &mut Page, columns: &Option<Items<Name>>) -> Result<(), NoMemory>
    ensures { OnOk result (page.new ≡ laid page.old (targets_pieces columns.now)) }
{
    match columns {
        None => Ok(()),
        Some(columns) => {
            page.mark(Kind::Open)?;
            names(page, columns.as_slice())?;
            page.mark(Kind::Close)
        }
    }
}

fn source(page: &mut Page, source: &InsertSource) -> Result<(), NoMemory>
    ensures { OnOk result (page.new ≡ laid page.old (source_pieces source.now)) }
{
    match source {
        InsertSource::Rows(list) => {
            page.mark(Kind::Values)?;
            rows(page, list.as_slice())
        }
        InsertSource::Query(part) => select(page, part),
    }
}

fn rows(page: &mut Page, rows: &[Items<Expr>]) -> Result<(), NoMemory>
    ensures { OnOk result (page.new ≡ laid page.old (listed (map row_pieces rows.now))) }
{
    for (place, part) in rows.iter().enumerate() {
        separator(page, Kind::Comma, place)?;
        row(page, part.as_slice())?;
    }
    Ok(())
}

fn row(page: &mut Page, row: &[Expr]) -> Result<(), NoMemory>
    ensures { OnOk result (page.new ≡ laid page.old (row_pieces row.now)) }
{
    page.mark(Kind::Open)?;
    exprs(page, row)?;
    page.mark(Kind::Close)
}

/// Lays UPDATE.
pub fn update(page: &mut Page, update: &Update) -> Result<(), NoMemory>
    ensures { OnOk result (page.new ≡ laid page.old (update_pieces update.now)) }
{
    page.mark(Kind::Update)?;
    tab(page, &update.target)?;
    page.mark(Kind::Set)?;
    assignments(page, update.assignments.as_slice())?;
    filter(page, &update.filter)
}

fn assignments(page: &mut Page, assignments: &[Assignment]) -> Result<(), NoMemory>
    ensures { OnOk result (page.new ≡ laid page.old (listed (map assignment_pieces assignments.now))) }
{
    for (place, part) in assignments.iter().enumerate() {
        separator(page, Kind::Comma, place)?;
        assignment(page, part)?;
    }
    Ok(())
}

fn assignment(page: &mut Page, assignment: &Assignment) -> Result<(), NoMemory>
    ensures { OnOk result (page.new ≡ laid page.old (assignment_pieces assignment.now)) }
{
    page.name(&assignment.column)?;
    page.mark(Kind::Equal)?;
    expr(page, &assignment.value)
}

/// Lays DELETE.
pub fn delete(page: &mut Page, delete: &Delete) -> Result<(), NoMemory>
    ensures { OnOk result (page.new ≡ laid page.old (delete_pieces delete.now)) }
{
    page.mark(Kind::Delete)?;
    page.mark(Kind::From)?;
    tab(page, &delete.target)?;
    filter(page, &delete.filter)
}

fn filter(page: &mut Page, filter: &Option<Cond>) -> Result<(), NoMemory>
    ensures { OnOk result (page.new ≡ laid page.old (where_pieces filter.now)) }
{
    match filter {
        None => Ok(()),
        Some(part) => {
            page.mark(Kind::Where)?;
            cond(page, part)
        }
    }
}
