// Prints any statement: the public call, `canonical`.
#![tactic(auto, using(lb_page::proofs::Rules::laying))]

ghost use Rattle.std.specs.Prelude.{◌≡◌, OnOk, IfOk};
ghost use Rattle.lb_tok.specs.Canonical.{canonical as canonical_text, stmt_pieces};
ghost use Rattle.lb_tok.specs.Spacing.{laid};

use crate::change::change;
use crate::write::{delete, insert, update};
use lb_base::{NoMemory, Str};
use lb_page::{Page, select};
use lb_stmt::Stmt;
use std::alloc::Global;

/// The canonical text of a statement. The only error is out of memory.
#[tactic(auto, using(lb_page::proofs::Rules::laying), unfolding(lb_tok::specs::Canonical::canonical))]
pub fn canonical(alloc: Global, stmt: &Stmt) -> Result<Str, NoMemory>
    ensures { IfOk result (λ t. t ≡ canonical_text stmt.now) }
{
    let mut page = Page::empty(alloc);
    statement(&mut page, stmt)?;
    Ok(page.into_text())
}

fn statement(page: &mut Page, stmt: &Stmt) -> Result<(), NoMemory>
    ensures { OnOk result (page.new ≡ laid page.old (stmt_pieces stmt.now)) }
{
    match stmt {
        Stmt::Select(part) => select(page, part),
        Stmt::Insert(part) => insert(page, part),
        Stmt::Update(part) => update(page, part),
        Stmt::Delete(part) => delete(page, part),
        Stmt::Change(part) => change(page, part),
    }
}
