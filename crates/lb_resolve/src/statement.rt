// One pass over the names of a whole statement, or of a permission or mask: the target of a write first, then its parts in text order.
ghost use Rattle.std.specs.Prelude.{◌≡◌, IfOk};
ghost use Rattle.lb_names.specs.StatementMarks as statements;
ghost use Rattle.lb_resolve.specs.Passing.{Passes};
ghost use Rattle.lb_resolve.specs.Parts as parts;

use crate::mark::Walk;
use crate::stop::Stop;
use lb_base::{Name, NoMemory};
use lb_scope::{Sight, meant};
use lb_stmt::{Assignment, InsertSource, Stmt};
use lb_tree::{Cond, Expr, Item, Select, SortKey, Tab};
use sqlite_items::Items;

/// Statements.
impl Walk<'_> {
    /// The names in a query or a write. A change of the catalogue has its own rules for names.
    #[tactic(auto, using(crate::proofs::Rules::passing))]
    pub fn statement(&self, stmt: &Stmt) -> Result<(), Stop>
        ensures { Passes result (parts.in_statement self.now stmt.now) }
    {
        match stmt {
            Stmt::Select(select) => self.select(select),
            Stmt::Insert(insert) => {
                let target = target_of(&insert.table)?;
                self.ask_table(&[], &[], &target)?;
                self.source(&insert.source)
            }
            Stmt::Update(update) => {
                self.ask_table(&[], &[], &update.target)?;
                let sight = Sight::over(self.alloc, &update.target)?;
                self.assignments(update.assignments.as_slice(), &sight)?;
                self.filter(&update.filter, &sight)
            }
            Stmt::Delete(delete) => {
                self.ask_table(&[], &[], &delete.target)?;
                let sight = Sight::over(self.alloc, &delete.target)?;
                self.filter(&delete.filter, &sight)
            }
            Stmt::Change(_) => Ok(()),
        }
    }

    /// The names in a query with its ORDER BY, which sees what the select list sees.
    #[tactic(auto, using(crate::proofs::Rules::passing))]
    fn select(&self, select: &Select) -> Result<(), Stop>
        ensures { Passes result (parts.in_select self.now select.now) }
    {
        let nothing = Sight::nothing(self.alloc);
        self.query(&select.query, &nothing)?;
        let sight = nothing.inside(self.alloc, select.query.from.as_slice())?;
        self.keys(
            select.query.items.as_slice(),
            select.order.as_slice(),
            &sight,
        )
    }

    #[tactic(auto, using(crate::proofs::Rules::passing))]
    fn keys(&self, items: &[Item], keys: &[SortKey], sight: &Sight) -> Result<(), Stop>
        ensures { Passes result (parts.in_keys self.now items.now sight.now keys.now) }
    {
        for key in keys {
            self.key(items, &key.by, sight)?;
        }
        Ok(())
    }

    /// A key of ORDER BY. A name that stands for an item is no column.
    fn key(&self, items: &[Item], key: &Expr, sight: &Sight) -> Result<(), Stop>
        ensures { Passes result (parts.in_key self.now items.now sight.now key.now) }
    {
        match meant(items, key) {
            Some(_) => Ok(()),
            None => self.expr(key, sight),
        }
    }

    fn source(&self, source: &InsertSource) -> Result<(), Stop>
        ensures { Passes result (parts.in_source self.now source.now) }
    {
        match source {
            InsertSource::Rows(rows) => self.rows(rows.as_slice(), &Sight::nothing(self.alloc)),
            InsertSource::Query(select) => self.select(select),
        }
    }

    #[tactic(auto, using(crate::proofs::Rules::passing))]
    fn rows(&self, rows: &[Items<Expr>], sight: &Sight) -> Result<(), Stop>
        ensures { Passes result (parts.of_all (parts.of_all (parts.in_expr self.now)) rows.now sight.now) }
    {
        for row in rows {
            self.exprs(row.as_slice(), sight)?;
        }
        Ok(())
    }

    #[tactic(auto, using(crate::proofs::Rules::passing))]
    fn assignments(&self, assignments: &[Assignment], sight: &Sight) -> Result<(), Stop>
        ensures { Passes result (parts.of_all (parts.in_assignment self.now) assignments.now sight.now) }
    {
        for assignment in assignments {
            self.expr(&assignment.value, sight)?;
        }
        Ok(())
    }

    fn filter(&self, filter: &Option<Cond>, sight: &Sight) -> Result<(), Stop>
        ensures { Passes result (parts.of_maybe (parts.in_cond self.now) filter.now sight.now) }
    {
        match filter {
            None => Ok(()),
            Some(cond) => self.cond(cond, sight),
        }
    }
}

/// The target of an INSERT.
fn target_of(table: &Name) -> Result<Tab, NoMemory>
    ensures { IfOk result (λ t. t ≡ statements.target_of table.now) }
{
    let table = table.copy()?;
    Ok(Tab {
        table,
        correlation: None,
    })
}
