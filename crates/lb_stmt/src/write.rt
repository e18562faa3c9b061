// Statements as written: queries, writes and changes.
use crate::Change;
use lb_base::Name;
use lb_tree::{Cond, Expr, Select, Tab};
use sqlite_items::Items;

/// What an INSERT takes its rows from.
#[derive(Drop)]
pub enum InsertSource {
    /// VALUES: one or more rows of one or more expressions.
    Rows(Items<Items<Expr>>),
    Query(Select),
}

/// INSERT INTO table (columns) source
#[derive(Drop)]
pub struct Insert {
    pub table: Name,
    /// The target columns where they are written.
    pub columns: Option<Items<Name>>,
    pub source: InsertSource,
}

/// column = value, of an UPDATE
#[derive(Drop)]
pub struct Assignment {
    pub column: Name,
    pub value: Expr,
}

/// UPDATE target SET .. WHERE ..
#[derive(Drop)]
pub struct Update {
    pub target: Tab,
    pub assignments: Items<Assignment>,
    pub filter: Option<Cond>,
}

/// DELETE FROM target WHERE ..
#[derive(Drop)]
pub struct Delete {
    pub target: Tab,
    pub filter: Option<Cond>,
}

/// A statement: a query, a write, or a change of the catalogue.
#[derive(Drop)]
pub enum Stmt {
    Select(Select),
    Insert(Insert),
    Update(Update),
    Delete(Delete),
    Change(Change),
}
