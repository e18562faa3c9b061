// The records of the catalogue, and the rows of a table.
use lb_base::{Listing, Name, RowList, Ty};
use lb_tree::Cond;

/// A column of a table.
#[derive(Drop)]
pub struct ColumnRec {
    pub name: Name,
    pub ty: Ty,
}

/// A row permission of a table (CREATE PERMISSION statement).
#[derive(Drop)]
pub struct PermissionRec {
    pub name: Name,
    /// The name by which the condition calls the protected table.
    pub correlation: Name,
    /// The condition, with each of its columns qualified.
    pub condition: Cond,
    pub enabled: bool,
}

/// The record of a table, without its rows.
#[derive(Drop)]
pub struct TableRec {
    pub name: Name,
    /// The user who created the table.
    pub owner: Name,
    pub columns: Listing<ColumnRec>,
    /// Row access control is active.
    pub row_control: bool,
    /// The row permissions in the order of creation.
    pub permissions: Listing<PermissionRec>,
}

/// The rows of a table, which it names, in table order.
#[derive(Drop)]
pub struct TableVersion {
    pub name: Name,
    pub rows: RowList,
}
