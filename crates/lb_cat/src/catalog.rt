// The records of the catalogue.
use lb_base::{Listing, Name, Names, Parts, Ty};
use lb_label::{Component, Exempt, Shape};
use lb_tree::{Cond, Expr};
use std::sync::Arc;

/// The privileges on a table that may be granted (GRANT (table, view, or nickname privileges) statement).
#[derive(Clone, Copy, Debug, PartialEq, Eq)]
pub struct Privileges {
    pub select: bool,
    pub insert: bool,
    pub update: bool,
    pub delete: bool,
}

/// A column of a table.
#[derive(Drop)]
pub struct ColumnRec {
    pub name: Name,
    pub ty: Ty,
    pub not_null: bool,
    /// The label of the table's policy that protects the column (SECURED WITH).
    pub secured: Option<Name>,
}

/// The columns of a table, in their order.
pub type ColumnRecs = Listing<ColumnRec>;

/// A row permission of a table (CREATE PERMISSION statement).
#[derive(Drop)]
pub struct PermissionRec {
    pub name: Name,
    /// The name by which the condition calls the protected table.
    pub correlation: Name,
    /// The condition, with each of its columns qualified.
    pub condition: Cond,
    pub enabled: bool,
}

/// The row permissions of a table, in the order of creation.
pub type PermissionRecs = Listing<PermissionRec>;

/// A column mask of a table (CREATE MASK statement).
#[derive(Drop)]
pub struct MaskRec {
    pub name: Name,
    /// The masked column's place among the table's columns.
    pub column: u32,
    /// The name by which the CASE calls the masked table.
    pub correlation: Name,
    /// The CASE, with each of its columns qualified.
    pub value: Expr,
    pub enabled: bool,
}

/// The column masks of a table, in the order of creation.
pub type MaskRecs = Listing<MaskRec>;

/// The record of a table, without its rows.
#[derive(Drop)]
pub struct TableRec {
    pub name: Name,
    /// The user who created the table.
    pub owner: Name,
    pub columns: ColumnRecs,
    /// The place of the primary key among the columns.
    pub key: Option<u32>,
    pub policy: Option<Name>,
    /// Row access control is active.
    pub row_control: bool,
    /// Column access control is active.
    pub column_control: bool,
    /// The row permissions in the order of creation.
    pub permissions: PermissionRecs,
    /// The column masks in the order of creation.
    pub masks: MaskRecs,
    /// What every user may do.
    pub public: Privileges,
    /// One more than the place of the last entry that touched the record.
    pub stamp: u64,
}

/// A label of a policy.
#[derive(Drop)]
pub struct LabelRec {
    pub name: Name,
    pub parts: Parts,
}

/// The labels of a policy, in the order of creation.
pub type LabelRecs = Listing<LabelRec>;

/// The record of a security policy.
#[derive(Drop)]
pub struct PolicyRec {
    pub name: Name,
    /// The names of the components, in policy order.
    pub components: Names,
    /// The components, in policy order.
    pub shape: Shape,
    /// A label that may not be written refuses the statement.
    pub restrict: bool,
    pub labels: LabelRecs,
    pub stamp: u64,
}

/// The record of a security label component.
#[derive(Drop)]
pub struct ComponentRec {
    pub name: Name,
    pub component: Arc<Component>,
    pub stamp: u64,
}

/// What a user may do with one table.
#[derive(Drop)]
pub struct Grant {
    pub table: Name,
    pub privileges: Privileges,
}

/// What a user was granted on tables, at most one entry for a table.
pub type Grants = Listing<Grant>;

/// What a user holds of one policy: a label for reading, one for writing, and exemptions.
#[derive(Drop)]
pub struct Holding {
    pub policy: Name,
    pub read: Option<Name>,
    pub write: Option<Name>,
    pub exempt: Exempt,
}

/// What a user holds of policies, at most one entry for a policy.
pub type Holdings = Listing<Holding>;

/// The record of a user to whom something was granted.
#[derive(Drop)]
pub struct UserRec {
    pub name: Name,
    /// The user has SECADM authority.
    pub secadm: bool,
    pub roles: Names,
    pub privileges: Grants,
    pub held: Holdings,
    pub stamp: u64,
}

/// The record of a role.
#[derive(Drop)]
pub struct RoleRec {
    pub name: Name,
}
