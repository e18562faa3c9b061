//! Statements as they are written: queries, writes and changes of the catalogue.
#![tactic(auto)]

mod change;
mod copy_stmt;
mod write;

pub use change::{
    Access, Activation, Change, ColumnDef, ColumnType, ComponentDef, ControlOf, Element, Exempted,
    Grantee, LabelName, LabelPart, MaskDef, PermissionDef, PlainType, PolicyDef, Privilege, Switch,
    TreeElement, WriteOption,
};
pub use write::{Assignment, Delete, Insert, InsertSource, Stmt, Update};
