// Statements that change the catalogue, as written.
use lb_base::{Name, Rule, Str};
use lb_tree::{Cond, Expr, Tab};
use sqlite_items::Items;

/// The type of a column that holds no label. BIGINT, INTEGER and INT are one type.
#[derive(Clone, Copy, Debug, PartialEq, Eq)]
pub enum PlainType {
    Int,
    /// VARCHAR, with the width as written, which may be any literal from 0.
    Text(i64),
    Date,
}

/// The type of a column.
#[derive(Clone, Copy, Debug, PartialEq, Eq)]
pub enum ColumnType {
    Plain(PlainType),
    /// DB2SECURITYLABEL
    Label,
}

/// A column of CREATE TABLE. The order and repetition of its options leave no trace.
#[derive(Drop)]
pub struct ColumnDef {
    pub name: Name,
    pub ty: ColumnType,
    /// NOT NULL is written.
    pub not_null: bool,
    /// PRIMARY KEY is written.
    pub key: bool,
    /// The label of SECURED WITH.
    pub secured: Option<Name>,
}

/// An element of CREATE TABLE: a column, or PRIMARY KEY (column).
#[derive(Drop)]
pub enum Element {
    Column(ColumnDef),
    Key(Name),
}

/// ENABLE or DISABLE. Disable is the default.
#[derive(Clone, Copy, Debug, PartialEq, Eq)]
pub enum Switch {
    Enable,
    Disable,
}

/// ROW or COLUMN access control.
#[derive(Clone, Copy, Debug, PartialEq, Eq)]
pub enum ControlOf {
    Row,
    Column,
}

/// (ACTIVATE | DEACTIVATE) (ROW | COLUMN) ACCESS CONTROL
#[derive(Clone, Copy, Debug, PartialEq, Eq)]
pub struct Activation {
    pub activate: bool,
    pub of: ControlOf,
}

/// An element of a TREE component under another one.
#[derive(Drop)]
pub struct TreeElement {
    pub name: Str,
    pub parent: Str,
}

/// The elements of CREATE SECURITY LABEL COMPONENT, one or more.
#[derive(Drop)]
pub enum ComponentDef {
    Set(Items<Str>),
    /// The highest element first.
    Array(Items<Str>),
    /// The root, and the other elements.
    Tree(Str, Items<TreeElement>),
}

/// (OVERRIDE | RESTRICT) NOT AUTHORIZED WRITE SECURITY LABEL. Override is the default.
#[derive(Clone, Copy, Debug, PartialEq, Eq)]
pub enum WriteOption {
    Override,
    Restrict,
}

/// policy.label
#[derive(Drop)]
pub struct LabelName {
    pub policy: Name,
    pub label: Name,
}

/// COMPONENT name element, .. of CREATE SECURITY LABEL
#[derive(Drop)]
pub struct LabelPart {
    pub component: Name,
    pub elements: Items<Str>,
}

/// FOR (ALL | READ | WRITE) ACCESS. All is the default.
#[derive(Clone, Copy, Debug, PartialEq, Eq)]
pub enum Access {
    All,
    Read,
    Write,
}

/// What an exemption is from: a rule of DB2LBACRULES, or all of them.
#[derive(Clone, Copy, Debug, PartialEq, Eq)]
pub enum Exempted {
    All,
    Rule(Rule),
}

/// A privilege on a table.
#[derive(Clone, Copy, Debug, PartialEq, Eq)]
pub enum Privilege {
    Select,
    Insert,
    Update,
    Delete,
}

/// Whom a privilege is granted to or revoked from.
#[derive(Drop)]
pub enum Grantee {
    User(Name),
    Public,
}

/// CREATE PERMISSION: a row permission.
#[derive(Drop)]
pub struct PermissionDef {
    /// OR REPLACE is written.
    pub replace: bool,
    pub name: Name,
    pub on: Tab,
    pub condition: Cond,
    pub switch: Switch,
}

/// CREATE MASK: a column mask.
#[derive(Drop)]
pub struct MaskDef {
    /// OR REPLACE is written.
    pub replace: bool,
    pub name: Name,
    pub on: Tab,
    pub column: Name,
    /// A CASE of either form.
    pub value: Expr,
    pub switch: Switch,
}

/// CREATE SECURITY POLICY: a label policy.
#[derive(Drop)]
pub struct PolicyDef {
    pub name: Name,
    pub components: Items<Name>,
    pub option: WriteOption,
}

/// A statement that changes the catalogue.
#[derive(Drop)]
pub enum Change {
    /// The table, its elements, and its policy.
    CreateTable(Name, Items<Element>, Option<Name>),
    DropTable(Name),
    /// The table, the new column and its type.
    AddColumn(Name, Name, PlainType),
    /// The table and the policy.
    AddPolicy(Name, Name),
    /// The table, the column and the label.
    SecureColumn(Name, Name, Name),
    /// The table and the column that loses its label.
    UnsecureColumn(Name, Name),
    /// The table and one or two acts.
    Activate(Name, Activation, Option<Activation>),
    CreatePermission(PermissionDef),
    CreateMask(MaskDef),
    SwitchPermission(Name, Switch),
    SwitchMask(Name, Switch),
    DropPermission(Name),
    DropMask(Name),
    CreateComponent(Name, ComponentDef),
    DropComponent(Name),
    CreatePolicy(PolicyDef),
    DropPolicy(Name),
    CreateLabel(LabelName, Items<LabelPart>),
    DropLabel(LabelName),
    /// The label, the user and the access.
    GrantLabel(LabelName, Name, Access),
    RevokeLabel(LabelName, Name),
    /// The rule, the policy and the user.
    GrantExemption(Exempted, Name, Name),
    RevokeExemption(Exempted, Name, Name),
    CreateRole(Name),
    DropRole(Name),
    /// The role and the user.
    GrantRole(Name, Name),
    RevokeRole(Name, Name),
    GrantSecadm(Name),
    RevokeSecadm(Name),
    /// The privileges, the table and the grantee.
    GrantPrivileges(Items<Privilege>, Name, Grantee),
    RevokePrivileges(Items<Privilege>, Name, Grantee),
}
