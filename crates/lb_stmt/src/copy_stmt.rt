// Copies of statements. A tree owns its memory, so what is to be kept and run is copied.
ghost use Rattle.std.specs.Prelude.{◌≡◌, IfOk};

use crate::{
    Assignment, Change, ColumnDef, ComponentDef, Delete, Element, Grantee, Insert, InsertSource,
    LabelName, LabelPart, MaskDef, PermissionDef, PolicyDef, Privilege, Stmt, TreeElement, Update,
};
use lb_base::{Name, NoMemory};
use lb_tree::{Cond, Expr, copy_name, copy_names, copy_texts};
use sqlite_items::Items;
use std::alloc::Global;

fn copy_filter(alloc: Global, filter: &Option<Cond>) -> Result<Option<Cond>, NoMemory>
    ensures { IfOk result (λ c. c ≡ filter.now) }
{
    match filter {
        None => Ok(None),
        Some(cond) => {
            let cond = cond.copy(alloc)?;
            Ok(Some(cond))
        }
    }
}

fn copy_targets(
    alloc: Global,
    columns: &Option<Items<Name>>,
) -> Result<Option<Items<Name>>, NoMemory>
    ensures { IfOk result (λ c. c ≡ columns.now) }
{
    match columns {
        None => Ok(None),
        Some(columns) => {
            let columns = copy_names(alloc, columns.as_slice())?;
            Ok(Some(columns))
        }
    }
}

fn copy_values(alloc: Global, exprs: &[Expr]) -> Result<Items<Expr>, NoMemory>
    ensures { IfOk result (λ c. c ≡ exprs.now) }
{
    let mut copied = Items::new(alloc);
    for expr in exprs {
        copied.push(expr.copy(alloc)?)?;
    }
    Ok(copied)
}

fn copy_value_rows(alloc: Global, rows: &[Items<Expr>]) -> Result<Items<Items<Expr>>, NoMemory>
    ensures { IfOk result (λ c. c ≡ rows.now) }
{
    let mut copied = Items::new(alloc);
    for row in rows {
        copied.push(copy_values(alloc, row.as_slice())?)?;
    }
    Ok(copied)
}

impl InsertSource {
    /// An equal source in memory of its own.
    pub fn copy(&self, alloc: Global) -> Result<InsertSource, NoMemory>
        ensures { IfOk result (λ c. c ≡ self.now) }
    {
        match self {
            InsertSource::Rows(rows) => {
                let rows = copy_value_rows(alloc, rows.as_slice())?;
                Ok(InsertSource::Rows(rows))
            }
            InsertSource::Query(query) => {
                let query = query.copy(alloc)?;
                Ok(InsertSource::Query(query))
            }
        }
    }
}

impl Insert {
    /// An equal INSERT in memory of its own.
    pub fn copy(&self, alloc: Global) -> Result<Insert, NoMemory>
        ensures { IfOk result (λ c. c ≡ self.now) }
    {
        let table = self.table.copy()?;
        let columns = copy_targets(alloc, &self.columns)?;
        let source = self.source.copy(alloc)?;
        Ok(Insert {
            table,
            columns,
            source,
        })
    }
}

impl Assignment {
    /// An equal assignment in memory of its own.
    pub fn copy(&self, alloc: Global) -> Result<Assignment, NoMemory>
        ensures { IfOk result (λ c. c ≡ self.now) }
    {
        let column = self.column.copy()?;
        let value = self.value.copy(alloc)?;
        Ok(Assignment { column, value })
    }
}

fn copy_assignments(
    alloc: Global,
    assignments: &[Assignment],
) -> Result<Items<Assignment>, NoMemory>
    ensures { IfOk result (λ c. c ≡ assignments.now) }
{
    let mut copied = Items::new(alloc);
    for assignment in assignments {
        copied.push(assignment.copy(alloc)?)?;
    }
    Ok(copied)
}

impl Update {
    /// An equal UPDATE in memory of its own.
    pub fn copy(&self, alloc: Global) -> Result<Update, NoMemory>
        ensures { IfOk result (λ c. c ≡ self.now) }
    {
        let target = self.target.copy()?;
        let assignments = copy_assignments(alloc, self.assignments.as_slice())?;
        let filter = copy_filter(alloc, &self.filter)?;
        Ok(Update {
            target,
            assignments,
            filter,
        })
    }
}

impl Delete {
    /// An equal DELETE in memory of its own.
    pub fn copy(&self, alloc: Global) -> Result<Delete, NoMemory>
        ensures { IfOk result (λ c. c ≡ self.now) }
    {
        let target = self.target.copy()?;
        let filter = copy_filter(alloc, &self.filter)?;
        Ok(Delete { target, filter })
    }
}

impl Stmt {
    /// An equal statement in memory of its own.
    pub fn copy(&self, alloc: Global) -> Result<Stmt, NoMemory>
        ensures { IfOk result (λ c. c ≡ self.now) }
    {
        match self {
            Stmt::Select(select) => {
                let select = select.copy(alloc)?;
                Ok(Stmt::Select(select))
            }
            Stmt::Insert(insert) => {
                let insert = insert.copy(alloc)?;
                Ok(Stmt::Insert(insert))
            }
            Stmt::Update(update) => {
                let update = update.copy(alloc)?;
                Ok(Stmt::Update(update))
            }
            Stmt::Delete(delete) => {
                let delete = delete.copy(alloc)?;
                Ok(Stmt::Delete(delete))
            }
            Stmt::Change(change) => {
                let change = change.copy(alloc)?;
                Ok(Stmt::Change(change))
            }
        }
    }
}

impl ColumnDef {
    /// An equal column in memory of its own.
    pub fn copy(&self) -> Result<ColumnDef, NoMemory>
        ensures { IfOk result (λ c. c ≡ self.now) }
    {
        let name = self.name.copy()?;
        let secured = copy_name(&self.secured)?;
        Ok(ColumnDef {
            name,
            ty: self.ty,
            not_null: self.not_null,
            key: self.key,
            secured,
        })
    }
}

impl Element {
    /// An equal element in memory of its own.
    pub fn copy(&self) -> Result<Element, NoMemory>
        ensures { IfOk result (λ c. c ≡ self.now) }
    {
        match self {
            Element::Column(column) => {
                let column = column.copy()?;
                Ok(Element::Column(column))
            }
            Element::Key(name) => {
                let name = name.copy()?;
                Ok(Element::Key(name))
            }
        }
    }
}

fn copy_elements(alloc: Global, elements: &[Element]) -> Result<Items<Element>, NoMemory>
    ensures { IfOk result (λ c. c ≡ elements.now) }
{
    let mut copied = Items::new(alloc);
    for element in elements {
        copied.push(element.copy()?)?;
    }
    Ok(copied)
}

impl TreeElement {
    /// An equal element in memory of its own.
    pub fn copy(&self) -> Result<TreeElement, NoMemory>
        ensures { IfOk result (λ c. c ≡ self.now) }
    {
        let name = self.name.copy()?;
        let parent = self.parent.copy()?;
        Ok(TreeElement { name, parent })
    }
}

fn copy_tree_elements(
    alloc: Global,
    elements: &[TreeElement],
) -> Result<Items<TreeElement>, NoMemory>
    ensures { IfOk result (λ c. c ≡ elements.now) }
{
    let mut copied = Items::new(alloc);
    for element in elements {
        copied.push(element.copy()?)?;
    }
    Ok(copied)
}

impl ComponentDef {
    /// An equal list of elements in memory of its own.
    pub fn copy(&self, alloc: Global) -> Result<ComponentDef, NoMemory>
        ensures { IfOk result (λ c. c ≡ self.now) }
    {
        match self {
            ComponentDef::Set(elements) => {
                let elements = copy_texts(alloc, elements.as_slice())?;
                Ok(ComponentDef::Set(elements))
            }
            ComponentDef::Array(elements) => {
                let elements = copy_texts(alloc, elements.as_slice())?;
                Ok(ComponentDef::Array(elements))
            }
            ComponentDef::Tree(root, others) => {
                let root = root.copy()?;
                let others = copy_tree_elements(alloc, others.as_slice())?;
                Ok(ComponentDef::Tree(root, others))
            }
        }
    }
}

impl LabelName {
    /// An equal name of a label in memory of its own.
    pub fn copy(&self) -> Result<LabelName, NoMemory>
        ensures { IfOk result (λ c. c ≡ self.now) }
    {
        let policy = self.policy.copy()?;
        let label = self.label.copy()?;
        Ok(LabelName { policy, label })
    }
}

impl LabelPart {
    /// An equal part of a label in memory of its own.
    pub fn copy(&self, alloc: Global) -> Result<LabelPart, NoMemory>
        ensures { IfOk result (λ c. c ≡ self.now) }
    {
        let component = self.component.copy()?;
        let elements = copy_texts(alloc, self.elements.as_slice())?;
        Ok(LabelPart {
            component,
            elements,
        })
    }
}

fn copy_parts(alloc: Global, parts: &[LabelPart]) -> Result<Items<LabelPart>, NoMemory>
    ensures { IfOk result (λ c. c ≡ parts.now) }
{
    let mut copied = Items::new(alloc);
    for part in parts {
        copied.push(part.copy(alloc)?)?;
    }
    Ok(copied)
}

impl Grantee {
    /// An equal grantee in memory of its own.
    pub fn copy(&self) -> Result<Grantee, NoMemory>
        ensures { IfOk result (λ c. c ≡ self.now) }
    {
        match self {
            Grantee::User(name) => {
                let name = name.copy()?;
                Ok(Grantee::User(name))
            }
            Grantee::Public => Ok(Grantee::Public),
        }
    }
}

fn copy_privileges(alloc: Global, privileges: &[Privilege]) -> Result<Items<Privilege>, NoMemory>
    ensures { IfOk result (λ c. c ≡ privileges.now) }
{
    let mut copied = Items::new(alloc);
    for privilege in privileges {
        copied.push(*privilege)?;
    }
    Ok(copied)
}

impl PermissionDef {
    /// An equal row permission in memory of its own.
    pub fn copy(&self, alloc: Global) -> Result<PermissionDef, NoMemory>
        ensures { IfOk result (λ c. c ≡ self.now) }
    {
        let name = self.name.copy()?;
        let on = self.on.copy()?;
        let condition = self.condition.copy(alloc)?;
        Ok(PermissionDef {
            replace: self.replace,
            name,
            on,
            condition,
            switch: self.switch,
        })
    }
}

impl MaskDef {
    /// An equal column mask in memory of its own.
    pub fn copy(&self, alloc: Global) -> Result<MaskDef, NoMemory>
        ensures { IfOk result (λ c. c ≡ self.now) }
    {
        let name = self.name.copy()?;
        let on = self.on.copy()?;
        let column = self.column.copy()?;
        let value = self.value.copy(alloc)?;
        Ok(MaskDef {
            replace: self.replace,
            name,
            on,
            column,
            value,
            switch: self.switch,
        })
    }
}

impl PolicyDef {
    /// An equal policy in memory of its own.
    pub fn copy(&self, alloc: Global) -> Result<PolicyDef, NoMemory>
        ensures { IfOk result (λ c. c ≡ self.now) }
    {
        let name = self.name.copy()?;
        let components = copy_names(alloc, self.components.as_slice())?;
        Ok(PolicyDef {
            name,
            components,
            option: self.option,
        })
    }
}

impl Change {
    /// An equal change in memory of its own.
    pub fn copy(&self, alloc: Global) -> Result<Change, NoMemory>
        ensures { IfOk result (λ c. c ≡ self.now) }
    {
        match self {
            Change::CreateTable(table, elements, policy) => {
                let table = table.copy()?;
                let elements = copy_elements(alloc, elements.as_slice())?;
                let policy = copy_name(policy)?;
                Ok(Change::CreateTable(table, elements, policy))
            }
            Change::DropTable(table) => {
                let table = table.copy()?;
                Ok(Change::DropTable(table))
            }
            Change::AddColumn(table, column, ty) => {
                let table = table.copy()?;
                let column = column.copy()?;
                Ok(Change::AddColumn(table, column, *ty))
            }
            Change::AddPolicy(table, policy) => {
                let table = table.copy()?;
                let policy = policy.copy()?;
                Ok(Change::AddPolicy(table, policy))
            }
            Change::SecureColumn(table, column, label) => {
                let table = table.copy()?;
                let column = column.copy()?;
                let label = label.copy()?;
                Ok(Change::SecureColumn(table, column, label))
            }
            Change::UnsecureColumn(table, column) => {
                let table = table.copy()?;
                let column = column.copy()?;
                Ok(Change::UnsecureColumn(table, column))
            }
            Change::Activate(table, first, second) => {
                let table = table.copy()?;
                Ok(Change::Activate(table, *first, *second))
            }
            Change::CreatePermission(permission) => {
                let permission = permission.copy(alloc)?;
                Ok(Change::CreatePermission(permission))
            }
            Change::CreateMask(mask) => {
                let mask = mask.copy(alloc)?;
                Ok(Change::CreateMask(mask))
            }
            Change::SwitchPermission(name, switch) => {
                let name = name.copy()?;
                Ok(Change::SwitchPermission(name, *switch))
            }
            Change::SwitchMask(name, switch) => {
                let name = name.copy()?;
                Ok(Change::SwitchMask(name, *switch))
            }
            Change::DropPermission(name) => {
                let name = name.copy()?;
                Ok(Change::DropPermission(name))
            }
            Change::DropMask(name) => {
                let name = name.copy()?;
                Ok(Change::DropMask(name))
            }
            Change::CreateComponent(name, def) => {
                let name = name.copy()?;
                let def = def.copy(alloc)?;
                Ok(Change::CreateComponent(name, def))
            }
            Change::DropComponent(name) => {
                let name = name.copy()?;
                Ok(Change::DropComponent(name))
            }
            Change::CreatePolicy(policy) => {
                let policy = policy.copy(alloc)?;
                Ok(Change::CreatePolicy(policy))
            }
            Change::DropPolicy(name) => {
                let name = name.copy()?;
                Ok(Change::DropPolicy(name))
            }
            Change::CreateLabel(label, parts) => {
                let label = label.copy()?;
                let parts = copy_parts(alloc, parts.as_slice())?;
                Ok(Change::CreateLabel(label, parts))
            }
            Change::DropLabel(label) => {
                let label = label.copy()?;
                Ok(Change::DropLabel(label))
            }
            Change::GrantLabel(label, user, access) => {
                let label = label.copy()?;
                let user = user.copy()?;
                Ok(Change::GrantLabel(label, user, *access))
            }
            Change::RevokeLabel(label, user) => {
                let label = label.copy()?;
                let user = user.copy()?;
                Ok(Change::RevokeLabel(label, user))
            }
            Change::GrantExemption(rule, policy, user) => {
                let policy = policy.copy()?;
                let user = user.copy()?;
                Ok(Change::GrantExemption(*rule, policy, user))
            }
            Change::RevokeExemption(rule, policy, user) => {
                let policy = policy.copy()?;
                let user = user.copy()?;
                Ok(Change::RevokeExemption(*rule, policy, user))
            }
            Change::CreateRole(role) => {
                let role = role.copy()?;
                Ok(Change::CreateRole(role))
            }
            Change::DropRole(role) => {
                let role = role.copy()?;
                Ok(Change::DropRole(role))
            }
            Change::GrantRole(role, user) => {
                let role = role.copy()?;
                let user = user.copy()?;
                Ok(Change::GrantRole(role, user))
            }
            Change::RevokeRole(role, user) => {
                let role = role.copy()?;
                let user = user.copy()?;
                Ok(Change::RevokeRole(role, user))
            }
            Change::GrantSecadm(user) => {
                let user = user.copy()?;
                Ok(Change::GrantSecadm(user))
            }
            Change::RevokeSecadm(user) => {
                let user = user.copy()?;
                Ok(Change::RevokeSecadm(user))
            }
            Change::GrantPrivileges(privileges, table, to) => {
                let privileges = copy_privileges(alloc, privileges.as_slice())?;
                let table = table.copy()?;
                let to = to.copy()?;
                Ok(Change::GrantPrivileges(privileges, table, to))
            }
            Change::RevokePrivileges(privileges, table, from) => {
                let privileges = copy_privileges(alloc, privileges.as_slice())?;
                let table = table.copy()?;
                let from = from.copy()?;
                Ok(Change::RevokePrivileges(privileges, table, from))
            }
        }
    }
}
