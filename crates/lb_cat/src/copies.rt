// Copies of records in memory of their own: what a change of a record begins with.
ghost use Rattle.std.specs.Prelude.{◌≡◌, IfOk};
ghost use Rattle.lb_cat.specs.Stamps.{IsAlikeComponent};

use crate::catalog::{
    ColumnRec, ComponentRec, Grant, Holding, LabelRec, MaskRec, PermissionRec, PolicyRec, RoleRec,
    TableRec, UserRec,
};
use arrayvec::ArrayVec;
use lb_base::{Listing, NoMemory, Parts};
use lb_tree::copy_name;
use std::alloc::Global;

/// What is copied with all that it owns.
pub trait Copied: Sized + Drop {
    /// An equal record in memory of its own.
    fn copy(&self, alloc: Global) -> Result<Self, NoMemory>
        ensures { IfOk result (λ c. c ≡ self.now) };
}

/// Equal records in memory of their own, in the same order.
pub fn copy_records<R: Copied>(alloc: Global, records: &[R]) -> Result<Listing<R>, NoMemory>
    ensures { IfOk result (λ c. c ≡ records.now) }
{
    let mut copied = Listing::empty(alloc);
    for record in records {
        copied.push(record.copy(alloc)?)?;
    }
    Ok(copied)
}

impl Copied for ColumnRec {
    fn copy(&self, _alloc: Global) -> Result<Self, NoMemory> {
        let name = self.name.copy()?;
        let ty = self.ty.copy()?;
        let secured = copy_name(&self.secured)?;
        Ok(ColumnRec {
            name,
            ty,
            not_null: self.not_null,
            secured,
        })
    }
}

impl Copied for PermissionRec {
    fn copy(&self, alloc: Global) -> Result<Self, NoMemory> {
        let name = self.name.copy()?;
        let correlation = self.correlation.copy()?;
        let condition = self.condition.copy(alloc)?;
        Ok(PermissionRec {
            name,
            correlation,
            condition,
            enabled: self.enabled,
        })
    }
}

impl Copied for MaskRec {
    fn copy(&self, alloc: Global) -> Result<Self, NoMemory> {
        let name = self.name.copy()?;
        let correlation = self.correlation.copy()?;
        let value = self.value.copy(alloc)?;
        Ok(MaskRec {
            name,
            column: self.column,
            correlation,
            value,
            enabled: self.enabled,
        })
    }
}

impl Copied for TableRec {
    fn copy(&self, alloc: Global) -> Result<Self, NoMemory> {
        let name = self.name.copy()?;
        let owner = self.owner.copy()?;
        let columns = copy_records(alloc, self.columns.as_slice())?;
        let policy = copy_name(&self.policy)?;
        let permissions = copy_records(alloc, self.permissions.as_slice())?;
        let masks = copy_records(alloc, self.masks.as_slice())?;
        Ok(TableRec {
            name,
            owner,
            columns,
            key: self.key,
            policy,
            row_control: self.row_control,
            column_control: self.column_control,
            permissions,
            masks,
            public: self.public,
            stamp: self.stamp,
        })
    }
}

/// An equal label. It takes no memory.
pub fn copy_parts(parts: &Parts) -> Parts
    ensures { result ≡ parts.now }
{
    let mut copied = ArrayVec::new();
    for part in parts.as_slice() {
        copied.push(*part);
    }
    copied
}

impl Copied for LabelRec {
    fn copy(&self, _alloc: Global) -> Result<Self, NoMemory> {
        let name = self.name.copy()?;
        let parts = copy_parts(&self.parts);
        Ok(LabelRec { name, parts })
    }
}

impl Copied for PolicyRec {
    fn copy(&self, alloc: Global) -> Result<Self, NoMemory> {
        let name = self.name.copy()?;
        let components = self.components.copy(alloc)?;
        let shape = self.shape.copy()?;
        let labels = copy_records(alloc, self.labels.as_slice())?;
        Ok(PolicyRec {
            name,
            components,
            shape,
            restrict: self.restrict,
            labels,
            stamp: self.stamp,
        })
    }
}

impl ComponentRec {
    /// An equal record in memory of its own. The component itself is shared.
    pub fn copy(&self) -> Result<ComponentRec, NoMemory>
        ensures { IfOk result (λ c. IsAlikeComponent c self.now) }
    {
        let name = self.name.copy()?;
        let component = self.component.clone()?;
        Ok(ComponentRec {
            name,
            component,
            stamp: self.stamp,
        })
    }
}

impl Copied for Grant {
    fn copy(&self, _alloc: Global) -> Result<Self, NoMemory> {
        let table = self.table.copy()?;
        Ok(Grant {
            table,
            privileges: self.privileges,
        })
    }
}

impl Copied for Holding {
    fn copy(&self, _alloc: Global) -> Result<Self, NoMemory> {
        let policy = self.policy.copy()?;
        let read = copy_name(&self.read)?;
        let write = copy_name(&self.write)?;
        Ok(Holding {
            policy,
            read,
            write,
            exempt: self.exempt,
        })
    }
}

impl Copied for UserRec {
    fn copy(&self, alloc: Global) -> Result<Self, NoMemory> {
        let name = self.name.copy()?;
        let roles = self.roles.copy(alloc)?;
        let privileges = copy_records(alloc, self.privileges.as_slice())?;
        let held = copy_records(alloc, self.held.as_slice())?;
        Ok(UserRec {
            name,
            secadm: self.secadm,
            roles,
            privileges,
            held,
            stamp: self.stamp,
        })
    }
}

impl Copied for RoleRec {
    fn copy(&self, _alloc: Global) -> Result<Self, NoMemory> {
        let name = self.name.copy()?;
        Ok(RoleRec { name })
    }
}
