// The catalogue with one record more, or with another one in a record's place, where no stamp becomes another one.
ghost use Rattle.std.specs.Prelude.{◌≡◌, IfOk};
ghost use Rattle.lb_base.specs.declared.key.Key.TheVariants as keys;
ghost use Rattle.lb_cat.specs.Catalog as cat;
ghost use Rattle.lb_cat.specs.Stamps.{bare, bare_component, bare_policy, bare_table, bare_user, look};
ghost use Rattle.lb_changed.specs.Made.{StampsStay};

use lb_base::{Name, NoMemory};
use lb_cat::{Catalog, ComponentRec, PolicyRec, RoleRec, TableRec, UserRec};
use std::alloc::Global;
use std::sync::Arc;

/// With this table's record, which has the stamp of the one whose place it takes, and 0 where there is none.
pub fn with_table(alloc: Global, catalog: &Catalog, rec: TableRec) -> Result<Catalog, NoMemory>
    requires { rec.stamp ≡ look catalog.now (keys.Table rec.name) }
    ensures bare { IfOk result (λ c. bare c ≡ cat.put_table (bare_table rec) (bare catalog.now)) }
    ensures stamps { IfOk result (StampsStay catalog.now) }
{
    lb_cat::stamps_follow_their_records();
    let mut changed = catalog.copy()?;
    changed.put_table(Arc::new(alloc, rec)?)?;
    Ok(changed)
}

/// With this policy's record, which has the stamp of the one whose place it takes, and 0 where there is none.
pub fn with_policy(alloc: Global, catalog: &Catalog, rec: PolicyRec) -> Result<Catalog, NoMemory>
    requires { rec.stamp ≡ look catalog.now (keys.Policy rec.name) }
    ensures bare { IfOk result (λ c. bare c ≡ cat.put_policy (bare_policy rec) (bare catalog.now)) }
    ensures stamps { IfOk result (StampsStay catalog.now) }
{
    lb_cat::stamps_follow_their_records();
    let mut changed = catalog.copy()?;
    changed.put_policy(Arc::new(alloc, rec)?)?;
    Ok(changed)
}

/// With this component's record, which has the stamp of the one whose place it takes, and 0 where there is none.
pub fn with_component(
    alloc: Global,
    catalog: &Catalog,
    rec: ComponentRec,
) -> Result<Catalog, NoMemory>
    requires { rec.stamp ≡ look catalog.now (keys.Component rec.name) }
    ensures bare { IfOk result (λ c. bare c ≡ cat.put_component (bare_component rec) (bare catalog.now)) }
    ensures stamps { IfOk result (StampsStay catalog.now) }
{
    lb_cat::stamps_follow_their_records();
    let mut changed = catalog.copy()?;
    changed.put_component(Arc::new(alloc, rec)?)?;
    Ok(changed)
}

/// With this user's record, which has the stamp of the one whose place it takes, and 0 where there is none.
pub fn with_user(alloc: Global, catalog: &Catalog, rec: UserRec) -> Result<Catalog, NoMemory>
    requires { rec.stamp ≡ look catalog.now (keys.User rec.name) }
    ensures bare { IfOk result (λ c. bare c ≡ cat.put_user (bare_user rec) (bare catalog.now)) }
    ensures stamps { IfOk result (StampsStay catalog.now) }
{
    lb_cat::stamps_follow_their_records();
    let mut changed = catalog.copy()?;
    changed.put_user(Arc::new(alloc, rec)?)?;
    Ok(changed)
}

/// With this role, which has no stamp.
pub fn with_role(alloc: Global, catalog: &Catalog, rec: RoleRec) -> Result<Catalog, NoMemory>
    ensures bare { IfOk result (λ c. bare c ≡ cat.put_role rec (bare catalog.now)) }
    ensures stamps { IfOk result (StampsStay catalog.now) }
{
    lb_cat::stamps_follow_their_records();
    let mut changed = catalog.copy()?;
    changed.put_role(Arc::new(alloc, rec)?)?;
    Ok(changed)
}

/// Without the role of this name, which has no stamp.
pub fn without_role(catalog: &Catalog, name: &Name) -> Result<Catalog, NoMemory>
    ensures bare { IfOk result (λ c. bare c ≡ cat.drop_role name.now (bare catalog.now)) }
    ensures stamps { IfOk result (StampsStay catalog.now) }
{
    lb_cat::stamps_follow_their_records();
    let mut changed = catalog.copy()?;
    changed.drop_role(name);
    Ok(changed)
}
