// Privileges on tables, of a user and of all users.
ghost use Rattle.std.specs.Prelude.{◌≡◌, true, false, IfOk};
ghost use Rattle.lb_alter.specs.ChangeGrant as change;
ghost use Rattle.lb_cat.specs.Privileges as definitions;
ghost use Rattle.lb_alter.specs.Refusing.{alters};
ghost use Rattle.lb_base.specs.declared.key.Key.TheVariants as keys;
ghost use Rattle.lb_cat.specs.Stamps.{bare, bare_table, bare_user, look};
ghost use Rattle.lb_rows.specs.Tables.{Tables};
ghost use Rattle.lb_changed.specs.Made.{Makes};

use crate::user::{leaves, leaves_none, user_of, user_or_new};
use lb_base::{Name, NoMemory};
use lb_cat::{Catalog, Copied, Grant, Grants, Privileges, TableRec, UserRec};
use lb_changed::{Changed, Stop, entry_of, owner, with_entry, without};
use lb_stmt::{Grantee, Privilege};
use std::alloc::Global;

/// GRANT of privileges on a table to a user or to PUBLIC (GRANT (table, view, or nickname privileges) statement). Unknown where there is
/// no such table, or Privilege with CONTROL where the user doesn't own it.
#[tactic(auto, using(lb_changed::proofs::Steps::steps))]
pub fn grant_privileges(
    alloc: Global,
    catalog: &Catalog,
    user: &Name,
    privileges: &[Privilege],
    table: &Name,
    to: &Grantee,
) -> Result<Changed, Stop>
    ensures { (T : Tables) → Makes catalog.now T (change.grant_privileges (bare catalog.now) T user.now privileges.now table.now to.now) result }
{
    let table = owner(alloc, catalog, user, table)?;
    grant_to(alloc, catalog, table, privileges, to)
}

/// REVOKE of privileges on a table from a user or from PUBLIC (REVOKE (table, view, or nickname privileges) statement). Unknown where
/// there is no such table, or Privilege with CONTROL where the user doesn't own it.
#[tactic(auto, using(lb_changed::proofs::Steps::steps))]
pub fn revoke_privileges(
    alloc: Global,
    catalog: &Catalog,
    user: &Name,
    privileges: &[Privilege],
    table: &Name,
    from: &Grantee,
) -> Result<Changed, Stop>
    ensures { (T : Tables) → Makes catalog.now T (change.revoke_privileges (bare catalog.now) T user.now privileges.now table.now from.now) result }
{
    let table = owner(alloc, catalog, user, table)?;
    revoke_from(alloc, catalog, table, privileges, from)
}

/// The change that gives these privileges on the table.
fn grant_to(
    alloc: Global,
    catalog: &Catalog,
    table: &TableRec,
    privileges: &[Privilege],
    to: &Grantee,
) -> Result<Changed, Stop>
    requires { table.now.stamp ≡ look catalog.now (keys.Table table.now.name) }
    ensures { (T : Tables) → Makes catalog.now T (change.grant_to (bare catalog.now) T (bare_table table.now) privileges.now to.now) result }
{
    match to {
        Grantee::User(name) => give_to(alloc, catalog, &table.name, privileges, name),
        Grantee::Public => to_all(alloc, catalog, table, true, privileges),
    }
}

/// The change that takes these privileges on the table.
fn revoke_from(
    alloc: Global,
    catalog: &Catalog,
    table: &TableRec,
    privileges: &[Privilege],
    from: &Grantee,
) -> Result<Changed, Stop>
    requires { table.now.stamp ≡ look catalog.now (keys.Table table.now.name) }
    ensures { (T : Tables) → Makes catalog.now T (change.revoke_from (bare catalog.now) T (bare_table table.now) privileges.now from.now) result }
{
    match from {
        Grantee::User(name) => take_from(alloc, catalog, &table.name, privileges, name),
        Grantee::Public => to_all(alloc, catalog, table, false, privileges),
    }
}

/// The change that gives the user these privileges on the table.
fn give_to(
    alloc: Global,
    catalog: &Catalog,
    table: &Name,
    privileges: &[Privilege],
    to: &Name,
) -> Result<Changed, Stop>
    ensures { (T : Tables) → Makes catalog.now T (change.grants (bare catalog.now) T to.now (change.with_user_privileges true privileges.now table.now)) result }
{
    let before = user_or_new(alloc, catalog, to)?;
    let changed = with_all(alloc, before, true, privileges, table)?;
    leaves(alloc, catalog, changed)
}

/// The change that takes these privileges on the table from the user. Who has no record gets none.
fn take_from(
    alloc: Global,
    catalog: &Catalog,
    table: &Name,
    privileges: &[Privilege],
    from: &Name,
) -> Result<Changed, Stop>
    ensures { (T : Tables) → Makes catalog.now T (change.revokes (bare catalog.now) T from.now (change.with_user_privileges false privileges.now table.now)) result }
{
    let found = user_of(alloc, catalog, from)?;
    match found {
        Some(before) => {
            let changed = with_all(alloc, before, false, privileges, table)?;
            leaves(alloc, catalog, changed)
        }
        None => leaves_none(alloc, catalog, from),
    }
}

/// The change that gives these privileges on the table to every user, or takes them.
fn to_all(
    alloc: Global,
    catalog: &Catalog,
    table: &TableRec,
    given: bool,
    privileges: &[Privilege],
) -> Result<Changed, Stop>
    requires { table.now.stamp ≡ look catalog.now (keys.Table table.now.name) }
    ensures { (T : Tables) → Makes catalog.now T (alters (bare catalog.now) T (change.with_public given privileges.now (bare_table table.now))) result }
{
    let mut changed = table.copy(alloc)?;
    changed.public = with_privileges(changed.public, given, privileges);
    lb_changed::alters(alloc, catalog, changed)
}

/// The user with these privileges on the table given or taken. An entry with none is taken away.
fn with_all(
    alloc: Global,
    user: UserRec,
    given: bool,
    privileges: &[Privilege],
    table: &Name,
) -> Result<UserRec, NoMemory>
    ensures record { IfOk result (λ u. bare_user u ≡ change.with_user_privileges given privileges.now table.now (bare_user user)) }
    ensures stamp { IfOk result (λ u. u.stamp ≡ user.stamp) }
    ensures name { IfOk result (λ u. u.name ≡ user.name) }
{
    let privileges = with_privileges(privileges_on(&user, table), given, privileges);
    let table = table.copy()?;
    let mut user = user;
    user.privileges = kept_grants(
        alloc,
        user.privileges.as_slice(),
        Grant { table, privileges },
    )?;
    Ok(user)
}

/// Copies of the entries with this one in the place of its table's, or without where it gives nothing.
fn kept_grants(alloc: Global, grants: &[Grant], grant: Grant) -> Result<Grants, NoMemory>
    ensures { IfOk result (λ gs. gs ≡ definitions.kept_grant grant grants.now) }
{
    if has_none(grant.privileges) {
        without(alloc, grants, &grant.table)
    } else {
        with_entry(alloc, grants, grant)
    }
}

/// What the user was granted on the table.
fn privileges_on(user: &UserRec, table: &Name) -> Privileges
    ensures { result ≡ definitions.privileges_on table.now (bare_user user.now) }
{
    match entry_of(user.privileges.as_slice(), table) {
        Some(grant) => grant.privileges,
        None => Privileges {
            select: false,
            insert: false,
            update: false,
            delete: false,
        },
    }
}

fn has_none(given: Privileges) -> bool
    ensures { result ≡ definitions.has_none given }
{
    !(given.select || given.insert || given.update || given.delete)
}

/// All of these privileges, given or taken.
fn with_privileges(before: Privileges, given: bool, privileges: &[Privilege]) -> Privileges
    ensures { result ≡ definitions.with_privileges given privileges.now before }
{
    let mut after = before;
    for privilege in privileges {
        after = with_privilege(after, given, *privilege);
    }
    after
}

fn with_privilege(before: Privileges, given: bool, privilege: Privilege) -> Privileges
    ensures { result ≡ definitions.with_privilege given before privilege }
{
    let mut after = before;
    match privilege {
        Privilege::Select => after.select = given,
        Privilege::Insert => after.insert = given,
        Privilege::Update => after.update = given,
        Privilege::Delete => after.delete = given,
    }
    after
}
