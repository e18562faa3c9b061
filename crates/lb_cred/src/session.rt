// The credentials of a session.
ghost use Rattle.std.specs.Prelude.{◌≡◌, List, IfOk};
ghost use Rattle.lb_base.specs.declared.key.Key.{Key};
ghost use Rattle.lb_cat.specs.Catalog.{no_user};
ghost use Rattle.lb_cat.specs.Credentials.{cred, cred_of};
ghost use Rattle.lb_cat.specs.Stamps.{bare, bare_user};
ghost use Rattle.lb_alter.specs.Fits.{CredFits};
ghost use Rattle.lb_alter.specs.Sound.{IsSound};
ghost use Rattle.lb_alter.specs.Stored.{StoredRules};

use crate::held::labels_held;
use lb_base::{Listing, Name, Names, NoMemory};
use lb_cat::{Catalog, Cred, UserRec, copy_records};
use std::alloc::Global;

/// What a session of the user with these groups may do: the user's roles, privileges and SECADM authority, and what the user holds of
/// each policy, with the labels in place of their names (GRANT (security label) statement, GRANT (exemption) statement). A user
/// without a record has nothing. In a sound catalogue the labels fit their policies.
pub fn credentials(
    alloc: Global,
    catalog: &Catalog,
    user: &Name,
    groups: &Names,
) -> Result<Cred, NoMemory>
    ensures read { IfOk result (λ c. c ≡ cred (bare catalog.now) user.now groups.now) }
    ensures fits { IfOk result (λ c. (K : StoredRules) → IsSound K (bare catalog.now) → (ks : List Key) → CredFits ks (bare catalog.now) c) }
{
    lb_alter::credentials_fit();
    let cred = read_off(alloc, catalog, user, groups)?;
    Ok(cred)
}

fn read_off(alloc: Global, catalog: &Catalog, user: &Name, groups: &Names) -> Result<Cred, NoMemory>
    ensures { IfOk result (λ c. c ≡ cred (bare catalog.now) user.now groups.now) }
{
    match catalog.user(user) {
        Some(rec) => granted(alloc, catalog, rec, user, groups),
        None => nothing_granted(alloc, catalog, user, groups),
    }
}

// Of a user with a record.
fn granted(
    alloc: Global,
    catalog: &Catalog,
    rec: &UserRec,
    user: &Name,
    groups: &Names,
) -> Result<Cred, NoMemory>
    ensures { IfOk result (λ c. c ≡ cred_of (bare catalog.now) user.now groups.now (bare_user rec.now)) }
{
    let user = user.copy()?;
    let groups = groups.copy(alloc)?;
    let roles = rec.roles.copy(alloc)?;
    let privileges = copy_records(alloc, rec.privileges.as_slice())?;
    let labels = labels_held(alloc, catalog, rec.held.as_slice())?;
    Ok(Cred {
        user,
        groups,
        roles,
        secadm: rec.secadm,
        privileges,
        labels,
    })
}

// Of a user without a record.
fn nothing_granted(
    alloc: Global,
    _catalog: &Catalog,
    user: &Name,
    groups: &Names,
) -> Result<Cred, NoMemory>
    ensures { IfOk result (λ c. c ≡ cred_of (bare _catalog.now) user.now groups.now (no_user user.now)) }
{
    let user = user.copy()?;
    let groups = groups.copy(alloc)?;
    Ok(Cred {
        user,
        groups,
        roles: Listing::empty(alloc),
        secadm: false,
        privileges: Listing::empty(alloc),
        labels: Listing::empty(alloc),
    })
}
