// Roles, and who has them.
ghost use Rattle.std.specs.Prelude.{◌≡◌, IfOk, find};
ghost use Rattle.std.specs.Option.{option_map};
ghost use Rattle.std.specs.Arc.{arc_value};
ghost use Rattle.std.specs.Str.{bytes_eq};
ghost use Rattle.lb_alter.specs.ChangeGrant as change;
ghost use Rattle.lb_cat.specs.Catalog as cat;
ghost use Rattle.lb_cat.specs.Stamps.{bare, bare_user};
ghost use Rattle.lb_rows.specs.Lists.{without};
ghost use Rattle.lb_rows.specs.Tables.{Tables};
ghost use Rattle.lb_changed.specs.Given.{Passes};
ghost use Rattle.lb_changed.specs.Made.{Makes};

use crate::user::{leaves, leaves_none, user_of, user_or_new};
use lb_base::{Listing, Name, Names, NoMemory};
use lb_cat::{Catalog, RoleRec, UserRec};
use lb_changed::{Changed, Stop, done, exists, in_use, secadm, unknown, with_role, without_role};
use std::alloc::Global;
use std::sync::Arc;

/// CREATE ROLE (CREATE ROLE statement). NotSecadm, or Exists where there is such a role.
#[tactic(auto, using(lb_changed::proofs::Steps::steps))]
pub fn create_role(
    alloc: Global,
    catalog: &Catalog,
    user: &Name,
    role: &Name,
) -> Result<Changed, Stop>
    ensures { (T : Tables) → Makes catalog.now T (change.create_role (bare catalog.now) T user.now role.now) result }
{
    secadm(catalog, user)?;
    if catalog.role(role).is_some() {
        return Err(exists(alloc, role));
    }
    let rec = RoleRec { name: role.copy()? };
    let changed = with_role(alloc, catalog, rec)?;
    Ok(done(changed, Listing::empty(alloc)))
}

/// DROP ROLE (DROP statement). NotSecadm, Unknown where there is no such role, or InUse with the first user who has it.
#[tactic(auto, using(lb_changed::proofs::Steps::steps))]
pub fn drop_role(
    alloc: Global,
    catalog: &Catalog,
    user: &Name,
    role: &Name,
) -> Result<Changed, Stop>
    ensures { (T : Tables) → Makes catalog.now T (change.drop_role_of (bare catalog.now) T user.now role.now) result }
{
    secadm(catalog, user)?;
    the_role(alloc, catalog, role)?;
    match first_with_role(catalog, role) {
        Some(by) => Err(in_use(alloc, role, &by.name)),
        None => {
            let changed = without_role(catalog, role)?;
            Ok(done(changed, Listing::empty(alloc)))
        }
    }
}

/// GRANT ROLE (GRANT (role) statement). NotSecadm, or Unknown where there is no such role.
#[tactic(auto, using(lb_changed::proofs::Steps::steps))]
pub fn grant_role(
    alloc: Global,
    catalog: &Catalog,
    user: &Name,
    role: &Name,
    to: &Name,
) -> Result<Changed, Stop>
    ensures { (T : Tables) → Makes catalog.now T (change.grant_role (bare catalog.now) T user.now role.now to.now) result }
{
    secadm(catalog, user)?;
    the_role(alloc, catalog, role)?;
    let before = user_or_new(alloc, catalog, to)?;
    let changed = having(before, role)?;
    leaves(alloc, catalog, changed)
}

/// REVOKE ROLE (REVOKE (role) statement). NotSecadm, or Unknown where there is no such role.
#[tactic(auto, using(lb_changed::proofs::Steps::steps))]
pub fn revoke_role(
    alloc: Global,
    catalog: &Catalog,
    user: &Name,
    role: &Name,
    from: &Name,
) -> Result<Changed, Stop>
    ensures { (T : Tables) → Makes catalog.now T (change.revoke_role (bare catalog.now) T user.now role.now from.now) result }
{
    secadm(catalog, user)?;
    the_role(alloc, catalog, role)?;
    let found = user_of(alloc, catalog, from)?;
    match found {
        Some(before) => {
            let changed = lacking(alloc, before, role)?;
            leaves(alloc, catalog, changed)
        }
        None => leaves_none(alloc, catalog, from),
    }
}

/// The user with the role, once.
fn having(user: UserRec, role: &Name) -> Result<UserRec, NoMemory>
    ensures record { IfOk result (λ u. bare_user u ≡ change.with_role role.now (bare_user user)) }
    ensures stamp { IfOk result (λ u. u.stamp ≡ user.stamp) }
    ensures name { IfOk result (λ u. u.name ≡ user.name) }
{
    if is_among(user.roles.as_slice(), role) {
        return Ok(user);
    }
    let mut user = user;
    user.roles.push(role.copy()?)?;
    Ok(user)
}

/// The user without the role.
fn lacking(alloc: Global, user: UserRec, role: &Name) -> Result<UserRec, NoMemory>
    ensures record { IfOk result (λ u. bare_user u ≡ change.without_role role.now (bare_user user)) }
    ensures stamp { IfOk result (λ u. u.stamp ≡ user.stamp) }
    ensures name { IfOk result (λ u. u.name ≡ user.name) }
{
    let mut user = user;
    user.roles = others(alloc, user.roles.as_slice(), role)?;
    Ok(user)
}

/// There is such a role, or Unknown.
fn the_role(alloc: Global, catalog: &Catalog, role: &Name) -> Result<(), Stop>
    ensures { Passes (change.the_role (bare catalog.now) role.now) result }
{
    if catalog.role(role).is_some() {
        Ok(())
    } else {
        Err(unknown(alloc, role))
    }
}

/// The first user who has the role.
fn first_with_role<'a>(catalog: &'a Catalog, role: &Name) -> Option<&'a Arc<UserRec>>
    ensures { option_map (λ u. bare_user (arc_value u.now)) result ≡ find (change.has_role_of role.now) (bare catalog.now).users }
{
    for place in 0..catalog.user_count() {
        match catalog.user_at(place) {
            Some(user) => {
                if is_among(user.roles.as_slice(), role) {
                    return Some(user);
                }
            }
            None => {}
        }
    }
    None
}

/// Whether the name is among the names.
fn is_among(names: &[Name], name: &Name) -> bool
    ensures { result ≡ cat.is_among names.now name.now }
{
    for other in names {
        if other.is(name) {
            return true;
        }
    }
    false
}

/// Copies of the other names, in their order.
fn others(alloc: Global, names: &[Name], name: &Name) -> Result<Names, NoMemory>
    ensures { IfOk result (λ ns. ns ≡ without (bytes_eq name.now) names.now) }
{
    let mut left = Listing::empty(alloc);
    for other in names {
        if !name.is(other) {
            left.push(other.copy()?)?;
        }
    }
    Ok(left)
}
