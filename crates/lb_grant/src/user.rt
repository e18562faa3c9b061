// The record of a user to whom something is granted, or from whom something is taken.
ghost use Rattle.std.specs.Prelude.{◌≡◌, ◌∷◌, [], IfOk, IfSome};
ghost use Rattle.std.specs.Option.{option_map};
ghost use Rattle.lb_base.specs.declared.key.Key.TheVariants as keys;
ghost use Rattle.lb_alter.specs.ChangeGrant as change;
ghost use Rattle.lb_alter.specs.Refusing as refusing;
ghost use Rattle.lb_cat.specs.Catalog as cat;
ghost use Rattle.lb_cat.specs.Stamps.{bare, bare_user, look, stamp_or};
ghost use Rattle.lb_rows.specs.Tables.{Tables};
ghost use Rattle.lb_changed.specs.Made.{Makes};

use lb_base::{Key, Listing, Name, NoMemory};
use lb_cat::{Catalog, Copied, UserRec};
use lb_changed::{Changed, Stop, done, one_key, with_user};
use std::alloc::Global;

/// A copy of the user's record. None exactly where the name has none.
pub fn user_of(alloc: Global, catalog: &Catalog, name: &Name) -> Result<Option<UserRec>, NoMemory>
    ensures record { IfOk result (λ u. option_map bare_user u ≡ cat.user_named (bare catalog.now) name.now) }
    ensures name { IfOk result (λ r. IfSome r (λ u. u.name ≡ name.now)) }
    ensures stamp { IfOk result (λ r. stamp_or (λ u. u.stamp) r ≡ look catalog.now (keys.User name.now)) }
{
    match catalog.user(name) {
        Some(user) => {
            let copy = user.copy(alloc)?;
            Ok(Some(copy))
        }
        None => Ok(None),
    }
}

/// A copy of the user's record, and of a name without record a new one, with nothing and stamp 0.
pub fn user_or_new(alloc: Global, catalog: &Catalog, name: &Name) -> Result<UserRec, NoMemory>
    ensures record { IfOk result (λ u. bare_user u ≡ change.user_or_new (bare catalog.now) name.now) }
    ensures name { IfOk result (λ u. u.name ≡ name.now) }
    ensures stamp { IfOk result (λ u. u.stamp ≡ look catalog.now (keys.User name.now)) }
{
    match user_of(alloc, catalog, name)? {
        Some(user) => Ok(user),
        None => new_user(alloc, name),
    }
}

fn new_user(alloc: Global, name: &Name) -> Result<UserRec, NoMemory>
    ensures record { IfOk result (λ u. bare_user u ≡ cat.no_user name.now) }
    ensures stamp { IfOk result (λ u. u.stamp ≡ 0) }
{
    let name = name.copy()?;
    Ok(UserRec {
        name,
        secadm: false,
        roles: Listing::empty(alloc),
        privileges: Listing::empty(alloc),
        held: Listing::empty(alloc),
        stamp: 0,
    })
}

/// An accepted change that leaves the user with this record.
pub fn leaves(alloc: Global, catalog: &Catalog, user: UserRec) -> Result<Changed, Stop>
    requires { user.stamp ≡ look catalog.now (keys.User user.name) }
    ensures { (T : Tables) → Makes catalog.now T (refusing.done (cat.put_user (bare_user user) (bare catalog.now)) T (keys.User user.name ∷ [])) result }
{
    let touched = one_key(alloc, Key::User(user.name.copy()?))?;
    let changed = with_user(alloc, catalog, user)?;
    Ok(done(changed, touched))
}

/// An accepted revoke from a name without record, which makes none. The user is touched all the same.
pub fn leaves_none(alloc: Global, catalog: &Catalog, name: &Name) -> Result<Changed, Stop>
    ensures { (T : Tables) → Makes catalog.now T (refusing.done (bare catalog.now) T (keys.User name.now ∷ [])) result }
{
    let touched = one_key(alloc, Key::User(name.copy()?))?;
    let same = catalog.copy()?;
    Ok(done(same, touched))
}
