// All users whom a statement touches: their keys, and the catalogue in which their records are changed.
ghost use Rattle.std.specs.Prelude.{◌≡◌, ◌+◌, ◌++◌, filter, map, IfOk, OnOk};
ghost use Rattle.lb_base.specs.declared.key.Key.TheVariants as keys;
ghost use Rattle.lb_alter.specs.ChangeTable.{user_key};
ghost use Rattle.lb_alter.specs.Named.{AreDifferent};
ghost use Rattle.lb_cat.specs.Catalog.{User, put_user};
ghost use Rattle.lb_cat.specs.Stamps.{bare, bare_user, look};
ghost use Rattle.lb_changed.specs.Made.{StampsStay};
ghost use Rattle.lb_first.specs.Changing.{changed_up_to, changed_where};

use crate::user::{UserTest, passing_at};
use lb_base::{Key, NoMemory};
use lb_cat::{Catalog, Keys, UserRec};
use std::alloc::Global;
use std::sync::Arc;

/// What a statement does to each user who passes a test.
pub trait UserChange: UserTest {
    ghost change: { Self → User → User };

    /// The record of the user afterwards, in memory of its own, with the same stamp. The change keeps all names.
    fn changed(&self, alloc: Global, user: &UserRec) -> Result<UserRec, NoMemory>
        ensures bare { IfOk result (λ u. bare_user u ≡ change self.now (bare_user user.now)) }
        ensures stamp { IfOk result (λ u. u.stamp ≡ user.now.stamp) }
        ensures names { (u : User) → (change self.now u).name ≡ u.name };
}

/// The keys of all users who pass, in the order of making, after these keys.
pub fn with_user_keys<T: UserTest>(
    catalog: &Catalog,
    test: &T,
    touched: Keys,
) -> Result<Keys, NoMemory>
    ensures { IfOk result (λ ks. ks ≡ touched ++ map user_key (filter (T.test test.now) (bare catalog.now).users)) }
{
    let mut touched = touched;
    for place in 0..catalog.user_count() {
        if let Some(user) = passing_at(catalog, place, test) {
            touched.push(Key::User(user.name.copy()?))?;
        }
    }
    Ok(touched)
}

/// The catalogue in which each user who passes is changed. All others share their records with the catalogue before.
#[tactic(auto, using(crate::proofs::Changing::so_all))]
pub fn with_users_changed<C: UserChange>(
    alloc: Global,
    catalog: &Catalog,
    change: &C,
) -> Result<Catalog, NoMemory>
    requires { AreDifferent (map (λ u. u.name) (bare catalog.now).users) }
    ensures bare { IfOk result (λ c. bare c ≡ record (bare catalog.now) { users = changed_where (C.test change.now) (C.change change.now) (bare catalog.now).users }) }
    ensures stamps { IfOk result (StampsStay catalog.now) }
{
    let mut changed = catalog.copy()?;
    for place in 0..catalog.user_count() {
        change_at(alloc, catalog, place, change, &mut changed)?;
    }
    Ok(changed)
}

/// Changes the user in this place, who passes, where those in the places before are changed already.
fn change_at<C: UserChange>(
    alloc: Global,
    catalog: &Catalog,
    place: usize,
    change: &C,
    changed: &mut Catalog,
) -> Result<(), NoMemory>
    requires different { AreDifferent (map (λ u. u.name) (bare catalog.now).users) }
    requires so_far { bare changed.old ≡ changed_up_to (C.test change.now) (C.change change.now) place (bare catalog.now) }
    requires stamps { StampsStay catalog.now changed.old }
    ensures bare { OnOk result (bare changed.new ≡ changed_up_to (C.test change.now) (C.change change.now) (place + 1) (bare catalog.now)) }
    ensures stamps { OnOk result (StampsStay catalog.now changed.new) }
{
    match passing_at(catalog, place, change) {
        Some(user) => {
            let rec = change.changed(alloc, user)?;
            replace(alloc, changed, rec)?;
            Ok(())
        }
        None => Ok(()),
    }
}

/// Puts the record in the place of the one of its name, whose stamp it has.
fn replace(alloc: Global, changed: &mut Catalog, rec: UserRec) -> Result<(), NoMemory>
    requires { rec.stamp ≡ look changed.old (keys.User rec.name) }
    ensures bare { OnOk result (bare changed.new ≡ put_user (bare_user rec) (bare changed.old)) }
    ensures stamps { OnOk result (StampsStay changed.old changed.new) }
{
    lb_cat::stamps_follow_their_records();
    changed.put_user(Arc::new(alloc, rec)?)?;
    Ok(())
}
