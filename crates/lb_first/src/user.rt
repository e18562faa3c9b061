// The first user of the catalogue who passes a test.
ghost use Rattle.std.specs.Prelude.{◌≡◌, Bool, Some, IfSome, find, slice_get};
ghost use Rattle.std.specs.Option.{option_map};
ghost use Rattle.std.specs.Arc.{arc_value};
ghost use Rattle.lb_alter.specs.ChangeLabel.{user_name};
ghost use Rattle.lb_alter.specs.Refusing as refusing;
ghost use Rattle.lb_cat.specs.Catalog.{User};
ghost use Rattle.lb_cat.specs.Stamps.{bare, bare_user};
ghost use Rattle.lb_changed.specs.Given.{Passes};
ghost use Rattle.lb_first.specs.Passing.{passing};

use lb_base::Name;
use lb_cat::{Catalog, UserRec};
use lb_changed::{Stop, in_use};
use std::alloc::Global;
use std::sync::Arc;

/// What is asked of a user.
pub trait UserTest {
    ghost test: { Self → User → Bool };

    /// Whether the user passes.
    fn passes(&self, user: &UserRec) -> bool
        ensures { result ≡ test self.now (bare_user user.now) };
}

/// The first user who passes, in the order of making, and nothing exactly where nobody does.
#[tactic(auto, using(crate::proofs::First::found_here, crate::proofs::First::found_later))]
pub fn first_user<'a, T: UserTest>(catalog: &'a Catalog, test: &T) -> Option<&'a Arc<UserRec>>
    ensures { option_map (λ u. bare_user (arc_value u.now)) result ≡ find (T.test test.now) (bare catalog.now).users }
{
    for place in 0..catalog.user_count() {
        if let Some(user) = passing_at(catalog, place, test) {
            return Some(user);
        }
    }
    None
}

/// The user in this place, who passes.
pub(crate) fn passing_at<'a, T: UserTest>(
    catalog: &'a Catalog,
    place: usize,
    test: &T,
) -> Option<&'a Arc<UserRec>>
    ensures bare { option_map (λ u. bare_user (arc_value u.now)) result ≡ passing (T.test test.now) (slice_get (bare catalog.now).users place) }
    ensures kept { IfSome result (λ u. Some (arc_value u.now) ≡ slice_get catalog.now.users place) }
{
    match catalog.user_at(place) {
        Some(user) if test.passes(user) => Some(user),
        _ => None,
    }
}

/// InUse with the first user who passes, where one does: what has the name can't be dropped.
pub fn no_user_uses<T: UserTest>(
    alloc: Global,
    catalog: &Catalog,
    name: &Name,
    test: &T,
) -> Result<(), Stop>
    ensures { Passes (refusing.in_use name.now (option_map user_name (find (T.test test.now) (bare catalog.now).users))) result }
{
    match first_user(catalog, test) {
        Some(user) => Err(in_use(alloc, name, &user.name)),
        None => Ok(()),
    }
}
