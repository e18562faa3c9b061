// Security policies, dropped with the exemptions for them.
ghost use Rattle.std.specs.Prelude.{◌≡◌, ◌||◌, ◌∷◌, filter, find, map};
ghost use Rattle.std.specs.Option.{option_map};
ghost use Rattle.lb_base.specs.declared.key.Key.TheVariants as keys;
ghost use Rattle.lb_alter.specs.ChangePolicy as change;
ghost use Rattle.lb_alter.specs.ChangeTable.{user_key};
ghost use Rattle.lb_alter.specs.Named.{AreDifferent};
ghost use Rattle.lb_alter.specs.Refusing as refusing;
ghost use Rattle.lb_alter.specs.Stored as stored;
ghost use Rattle.lb_cat.specs.Catalog as cat;
ghost use Rattle.lb_cat.specs.Holdings as holdings;
ghost use Rattle.lb_cat.specs.Stamps.{bare, bare_policy};
ghost use Rattle.lb_rows.specs.Tables.{Tables};
ghost use Rattle.lb_changed.specs.Given.{Passes};
ghost use Rattle.lb_changed.specs.Made.{Makes};

use crate::left::left;
use crate::stops::unless_used;
use crate::used::UsesPolicy;
use lb_base::{Key, Name, NoMemory};
use lb_cat::{Catalog, Copied, LabelRec, PolicyRec, UserRec};
use lb_changed::{Changed, Stop, entry_of, one_key, secadm, the_policy, without};
use lb_first::{UserChange, UserTest, no_table_uses, with_user_keys, with_users_changed};
use std::alloc::Global;

/// DROP SECURITY POLICY (DROP statement). NotSecadm; Unknown; InUse with the first table that has the policy, or of which a permission
/// or mask calls it; and with the first label of the policy. The exemptions for the policy end, and who had one is touched.
#[tactic(auto, using(lb_changed::proofs::Steps::steps))]
pub fn drop_policy(
    alloc: Global,
    catalog: &Catalog,
    user: &Name,
    name: &Name,
) -> Result<Changed, Stop>
    requires { AreDifferent (map (λ u. u.name) (bare catalog.now).users) }
    ensures { (T : Tables) → Makes catalog.now T (change.drop_policy_of (bare catalog.now) T user.now name.now) result }
{
    secadm(catalog, user)?;
    let policy = the_policy(alloc, catalog, name)?;
    is_on_no_table(alloc, catalog, name)?;
    has_no_label(alloc, policy, name)?;
    drops(alloc, catalog, name)
}

fn is_on_no_table(alloc: Global, catalog: &Catalog, name: &Name) -> Result<(), Stop>
    ensures { Passes (refusing.in_use name.now (option_map change.table_name (find (λ t. change.has_policy name.now t || stored.calls_policy name.now t) (bare catalog.now).tables))) result }
{
    no_table_uses(alloc, catalog, name, &UsesPolicy { policy: name })
}

fn has_no_label(alloc: Global, policy: &PolicyRec, name: &Name) -> Result<(), Stop>
    ensures { Passes (refusing.in_use name.now (change.first_label (bare_policy policy.now).labels)) result }
{
    unless_used(alloc, name, first_label(policy.labels.as_slice()))
}

fn first_label(labels: &[LabelRec]) -> Option<&Name>
    ensures { option_map (λ n. n.now) result ≡ change.first_label labels.now }
{
    match labels {
        [] => None,
        [first, ..] => Some(&first.name),
    }
}

fn drops(alloc: Global, catalog: &Catalog, name: &Name) -> Result<Changed, Stop>
    requires { AreDifferent (map (λ u. u.name) (bare catalog.now).users) }
    ensures { (T : Tables) → Makes catalog.now T (refusing.done (record (cat.drop_policy name.now (bare catalog.now)) { users = map (holdings.without_holding name.now) (bare catalog.now).users }) T (keys.Policy name.now ∷ map user_key (filter (holdings.has_holding_of name.now) (bare catalog.now).users))) result }
{
    lb_cat::stamps_follow_their_records();
    let holders = HoldersOf { policy: name };
    let policy = one_key(alloc, Key::Policy(name.copy()?))?;
    let touched = with_user_keys(catalog, &holders, policy)?;
    let mut changed = with_users_changed(alloc, catalog, &holders)?;
    changed.drop_policy(name);
    Ok(left(changed, touched))
}

/// The users who hold something of the policy, which they lose.
#[derive(Clone, Copy)]
struct HoldersOf<'a> {
    policy: &'a Name,
}

impl UserTest for HoldersOf<'_> {
    ghost test = { λ s. holdings.has_holding_of s.policy.now };

    fn passes(&self, user: &UserRec) -> bool {
        entry_of(user.held.as_slice(), self.policy).is_some()
    }
}

impl UserChange for HoldersOf<'_> {
    ghost change = { λ s. holdings.without_holding s.policy.now };

    fn changed(&self, alloc: Global, user: &UserRec) -> Result<UserRec, NoMemory> {
        let mut rec = user.copy(alloc)?;
        rec.held = without(alloc, user.held.as_slice(), self.policy)?;
        Ok(rec)
    }
}
