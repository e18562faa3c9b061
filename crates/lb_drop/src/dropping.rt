// DROP TABLE.
ghost use Rattle.std.specs.Prelude.{◌≡◌, ◌∷◌, filter, map, option_map, IfOk};
ghost use Rattle.lb_base.specs.declared.key.Key.TheVariants as keys;
ghost use Rattle.lb_alter.specs.ChangeTable as definitions;
ghost use Rattle.lb_alter.specs.Named.{HasOneOfEachName};
ghost use Rattle.lb_alter.specs.Refusing as refusing;
ghost use Rattle.lb_alter.specs.Stored.{stored_name, user_of_table as user_of};
ghost use Rattle.lb_cat.specs.Catalog as cat;
ghost use Rattle.lb_cat.specs.Privileges.{has_grant_on, without_grant};
ghost use Rattle.lb_cat.specs.Stamps.{bare};
ghost use Rattle.lb_rows.specs.Lists.{without};
ghost use Rattle.lb_rows.specs.Tables.{Tables, is_version};
ghost use Rattle.lb_changed.specs.Given.{Passes};
ghost use Rattle.lb_changed.specs.Made.{Makes};

use crate::grants::GrantsOn;
use lb_base::{Key, Name, NoMemory};
use lb_cat::{Catalog, Keys, Reply};
use lb_changed::{Changed, Stop, in_use, one_key, owner};
use lb_first::{with_user_keys, with_users_changed};
use lb_mentions::user_of_table;
use std::alloc::Global;

/// DROP TABLE: the table goes, and with it its rows and all privileges on it (DROP statement). The first refusal of these: Unknown, or
/// Privilege where another user owns the table; InUse with the name of the first permission or mask of another table that reads it.
#[tactic(auto, using(lb_changed::proofs::Steps::steps))]
pub fn drop_table(
    alloc: Global,
    catalog: &Catalog,
    user: &Name,
    name: &Name,
) -> Result<Changed, Stop>
    requires one_each { HasOneOfEachName (bare catalog.now) }
    ensures { (T : Tables) → Makes catalog.now T (definitions.drop_table_of (bare catalog.now) T user.now name.now) result }
{
    owner(alloc, catalog, user, name)?;
    is_unused(alloc, catalog, name)?;
    dropped(alloc, catalog, name)
}

fn is_unused(alloc: Global, catalog: &Catalog, name: &Name) -> Result<(), Stop>
    ensures { Passes (refusing.in_use name.now (option_map stored_name (user_of (bare catalog.now) name.now))) result }
{
    match user_of_table(catalog, name) {
        Some(by) => Err(in_use(alloc, name, by)),
        None => Ok(()),
    }
}

fn dropped(alloc: Global, catalog: &Catalog, name: &Name) -> Result<Changed, Stop>
    requires { HasOneOfEachName (bare catalog.now) }
    ensures { (T : Tables) → Makes catalog.now T (refusing.done (record (cat.drop_table name.now (bare catalog.now)) { users = map (without_grant name.now) (bare catalog.now).users }) (without (is_version name.now) T) (keys.Table name.now ∷ keys.Rows name.now ∷ map definitions.user_key (filter (has_grant_on name.now) (bare catalog.now).users))) result }
{
    let touched = touched_keys(alloc, catalog, name)?;
    lb_cat::stamps_follow_their_records();
    let mut changed = with_users_changed(alloc, catalog, &GrantsOn { table: name })?;
    changed.drop_table(name);
    Ok(Changed {
        catalog: changed,
        table: None,
        touched,
        reply: Reply::Done,
    })
}

/// The keys of the table's record and of its rows, and then those of the users who have privileges on it.
fn touched_keys(alloc: Global, catalog: &Catalog, name: &Name) -> Result<Keys, NoMemory>
    ensures { IfOk result (λ ks. ks ≡ keys.Table name.now ∷ keys.Rows name.now ∷ map definitions.user_key (filter (has_grant_on name.now) (bare catalog.now).users)) }
{
    let mut touched = one_key(alloc, Key::Table(name.copy()?))?;
    touched.push(Key::Rows(name.copy()?))?;
    with_user_keys(catalog, &GrantsOn { table: name }, touched)
}
