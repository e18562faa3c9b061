// Who may change what, and what is there of a name.
ghost use Rattle.std.specs.Prelude.{◌≡◌, find, IfOk};
ghost use Rattle.std.specs.Option.{option_copied};
ghost use Rattle.std.specs.Arc.{arc_value};
ghost use Rattle.lb_base.specs.declared.key.Key.TheVariants as keys;
ghost use Rattle.lb_alter.specs.Refusing as refusing;
ghost use Rattle.lb_cat.specs.Catalog as cat;
ghost use Rattle.lb_cat.specs.Stamps.{bare, bare_policy, bare_table, look};
ghost use Rattle.lb_changed.specs.Given.{Gives, Passes};

use crate::stop::{Stop, needs_control, unknown};
use lb_base::Name;
use lb_cat::{Catalog, LabelRec, PolicyRec, Refusal, TableRec};
use std::alloc::Global;
use std::sync::Arc;

/// The table of that name, or Unknown.
pub fn the_table<'a>(
    alloc: Global,
    catalog: &'a Catalog,
    name: &Name,
) -> Result<&'a Arc<TableRec>, Stop>
    ensures gives { Gives (λ t. bare_table (arc_value t.now)) (refusing.the_table (bare catalog.now) name.now) result }
    ensures stamp { IfOk result (λ t. (arc_value t.now).stamp ≡ look catalog.now (keys.Table (arc_value t.now).name)) }
{
    match catalog.table(name) {
        Some(table) => Ok(table),
        None => Err(unknown(alloc, name)),
    }
}

/// The table of that name, of which the user is the owner: Unknown where there is none, Privilege with CONTROL where another user
/// created it (CREATE TABLE statement).
pub fn owner<'a>(
    alloc: Global,
    catalog: &'a Catalog,
    user: &Name,
    name: &Name,
) -> Result<&'a Arc<TableRec>, Stop>
    ensures gives { Gives (λ t. bare_table (arc_value t.now)) (refusing.owner (bare catalog.now) user.now name.now) result }
    ensures stamp { IfOk result (λ t. (arc_value t.now).stamp ≡ look catalog.now (keys.Table (arc_value t.now).name)) }
{
    let table = the_table(alloc, catalog, name)?;
    if table.owner.is(user) {
        Ok(table)
    } else {
        Err(needs_control(alloc, name))
    }
}

/// The policy of that name, or Unknown.
pub fn the_policy<'a>(
    alloc: Global,
    catalog: &'a Catalog,
    name: &Name,
) -> Result<&'a Arc<PolicyRec>, Stop>
    ensures gives { Gives (λ p. bare_policy (arc_value p.now)) (refusing.the_policy (bare catalog.now) name.now) result }
    ensures stamp { IfOk result (λ p. (arc_value p.now).stamp ≡ look catalog.now (keys.Policy (arc_value p.now).name)) }
{
    match catalog.policy(name) {
        Some(policy) => Ok(policy),
        None => Err(unknown(alloc, name)),
    }
}

/// The label of that name of the policy, or Unknown.
pub fn the_label<'a>(
    alloc: Global,
    policy: &'a PolicyRec,
    name: &Name,
) -> Result<&'a LabelRec, Stop>
    ensures { Gives (λ l. l.now) (refusing.the_label (bare_policy policy.now) name.now) result }
{
    match label_named(policy.labels.as_slice(), name) {
        Some(label) => Ok(label),
        None => Err(unknown(alloc, name)),
    }
}

/// The label of that name of the policy, and nothing exactly where there is none.
pub fn label_of<'a>(policy: &'a PolicyRec, name: &Name) -> Option<&'a LabelRec>
    ensures { option_copied result ≡ cat.label_named (bare_policy policy.now) name.now }
{
    label_named(policy.labels.as_slice(), name)
}

fn label_named<'a>(labels: &'a [LabelRec], name: &Name) -> Option<&'a LabelRec>
    ensures { option_copied result ≡ find (cat.is_label name.now) labels.now }
{
    for label in labels {
        if label.name.is(name) {
            return Some(label);
        }
    }
    None
}

/// The user has SECADM authority, or NotSecadm: who is no user has none (GRANT (database authorities) statement).
pub fn secadm(catalog: &Catalog, user: &Name) -> Result<(), Stop>
    ensures { Passes (refusing.secadm (bare catalog.now) user.now) result }
{
    match catalog.user(user) {
        Some(user) if user.secadm => Ok(()),
        _ => Err(Stop::Refused(Refusal::NotSecadm)),
    }
}
