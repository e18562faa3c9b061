// Components, policies and labels.
ghost use Rattle.lb_alter.specs.Change.{attempt};
ghost use Rattle.lb_alter.specs.Naming.{stored_rules};
ghost use Rattle.lb_alter.specs.Sound.{IsSound};
ghost use Rattle.lb_cat.specs.Stamps.{bare};
ghost use Rattle.lb_rows.specs.Tables.{Tables};
ghost use Rattle.lb_changed.specs.Made.{Makes};
ghost use Rattle.lb_secddl.specs.Groups.{IsOfLabels};

use crate::grants::granted;
use lb_base::Name;
use lb_cat::Catalog;
use lb_changed::{Changed, Stop};
use lb_policy::{
    create_component, create_label, create_policy, drop_component, drop_label, drop_policy,
};
use lb_stmt::Change;
use std::alloc::Global;

/// A statement on what labels are made of, or on who has what.
pub fn labelled(
    alloc: Global,
    catalog: &Catalog,
    user: &Name,
    change: &Change,
) -> Result<Changed, Stop>
    requires kind { IsOfLabels change.now }
    requires sound { IsSound stored_rules (bare catalog.now) }
    ensures { (T : Tables) → Makes catalog.now T (attempt stored_rules (bare catalog.now) T user.now change.now) result }
{
    match change {
        Change::CreateComponent(name, def) => create_component(alloc, catalog, user, name, def),
        Change::DropComponent(name) => drop_component(alloc, catalog, user, name),
        Change::CreatePolicy(def) => create_policy(alloc, catalog, user, def),
        Change::DropPolicy(name) => drop_policy(alloc, catalog, user, name),
        Change::CreateLabel(label, parts) => {
            create_label(alloc, catalog, user, label, parts.as_slice())
        }
        Change::DropLabel(label) => drop_label(alloc, catalog, user, label),
        _ => granted(alloc, catalog, user, change),
    }
}
