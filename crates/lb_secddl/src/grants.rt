// Labels and exemptions of users, roles and authorities.
ghost use Rattle.lb_alter.specs.Change.{attempt};
ghost use Rattle.lb_alter.specs.Naming.{stored_rules};
ghost use Rattle.lb_alter.specs.Sound.{IsSound};
ghost use Rattle.lb_cat.specs.Stamps.{bare};
ghost use Rattle.lb_rows.specs.Tables.{Tables};
ghost use Rattle.lb_changed.specs.Made.{Makes};
ghost use Rattle.lb_secddl.specs.Groups.{IsOfGrants};

use lb_base::Name;
use lb_cat::Catalog;
use lb_changed::{Changed, Stop};
use lb_grant::{
    create_role, drop_role, grant_exemption, grant_label, grant_role, grant_secadm,
    revoke_exemption, revoke_label, revoke_role, revoke_secadm,
};
use lb_stmt::Change;
use std::alloc::Global;

/// A statement on who has what.
pub fn granted(
    alloc: Global,
    catalog: &Catalog,
    user: &Name,
    change: &Change,
) -> Result<Changed, Stop>
    requires kind { IsOfGrants change.now }
    requires sound { IsSound stored_rules (bare catalog.now) }
    ensures { (T : Tables) → Makes catalog.now T (attempt stored_rules (bare catalog.now) T user.now change.now) result }
{
    match change {
        Change::GrantLabel(label, to, access) => {
            grant_label(alloc, catalog, user, label, to, *access)
        }
        Change::RevokeLabel(label, from) => revoke_label(alloc, catalog, user, label, from),
        Change::GrantExemption(rule, policy, to) => {
            grant_exemption(alloc, catalog, user, *rule, policy, to)
        }
        Change::RevokeExemption(rule, policy, from) => {
            revoke_exemption(alloc, catalog, user, *rule, policy, from)
        }
        Change::CreateRole(role) => create_role(alloc, catalog, user, role),
        Change::DropRole(role) => drop_role(alloc, catalog, user, role),
        Change::GrantRole(role, to) => grant_role(alloc, catalog, user, role, to),
        Change::RevokeRole(role, from) => revoke_role(alloc, catalog, user, role, from),
        Change::GrantSecadm(to) => grant_secadm(alloc, catalog, user, to),
        Change::RevokeSecadm(from) => revoke_secadm(alloc, catalog, user, from),
        _ => unreachable!(),
    }
}
