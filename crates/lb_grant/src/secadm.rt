// SECADM authority.
ghost use Rattle.lb_alter.specs.ChangeGrant as change;
ghost use Rattle.lb_cat.specs.Stamps.{bare};
ghost use Rattle.lb_rows.specs.Tables.{Tables};
ghost use Rattle.lb_changed.specs.Made.{Makes};

use crate::user::{leaves, leaves_none, user_of, user_or_new};
use lb_base::Name;
use lb_cat::Catalog;
use lb_changed::{Changed, Stop, secadm};
use std::alloc::Global;

/// GRANT SECADM (GRANT (database authorities) statement). Refused NotSecadm where the user has no SECADM authority.
#[tactic(auto, using(lb_changed::proofs::Steps::steps))]
pub fn grant_secadm(
    alloc: Global,
    catalog: &Catalog,
    user: &Name,
    to: &Name,
) -> Result<Changed, Stop>
    ensures { (T : Tables) → Makes catalog.now T (change.grant_secadm (bare catalog.now) T user.now to.now) result }
{
    secadm(catalog, user)?;
    let mut changed = user_or_new(alloc, catalog, to)?;
    changed.secadm = true;
    leaves(alloc, catalog, changed)
}

/// REVOKE SECADM (REVOKE (database authorities) statement), also from the last who has it. Refused NotSecadm where the user has no SECADM
/// authority.
#[tactic(auto, using(lb_changed::proofs::Steps::steps))]
pub fn revoke_secadm(
    alloc: Global,
    catalog: &Catalog,
    user: &Name,
    from: &Name,
) -> Result<Changed, Stop>
    ensures { (T : Tables) → Makes catalog.now T (change.revoke_secadm (bare catalog.now) T user.now from.now) result }
{
    secadm(catalog, user)?;
    let found = user_of(alloc, catalog, from)?;
    match found {
        Some(mut changed) => {
            changed.secadm = false;
            leaves(alloc, catalog, changed)
        }
        None => leaves_none(alloc, catalog, from),
    }
}
