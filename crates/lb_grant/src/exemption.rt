// Exemptions from rules of DB2LBACRULES.
ghost use Rattle.std.specs.Prelude.{◌≡◌, IfOk};
ghost use Rattle.lb_alter.specs.ChangeGrant as change;
ghost use Rattle.lb_cat.specs.Holdings.{with_exemptions, without_exemptions};
ghost use Rattle.lb_cat.specs.Stamps.{bare, bare_user};
ghost use Rattle.lb_rows.specs.Tables.{Tables};
ghost use Rattle.lb_changed.specs.Made.{Makes};
ghost use Rattle.lb_grant.specs.Exempting.{kept_from};

use crate::holding::{hold, holding_of};
use crate::user::{leaves, leaves_none, user_of, user_or_new};
use lb_base::{Name, NoMemory, Rule};
use lb_cat::{Catalog, UserRec};
use lb_changed::{Changed, Stop, secadm, the_policy};
use lb_label::Exempt;
use lb_stmt::Exempted;
use std::alloc::Global;

/// GRANT EXEMPTION (GRANT (exemption) statement). NotSecadm, or Unknown where there is no such policy.
#[tactic(auto, using(lb_changed::proofs::Steps::steps))]
pub fn grant_exemption(
    alloc: Global,
    catalog: &Catalog,
    user: &Name,
    rule: Exempted,
    policy: &Name,
    to: &Name,
) -> Result<Changed, Stop>
    ensures { (T : Tables) → Makes catalog.now T (change.grant_exemption (bare catalog.now) T user.now rule policy.now to.now) result }
{
    secadm(catalog, user)?;
    the_policy(alloc, catalog, policy)?;
    let before = user_or_new(alloc, catalog, to)?;
    let changed = exempted(alloc, before, rule, policy)?;
    leaves(alloc, catalog, changed)
}

/// REVOKE EXEMPTION (REVOKE (exemption) statement). NotSecadm, or Unknown where there is no such policy.
#[tactic(auto, using(lb_changed::proofs::Steps::steps))]
pub fn revoke_exemption(
    alloc: Global,
    catalog: &Catalog,
    user: &Name,
    rule: Exempted,
    policy: &Name,
    from: &Name,
) -> Result<Changed, Stop>
    ensures { (T : Tables) → Makes catalog.now T (change.revoke_exemption (bare catalog.now) T user.now rule policy.now from.now) result }
{
    secadm(catalog, user)?;
    the_policy(alloc, catalog, policy)?;
    let found = user_of(alloc, catalog, from)?;
    match found {
        Some(before) => {
            let changed = not_exempted(alloc, before, rule, policy)?;
            leaves(alloc, catalog, changed)
        }
        None => leaves_none(alloc, catalog, from),
    }
}

/// The user with exemptions from the rules for the policy.
fn exempted(
    alloc: Global,
    user: UserRec,
    rule: Exempted,
    policy: &Name,
) -> Result<UserRec, NoMemory>
    ensures record { IfOk result (λ u. bare_user u ≡ change.exempting with_exemptions rule policy.now (bare_user user)) }
    ensures stamp { IfOk result (λ u. u.stamp ≡ user.stamp) }
    ensures name { IfOk result (λ u. u.name ≡ user.name) }
{
    let mut holding = holding_of(alloc, &user, policy)?;
    holding.exempt = with(holding.exempt, rule);
    let changed = hold(alloc, user, holding)?;
    Ok(changed)
}

/// The user without exemptions from the rules for the policy.
fn not_exempted(
    alloc: Global,
    user: UserRec,
    rule: Exempted,
    policy: &Name,
) -> Result<UserRec, NoMemory>
    ensures record { IfOk result (λ u. bare_user u ≡ change.exempting without_exemptions rule policy.now (bare_user user)) }
    ensures stamp { IfOk result (λ u. u.stamp ≡ user.stamp) }
    ensures name { IfOk result (λ u. u.name ≡ user.name) }
{
    let mut holding = holding_of(alloc, &user, policy)?;
    holding.exempt = without(holding.exempt, rule);
    let changed = hold(alloc, user, holding)?;
    Ok(changed)
}

/// These exemptions, and those from the rules that are granted.
fn with(exempt: Exempt, granted: Exempted) -> Exempt
    ensures { result ≡ with_exemptions granted exempt }
{
    match granted {
        Exempted::Rule(rule) => exempt.with(rule),
        Exempted::All => exempt
            .with(Rule::ReadArray)
            .with(Rule::ReadSet)
            .with(Rule::ReadTree)
            .with(Rule::WriteDown)
            .with(Rule::WriteUp)
            .with(Rule::WriteSet)
            .with(Rule::WriteTree),
    }
}

/// These exemptions but for those from the rules that are revoked.
#[tactic(auto, using(crate::proofs::Exempting::without_in_turn))]
fn without(exempt: Exempt, revoked: Exempted) -> Exempt
    ensures { result ≡ without_exemptions revoked exempt }
{
    let revoked = with(Exempt::none(), revoked);
    let left = kept(Exempt::none(), exempt, revoked, Rule::ReadArray);
    let left = kept(left, exempt, revoked, Rule::ReadSet);
    let left = kept(left, exempt, revoked, Rule::ReadTree);
    let left = kept(left, exempt, revoked, Rule::WriteDown);
    let left = kept(left, exempt, revoked, Rule::WriteUp);
    let left = kept(left, exempt, revoked, Rule::WriteSet);
    kept(left, exempt, revoked, Rule::WriteTree)
}

/// With the exemption from this rule, where it was there and isn't revoked.
fn kept(left: Exempt, exempt: Exempt, revoked: Exempt, rule: Rule) -> Exempt
    ensures { result ≡ kept_from exempt revoked left rule }
{
    if exempt.has(rule) && !revoked.has(rule) {
        left.with(rule)
    } else {
        left
    }
}
