// Labels of users.
ghost use Rattle.std.specs.Prelude.{◌≡◌, [], IfOk, IfSome, slice_index_or};
ghost use Rattle.std.specs.Option.{option_copied};
ghost use Rattle.std.specs.List.{AllByRecursion};
ghost use Rattle.lb_base.specs.declared.key.Key.TheVariants as keys;
ghost use Rattle.lb_label.specs.Label.{IsLabel};
ghost use Rattle.lb_alter.specs.ChangeGrant as change;
ghost use Rattle.lb_cat.specs.Holdings as holdings;
ghost use Rattle.lb_cat.specs.Stamps.{bare, bare_policy, bare_user, look};
ghost use Rattle.lb_cat.specs.declared.catalog.LabelRec.{LabelRec as AnyLabel};
ghost use Rattle.lb_cat.specs.declared.refusal.Refusal.TheVariants as refusals;
ghost use Rattle.lb_rows.specs.Tables.{Tables};
ghost use Rattle.lb_alter.specs.Naming.{stored_rules};
ghost use Rattle.lb_alter.specs.Sound.{IsSound};
ghost use Rattle.lb_changed.specs.Given.{Gives, Passes, StopsFor};
ghost use Rattle.lb_changed.specs.Made.{Makes};
ghost use Rattle.lb_grant.specs.Labelling.{label_given, label_granted, label_revoked};

use crate::holding::{hold, holding_of};
use crate::user::{leaves, user_of, user_or_new};
use lb_base::{Name, NoMemory, Str};
use lb_cat::{Catalog, Holding, LabelRec, PolicyRec, Refusal, UserRec};
use lb_changed::{Changed, Stop, exists, label_of, secadm, the_label, the_policy, unknown};
use lb_label::grant_fits;
use lb_stmt::{Access, LabelName};
use std::alloc::Global;

/// GRANT SECURITY LABEL (GRANT (security label) statement). NotSecadm; Unknown where there is no such policy, or no such label of it;
/// Exists with the label that the user holds for reading, or writing, where it is another one and the grant includes that access;
/// GrantMismatch with the first component in which what the user would hold for reading and for writing don't agree.
#[tactic(auto, using(lb_changed::proofs::Steps::steps))]
pub fn grant_label(
    alloc: Global,
    catalog: &Catalog,
    user: &Name,
    label: &LabelName,
    to: &Name,
    access: Access,
) -> Result<Changed, Stop>
    requires { IsSound stored_rules (bare catalog.now) }
    ensures { (T : Tables) → Makes catalog.now T (change.grant_label (bare catalog.now) T user.now label.now to.now access) result }
{
    secadm(catalog, user)?;
    let policy = the_policy(alloc, catalog, &label.policy)?;
    grant_label_of(alloc, catalog, policy, label, to, access)
}

/// The grant of a label of this policy.
#[tactic(auto, using(lb_changed::proofs::Steps::steps))]
fn grant_label_of(
    alloc: Global,
    catalog: &Catalog,
    policy: &PolicyRec,
    label: &LabelName,
    to: &Name,
    access: Access,
) -> Result<Changed, Stop>
    requires { AllByRecursion (λ (l : AnyLabel). IsLabel policy.now.shape l.parts.items) policy.now.labels }
    ensures { (T : Tables) → Makes catalog.now T (label_granted (bare catalog.now) T (bare_policy policy.now) label.now to.now access) result }
{
    the_label(alloc, policy, &label.label)?;
    let before = user_or_new(alloc, catalog, to)?;
    let held = holding_of(alloc, &before, &label.policy)?;
    let holding = given_label(alloc, policy, access, &label.label, held)?;
    let changed = hold(alloc, before, holding)?;
    leaves(alloc, catalog, changed)
}

/// REVOKE SECURITY LABEL (REVOKE (security label) statement), from reading and from writing. NotSecadm; Unknown where there is no such
/// policy, no such label of it, or the user doesn't hold it.
#[tactic(auto, using(lb_changed::proofs::Steps::steps))]
pub fn revoke_label(
    alloc: Global,
    catalog: &Catalog,
    user: &Name,
    label: &LabelName,
    from: &Name,
) -> Result<Changed, Stop>
    ensures { (T : Tables) → Makes catalog.now T (change.revoke_label (bare catalog.now) T user.now label.now from.now) result }
{
    secadm(catalog, user)?;
    let policy = the_policy(alloc, catalog, &label.policy)?;
    the_label(alloc, policy, &label.label)?;
    let found = user_of(alloc, catalog, from)?;
    match found {
        Some(before) => take_label(alloc, catalog, before, label),
        None => Err(unknown(alloc, &label.label)),
    }
}

/// The change that takes the label from the user: Unknown where the user doesn't hold it.
#[tactic(auto, using(lb_changed::proofs::Steps::steps))]
fn take_label(
    alloc: Global,
    catalog: &Catalog,
    user: UserRec,
    label: &LabelName,
) -> Result<Changed, Stop>
    requires { user.stamp ≡ look catalog.now (keys.User user.name) }
    ensures { (T : Tables) → Makes catalog.now T (label_revoked (bare catalog.now) T label.now (bare_user user)) result }
{
    let held = holding_of(alloc, &user, &label.policy)?;
    if holds(&label.label, &held) {
        let changed = hold(alloc, user, without_label(&label.label, held))?;
        leaves(alloc, catalog, changed)
    } else {
        Err(unknown(alloc, &label.label))
    }
}

/// What is held, with the label for the accesses that are granted: Exists where another label is held for one of them, GrantMismatch
/// where what would be held for reading and for writing doesn't agree.
fn given_label(
    alloc: Global,
    policy: &PolicyRec,
    access: Access,
    label: &Name,
    held: Holding,
) -> Result<Holding, Stop>
    requires { AllByRecursion (λ (l : AnyLabel). IsLabel policy.now.shape l.parts.items) policy.now.labels }
    ensures { Gives (λ h. h) (label_given (bare_policy policy.now) access label.now held) result }
{
    holds_no_other(alloc, reads(access), label, &held.read)?;
    holds_no_other(alloc, writes(access), label, &held.write)?;
    let holding = with_label(access, label, held)?;
    labels_agree(alloc, policy, &holding)?;
    Ok(holding)
}

fn reads(access: Access) -> bool
    ensures { result ≡ change.reads access }
{
    match access {
        Access::All | Access::Read => true,
        Access::Write => false,
    }
}

fn writes(access: Access) -> bool
    ensures { result ≡ change.writes access }
{
    match access {
        Access::All | Access::Write => true,
        Access::Read => false,
    }
}

/// Where the access is granted, no other label is held for it; else Exists.
fn holds_no_other(
    alloc: Global,
    granted: bool,
    label: &Name,
    held: &Option<Name>,
) -> Result<(), Stop>
    ensures { Passes (change.held_refusal granted label.now held.now) result }
{
    match held {
        Some(other) if granted && !other.is(label) => Err(exists(alloc, other)),
        _ => Ok(()),
    }
}

/// The holding with the label for the accesses that are granted.
fn with_label(access: Access, label: &Name, held: Holding) -> Result<Holding, NoMemory>
    ensures { IfOk result (λ h. h ≡ change.with_label access label.now held) }
{
    let policy = held.policy;
    let exempt = held.exempt;
    let read = if_granted(reads(access), label, held.read)?;
    let write = if_granted(writes(access), label, held.write)?;
    Ok(Holding {
        policy,
        read,
        write,
        exempt,
    })
}

/// The label where the access is granted, else what was held.
fn if_granted(granted: bool, label: &Name, held: Option<Name>) -> Result<Option<Name>, NoMemory>
    ensures { IfOk result (λ l. l ≡ change.if_granted granted label.now held) }
{
    if granted {
        let label = label.copy()?;
        Ok(Some(label))
    } else {
        Ok(held)
    }
}

/// The label is held, for reading or for writing.
fn holds(label: &Name, held: &Holding) -> bool
    ensures { result ≡ holdings.holds_label label.now held.now }
{
    is_same(label, &held.read) || is_same(label, &held.write)
}

fn is_same(label: &Name, held: &Option<Name>) -> bool
    ensures { result ≡ holdings.is_same_name label.now held.now }
{
    match held {
        Some(other) => other.is(label),
        None => false,
    }
}

/// The holding without the label, for both accesses.
fn without_label(label: &Name, held: Holding) -> Holding
    ensures { result ≡ change.without_label label.now held }
{
    Holding {
        policy: held.policy,
        read: other_than(label, held.read),
        write: other_than(label, held.write),
        exempt: held.exempt,
    }
}

fn other_than(label: &Name, held: Option<Name>) -> Option<Name>
    ensures { result ≡ holdings.other_than label.now held }
{
    match held {
        Some(other) if !other.is(label) => Some(other),
        _ => None,
    }
}

/// What is held for reading and for writing agrees, where both are; else GrantMismatch with the component.
fn labels_agree(alloc: Global, policy: &PolicyRec, holding: &Holding) -> Result<(), Stop>
    requires { AllByRecursion (λ (l : AnyLabel). IsLabel policy.now.shape l.parts.items) policy.now.labels }
    ensures { Passes (change.mismatch (bare_policy policy.now) holding.now) result }
{
    let read = label_held(policy, &holding.read);
    let write = label_held(policy, &holding.write);
    match first_mismatch(policy, read, write) {
        None => Ok(()),
        Some(at) => Err(mismatch(alloc, policy, at)),
    }
}

/// The record of the label that is held.
fn label_held<'a>(policy: &'a PolicyRec, held: &Option<Name>) -> Option<&'a LabelRec>
    ensures { option_copied result ≡ change.label_held (bare_policy policy.now) held.now }
{
    match held {
        Some(label) => label_of(policy, label),
        None => None,
    }
}

/// The place of the first component in which both labels, where both are held, don't agree.
fn first_mismatch(
    policy: &PolicyRec,
    read: Option<&LabelRec>,
    write: Option<&LabelRec>,
) -> Option<u32>
    requires read { IfSome read (λ l. IsLabel policy.now.shape l.now.parts.items) }
    requires write { IfSome write (λ l. IsLabel policy.now.shape l.now.parts.items) }
    ensures { result ≡ change.disagreement (bare_policy policy.now) (option_copied read.entry) (option_copied write.entry) }
{
    match (read, write) {
        (Some(read), Some(write)) => grant_fits(
            &policy.shape,
            read.parts.as_slice(),
            write.parts.as_slice(),
        ),
        _ => None,
    }
}

/// The labels don't agree in the component at that place of the policy.
fn mismatch(alloc: Global, policy: &PolicyRec, at: u32) -> Stop
    ensures { StopsFor (refusals.GrantMismatch (slice_index_or policy.now.components at [])) result }
{
    match Str::of(alloc, component_at(policy, at)) {
        Ok(component) => Stop::Refused(Refusal::GrantMismatch(component)),
        Err(_) => Stop::NoMemory,
    }
}

/// The name of the component at that place of the policy.
fn component_at(policy: &PolicyRec, at: u32) -> &str
    ensures { result.now ≡ slice_index_or policy.now.components at [] }
{
    match policy.components.at(at as usize) {
        Some(component) => component.as_str(),
        None => "",
    }
}
