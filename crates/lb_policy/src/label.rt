// Security labels, made and dropped.
ghost use Rattle.std.specs.Prelude.{◌≡◌, ◌||◌, ◌++◌, ◌∷◌, [], find, is_some, IfOk};
ghost use Rattle.std.specs.Option.{option_map};
ghost use Rattle.lb_base.specs.declared.key.Key.TheVariants as keys;
ghost use Rattle.lb_alter.specs.ChangeLabel as change;
ghost use Rattle.lb_alter.specs.ChangePolicy.{table_name};
ghost use Rattle.lb_alter.specs.Refusing as refusing;
ghost use Rattle.lb_alter.specs.Stored as stored;
ghost use Rattle.lb_cat.specs.Catalog as cat;
ghost use Rattle.lb_cat.specs.Stamps.{bare, bare_policy, look};
ghost use Rattle.lb_cat.specs.declared.refusal.Refusal.TheVariants as refusals;
ghost use Rattle.lb_rows.specs.Lists.{without as left_without};
ghost use Rattle.lb_rows.specs.Tables.{Tables};
ghost use Rattle.lb_changed.specs.Given.{Passes};
ghost use Rattle.lb_changed.specs.Made.{Makes};

use crate::fitting::parts_fit;
use crate::numbers::label_parts;
use crate::used::{Holds, UsesLabel};
use lb_base::{Name, NoMemory};
use lb_cat::{Catalog, Copied, LabelRec, PolicyRec};
use lb_changed::{
    Changed, Stop, alters_policy, exists, label_of, secadm, the_label, the_policy, without,
};
use lb_first::{no_table_uses, no_user_uses};
use lb_stmt::{LabelName, LabelPart};
use std::alloc::Global;

/// CREATE SECURITY LABEL (CREATE SECURITY LABEL statement). NotSecadm; Unknown where the policy isn't there; Exists where it has a
/// label of that name; and of the parts in their order the first refusal: Unknown where the component is none of the policy, Exists
/// where it was named before, Unknown where it has no such element, BadLabel with its place where an ARRAY would have two elements.
/// A component that no part names has no element.
#[tactic(auto, using(lb_changed::proofs::Steps::steps))]
pub fn create_label(
    alloc: Global,
    catalog: &Catalog,
    user: &Name,
    label: &LabelName,
    parts: &[LabelPart],
) -> Result<Changed, Stop>
    ensures { (T : Tables) → Makes catalog.now T (change.create_label (bare catalog.now) T user.now label.now parts.now) result }
{
    secadm(catalog, user)?;
    let policy = the_policy(alloc, catalog, &label.policy)?;
    is_new(alloc, policy, &label.label)?;
    parts_fit(alloc, policy, parts)?;
    adds(alloc, catalog, policy, &label.label, parts)
}

#[tactic(auto, using(crate::proofs::Tests::refuses))]
fn is_new(alloc: Global, policy: &PolicyRec, label: &Name) -> Result<(), Stop>
    ensures { Passes (refusing.when (is_some (cat.label_named (bare_policy policy.now) label.now)) (refusals.Exists label.now)) result }
{
    match label_of(policy, label) {
        Some(_) => Err(exists(alloc, label)),
        None => Ok(()),
    }
}

fn adds(
    alloc: Global,
    catalog: &Catalog,
    policy: &PolicyRec,
    label: &Name,
    parts: &[LabelPart],
) -> Result<Changed, Stop>
    requires { policy.now.stamp ≡ look catalog.now (keys.Policy policy.now.name) }
    ensures { (T : Tables) → Makes catalog.now T (refusing.alters_policy (bare catalog.now) T (record (bare_policy policy.now) { labels = policy.now.labels ++ record { name = label.now; parts = record { items = change.label_parts (bare_policy policy.now) parts.now } } ∷ [] })) result }
{
    let rec = with_label(alloc, policy, label, parts)?;
    alters_policy(alloc, catalog, rec)
}

/// The policy with the label, which comes last.
fn with_label(
    alloc: Global,
    policy: &PolicyRec,
    label: &Name,
    parts: &[LabelPart],
) -> Result<PolicyRec, NoMemory>
    ensures bare { IfOk result (λ p. bare_policy p ≡ record (bare_policy policy.now) { labels = policy.now.labels ++ record { name = label.now; parts = record { items = change.label_parts (bare_policy policy.now) parts.now } } ∷ [] }) }
    ensures name { IfOk result (λ p. p.name ≡ policy.now.name) }
    ensures stamp { IfOk result (λ p. p.stamp ≡ policy.now.stamp) }
{
    let mut rec = policy.copy(alloc)?;
    let label = LabelRec {
        name: label.copy()?,
        parts: label_parts(policy, parts),
    };
    rec.labels.push(label)?;
    Ok(rec)
}

/// DROP SECURITY LABEL (DROP statement). NotSecadm; Unknown where the policy, or the label of it, isn't there; InUse with the first
/// user who holds the label; and with the first table that has a column secured with it, or of which a permission or mask calls it.
#[tactic(auto, using(lb_changed::proofs::Steps::steps))]
pub fn drop_label(
    alloc: Global,
    catalog: &Catalog,
    user: &Name,
    label: &LabelName,
) -> Result<Changed, Stop>
    ensures { (T : Tables) → Makes catalog.now T (change.drop_label (bare catalog.now) T user.now label.now) result }
{
    secadm(catalog, user)?;
    let policy = the_policy(alloc, catalog, &label.policy)?;
    the_label(alloc, policy, &label.label)?;
    is_not_held(alloc, catalog, label)?;
    is_on_no_table(alloc, catalog, label)?;
    drops(alloc, catalog, policy, &label.label)
}

fn is_not_held(alloc: Global, catalog: &Catalog, label: &LabelName) -> Result<(), Stop>
    ensures { Passes (refusing.in_use label.now.label (option_map change.user_name (find (change.holds label.now) (bare catalog.now).users))) result }
{
    no_user_uses(alloc, catalog, &label.label, &Holds { label })
}

fn is_on_no_table(alloc: Global, catalog: &Catalog, label: &LabelName) -> Result<(), Stop>
    ensures { Passes (refusing.in_use label.now.label (option_map table_name (find (λ t. change.secures_with label.now t || stored.calls_label label.now.policy label.now.label t) (bare catalog.now).tables))) result }
{
    no_table_uses(alloc, catalog, &label.label, &UsesLabel { label })
}

fn drops(
    alloc: Global,
    catalog: &Catalog,
    policy: &PolicyRec,
    label: &Name,
) -> Result<Changed, Stop>
    requires { policy.now.stamp ≡ look catalog.now (keys.Policy policy.now.name) }
    ensures { (T : Tables) → Makes catalog.now T (refusing.alters_policy (bare catalog.now) T (record (bare_policy policy.now) { labels = left_without (cat.is_label label.now) policy.now.labels })) result }
{
    let rec = without_label(alloc, policy, label)?;
    alters_policy(alloc, catalog, rec)
}

fn without_label(alloc: Global, policy: &PolicyRec, label: &Name) -> Result<PolicyRec, NoMemory>
    ensures bare { IfOk result (λ p. bare_policy p ≡ record (bare_policy policy.now) { labels = left_without (cat.is_label label.now) policy.now.labels }) }
    ensures name { IfOk result (λ p. p.name ≡ policy.now.name) }
    ensures stamp { IfOk result (λ p. p.stamp ≡ policy.now.stamp) }
{
    let mut rec = policy.copy(alloc)?;
    rec.labels = without(alloc, policy.labels.as_slice(), label)?;
    Ok(rec)
}
