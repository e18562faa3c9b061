// What a user holds of policies, with the labels in place of their names.
ghost use Rattle.std.specs.Prelude.{◌≡◌, find, map, IfOk};
ghost use Rattle.std.specs.Option.{option_map};
ghost use Rattle.std.specs.Arc.{arc_value};
ghost use Rattle.lb_cat.specs.Catalog.{is_label};
ghost use Rattle.lb_cat.specs.Credentials.{cred_label, parts_in, held_parts as parts_held};
ghost use Rattle.lb_cat.specs.Stamps.{bare, bare_policy};

use lb_base::{Listing, Name, NoMemory, Parts};
use lb_cat::{Catalog, CredLabel, CredLabels, Holding, LabelRec, PolicyRec, copy_parts};
use std::alloc::Global;
use std::sync::Arc;

/// What the user holds, in the same order.
pub fn labels_held(
    alloc: Global,
    catalog: &Catalog,
    held: &[Holding],
) -> Result<CredLabels, NoMemory>
    ensures { IfOk result (λ ls. ls ≡ map (cred_label (bare catalog.now)) held.now) }
{
    let mut labels = Listing::empty(alloc);
    for holding in held {
        labels.push(label_held(catalog, holding)?)?;
    }
    Ok(labels)
}

fn label_held(catalog: &Catalog, holding: &Holding) -> Result<CredLabel, NoMemory>
    ensures { IfOk result (λ l. l ≡ cred_label (bare catalog.now) holding.now) }
{
    let held = catalog.policy(&holding.policy);
    let read = held_parts(held, &holding.read);
    let write = held_parts(held, &holding.write);
    let policy = holding.policy.copy()?;
    Ok(CredLabel {
        policy,
        read,
        write,
        exempt: holding.exempt,
    })
}

// The label of this name of the policy, where both are there.
fn held_parts(policy: Option<&Arc<PolicyRec>>, name: &Option<Name>) -> Option<Parts>
    ensures { result ≡ parts_held (option_map (λ p. bare_policy (arc_value p.now)) policy.entry) name.now }
{
    match (policy, name) {
        (Some(policy), Some(name)) => parts_of(policy.labels.as_slice(), name),
        _ => None,
    }
}

// The parts of the label of this name.
fn parts_of(labels: &[LabelRec], name: &Name) -> Option<Parts>
    ensures { result ≡ option_map parts_in (find (is_label name.now) labels.now) }
{
    for label in labels {
        if label.name.is(name) {
            return Some(copy_parts(&label.parts));
        }
    }
    None
}
