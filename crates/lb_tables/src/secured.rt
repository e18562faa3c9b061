// The labels that secure columns: they are labels of the table's policy.
ghost use Rattle.std.specs.Prelude.{◌≡◌, Some, is_some, option_map};
ghost use Rattle.std.specs.Arc.{arc_value};
ghost use Rattle.lb_cat.specs.Stamps.{bare, bare_policy};
ghost use Rattle.lb_changed.specs.Given.{Passes};
ghost use Rattle.lb_alter.specs.ChangeTable as definitions;
ghost use Rattle.lb_alter.specs.ChangeTable.{columns_in};
ghost use Rattle.lb_alter.specs.Refusing.{each_passes};

use lb_base::Name;
use lb_cat::{Catalog, PolicyRec};
use lb_changed::{Stop, label_of, unknown};
use lb_stmt::Element;
use std::alloc::Global;
use std::sync::Arc;

/// The policy that is written, if one is, is there.
pub(crate) fn policy_refusal(
    alloc: Global,
    catalog: &Catalog,
    policy: &Option<Name>,
) -> Result<(), Stop>
    ensures { Passes (definitions.policy_refusal (bare catalog.now) policy.now) result }
{
    let Some(policy) = policy else {
        return Ok(());
    };
    match catalog.policy(policy) {
        Some(_) => Ok(()),
        None => Err(unknown(alloc, policy)),
    }
}

/// The policy of a table, by its name.
pub(crate) fn policy_of<'a>(
    catalog: &'a Catalog,
    policy: &Option<Name>,
) -> Option<&'a Arc<PolicyRec>>
    ensures { option_map (λ p. bare_policy (arc_value p.now)) result ≡ definitions.policy_of (bare catalog.now) policy.now }
{
    match policy {
        Some(policy) => catalog.policy(policy),
        None => None,
    }
}

/// The label is one of the policy.
pub(crate) fn label_refusal(
    alloc: Global,
    policy: Option<&Arc<PolicyRec>>,
    label: &Name,
) -> Result<(), Stop>
    ensures { Passes (definitions.secured_refusal (option_map (λ p. bare_policy (arc_value p.now)) policy.entry) (Some label.now)) result }
{
    if has_label(policy, label) {
        Ok(())
    } else {
        Err(unknown(alloc, label))
    }
}

fn has_label(policy: Option<&Arc<PolicyRec>>, label: &Name) -> bool
    ensures { result ≡ definitions.has_label (option_map (λ p. bare_policy (arc_value p.now)) policy.entry) label.now }
{
    match policy {
        Some(policy) => label_of(policy, label).is_some(),
        None => false,
    }
}

fn secured_refusal(
    alloc: Global,
    policy: Option<&Arc<PolicyRec>>,
    secured: &Option<Name>,
) -> Result<(), Stop>
    ensures { Passes (definitions.secured_refusal (option_map (λ p. bare_policy (arc_value p.now)) policy.entry) secured.now) result }
{
    match secured {
        Some(label) => label_refusal(alloc, policy, label),
        None => Ok(()),
    }
}

/// The label of each secured column is one of the policy.
pub(crate) fn labels_refusal(
    alloc: Global,
    policy: Option<&Arc<PolicyRec>>,
    elements: &[Element],
) -> Result<(), Stop>
    ensures { Passes (each_passes (λ d. definitions.secured_refusal (option_map (λ p. bare_policy (arc_value p.now)) policy.entry) d.secured) (columns_in elements.now)) result }
{
    for element in elements {
        let Element::Column(column) = element else {
            continue;
        };
        secured_refusal(alloc, policy, &column.secured)?;
    }
    Ok(())
}
