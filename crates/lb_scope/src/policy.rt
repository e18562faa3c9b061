// The policies and labels that calls of SECLABEL, SECLABEL_BY_NAME and SECLABEL_TO_CHAR name. Names are looked up as given.
ghost use Rattle.std.specs.Prelude.{◌≡◌, find, is_some};
ghost use Rattle.lb_cat.specs.Catalog as cat;
ghost use Rattle.lb_scope.specs.Found.{catalogue};

use lb_base::Str;
use lb_cat::{Catalog, LabelRec};
use lb_label::read_text;

/// Whether there is a policy with that name.
pub fn has_policy(catalog: &Catalog, policy: &Str) -> bool
    ensures { result ≡ (catalogue catalog.now).has_policy policy.now }
{
    catalog.policy_called(policy.as_str()).is_some()
}

/// Whether there is such a policy, and it has a label of that name.
pub fn has_label(catalog: &Catalog, policy: &Str, label: &Str) -> bool
    ensures { result ≡ (catalogue catalog.now).has_label policy.now label.now }
{
    match catalog.policy_called(policy.as_str()) {
        Some(policy) => is_label(label.as_str(), policy.labels.as_slice()),
        None => false,
    }
}

/// The byte at which the text stops being a label text of the policy, counted from 0: none where it is one, or where there is no
/// such policy. A place beyond 4,294,967,295 is told as that number (SECLABEL scalar function).
pub fn label_fault(catalog: &Catalog, policy: &Str, text: &Str) -> Option<u32>
    ensures { result ≡ (catalogue catalog.now).label_fault policy.now text.now }
{
    match catalog.policy_called(policy.as_str()) {
        Some(policy) => match read_text(&policy.shape, text.as_str()) {
            Ok(_) => None,
            Err(fault) => Some(fault.at),
        },
        None => None,
    }
}

/// Whether one of these labels has that name.
fn is_label(name: &str, labels: &[LabelRec]) -> bool
    ensures { result ≡ is_some (find (cat.is_label name.now) labels.now) }
{
    for label in labels {
        if label.name.as_str() == name {
            return true;
        }
    }
    false
}
