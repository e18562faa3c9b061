// What uses a component, a policy or a label: the first policy, and what is asked of tables and users.
ghost use Rattle.std.specs.Prelude.{◌≡◌, ◌||◌, find, slice_get};
ghost use Rattle.std.specs.List.{list_any};
ghost use Rattle.std.specs.Option.{option_map};
ghost use Rattle.std.specs.Arc.{arc_value};
ghost use Rattle.lb_alter.specs.ChangeLabel as labels;
ghost use Rattle.lb_alter.specs.ChangePolicy as change;
ghost use Rattle.lb_alter.specs.Stored as stored;
ghost use Rattle.lb_cat.specs.Catalog as cat;
ghost use Rattle.lb_cat.specs.Holdings as holdings;
ghost use Rattle.lb_cat.specs.Stamps.{bare, bare_policy, bare_table};
ghost use Rattle.lb_first.specs.Passing.{passing};

use lb_base::Name;
use lb_cat::{Catalog, ColumnRec, Holding, PolicyRec, TableRec, UserRec};
use lb_changed::entry_of;
use lb_first::{TableTest, UserTest};
use lb_mentions::{calls_label, calls_policy};
use lb_stmt::LabelName;
use std::sync::Arc;

/// The first policy that has the component, and nothing exactly where none has it.
#[tactic(auto, using(lb_first::proofs::First::found_here, lb_first::proofs::First::found_later))]
pub fn first_policy_with<'a>(catalog: &'a Catalog, component: &Name) -> Option<&'a Arc<PolicyRec>>
    ensures { option_map (λ p. bare_policy (arc_value p.now)) result ≡ find (change.has_component component.now) (bare catalog.now).policies }
{
    for place in 0..catalog.policy_count() {
        if let Some(policy) = having_at(catalog, place, component) {
            return Some(policy);
        }
    }
    None
}

/// The policy in this place, if it has the component.
fn having_at<'a>(catalog: &'a Catalog, place: usize, component: &Name) -> Option<&'a Arc<PolicyRec>>
    ensures { option_map (λ p. bare_policy (arc_value p.now)) result ≡ passing (change.has_component component.now) (slice_get (bare catalog.now).policies place) }
{
    match catalog.policy_at(place) {
        Some(policy) if is_among(policy.components.as_slice(), component) => Some(policy),
        _ => None,
    }
}

/// Whether the name is among the names.
pub fn is_among(names: &[Name], name: &Name) -> bool
    ensures { result ≡ cat.is_among names.now name.now }
{
    for other in names {
        if other.is(name) {
            return true;
        }
    }
    false
}

/// The table has the policy, or one of its permissions or masks calls it.
#[derive(Clone, Copy)]
pub struct UsesPolicy<'a> {
    pub policy: &'a Name,
}

impl TableTest for UsesPolicy<'_> {
    ghost test = { λ s t. change.has_policy s.policy.now t || stored.calls_policy s.policy.now t };

    fn passes(&self, table: &TableRec) -> bool {
        is_same(&table.policy, self.policy) || calls_policy(self.policy, table)
    }
}

/// Whether a name is given, and is this one.
fn is_same(given: &Option<Name>, name: &Name) -> bool
    ensures { result ≡ holdings.is_same_name name.now given.now }
{
    match given {
        Some(given) => given.is(name),
        None => false,
    }
}

/// The user holds the label.
#[derive(Clone, Copy)]
pub struct Holds<'a> {
    pub label: &'a LabelName,
}

impl UserTest for Holds<'_> {
    ghost test = { λ s. labels.holds s.label.now };

    fn passes(&self, user: &UserRec) -> bool {
        match entry_of(user.held.as_slice(), &self.label.policy) {
            Some(holding) => holds_label(holding, &self.label.label),
            None => false,
        }
    }
}

fn holds_label(holding: &Holding, label: &Name) -> bool
    ensures { result ≡ holdings.holds_label label.now holding.now }
{
    is_same(&holding.read, label) || is_same(&holding.write, label)
}

/// The table has the label's policy and a column secured with the label, or one of its permissions or masks calls the label.
#[derive(Clone, Copy)]
pub struct UsesLabel<'a> {
    pub label: &'a LabelName,
}

impl TableTest for UsesLabel<'_> {
    ghost test = { λ s t. labels.secures_with s.label.now t || stored.calls_label s.label.now.policy s.label.now.label t };

    fn passes(&self, table: &TableRec) -> bool {
        secures_with(table, self.label) || calls_label(&self.label.policy, &self.label.label, table)
    }
}

fn secures_with(table: &TableRec, label: &LabelName) -> bool
    ensures { result ≡ labels.secures_with label.now (bare_table table.now) }
{
    is_same(&table.policy, &label.policy) && one_is_secured(table.columns.as_slice(), &label.label)
}

fn one_is_secured(columns: &[ColumnRec], label: &Name) -> bool
    ensures { result ≡ list_any (labels.is_secured_with label.now) columns.now }
{
    for column in columns {
        if is_same(&column.secured, label) {
            return true;
        }
    }
    false
}
