// What the permissions and masks of tables mention.
ghost use Rattle.std.specs.Prelude.{◌≡◌, find, map, slice_get, Some};
ghost use Rattle.std.specs.Option.{option_map};
ghost use Rattle.std.specs.List.{list_any};
ghost use Rattle.lb_alter.specs.Stored as definitions;
ghost use Rattle.lb_cat.specs.Stamps.{bare, bare_table};
ghost use Rattle.lb_mentions.specs.Seeking.{is_sought, names, user_in};

use crate::sought::Sought;
use lb_base::Name;
use lb_cat::{Catalog, MaskRec, PermissionRec, TableRec};

/// Whether a permission or a mask of the table names the policy in a call of SECLABEL, SECLABEL_BY_NAME or SECLABEL_TO_CHAR.
pub fn calls_policy(policy: &Name, table: &TableRec) -> bool
    ensures { result ≡ definitions.calls_policy policy.now (bare_table table.now) }
{
    Sought::Policy(policy).stands_in(table)
}

/// Whether a permission or a mask of the table names the label in a call of SECLABEL_BY_NAME.
pub fn calls_label(policy: &Name, label: &Name, table: &TableRec) -> bool
    ensures { result ≡ definitions.calls_label policy.now label.now (bare_table table.now) }
{
    Sought::Label(policy, label).stands_in(table)
}

/// The name of the first permission or mask of another table that reads the table of this name in a subquery: tables in the order of
/// making, and of each the permissions before the masks. None exactly where none does (DROP statement).
#[tactic(auto, using(crate::proofs::Users::user_here, crate::proofs::Users::user_later))]
pub fn user_of_table<'a>(catalog: &'a Catalog, name: &Name) -> Option<&'a Name>
    ensures { option_map (λ n. n.now) result ≡ option_map definitions.stored_name (definitions.user_of_table (bare catalog.now) name.now) }
{
    for place in 0..catalog.table_count() {
        if let Some(user) = user_at(catalog, place, name) {
            return Some(user);
        }
    }
    None
}

fn user_at<'a>(catalog: &'a Catalog, place: usize, name: &Name) -> Option<&'a Name>
    ensures { option_map (λ n. n.now) result ≡ user_in name.now (slice_get (bare catalog.now).tables place) }
{
    match catalog.table_at(place) {
        Some(table) => other_user(table, name),
        None => None,
    }
}

fn other_user<'a>(table: &'a TableRec, name: &Name) -> Option<&'a Name>
    ensures { option_map (λ n. n.now) result ≡ user_in name.now (Some (bare_table table.now)) }
{
    if table.name.is(name) {
        None
    } else {
        Sought::Table(name).first_stored(table)
    }
}

impl Sought<'_> {
    /// Whether a permission or a mask of the table mentions it.
    fn stands_in(&self, table: &TableRec) -> bool
        ensures { result ≡ list_any (is_sought self.now) (definitions.mentioned_in (bare_table table.now)) }
    {
        self.first_stored(table).is_some()
    }

    /// The name of the first permission or mask of the table that mentions it.
    #[tactic(auto, using(crate::proofs::Named::first_of, crate::proofs::Named::second_of))]
    fn first_stored<'a>(&self, table: &'a TableRec) -> Option<&'a Name>
        ensures { option_map (λ n. n.now) result ≡ option_map definitions.stored_name (find (names self.now) (definitions.stored_in (bare_table table.now))) }
    {
        match self.first_permission(table.permissions.as_slice()) {
            Some(name) => Some(name),
            None => self.first_mask(table.masks.as_slice()),
        }
    }

    fn first_permission<'a>(&self, permissions: &'a [PermissionRec]) -> Option<&'a Name>
        ensures { option_map (λ n. n.now) result ≡ option_map definitions.stored_name (find (names self.now) (map definitions.stored_permission permissions.now)) }
    {
        for permission in permissions {
            if self.in_condition(&permission.condition) {
                return Some(&permission.name);
            }
        }
        None
    }

    fn first_mask<'a>(&self, masks: &'a [MaskRec]) -> Option<&'a Name>
        ensures { option_map (λ n. n.now) result ≡ option_map definitions.stored_name (find (names self.now) (map definitions.stored_mask masks.now)) }
    {
        for mask in masks {
            if self.in_value(&mask.value) {
                return Some(&mask.name);
            }
        }
        None
    }
}
