// Permissions and masks share their names: which of the two a name is looked for among.
ghost use Rattle.std.specs.Prelude.{◌≡◌};
ghost use Rattle.std.specs.List.{list_any};
ghost use Rattle.std.specs.Str.{bytes_eq};
ghost use Rattle.lb_cat.specs.Stamps.{bare_table};
ghost use Rattle.lb_control.specs.Controls.{has};

use lb_base::Name;
use lb_cat::TableRec;
use lb_changed::Entry;

/// A row permission or a column mask.
#[derive(Clone, Copy)]
pub enum ControlKind {
    Permission,
    Mask,
}

impl ControlKind {
    /// Whether the table has one of that name.
    pub fn is_on(self, table: &TableRec, name: &Name) -> bool
        ensures { result ≡ has self name.now (bare_table table.now) }
    {
        match self {
            ControlKind::Permission => has_entry(table.permissions.as_slice(), name),
            ControlKind::Mask => has_entry(table.masks.as_slice(), name),
        }
    }
}

/// Whether one of the entries has that name.
fn has_entry<E: Entry>(entries: &[E], name: &Name) -> bool
    ensures { result ≡ list_any (λ x. bytes_eq (E.of x) name.now) entries.now }
{
    for entry in entries {
        if entry.of().is(name) {
            return true;
        }
    }
    false
}
