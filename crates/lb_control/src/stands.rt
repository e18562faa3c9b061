// The table on which a permission or mask stands.
ghost use Rattle.std.specs.Prelude.{find};
ghost use Rattle.std.specs.Arc.{arc_value};
ghost use Rattle.lb_alter.specs.Refusing as refusing;
ghost use Rattle.lb_cat.specs.Stamps.{bare, bare_table};
ghost use Rattle.lb_changed.specs.Given.{Gives};
ghost use Rattle.lb_control.specs.Controls.{has};

use crate::kind::ControlKind;
use lb_base::Name;
use lb_cat::{Catalog, TableRec};
use lb_changed::{Stop, unknown};
use lb_first::{TableTest, first_table};
use std::alloc::Global;
use std::sync::Arc;

/// It has a permission or mask of that name.
#[derive(Clone, Copy)]
struct Stands<'a> {
    kind: ControlKind,
    name: &'a Name,
}

impl TableTest for Stands<'_> {
    ghost test = { λ s. has s.kind s.name.now };

    fn passes(&self, table: &TableRec) -> bool {
        self.kind.is_on(table, self.name)
    }
}

/// The first table with a permission or mask of that name, or Unknown.
pub fn table_with<'a>(
    alloc: Global,
    catalog: &'a Catalog,
    kind: ControlKind,
    name: &Name,
) -> Result<&'a Arc<TableRec>, Stop>
    ensures { Gives (λ t. bare_table (arc_value t.now)) (refusing.found name.now (find (has kind name.now) (bare catalog.now).tables)) result }
{
    match first_table(catalog, &Stands { kind, name }) {
        Some(table) => Ok(table),
        None => Err(unknown(alloc, name)),
    }
}
