// Columns, and leaves of expressions, with the correlation name of the FROM item to which the column belongs.
ghost use Rattle.std.specs.Prelude.{◌≡◌, IfOk};
ghost use Rattle.lb_names.specs.Qualify as qualify;
ghost use Rattle.lb_scope.specs.Found.{catalogue};

use lb_base::NoMemory;
use lb_cat::Catalog;
use lb_names::Seen;
use lb_scope::{Meaning, correlation, resolve};
use lb_tree::{Atom, Column};
use std::alloc::Global;

/// What qualifying goes by.
#[derive(Clone, Copy)]
pub struct Qualifier<'a> {
    pub alloc: Global,
    pub catalog: &'a Catalog,
}

impl Qualifier<'_> {
    /// The column with the correlation name of its FROM item; as it is written where its name is unknown.
    pub fn column(&self, column: &Column, seen: &[Seen]) -> Result<Column, NoMemory>
        ensures { IfOk result (λ c. c ≡ qualify.with_item (catalogue self.now.catalog.now) seen.now column.now) }
    {
        match resolve(self.catalog, seen, column) {
            Meaning::Found(item, _) => {
                let name = correlation(&item.tab).copy()?;
                let correlation = Some(name);
                let name = column.name.copy()?;
                Ok(Column { correlation, name })
            }
            Meaning::Unknown(_) => column.copy(),
        }
    }

    /// A leaf with its column qualified.
    pub fn atom(&self, atom: &Atom, seen: &[Seen]) -> Result<Atom, NoMemory>
        ensures { IfOk result (λ a. a ≡ qualify.atom_in (catalogue self.now.catalog.now) seen.now atom.now) }
    {
        match atom {
            Atom::Column(column) => {
                let column = self.column(column, seen)?;
                Ok(Atom::Column(column))
            }
            Atom::SecLabelToChar(policy, column) => {
                let policy = policy.copy()?;
                let column = self.column(column, seen)?;
                Ok(Atom::SecLabelToChar(policy, column))
            }
            _ => atom.copy(self.alloc),
        }
    }
}
