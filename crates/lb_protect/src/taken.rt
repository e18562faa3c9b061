// Permissions and masks share their names: whether one has the name, but for the one that is replaced.
ghost use Rattle.std.specs.Prelude.{◌≡◌, ◌==◌, ◌&&◌, not};
ghost use Rattle.std.specs.List.{list_any};
ghost use Rattle.lb_alter.specs.ChangeControl as control;
ghost use Rattle.lb_cat.specs.Catalog.{is_mask, is_table};
ghost use Rattle.lb_cat.specs.Stamps.{bare, bare_table};

use lb_base::Name;
use lb_cat::{Catalog, MaskRec, TableRec};
use lb_control::ControlKind;
use lb_first::{TableTest, first_table};
use lb_stmt::{MaskDef, PermissionDef};

/// Whether a mask has the permission's name, or a permission that isn't the one to be replaced.
pub(crate) fn is_permission_taken(catalog: &Catalog, def: &PermissionDef) -> bool
    ensures { result ≡ list_any (control.takes_permission_name def.now) (bare catalog.now).tables }
{
    is_some_table(catalog, &TakesPermission { def })
}

/// Whether a permission has the mask's name, or a mask that isn't the one to be replaced: one of that column.
pub(crate) fn is_mask_taken(catalog: &Catalog, def: &MaskDef, column: u32) -> bool
    ensures { result ≡ list_any (control.takes_mask_name def.now column) (bare catalog.now).tables }
{
    is_some_table(catalog, &TakesMask { def, column })
}

#[tactic(auto, using(crate::proofs::Tables::some_passes))]
fn is_some_table<T: TableTest>(catalog: &Catalog, test: &T) -> bool
    ensures { result ≡ list_any (T.test test.now) (bare catalog.now).tables }
{
    first_table(catalog, test).is_some()
}

/// The table takes the permission's name.
#[derive(Clone, Copy)]
struct TakesPermission<'a> {
    def: &'a PermissionDef,
}

impl TableTest for TakesPermission<'_> {
    ghost test = { λ s. control.takes_permission_name s.def.now };

    fn passes(&self, table: &TableRec) -> bool {
        if ControlKind::Mask.is_on(table, &self.def.name) {
            return true;
        }
        ControlKind::Permission.is_on(table, &self.def.name)
            && !(self.def.replace && table.name.is(&self.def.on.table))
    }
}

/// The table takes the name of the mask of that column.
#[derive(Clone, Copy)]
struct TakesMask<'a> {
    def: &'a MaskDef,
    column: u32,
}

impl TableTest for TakesMask<'_> {
    ghost test = { λ s. control.takes_mask_name s.def.now s.column };

    fn passes(&self, table: &TableRec) -> bool {
        if ControlKind::Permission.is_on(table, &self.def.name) {
            return true;
        }
        let replaces = is_replacing(self.def, table);
        stays_mask(
            table.masks.as_slice(),
            &self.def.name,
            replaces,
            self.column,
        )
    }
}

/// Whether it is the table of which a mask may be replaced.
fn is_replacing(def: &MaskDef, table: &TableRec) -> bool
    ensures { result ≡ (def.now.replace && is_table def.now.on.table (bare_table table.now)) }
{
    def.replace && table.name.is(&def.on.table)
}

/// Whether a mask of that name stays: it is of another column, or nothing is replaced.
fn stays_mask(masks: &[MaskRec], name: &Name, replaces: bool, column: u32) -> bool
    ensures { result ≡ list_any (λ m. is_mask name.now m && not (replaces && m.column == column)) masks.now }
{
    for mask in masks {
        if mask.name.is(name) && !(replaces && mask.column == column) {
            return true;
        }
    }
    false
}
