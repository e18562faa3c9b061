// The first refusal for types of the conditions of permissions and masks.
ghost use Rattle.std.specs.Prelude.{◌≡◌, IfOk, Option, option_map};
ghost use Rattle.std.specs.Option.{option_copied};
ghost use Rattle.lb_alter.specs.Naming.{field_of, stored_rules};
ghost use Rattle.lb_cat.specs.Stamps.{bare};
ghost use Rattle.lb_names.specs.Scopes.{Catalogue};
ghost use Rattle.lb_names.specs.Statements as statements;
ghost use Rattle.lb_names.specs.Typing as trees;
ghost use Rattle.lb_scope.specs.Found.{catalogue, kind_in};
ghost use Rattle.lb_types.specs.Given.{Goes};
ghost use Rattle.lb_typing.specs.Given.{Tells};

use crate::place::place_over;
use crate::told::told;
use lb_base::{Name, NoMemory};
use lb_cat::{Catalog, ColumnRec, Refusal};
use lb_scope::{Kind, Sight, column_named, columns_of, kind_of as kind_of_type};
use lb_tree::{Cond, Expr, Tab};
use lb_types::{Stop, is_label, kind_of, takes, typed};
use std::alloc::Global;

/// The first refusal for types of the condition of a row permission on that table (CREATE PERMISSION statement).
#[tactic(auto, using(crate::proofs::Tellings::telling))]
pub fn permission_types_refused(
    alloc: Global,
    catalog: &Catalog,
    on: &Tab,
    condition: &Cond,
) -> Result<Option<Refusal>, NoMemory>
    ensures { IfOk result (λ r. r ≡ stored_rules.condition_types (bare catalog.now) on.now condition.now) }
{
    told(permission_typed(catalog, alloc, on, condition))
}

/// The first refusal for types of the CASE of a mask of that column (CREATE MASK statement): it has the column's kind, which is no
/// label, or is broken itself.
#[tactic(auto, using(crate::proofs::Tellings::telling))]
pub fn mask_types_refused(
    alloc: Global,
    catalog: &Catalog,
    on: &Tab,
    column: &Name,
    value: &Expr,
) -> Result<Option<Refusal>, NoMemory>
    ensures { IfOk result (λ r. r ≡ stored_rules.mask_types (bare catalog.now) on.now column.now value.now) }
{
    told(mask_typed(catalog, alloc, on, column, value))
}

#[tactic(auto, using(crate::proofs::Tellings::telling))]
fn permission_typed(
    catalog: &Catalog,
    alloc: Global,
    on: &Tab,
    condition: &Cond,
) -> Result<u32, Stop>
    ensures { Goes result ((trees.says (catalogue catalog.now) condition.now).typed (statements.stored_place on.now) 0) }
{
    let sight = Sight::over(alloc, on)?;
    typed(catalog, alloc, condition, place_over(&sight, true, true), 0)
}

/// The CASE has the kind of the masked column, which is no label; else it is broken itself.
#[tactic(auto, using(crate::proofs::Tellings::telling))]
fn mask_typed(
    catalog: &Catalog,
    alloc: Global,
    on: &Tab,
    column: &Name,
    value: &Expr,
) -> Result<u32, Stop>
    ensures { Tells result (statements.mask_types_refused (catalogue catalog.now) on.now column.now value.now) }
{
    let sight = Sight::over(alloc, on)?;
    let (kind, n) = kind_of(catalog, alloc, value, place_over(&sight, true, true), 0)?;
    if mask_takes(column_named(column, columns_of(catalog, on)), kind) {
        Ok(n)
    } else {
        Err(Stop::Broken(0))
    }
}

/// Whether a mask of the column may have that kind.
fn mask_takes(column: Option<&ColumnRec>, kind: Kind<'_>) -> bool
    ensures { (C : Catalogue) → result ≡ statements.mask_takes C (statements.kind_in (option_map field_of (option_copied column.entry))) (kind_in kind.entry) }
{
    match column {
        None => false,
        Some(column) => {
            let wanted = kind_of_type(&column.ty);
            !is_label(wanted) && takes(wanted, kind)
        }
    }
}
