// The forms in which the condition of a permission and the CASE of a mask are stored.
ghost use Rattle.std.specs.Prelude.{◌≡◌, IfOk};
ghost use Rattle.lb_alter.specs.Naming.{stored_rules};
ghost use Rattle.lb_cat.specs.Stamps.{bare};

use crate::leaf::Qualifier;
use lb_base::NoMemory;
use lb_cat::Catalog;
use lb_scope::Sight;
use lb_tree::{Cond, Expr, Tab};
use std::alloc::Global;

/// The condition of a permission on a table with the correlation name of its FROM item before each column; one whose name is unknown
/// stays as it is written (CREATE PERMISSION statement).
#[tactic(auto, unfolding(lb_names::specs::Qualify::qualified_cond, crate::specs::Forms::in_cond))]
pub fn qualified_condition(
    alloc: Global,
    catalog: &Catalog,
    on: &Tab,
    condition: &Cond,
) -> Result<Cond, NoMemory>
    ensures { IfOk result (λ c. c ≡ stored_rules.qualified_condition (bare catalog.now) on.now condition.now) }
{
    let sight = Sight::over(alloc, on)?;
    Qualifier { alloc, catalog }.cond(condition, &sight)
}

/// The same of the CASE of a mask on a table (CREATE MASK statement).
#[tactic(auto, unfolding(lb_names::specs::Qualify::qualified_expr, crate::specs::Forms::in_expr))]
pub fn qualified_mask(
    alloc: Global,
    catalog: &Catalog,
    on: &Tab,
    value: &Expr,
) -> Result<Expr, NoMemory>
    ensures { IfOk result (λ e. e ≡ stored_rules.qualified_mask (bare catalog.now) on.now value.now) }
{
    let sight = Sight::over(alloc, on)?;
    Qualifier { alloc, catalog }.expr(value, &sight)
}
