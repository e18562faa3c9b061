// ACTIVATE and DEACTIVATE of row and column access control.
ghost use Rattle.std.specs.Prelude.{◌≡◌, IfOk};
ghost use Rattle.lb_base.specs.declared.key.Key.TheVariants as keys;
ghost use Rattle.lb_alter.specs.ChangeControl as definitions;
ghost use Rattle.lb_alter.specs.Refusing as refusing;
ghost use Rattle.lb_cat.specs.Stamps.{bare, bare_table, look};
ghost use Rattle.lb_rows.specs.Tables.{Tables};
ghost use Rattle.lb_changed.specs.Made.{Makes};

use lb_base::{Name, NoMemory};
use lb_cat::{Catalog, Copied, TableRec};
use lb_changed::{Changed, Stop, alters, secadm, the_table};
use lb_stmt::{Activation, ControlOf};
use std::alloc::Global;

/// ALTER TABLE .. ACTIVATE and DEACTIVATE ROW or COLUMN ACCESS CONTROL, one act or two in their order (ALTER TABLE statement).
/// NotSecadm comes before Unknown.
#[tactic(auto, using(lb_changed::proofs::Steps::steps))]
pub fn activate(
    alloc: Global,
    catalog: &Catalog,
    user: &Name,
    name: &Name,
    first: Activation,
    second: Option<Activation>,
) -> Result<Changed, Stop>
    ensures { (T : Tables) → Makes catalog.now T (definitions.activate (bare catalog.now) T user.now name.now first second) result }
{
    secadm(catalog, user)?;
    let table = the_table(alloc, catalog, name)?;
    activated(alloc, catalog, table, first, second)
}

fn activated(
    alloc: Global,
    catalog: &Catalog,
    table: &TableRec,
    first: Activation,
    second: Option<Activation>,
) -> Result<Changed, Stop>
    requires { table.now.stamp ≡ look catalog.now (keys.Table table.now.name) }
    ensures { (T : Tables) → Makes catalog.now T (refusing.alters (bare catalog.now) T (definitions.with_acts first second (bare_table table.now))) result }
{
    let rec = with_acts(alloc, table, first, second)?;
    alters(alloc, catalog, rec)
}

fn with_acts(
    alloc: Global,
    table: &TableRec,
    first: Activation,
    second: Option<Activation>,
) -> Result<TableRec, NoMemory>
    ensures bare { IfOk result (λ t. bare_table t ≡ definitions.with_acts first second (bare_table table.now)) }
    ensures name { IfOk result (λ t. t.name ≡ table.now.name) }
    ensures stamp { IfOk result (λ t. t.stamp ≡ table.now.stamp) }
{
    let once = with_act(first, table.copy(alloc)?);
    match second {
        Some(second) => Ok(with_act(second, once)),
        None => Ok(once),
    }
}

fn with_act(act: Activation, mut table: TableRec) -> TableRec
    ensures act { bare_table result ≡ definitions.with_act act (bare_table table) }
    ensures name { result.name ≡ table.name }
    ensures stamp { result.stamp ≡ table.stamp }
{
    match act.of {
        ControlOf::Row => table.row_control = act.activate,
        ControlOf::Column => table.column_control = act.activate,
    }
    table
}
