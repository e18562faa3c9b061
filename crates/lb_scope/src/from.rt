// The tables of FROM, and the names by which their query calls them.
ghost use Rattle.std.specs.Prelude.{◌≡◌, IfOk, map};
ghost use Rattle.lb_tree.specs.Folds.{chain_of, join_of};
ghost use Rattle.lb_names.specs.Marks as marks;
ghost use Rattle.lb_names.specs.Marks.{marked, mark_steps};
ghost use Rattle.lb_names.specs.Sights as sights;

use lb_base::{Listing, Name, Names, NoMemory};
use lb_tree::{Chain, Join, Tab};
use std::alloc::Global;

/// The name by which its query calls a FROM item: its correlation name, or else its table's name (identifiers).
pub fn correlation(tab: &Tab) -> &Name
    ensures { result.now ≡ sights.correlation tab.now }
{
    match &tab.correlation {
        Some(name) => name,
        None => &tab.table,
    }
}

/// The table of a join.
#[tactic(auto, using(crate::proofs::FromTables::table_of_inner, crate::proofs::FromTables::table_of_left, crate::proofs::FromTables::table_of_cross))]
pub fn table_of(join: &Join) -> &Tab
    ensures { result.now ≡ (join_of marked mark_steps join.now).tab }
{
    match join {
        Join::Inner(tab, _) | Join::Left(tab, _) => tab,
        Join::Cross(tab) => tab,
    }
}

/// The names by which their query calls these tables.
pub fn calls(alloc: Global, tabs: &[Tab]) -> Result<Names, NoMemory>
    ensures { IfOk result (λ n. n ≡ sights.calls_of tabs.now) }
{
    let mut names = Listing::empty(alloc);
    for tab in tabs {
        names.push(correlation(tab).copy()?)?;
    }
    Ok(names)
}

/// The tables of a chain, in text order.
#[tactic(auto, using(crate::proofs::FromTables::tables_in_chain))]
pub fn tables_of_chain(alloc: Global, chain: &Chain) -> Result<Listing<Tab>, NoMemory>
    ensures { IfOk result (λ t. t ≡ marks.tables_of_chain (chain_of marked mark_steps chain.now)) }
{
    let mut tabs = Listing::empty(alloc);
    tabs.push(chain.first.copy()?)?;
    tabs.append(tables_of_joins(alloc, chain.joins.as_slice())?)?;
    Ok(tabs)
}

fn tables_of_joins(alloc: Global, joins: &[Join]) -> Result<Listing<Tab>, NoMemory>
    ensures { IfOk result (λ t. t ≡ map (λ j. j.tab) (map (join_of marked mark_steps) joins.now)) }
{
    let mut tabs = Listing::empty(alloc);
    for join in joins {
        tabs.push(table_of(join).copy()?)?;
    }
    Ok(tabs)
}

/// All tables of FROM, in text order.
pub fn tables(alloc: Global, from: &[Chain]) -> Result<Listing<Tab>, NoMemory>
    ensures { IfOk result (λ t. t ≡ marks.tables_of (map (chain_of marked mark_steps) from.now)) }
{
    let mut tabs = Listing::empty(alloc);
    for chain in from {
        tabs.append(tables_of_chain(alloc, chain)?)?;
    }
    Ok(tabs)
}
