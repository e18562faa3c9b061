// The types of queries: select list, FROM, WHERE, GROUP BY, HAVING, and then the query's own rules.
ghost use Rattle.std.specs.Prelude.{◌≡◌, ◌++◌, ◌∷◌, [], ◌||◌, if◌then◌else◌, IfOk, List, map, ℕ};
ghost use Rattle.std.specs.List.{flat_map};
ghost use Rattle.lb_tree.specs.declared.query.Cond.TheViews.{out-Query};
ghost use Rattle.lb_names.specs.Places as places;
ghost use Rattle.lb_names.specs.Scopes as scopes;
ghost use Rattle.lb_names.specs.SelectLists as lists;
ghost use Rattle.lb_names.specs.Typed as typed;
ghost use Rattle.lb_names.specs.Typing as trees;
ghost use Rattle.lb_scope.specs.Found.{catalogue};
ghost use Rattle.lb_types.specs.Given.{Gives, Goes, group_in, kinds_in, lent_kinds, place_in, role_in};
ghost use Rattle.lb_types.specs.Within.{group_column, paired_kinds, wanted_in};
ghost use Rattle.lb_walk.specs.Opened.{chain_of, query_in};

use crate::conds::{maybe_typed, typed};
use crate::items::{are_so_many, items_have_total, outputs_of};
use crate::kind::is_label;
use crate::node::{column_kind, next};
use crate::place::{GroupBy, Place, Role, Wanted, filter_place, having_place, shown_place};
use crate::stop::Stop;
use lb_base::{Listing, Name, NoMemory};
use lb_cat::Catalog;
use lb_scope::{Kind, Sight};
use lb_tree::{Chain, Column, Item, Join, Query, Tab};
use lb_walk::{cond_is_sure, table_joined};
use std::alloc::Global;

/// The kinds of the outputs of a query.
#[cycle(typing)]
#[tactic(auto, using(crate::proofs::Steps::stops_then))]
pub fn kinds_of<'a>(
    catalog: &'a Catalog,
    alloc: Global,
    query: &'a Query,
    role: Role<'_>,
    place: Place<'_>,
    at: u32,
) -> Result<(Listing<Kind<'a>>, u32), Stop>
    ensures { Gives kinds_in result ((trees.answers (catalogue catalog.now) query.now).kinds (role_in role.entry) (place_in (catalogue catalog.now) place.entry) at) }
{
    let sight = place.sight.inside(alloc, query.from.as_slice())?;
    let groups = groups_of(alloc, query, role, &sight, place.groups)?;
    let wanted = wanted_of(catalog, query, role, &sight);
    let shown = shown_place(place, &sight, groups.as_slice());
    let (outputs, n) = outputs_of(
        catalog,
        alloc,
        query.items.as_slice(),
        wanted,
        shown,
        next(at),
    )?;
    let n = chains_typed(catalog, alloc, query.from.as_slice(), place, &sight, n)?;
    let filter = filter_place(place, &sight);
    let n = maybe_typed(catalog, alloc, &query.filter, filter, n)?;
    let n = group_typed(catalog, query.group.as_slice(), filter, n)?;
    let having = having_place(place, &sight, groups.as_slice());
    let n = maybe_typed(catalog, alloc, &query.having, having, n)?;
    query_fits(role, place, at, (outputs, n))
}

/// A subquery may stand there, it has one output where one is wanted, and a query as many as the columns that take them.
fn query_fits<'a>(
    role: Role<'_>,
    place: Place<'_>,
    at: u32,
    outputs: (Listing<Kind<'a>>, u32),
) -> Result<(Listing<Kind<'a>>, u32), Stop>
    ensures { (C : scopes.Catalogue) → Gives kinds_in result (typed.only_if (trees.query_fits (role_in role.entry) (place_in C place.entry) (kinds_in outputs.entry.0)) at (kinds_in outputs.entry.0, outputs.entry.1)) }
{
    let width = outputs.0.len();
    if (role.subquery && !place.subqueries)
        || (role.one && width != 1)
        || !is_width(role.wanted, width)
    {
        Err(Stop::Broken(at))
    } else {
        Ok(outputs)
    }
}

/// Whether there are as many outputs as are wanted.
fn is_width(wanted: Option<&[Kind<'_>]>, outputs: usize) -> bool
    ensures { result ≡ trees.is_width (lent_kinds wanted.entry) outputs }
{
    match wanted {
        None => true,
        Some(kinds) => kinds.len() == outputs,
    }
}

/// What is wanted of the select list: outputs are paired with columns only where there are as many.
fn wanted_of<'a>(catalog: &Catalog, query: &Query, role: Role<'a>, sight: &Sight) -> Wanted<'a>
    ensures { wanted_in result ≡ record { one = (role_in role.entry).one; grouped = trees.is_listed (out-Query query.now).group; distinct = (out-Query query.now).distinct; kinds = paired_kinds (catalogue catalog.now) (map (trees.shows (catalogue catalog.now)) (out-Query query.now).items) (role_in role.entry).wanted sight.now } }
{
    Wanted {
        one: role.one,
        grouped: !query.group.is_empty(),
        distinct: query.distinct,
        kinds: paired(catalog, query.items.as_slice(), role.wanted, sight),
    }
}

fn paired<'a>(
    catalog: &Catalog,
    items: &[Item],
    wanted: Option<&'a [Kind<'a>]>,
    sight: &Sight,
) -> Option<&'a [Kind<'a>]>
    ensures { lent_kinds result ≡ paired_kinds (catalogue catalog.now) (map (trees.shows (catalogue catalog.now)) items.now) (lent_kinds wanted.entry) sight.now }
{
    match wanted {
        None => None,
        Some(kinds) => {
            if are_so_many(catalog, sight.own(), items, kinds.len()) {
                Some(kinds)
            } else {
                None
            }
        }
    }
}

/// Whether the query has groups: by GROUP BY, HAVING or an aggregate in its select list or ORDER BY (group-by-clause).
fn has_groups(query: &Query, role: Role<'_>) -> bool
    ensures { (C : scopes.Catalogue) → result ≡ trees.has_groups (query_in C query.now) (role_in role.entry) }
{
    !query.group.is_empty()
        || query.having.is_some()
        || role.total
        || items_have_total(query.items.as_slice())
}

/// The groups under which its select list, HAVING and ORDER BY stand, its own first.
pub fn groups_of<'a>(
    alloc: Global,
    query: &'a Query,
    role: Role<'_>,
    sight: &'a Sight,
    outer: &'a [GroupBy<'a>],
) -> Result<Listing<GroupBy<'a>>, NoMemory>
    ensures { IfOk result (λ groups. (C : scopes.Catalogue) → map (group_in C) groups ≡ (if trees.has_groups (query_in C query.now) (role_in role.entry) then record { level = sight.now.level; columns = flat_map (λ c. scopes.spots (scopes.resolve C sight.now.seen c)) (out-Query query.now).group } ∷ map (group_in C) outer.now else map (group_in C) outer.now)) }
{
    let mut groups = Listing::empty(alloc);
    if has_groups(query, role) {
        groups.push(GroupBy {
            sight,
            columns: query.group.as_slice(),
        })?;
    }
    with_outer(groups, outer)
}

fn with_outer<'a>(
    groups: Listing<GroupBy<'a>>,
    outer: &'a [GroupBy<'a>],
) -> Result<Listing<GroupBy<'a>>, NoMemory>
    ensures { IfOk result (λ g. g ≡ groups.entry ++ outer.now) }
{
    let mut all = groups;
    for group in outer {
        all.push(*group)?;
    }
    Ok(all)
}

/// The columns of GROUP BY are no labels.
fn group_typed(
    catalog: &Catalog,
    columns: &[Column],
    place: Place<'_>,
    number: u32,
) -> Result<u32, Stop>
    ensures { Goes result (trees.group_typed (catalogue catalog.now) (place_in (catalogue catalog.now) place.entry) columns.now number) }
{
    let mut n = number;
    for column in columns {
        n = group_column_typed(catalog, column, place, n)?;
    }
    Ok(n)
}

fn group_column_typed(
    catalog: &Catalog,
    column: &Column,
    place: Place<'_>,
    at: u32,
) -> Result<u32, Stop>
    ensures { Goes result (group_column (catalogue catalog.now) (place_in (catalogue catalog.now) place.entry) column.now at) }
{
    let (kind, n) = column_kind(catalog, column, place, at)?;
    if is_label(kind) {
        Err(Stop::Broken(at))
    } else {
        Ok(n)
    }
}

/// The ON conditions of FROM.
#[cycle(typing)]
#[tactic(auto, using(crate::proofs::Steps::stops_then))]
fn chains_typed(
    catalog: &Catalog,
    alloc: Global,
    chains: &[Chain],
    place: Place<'_>,
    query: &Sight,
    number: u32,
) -> Result<u32, Stop>
    ensures { (all : List (List ℕ)) → query.now.around ≡ all ++ place.entry.sight.now.around → Goes result (lists.chains_typed (place_in (catalogue catalog.now) place.entry) all (map (chain_of (catalogue catalog.now)) chains.now) number) }
{
    let mut n = number;
    for chain in chains {
        n = joins_typed(catalog, alloc, chain, place, query, n)?;
    }
    Ok(n)
}

/// The ON conditions of a chain.
#[cycle(typing)]
#[tactic(auto, using(crate::proofs::Steps::stops_then))]
fn joins_typed(
    catalog: &Catalog,
    alloc: Global,
    chain: &Chain,
    place: Place<'_>,
    query: &Sight,
    number: u32,
) -> Result<u32, Stop>
    ensures { (all : List (List ℕ)) → query.now.around ≡ all ++ place.entry.sight.now.around → Goes result (lists.joins_typed (place_in (catalogue catalog.now) place.entry) all (chain.now.first ∷ []) (map (trees.joins (catalogue catalog.now)) chain.now.joins) number) }
{
    let mut tabs = Listing::empty(alloc);
    tabs.push(chain.first.copy()?)?;
    let mut n = number;
    for join in chain.joins.as_slice() {
        tabs.push(table_joined(join).copy()?)?;
        n = join_typed(catalog, alloc, join, place, query, tabs.as_slice(), n)?;
    }
    Ok(n)
}

/// The ON condition of a join, in a chain whose tables up to its own are these. It has no arithmetic and no subquery (joined-table).
#[cycle(typing)]
#[tactic(auto, using(crate::proofs::Rules::joins))]
fn join_typed(
    catalog: &Catalog,
    alloc: Global,
    join: &Join,
    place: Place<'_>,
    query: &Sight,
    tabs: &[Tab],
    at: u32,
) -> Result<u32, Stop>
    ensures { (all : List (List ℕ)) → query.now.around ≡ all ++ place.entry.sight.now.around → Goes result ((trees.joins (catalogue catalog.now) join.now).typed (places.on_place (place_in (catalogue catalog.now) place.entry) all tabs.now) at) }
{
    match join {
        Join::Inner(_, cond) | Join::Left(_, cond) => {
            let sight = place.sight.inside_on(alloc, query, tabs)?;
            let n = typed(catalog, alloc, cond, filter_place(place, &sight), at)?;
            if cond_is_sure(cond) {
                Ok(n)
            } else {
                Err(Stop::Broken(at))
            }
        }
        Join::Cross(_) => Ok(at),
    }
}
