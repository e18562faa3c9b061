// The types of queries with their ORDER BY: what a key means, and that no key is a label.
ghost use Rattle.std.specs.Prelude.{◌≡◌, option_map, pos, slice_get};
ghost use Rattle.std.specs.List.{list_any};
ghost use Rattle.std.specs.Option.{option_copied};
ghost use Rattle.lb_tree.specs.declared.query.Cond.TheViews.{out-Expr, out-Item};
ghost use Rattle.lb_names.specs.OrderTyping as orders;
ghost use Rattle.lb_names.specs.Scopes.{Catalogue};
ghost use Rattle.lb_names.specs.SortNames as sorts;
ghost use Rattle.lb_names.specs.Statements.{broken};
ghost use Rattle.lb_scope.specs.Found.{catalogue, kind_in, meaning_in};
ghost use Rattle.lb_types.specs.Given.{Goes, kinds_in, lent_kinds, place_in};
ghost use Rattle.lb_typing.specs.Given.{Tells, column_in};

use lb_base::Name;
use lb_cat::Catalog;
use lb_same::is_same_expr;
use lb_scope::{Kind, Meaning, Sight, correlation, meant, position, resolve};
use lb_tree::{Atom, Column, Expr, Item, Select, SortKey};
use lb_types::{Place, Role, Stop, groups_of, is_label, kind_of, kinds_of, next, shown_place};
use lb_walk::expr_has_total;
use std::alloc::Global;

/// The column, where the expression is a column as a whole.
fn as_column(expr: &Expr) -> Option<&Column>
    ensures { option_copied result ≡ column_in (out-Expr expr.now) }
{
    match expr {
        Expr::Atom(Atom::Column(column)) => Some(column),
        _ => None,
    }
}

/// The output with that number, counted from 1.
fn output_at<'a>(place: i64, outputs: &[Kind<'a>]) -> Option<Kind<'a>>
    ensures { option_map kind_in result ≡ orders.output_at place (kinds_in outputs.now) }
{
    match usize::try_from(place) {
        Ok(place) => nth_output(place, outputs),
        Err(_) => None,
    }
}

fn nth_output<'a>(place: usize, outputs: &[Kind<'a>]) -> Option<Kind<'a>>
    ensures { option_map kind_in result ≡ orders.output_at (pos place) (kinds_in outputs.now) }
{
    if place == 0 {
        return None;
    }
    kind_at(outputs, place - 1).copied()
}

fn kind_at<'s, 'a>(kinds: &'s [Kind<'a>], place: usize) -> Option<&'s Kind<'a>>
    ensures { option_copied result ≡ slice_get kinds.now place }
{
    kinds.get(place)
}

/// Whether it is a column of the query's own items, of those with that correlation name where one is given.
fn is_own_column(place: Place<'_>, by: Option<&Name>, meaning: Meaning<'_, '_>) -> bool
    ensures { (C : Catalogue) → result ≡ orders.is_own_column C (place_in C place.entry) (option_copied by.entry) (meaning_in meaning.entry) }
{
    match meaning {
        Meaning::Found(item, _) => {
            item.level == place.sight.level()
                && (match by {
                    None => true,
                    Some(by) => correlation(&item.tab).is(by),
                })
        }
        Meaning::Unknown(_) => false,
    }
}

/// Whether the expression is a column among those of `*` or `x.*`.
fn is_in_star(catalog: &Catalog, place: Place<'_>, by: Option<&Name>, expr: &Expr) -> bool
    ensures { result ≡ orders.is_in_star (catalogue catalog.now) (place_in (catalogue catalog.now) place.entry) (option_copied by.entry) (out-Expr expr.now) }
{
    match as_column(expr) {
        Some(column) => is_own_column(place, by, resolve(catalog, place.sight.seen(), column)),
        None => false,
    }
}

/// Whether the expression equals the select item.
fn is_item(catalog: &Catalog, place: Place<'_>, expr: &Expr, item: &Item) -> bool
    ensures { result ≡ orders.is_item (catalogue catalog.now) (place_in (catalogue catalog.now) place.entry) expr.now (out-Item item.now) }
{
    match item {
        Item::Everything => is_in_star(catalog, place, None, expr),
        Item::AllOf(by) => is_in_star(catalog, place, Some(by), expr),
        Item::Value(value, _) => is_same_expr(catalog, place.sight.seen(), expr, value),
    }
}

/// Whether it equals some select item.
fn is_selected(catalog: &Catalog, place: Place<'_>, items: &[Item], expr: &Expr) -> bool
    ensures { result ≡ orders.is_selected (catalogue catalog.now) (place_in (catalogue catalog.now) place.entry) items.now expr.now }
{
    for item in items {
        if is_item(catalog, place, expr, item) {
            return true;
        }
    }
    false
}

/// The select list of a query with ORDER BY, and where both stand.
#[derive(Clone, Copy)]
struct Shown<'a> {
    place: Place<'a>,
    distinct: bool,
    items: &'a [Item],
}

/// A key that is an expression; with DISTINCT it equals a select item (order-by-clause).
#[tactic(auto, using(crate::proofs::Tellings::telling))]
fn expression_key(
    catalog: &Catalog,
    alloc: Global,
    shown: Shown<'_>,
    expr: &Expr,
    at: u32,
) -> Result<u32, Stop>
    ensures { Goes result (orders.expression_key (catalogue catalog.now) (place_in (catalogue catalog.now) shown.entry.place) shown.entry.distinct shown.entry.items.now expr.now at) }
{
    let (kind, n) = kind_of(catalog, alloc, expr, shown.place, at)?;
    if is_label(kind) {
        return Err(Stop::Broken(at));
    }
    if shown.distinct && !is_selected(catalog, shown.place, shown.items, expr) {
        return Err(Stop::Broken(at));
    }
    Ok(n)
}

/// A key that stands for an item of that kind is one node.
fn item_key(at: u32, kind: Kind<'_>) -> Result<u32, Stop>
    ensures { (C : Catalogue) → Goes result (orders.item_key C at (kind_in kind.entry)) }
{
    if is_label(kind) {
        Err(Stop::Broken(at))
    } else {
        Ok(next(at))
    }
}

/// A key that is an integer stands for an output that is there.
fn output_key(at: u32, output: Option<Kind<'_>>) -> Result<u32, Stop>
    ensures { (C : Catalogue) → Goes result (orders.output_key C (option_map kind_in output.entry) at) }
{
    match output {
        None => Err(Stop::Broken(at)),
        Some(kind) => item_key(at, kind),
    }
}

/// A key that is no output name.
#[tactic(auto, using(crate::proofs::Tellings::telling))]
fn other_key(
    catalog: &Catalog,
    alloc: Global,
    shown: Shown<'_>,
    outputs: &[Kind<'_>],
    key: &Expr,
    at: u32,
) -> Result<u32, Stop>
    ensures { Goes result (orders.other_key (catalogue catalog.now) (place_in (catalogue catalog.now) shown.entry.place) shown.entry.distinct shown.entry.items.now (kinds_in outputs.now) key.now (sorts.position key.now) at) }
{
    match position(key) {
        Some(place) => output_key(at, output_at(place, outputs)),
        None => expression_key(catalog, alloc, shown, key, at),
    }
}

/// A key of ORDER BY.
#[tactic(auto, using(crate::proofs::Tellings::telling))]
fn key_typed(
    catalog: &Catalog,
    alloc: Global,
    shown: Shown<'_>,
    outputs: &[Kind<'_>],
    key: &Expr,
    at: u32,
) -> Result<u32, Stop>
    ensures { Goes result (orders.key_typed (catalogue catalog.now) (place_in (catalogue catalog.now) shown.entry.place) shown.entry.distinct shown.entry.items.now (kinds_in outputs.now) key.now (sorts.meant shown.entry.items.now key.now) at) }
{
    match meant(shown.items, key) {
        Some(expr) => {
            let (kind, _) = kind_of(catalog, alloc, expr, shown.place, at)?;
            item_key(at, kind)
        }
        None => other_key(catalog, alloc, shown, outputs, key, at),
    }
}

/// Each key in its turn.
#[tactic(auto, using(crate::proofs::Tellings::telling))]
fn keys_typed(
    catalog: &Catalog,
    alloc: Global,
    shown: Shown<'_>,
    outputs: &[Kind<'_>],
    keys: &[SortKey],
    number: u32,
) -> Result<u32, Stop>
    ensures { Goes result (orders.keys_typed (catalogue catalog.now) (place_in (catalogue catalog.now) shown.entry.place) shown.entry.distinct shown.entry.items.now (kinds_in outputs.now) keys.now number) }
{
    let mut n = number;
    for key in keys {
        n = key_typed(catalog, alloc, shown, outputs, &key.by, n)?;
    }
    Ok(n)
}

/// Whether a key has an aggregate.
fn keys_have_total(keys: &[SortKey]) -> bool
    ensures { (C : Catalogue) → result ≡ list_any (orders.is_total_key C) keys.now }
{
    for key in keys {
        if expr_has_total(&key.by) {
            return true;
        }
    }
    false
}

/// A query, then the keys of its ORDER BY. Its outputs are taken by columns of the kinds that are wanted, where there are such.
#[tactic(auto, using(crate::proofs::Tellings::telling))]
pub fn select_typed(
    catalog: &Catalog,
    alloc: Global,
    select: &Select,
    wanted: Option<&[Kind<'_>]>,
) -> Result<u32, Stop>
    ensures { Tells result (broken (orders.select_typed (catalogue catalog.now) select.now (lent_kinds wanted.entry))) }
{
    let nothing = Sight::nothing(alloc);
    let outermost = Place {
        sight: &nothing,
        groups: &[],
        subqueries: true,
        aggregates: false,
        within: false,
        stored: false,
    };
    let role = Role {
        subquery: false,
        one: false,
        total: keys_have_total(select.order.as_slice()),
        wanted,
    };
    let (outputs, n) = kinds_of(catalog, alloc, &select.query, role, outermost, 0)?;
    let sight = nothing.inside(alloc, select.query.from.as_slice())?;
    let groups = groups_of(alloc, &select.query, role, &sight, &[])?;
    let shown = Shown {
        place: shown_place(outermost, &sight, groups.as_slice()),
        distinct: select.query.distinct,
        items: select.query.items.as_slice(),
    };
    keys_typed(
        catalog,
        alloc,
        shown,
        outputs.as_slice(),
        select.order.as_slice(),
        n,
    )
}
