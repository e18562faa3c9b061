// The outputs of select lists.
ghost use Rattle.std.specs.Prelude.{◌≡◌, ◌==◌, ◌∷◌, [], map, length, drop, IfOk};
ghost use Rattle.std.specs.List.{filter, list_any};
ghost use Rattle.lb_names.specs.Kinds as kind_rules;
ghost use Rattle.lb_names.specs.Typed as typed;
ghost use Rattle.std.specs.Option.{option_copied};
ghost use Rattle.lb_alter.specs.Naming.{field_of};
ghost use Rattle.lb_names.specs.Places as places;
ghost use Rattle.lb_names.specs.Scopes as scopes;
ghost use Rattle.lb_names.specs.SelectLists as lists;
ghost use Rattle.lb_names.specs.Typing as trees;
ghost use Rattle.lb_scope.specs.Found.{catalogue, kind_in};
ghost use Rattle.lb_types.specs.Given.{Gives, kinds_in, lent_kinds, place_in};
ghost use Rattle.lb_types.specs.Within.{is_starred, left, wanted_in};

use crate::exprs::kind_of;
use crate::kind::{is_label, takes};
use crate::node::next;
use crate::place::{Place, Wanted, all_free_of};
use crate::stop::Stop;
use lb_base::{Listing, Name, NoMemory};
use lb_cat::{Catalog, ColumnRec};
use lb_names::Seen;
use lb_scope::{Kind, columns_of, correlation};
use lb_tree::Item;
use lb_walk::expr_has_total;
use std::alloc::Global;

/// Whether `*`, or `x.*` where a name is given, is for that item.
fn is_for(by: Option<&Name>, item: &Seen) -> bool
    ensures { result ≡ is_starred (option_copied by.entry) item.now }
{
    match by {
        None => true,
        Some(by) => correlation(&item.tab).is(by),
    }
}

/// Whether all columns of `*` or `x.*` may stand there.
fn all_free(catalog: &Catalog, own: &[Seen], by: Option<&Name>, place: Place<'_>) -> bool
    ensures { result ≡ places.all_free (place_in (catalogue catalog.now) place.entry) (catalogue catalog.now) (filter (is_starred (option_copied by.entry)) own.now) }
{
    for item in own {
        if is_for(by, item) && !all_free_of(catalog, place, item) {
            return false;
        }
    }
    true
}

/// The kinds of the columns of `*` or `x.*`.
fn column_kinds<'a>(
    catalog: &'a Catalog,
    alloc: Global,
    own: &[Seen],
    by: Option<&Name>,
) -> Result<Listing<Kind<'a>>, NoMemory>
    ensures { IfOk result (λ k. kinds_in k ≡ lists.column_kinds (catalogue catalog.now) (filter (is_starred (option_copied by.entry)) own.now)) }
{
    let mut kinds = Listing::empty(alloc);
    for item in own {
        if is_for(by, item) {
            kinds.append(kinds_of_columns(alloc, columns_of(catalog, &item.tab))?)?;
        }
    }
    Ok(kinds)
}

fn kinds_of_columns<'a>(
    alloc: Global,
    columns: &'a [ColumnRec],
) -> Result<Listing<Kind<'a>>, NoMemory>
    ensures { IfOk result (λ k. kinds_in k ≡ map (λ f. f.kind) (map field_of columns.now)) }
{
    let mut kinds = Listing::empty(alloc);
    for column in columns {
        kinds.push(lb_scope::kind_of(&column.ty))?;
    }
    Ok(kinds)
}

fn has_label(kinds: &[Kind<'_>]) -> bool
    ensures { result ≡ list_any kind_rules.is_label (kinds_in kinds.now) }
{
    for kind in kinds {
        if is_label(*kind) {
            return true;
        }
    }
    false
}

/// Whether each column takes its output.
#[tactic(auto, using(crate::proofs::Pairs::takes_at, crate::proofs::Pairs::takes_too_many))]
fn each_takes(columns: &[Kind<'_>], outputs: &[Kind<'_>]) -> bool
    ensures { result ≡ lists.each_takes (kinds_in columns.now) (kinds_in outputs.now) }
{
    if columns.len() < outputs.len() {
        return false;
    }
    for (place, output) in outputs.iter().enumerate() {
        if !takes(columns[place], *output) {
            return false;
        }
    }
    true
}

/// Whether each output is taken, where columns take them.
fn are_taken(columns: Option<&[Kind<'_>]>, outputs: &[Kind<'_>]) -> bool
    ensures { result ≡ lists.taken (lent_kinds columns.entry) (kinds_in outputs.now) }
{
    match columns {
        None => true,
        Some(columns) => each_takes(columns, outputs),
    }
}

/// Whether these outputs may stand there: no label under DISTINCT, and each is taken by its column.
fn fit(wanted: Wanted<'_>, outputs: &[Kind<'_>]) -> bool
    ensures { result ≡ lists.fit (wanted_in wanted.entry) (kinds_in outputs.now) }
{
    !(wanted.distinct && has_label(outputs)) && are_taken(wanted.kinds, outputs)
}

/// The outputs of `*` or `x.*`, which is one node: in a stored condition it is no output of IN or of a comparison, and doesn't
/// stand beside GROUP BY.
fn star_outputs<'a>(
    catalog: &'a Catalog,
    alloc: Global,
    by: Option<&Name>,
    wanted: Wanted<'_>,
    place: Place<'_>,
    at: u32,
) -> Result<(Listing<Kind<'a>>, u32), Stop>
    ensures { Gives kinds_in result (lists.star_outputs (catalogue catalog.now) (filter (is_starred (option_copied by.entry)) place.entry.sight.now.own) (wanted_in wanted.entry) (place_in (catalogue catalog.now) place.entry) at) }
{
    if place.stored && (wanted.one || wanted.grouped) {
        return Err(Stop::Broken(at));
    }
    if !all_free(catalog, place.sight.own(), by, place) {
        return Err(Stop::Broken(at));
    }
    let kinds = column_kinds(catalog, alloc, place.sight.own(), by)?;
    if fit(wanted, kinds.as_slice()) {
        Ok((kinds, next(at)))
    } else {
        Err(Stop::Broken(at))
    }
}

/// An output that is an expression of that kind.
fn value_outputs<'a>(
    alloc: Global,
    wanted: Wanted<'_>,
    at: u32,
    found: (Kind<'a>, u32),
) -> Result<(Listing<Kind<'a>>, u32), Stop>
    ensures { Gives kinds_in result (typed.only_if (lists.fit (wanted_in wanted.entry) (kind_in found.entry.0 ∷ [])) at (kind_in found.entry.0 ∷ [], found.entry.1)) }
{
    let mut kinds = Listing::empty(alloc);
    kinds.push(found.0)?;
    if fit(wanted, kinds.as_slice()) {
        Ok((kinds, found.1))
    } else {
        Err(Stop::Broken(at))
    }
}

/// The kinds of the outputs of an item.
#[cycle(typing)]
#[tactic(auto, using(crate::proofs::Rules::items))]
fn item_outputs<'a>(
    catalog: &'a Catalog,
    alloc: Global,
    item: &'a Item,
    wanted: Wanted<'_>,
    place: Place<'_>,
    at: u32,
) -> Result<(Listing<Kind<'a>>, u32), Stop>
    ensures { Gives kinds_in result ((trees.shows (catalogue catalog.now) item.now).outputs (wanted_in wanted.entry) (place_in (catalogue catalog.now) place.entry) at) }
{
    match item {
        Item::Everything => star_outputs(catalog, alloc, None, wanted, place, at),
        Item::AllOf(by) => star_outputs(catalog, alloc, Some(by), wanted, place, at),
        Item::Value(expr, _) => {
            let found = kind_of(catalog, alloc, expr, place, at)?;
            value_outputs(alloc, wanted, at, found)
        }
    }
}

/// What is wanted after so many outputs.
fn wanted_after<'a>(wanted: Wanted<'a>, outputs: usize) -> Wanted<'a>
    ensures { wanted_in result ≡ record (wanted_in wanted.entry) { kinds = lists.rest_of (wanted_in wanted.entry).kinds outputs } }
{
    Wanted {
        kinds: rest_of(wanted.kinds, outputs),
        ..wanted
    }
}

/// The columns that are still to take an output after so many.
#[tactic(auto, using(crate::proofs::Pairs::drop_kinds))]
fn rest_of<'a>(columns: Option<&'a [Kind<'a>]>, outputs: usize) -> Option<&'a [Kind<'a>]>
    ensures { lent_kinds result ≡ lists.rest_of (lent_kinds columns.entry) outputs }
{
    match columns {
        None => None,
        Some(columns) => Some(rest(columns, outputs)),
    }
}

fn rest<'a>(columns: &'a [Kind<'a>], outputs: usize) -> &'a [Kind<'a>]
    ensures { result.now ≡ drop outputs columns.now }
{
    if outputs <= columns.len() {
        &columns[outputs..]
    } else {
        &[]
    }
}

/// The kinds of the outputs of these items.
#[cycle(typing)]
#[tactic(auto, using(crate::proofs::Steps::stops_then))]
pub fn outputs_of<'a>(
    catalog: &'a Catalog,
    alloc: Global,
    items: &'a [Item],
    wanted: Wanted<'_>,
    place: Place<'_>,
    number: u32,
) -> Result<(Listing<Kind<'a>>, u32), Stop>
    ensures { Gives kinds_in result (lists.outputs_of (map (trees.shows (catalogue catalog.now)) items.now) [] (wanted_in wanted.entry) (place_in (catalogue catalog.now) place.entry) number) }
{
    let mut outputs = Listing::empty(alloc);
    let mut to_come = wanted;
    let mut n = number;
    for item in items {
        let (more, after) = item_outputs(catalog, alloc, item, to_come, place, n)?;
        to_come = wanted_after(to_come, more.len());
        outputs.append(more)?;
        n = after;
    }
    Ok((outputs, n))
}

// ---- how many there are

/// What is left of a number after another one is taken from it, none where it is less.
fn minus(outputs: usize, taken: usize) -> Option<usize>
    ensures { result ≡ left outputs taken }
{
    if taken <= outputs {
        Some(outputs - taken)
    } else {
        None
    }
}

/// How many of so many outputs are left after those of an item, none where the item has more of them.
#[tactic(auto, using(crate::proofs::Rules::widths))]
fn left_after(catalog: &Catalog, own: &[Seen], item: &Item, outputs: usize) -> Option<usize>
    ensures { result ≡ left outputs ((trees.shows (catalogue catalog.now) item.now).width own.now) }
{
    match item {
        Item::Everything => left_after_star(catalog, own, None, outputs),
        Item::AllOf(by) => left_after_star(catalog, own, Some(by), outputs),
        Item::Value(_, _) => minus(outputs, 1),
    }
}

fn left_after_star(
    catalog: &Catalog,
    own: &[Seen],
    by: Option<&Name>,
    outputs: usize,
) -> Option<usize>
    ensures { result ≡ left outputs (length (lists.column_kinds (catalogue catalog.now) (filter (is_starred (option_copied by.entry)) own.now))) }
{
    let mut rest = outputs;
    for item in own {
        if is_for(by, item) {
            match minus(rest, width_of(catalog, item)) {
                None => return None,
                Some(less) => rest = less,
            }
        }
    }
    Some(rest)
}

/// The number of columns of an item.
fn width_of(catalog: &Catalog, item: &Seen) -> usize
    ensures { result ≡ length (lists.kinds_of_item (catalogue catalog.now) item.now) }
{
    columns_of(catalog, &item.tab).len()
}

/// Whether the items have so many outputs.
pub fn are_so_many(catalog: &Catalog, own: &[Seen], items: &[Item], outputs: usize) -> bool
    ensures { result ≡ (outputs == lists.widths (map (trees.shows (catalogue catalog.now)) items.now) own.now) }
{
    let mut rest = outputs;
    for item in items {
        match left_after(catalog, own, item, rest) {
            None => return false,
            Some(less) => rest = less,
        }
    }
    rest == 0
}

/// Whether an aggregate of their own query stands in one of the items.
pub fn items_have_total(items: &[Item]) -> bool
    ensures { (C : scopes.Catalogue) → result ≡ list_any (λ i. i.total) (map (trees.shows C) items.now) }
{
    for item in items {
        if item_has_total(item) {
            return true;
        }
    }
    false
}

#[tactic(auto, using(crate::proofs::Rules::totals))]
fn item_has_total(item: &Item) -> bool
    ensures { (C : scopes.Catalogue) → result ≡ (trees.shows C item.now).total }
{
    match item {
        Item::Everything | Item::AllOf(_) => false,
        Item::Value(expr, _) => expr_has_total(expr),
    }
}
