// Where an expression stands in a statement, and what the place asks of it.
ghost use Rattle.std.specs.Prelude.{◌≡◌, map, true, false};
ghost use Rattle.std.specs.List.{flat_map, list_any, list_all};
ghost use Rattle.lb_alter.specs.Naming.{field_of};
ghost use Rattle.lb_names.specs.Places as places;
ghost use Rattle.lb_names.specs.Scopes as scopes;
ghost use Rattle.lb_scope.specs.Found.{catalogue};
ghost use Rattle.lb_types.specs.Given.{group_in, place_in};

use lb_base::Name;
use lb_cat::{Catalog, ColumnRec};
use lb_names::Seen;
use lb_scope::{Kind, Meaning, Sight, columns_of, correlation, resolve};
use lb_tree::Column;

/// A query that has groups, by what its clauses see and its columns of GROUP BY.
#[derive(Clone, Copy)]
pub struct GroupBy<'a> {
    pub sight: &'a Sight,
    pub columns: &'a [Column],
}

/// A place in a statement.
#[derive(Clone, Copy)]
pub struct Place<'a> {
    /// What is in sight.
    pub sight: &'a Sight,
    /// The queries round it in whose select list, HAVING or ORDER BY it stands, where they have groups, the innermost first.
    pub groups: &'a [GroupBy<'a>],
    /// It is not in a select list, ORDER BY, VALUES or SET.
    pub subqueries: bool,
    /// It is in a select list, HAVING or ORDER BY, and not in an aggregate of that query.
    pub aggregates: bool,
    /// It is in an aggregate of some query.
    pub within: bool,
    /// It is in a permission or mask.
    pub stored: bool,
}

/// What a query is for.
#[derive(Clone, Copy)]
pub struct Role<'a> {
    pub subquery: bool,
    /// It is a subquery of IN or of a comparison.
    pub one: bool,
    /// Its ORDER BY has an aggregate.
    pub total: bool,
    /// The kinds of the columns that take its outputs.
    pub wanted: Option<&'a [Kind<'a>]>,
}

/// What is wanted of a select list.
#[derive(Clone, Copy)]
pub struct Wanted<'a> {
    /// It belongs to a subquery of IN or of a comparison.
    pub one: bool,
    /// Its query has GROUP BY.
    pub grouped: bool,
    pub distinct: bool,
    /// The kinds of the columns that are to take the outputs from here on.
    pub kinds: Option<&'a [Kind<'a>]>,
}

/// The argument of an aggregate that stands there.
pub fn in_aggregate(place: Place<'_>) -> Place<'_>
    ensures { (C : scopes.Catalogue) → place_in C result ≡ places.in_aggregate (place_in C place.entry) }
{
    Place {
        aggregates: false,
        within: true,
        ..place
    }
}

/// WHERE and GROUP BY of a query with that sight which stands there.
pub fn filter_place<'a>(place: Place<'a>, sight: &'a Sight) -> Place<'a>
    ensures { (C : scopes.Catalogue) → place_in C result ≡ record (place_in C place.entry) { sight = sight.now; subqueries = true; aggregates = false } }
{
    Place {
        sight,
        subqueries: true,
        aggregates: false,
        ..place
    }
}

/// HAVING of a query with that sight which stands there, under these groups.
pub fn having_place<'a>(place: Place<'a>, sight: &'a Sight, groups: &'a [GroupBy<'a>]) -> Place<'a>
    ensures { (C : scopes.Catalogue) → place_in C result ≡ record (place_in C place.entry) { sight = sight.now; groups = map (group_in C) groups.now; subqueries = true; aggregates = true } }
{
    Place {
        sight,
        groups,
        subqueries: true,
        aggregates: true,
        ..place
    }
}

/// The select list and ORDER BY of a query with that sight which stands there, under these groups.
pub fn shown_place<'a>(place: Place<'a>, sight: &'a Sight, groups: &'a [GroupBy<'a>]) -> Place<'a>
    ensures { (C : scopes.Catalogue) → place_in C result ≡ record (place_in C place.entry) { sight = sight.now; groups = map (group_in C) groups.now; subqueries = false; aggregates = true } }
{
    Place {
        sight,
        groups,
        subqueries: false,
        aggregates: true,
        ..place
    }
}

/// Whether the grouping column, where these items are in sight, is that column of the item.
fn is_column_at(catalog: &Catalog, seen: &[Seen], column: &Column, item: &Seen, name: &Name) -> bool
    ensures { result ≡ list_any (scopes.same_spot (scopes.spot_of item.now name.now)) (scopes.spots (scopes.resolve (catalogue catalog.now) seen.now column.now)) }
{
    match resolve(catalog, seen, column) {
        Meaning::Found(found, record) => {
            item.level == found.level
                && correlation(&item.tab).is(correlation(&found.tab))
                && name.is(&record.name)
        }
        Meaning::Unknown(_) => false,
    }
}

/// Whether that column of the item is among the grouping columns.
fn is_among(catalog: &Catalog, group: GroupBy<'_>, item: &Seen, name: &Name) -> bool
    ensures { result ≡ list_any (scopes.same_spot (scopes.spot_of item.now name.now)) (group_in (catalogue catalog.now) group.entry).columns }
{
    is_among_columns(catalog, group.sight.seen(), group.columns, item, name)
}

fn is_among_columns(
    catalog: &Catalog,
    seen: &[Seen],
    columns: &[Column],
    item: &Seen,
    name: &Name,
) -> bool
    ensures { result ≡ list_any (scopes.same_spot (scopes.spot_of item.now name.now)) (flat_map (λ c. scopes.spots (scopes.resolve (catalogue catalog.now) seen.now c)) columns.now) }
{
    for column in columns {
        if is_column_at(catalog, seen, column, item, name) {
            return true;
        }
    }
    false
}

fn is_in_group(catalog: &Catalog, group: GroupBy<'_>, item: &Seen, name: &Name) -> bool
    ensures { result ≡ places.is_in_group (scopes.spot_of item.now name.now) (group_in (catalogue catalog.now) group.entry) }
{
    group.sight.level() != item.level || is_among(catalog, group, item, name)
}

fn is_in_groups(catalog: &Catalog, groups: &[GroupBy<'_>], item: &Seen, name: &Name) -> bool
    ensures { result ≡ list_all (places.is_in_group (scopes.spot_of item.now name.now)) (map (group_in (catalogue catalog.now)) groups.now) }
{
    for group in groups {
        if !is_in_group(catalog, *group, item, name) {
            return false;
        }
    }
    true
}

/// Whether that column of the item may stand there: outside aggregates a column of a query with groups is one of its grouping
/// columns (group-by-clause).
pub fn is_free(catalog: &Catalog, place: Place<'_>, item: &Seen, name: &Name) -> bool
    ensures { result ≡ places.is_free (place_in (catalogue catalog.now) place.entry) (scopes.spot_of item.now name.now) }
{
    place.within || is_in_groups(catalog, place.groups, item, name)
}

/// Whether all columns of the item may stand there.
pub fn all_free_of(catalog: &Catalog, place: Place<'_>, item: &Seen) -> bool
    ensures { result ≡ places.all_free_of (place_in (catalogue catalog.now) place.entry) (catalogue catalog.now) item.now }
{
    are_free(catalog, place, item, columns_of(catalog, &item.tab))
}

fn are_free(catalog: &Catalog, place: Place<'_>, item: &Seen, columns: &[ColumnRec]) -> bool
    ensures { result ≡ list_all (λ f. places.is_free (place_in (catalogue catalog.now) place.entry) (scopes.spot_of item.now f.name)) (map field_of columns.now) }
{
    for column in columns {
        if !is_free(catalog, place, item, &column.name) {
            return false;
        }
    }
    true
}
