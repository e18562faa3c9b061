// The types of conditions.
ghost use Rattle.std.specs.Prelude.{◌≡◌, map, option_map};
ghost use Rattle.lb_names.specs.Carriers as carriers;
ghost use Rattle.lb_names.specs.Conditions as conditions;
ghost use Rattle.lb_names.specs.Parts as part_rules;
ghost use Rattle.lb_names.specs.Typing as trees;
ghost use Rattle.lb_scope.specs.Found.{catalogue, kind_in};
ghost use Rattle.lb_types.specs.Given.{Goes, kinds_in, place_in, role_in};

use crate::exprs::{kind_of, kind_of_all, kind_with};
use crate::kind::{Common, both};
use crate::node::{compared, next, of_plain};
use crate::place::{Place, Role};
use crate::queries::kinds_of;
use crate::stop::Stop;
use lb_cat::Catalog;
use lb_scope::Kind;
use lb_tree::Cond;
use sqlite_items::Boxed;
use std::alloc::Global;

/// The number after the last part of a condition.
#[cycle(typing)]
#[tactic(auto, using(crate::proofs::Rules::conditions))]
pub fn typed(
    catalog: &Catalog,
    alloc: Global,
    cond: &Cond,
    place: Place<'_>,
    at: u32,
) -> Result<u32, Stop>
    ensures { Goes result ((trees.says (catalogue catalog.now) cond.now).typed (place_in (catalogue catalog.now) place.entry) at) }
{
    match cond {
        Cond::Or(parts) => all_typed(catalog, alloc, parts.as_slice(), place, next(at)),
        Cond::And(parts) => all_typed(catalog, alloc, parts.as_slice(), place, next(at)),
        Cond::Not(part) => typed(catalog, alloc, part.get(), place, next(at)),
        Cond::Exists(query) => {
            let (_, n) = kinds_of(
                catalog,
                alloc,
                query.get(),
                subquery(false),
                place,
                next(at),
            )?;
            Ok(n)
        }
        Cond::Compare(by, left, right) => {
            let (kind, n) = kind_of(catalog, alloc, left.get(), place, next(at))?;
            let found = kind_with(catalog, alloc, (Common::One(kind), n), right.get(), place)?;
            compared(*by, at, found)
        }
        Cond::CompareQuery(by, left, query) => {
            let (kind, n) = kind_of(catalog, alloc, left.get(), place, next(at))?;
            let (outputs, n) = kinds_of(catalog, alloc, query.get(), subquery(true), place, n)?;
            compared(*by, at, (both(kind, first_kind(outputs.as_slice())), n))
        }
        Cond::IsNull(part) => {
            let (_, n) = kind_of(catalog, alloc, part.get(), place, next(at))?;
            Ok(n)
        }
        Cond::InQuery(part, query) => {
            let (kind, n) = kind_of(catalog, alloc, part.get(), place, next(at))?;
            let (outputs, n) = kinds_of(catalog, alloc, query.get(), subquery(true), place, n)?;
            of_plain(at, (both(kind, first_kind(outputs.as_slice())), n))
        }
        Cond::InList(part, list) => {
            let (kind, n) = kind_of(catalog, alloc, part.get(), place, next(at))?;
            let found = kind_of_all(catalog, alloc, kind, list.as_slice(), place, n)?;
            of_plain(at, found)
        }
        Cond::Between(part, low, high) => {
            let (kind, n) = kind_of(catalog, alloc, part.get(), place, next(at))?;
            let found = kind_with(catalog, alloc, (Common::One(kind), n), low.get(), place)?;
            let found = kind_with(catalog, alloc, found, high.get(), place)?;
            of_plain(at, found)
        }
    }
}

/// A subquery, of IN or of a comparison or not.
fn subquery(one: bool) -> Role<'static>
    ensures { role_in result ≡ carriers.subquery one }
{
    Role {
        subquery: true,
        one,
        total: false,
        wanted: None,
    }
}

/// The kind of the first output, NULL's where there is none.
fn first_kind<'a>(kinds: &[Kind<'a>]) -> Kind<'a>
    ensures { kind_in result ≡ conditions.first_kind (kinds_in kinds.now) }
{
    match kinds.first() {
        None => Kind::Null,
        Some(kind) => *kind,
    }
}

/// Each condition in its turn.
#[cycle(typing)]
#[tactic(auto, using(crate::proofs::Steps::stops_then))]
fn all_typed(
    catalog: &Catalog,
    alloc: Global,
    conds: &[Cond],
    place: Place<'_>,
    number: u32,
) -> Result<u32, Stop>
    ensures { Goes result (part_rules.all_typed (map (trees.says (catalogue catalog.now)) conds.now) (place_in (catalogue catalog.now) place.entry) number) }
{
    let mut n = number;
    for cond in conds {
        n = typed(catalog, alloc, cond, place, n)?;
    }
    Ok(n)
}

/// A condition that may be missing, as WHERE and HAVING.
#[cycle(typing)]
#[tactic(auto, using(crate::proofs::Steps::stops_then))]
pub fn maybe_typed(
    catalog: &Catalog,
    alloc: Global,
    cond: &Option<Boxed<Cond>>,
    place: Place<'_>,
    number: u32,
) -> Result<u32, Stop>
    ensures { Goes result (trees.maybe_typed (option_map (trees.says (catalogue catalog.now)) cond.now) (place_in (catalogue catalog.now) place.entry) number) }
{
    match cond {
        None => Ok(number),
        Some(cond) => typed(catalog, alloc, cond.get(), place, number),
    }
}
