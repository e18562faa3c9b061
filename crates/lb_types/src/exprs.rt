// The kinds of expressions. A node has its number before its parts; these are typed first, in text order, and then the node's own
// rule is asked.
ghost use Rattle.std.specs.Prelude.{map, option_map};
ghost use Rattle.lb_names.specs.Expressions as expressions;
ghost use Rattle.lb_names.specs.Kinds as kinds;
ghost use Rattle.lb_names.specs.Parts as part_rules;
ghost use Rattle.lb_names.specs.Typing as trees;
ghost use Rattle.lb_scope.specs.Found.{catalogue, kind_in};
ghost use Rattle.lb_types.specs.Given.{Gives, place_in};
ghost use Rattle.lb_types.specs.Within.{common_in, commons_in, pair_in};
ghost use Rattle.lb_walk.specs.Opened.{arm_of, choice_of, part_of};

use crate::conds::typed;
use crate::kind::{Common, aggregated, with_kind};
use crate::node::{
    atom_kind, function_kind, next, one_kind, one_of, plain_kind, plain_results, substr_kind,
};
use crate::place::{Place, in_aggregate};
use crate::stop::Stop;
use lb_cat::Catalog;
use lb_scope::Kind;
use lb_tree::{Aggregate, Arm, Choice, Expr, Signed};
use lb_walk::names_own_columns;
use sqlite_items::Boxed;
use std::alloc::Global;

/// The kind of an expression, and the number after its last part.
#[cycle(typing)]
#[tactic(auto, using(crate::proofs::Rules::expressions))]
pub fn kind_of<'a>(
    catalog: &'a Catalog,
    alloc: Global,
    expr: &'a Expr,
    place: Place<'_>,
    at: u32,
) -> Result<(Kind<'a>, u32), Stop>
    ensures { Gives kind_in result ((trees.means (catalogue catalog.now) expr.now).kind (place_in (catalogue catalog.now) place.entry) at) }
{
    match expr {
        Expr::Atom(atom) => atom_kind(catalog, atom, place, at),
        Expr::Sum(parts) => {
            let found = kind_of_parts(catalog, alloc, parts.as_slice(), place, next(at))?;
            one_kind(at, found)
        }
        Expr::Concat(parts) => {
            let found = kind_of_all(
                catalog,
                alloc,
                Kind::Text,
                parts.as_slice(),
                place,
                next(at),
            )?;
            one_kind(at, found)
        }
        Expr::Product(parts) => {
            let found = kind_of_all(
                catalog,
                alloc,
                Kind::Integer,
                parts.as_slice(),
                place,
                next(at),
            )?;
            one_kind(at, found)
        }
        Expr::Case(arms, otherwise) => {
            let results = kind_of_arms(catalog, alloc, arms.as_slice(), place, next(at))?;
            let results = kind_of_any(catalog, alloc, results, otherwise, place)?;
            plain_kind(at, results)
        }
        Expr::Match(operand, choices, otherwise) => {
            let (kind, n) = kind_of(catalog, alloc, operand.get(), place, next(at))?;
            let ((operands, results), n) = kinds_of_choices(
                catalog,
                alloc,
                kind,
                choices.as_slice(),
                place,
                n,
            )?;
            let results = kind_of_any(catalog, alloc, (results, n), otherwise, place)?;
            plain_results(at, operands, results)
        }
        Expr::Aggregate(aggregate, of) => {
            let found = kind_of(catalog, alloc, of.get(), in_aggregate(place), next(at))?;
            aggregate_kind(catalog, alloc, *aggregate, of.get(), place, at, found)
        }
        Expr::Substr(text, from, length) => {
            let (kind, n) = kind_of(catalog, alloc, text.get(), place, next(at))?;
            let numbers = kind_with(
                catalog,
                alloc,
                (Common::One(Kind::Integer), n),
                from.get(),
                place,
            )?;
            let numbers = kind_of_any(catalog, alloc, numbers, length, place)?;
            substr_kind(at, kind, numbers)
        }
        Expr::Apply(function, to) => {
            let found = kind_of(catalog, alloc, to.get(), place, next(at))?;
            function_kind(*function, at, found)
        }
        Expr::Coalesce(parts) => {
            let found = kind_of_all(
                catalog,
                alloc,
                Kind::Null,
                parts.as_slice(),
                place,
                next(at),
            )?;
            plain_kind(at, found)
        }
    }
}

/// An aggregate whose argument has that kind. It may stand there, and its argument names columns of its own query alone.
fn aggregate_kind<'a>(
    catalog: &Catalog,
    alloc: Global,
    aggregate: Aggregate,
    of: &Expr,
    place: Place<'_>,
    at: u32,
    found: (Kind<'a>, u32),
) -> Result<(Kind<'a>, u32), Stop>
    ensures { Gives kind_in result (expressions.aggregate_kind (catalogue catalog.now) aggregate (trees.means (catalogue catalog.now) of.now) (place_in (catalogue catalog.now) place.entry) at (kind_in found.entry.0, found.entry.1)) }
{
    if !place.aggregates {
        return Err(Stop::Broken(at));
    }
    if names_own_columns(catalog, alloc, of, place.sight)? {
        one_of(at, found.1, aggregated(aggregate, found.0))
    } else {
        Err(Stop::Broken(at))
    }
}

/// The kind so far with that of one more.
#[cycle(typing)]
#[tactic(auto, using(crate::proofs::Steps::stops_then))]
pub fn kind_with<'a>(
    catalog: &'a Catalog,
    alloc: Global,
    so_far: (Common<'a>, u32),
    expr: &'a Expr,
    place: Place<'_>,
) -> Result<(Common<'a>, u32), Stop>
    ensures { Gives common_in result (part_rules.kind_with (common_in so_far.entry.0) (trees.means (catalogue catalog.now) expr.now) (place_in (catalogue catalog.now) place.entry) so_far.entry.1) }
{
    let (kind, n) = kind_of(catalog, alloc, expr, place, so_far.1)?;
    Ok((with_kind(so_far.0, kind), n))
}

/// The kind so far with that of a part that may be missing.
#[cycle(typing)]
#[tactic(auto, using(crate::proofs::Steps::stops_then))]
fn kind_of_any<'a>(
    catalog: &'a Catalog,
    alloc: Global,
    so_far: (Common<'a>, u32),
    expr: &'a Option<Boxed<Expr>>,
    place: Place<'_>,
) -> Result<(Common<'a>, u32), Stop>
    ensures { Gives common_in result (part_rules.kind_of_any (common_in so_far.entry.0) (option_map (trees.means (catalogue catalog.now)) expr.now) (place_in (catalogue catalog.now) place.entry) so_far.entry.1) }
{
    match expr {
        None => Ok(so_far),
        Some(expr) => kind_with(catalog, alloc, so_far, expr.get(), place),
    }
}

/// The kind that all have in common with the first.
#[cycle(typing)]
#[tactic(auto, using(crate::proofs::Steps::stops_then))]
pub fn kind_of_all<'a>(
    catalog: &'a Catalog,
    alloc: Global,
    first: Kind<'a>,
    exprs: &'a [Expr],
    place: Place<'_>,
    number: u32,
) -> Result<(Common<'a>, u32), Stop>
    ensures { Gives common_in result (part_rules.kind_of_all (kinds.one (kind_in first.entry)) (map (trees.means (catalogue catalog.now)) exprs.now) (place_in (catalogue catalog.now) place.entry) number) }
{
    let mut so_far = Common::One(first);
    let mut n = number;
    for expr in exprs {
        let (kind, after) = kind_of(catalog, alloc, expr, place, n)?;
        so_far = with_kind(so_far, kind);
        n = after;
    }
    Ok((so_far, n))
}

/// The kind that the parts of a sum have in common with an integer.
#[cycle(typing)]
#[tactic(auto, using(crate::proofs::Steps::stops_then))]
fn kind_of_parts<'a>(
    catalog: &'a Catalog,
    alloc: Global,
    parts: &'a [Signed],
    place: Place<'_>,
    number: u32,
) -> Result<(Common<'a>, u32), Stop>
    ensures { Gives common_in result (part_rules.kind_of_all (kinds.one kinds.integer) (map (part_of (catalogue catalog.now)) parts.now) (place_in (catalogue catalog.now) place.entry) number) }
{
    let mut so_far = Common::One(Kind::Integer);
    let mut n = number;
    for part in parts {
        let (kind, after) = kind_of(catalog, alloc, &part.part, place, n)?;
        so_far = with_kind(so_far, kind);
        n = after;
    }
    Ok((so_far, n))
}

/// The kind of the result of WHEN condition THEN result.
#[cycle(typing)]
#[tactic(auto, using(crate::proofs::Steps::stops_then), unfolding(lb_names::specs::Parts::kind_of_arm))]
fn kind_of_arm<'a>(
    catalog: &'a Catalog,
    alloc: Global,
    arm: &'a Arm,
    place: Place<'_>,
    number: u32,
) -> Result<(Kind<'a>, u32), Stop>
    ensures { Gives kind_in result (part_rules.kind_of_arm (arm_of (catalogue catalog.now) arm.now) (place_in (catalogue catalog.now) place.entry) number) }
{
    let n = typed(catalog, alloc, &arm.when, place, number)?;
    kind_of(catalog, alloc, &arm.result, place, n)
}

/// The kind that the results have in common.
#[cycle(typing)]
#[tactic(auto, using(crate::proofs::Steps::stops_then))]
fn kind_of_arms<'a>(
    catalog: &'a Catalog,
    alloc: Global,
    arms: &'a [Arm],
    place: Place<'_>,
    number: u32,
) -> Result<(Common<'a>, u32), Stop>
    ensures { Gives common_in result (part_rules.kind_of_arms (kinds.one kinds.null) (map (arm_of (catalogue catalog.now)) arms.now) (place_in (catalogue catalog.now) place.entry) number) }
{
    let mut so_far = Common::One(Kind::Null);
    let mut n = number;
    for arm in arms {
        let (kind, after) = kind_of_arm(catalog, alloc, arm, place, n)?;
        so_far = with_kind(so_far, kind);
        n = after;
    }
    Ok((so_far, n))
}

/// The kinds of both parts of WHEN value THEN result.
#[cycle(typing)]
#[tactic(auto, using(crate::proofs::Steps::stops_then), unfolding(lb_names::specs::Parts::kinds_of_choice, lb_names::specs::Parts::and_kind))]
fn kinds_of_choice<'a>(
    catalog: &'a Catalog,
    alloc: Global,
    choice: &'a Choice,
    place: Place<'_>,
    number: u32,
) -> Result<((Kind<'a>, Kind<'a>), u32), Stop>
    ensures { Gives pair_in result (part_rules.kinds_of_choice (choice_of (catalogue catalog.now) choice.now) (place_in (catalogue catalog.now) place.entry) number) }
{
    let (when, n) = kind_of(catalog, alloc, &choice.when, place, number)?;
    let (result, n) = kind_of(catalog, alloc, &choice.result, place, n)?;
    Ok(((when, result), n))
}

/// The kind that the operands have in common with the first, and the kind of the results.
#[cycle(typing)]
#[tactic(auto, using(crate::proofs::Steps::stops_then))]
fn kinds_of_choices<'a>(
    catalog: &'a Catalog,
    alloc: Global,
    first: Kind<'a>,
    choices: &'a [Choice],
    place: Place<'_>,
    number: u32,
) -> Result<((Common<'a>, Common<'a>), u32), Stop>
    ensures { Gives commons_in result (part_rules.kinds_of_choices (kinds.one (kind_in first.entry)) (kinds.one kinds.null) (map (choice_of (catalogue catalog.now)) choices.now) (place_in (catalogue catalog.now) place.entry) number) }
{
    let mut operands = Common::One(first);
    let mut results = Common::One(Kind::Null);
    let mut n = number;
    for choice in choices {
        let ((when, result), after) = kinds_of_choice(catalog, alloc, choice, place, n)?;
        operands = with_kind(operands, when);
        results = with_kind(results, result);
        n = after;
    }
    Ok(((operands, results), n))
}
