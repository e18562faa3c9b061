// Whether all names in an aggregate's argument belong to the aggregate's own query. A `*` belongs to a query inside the argument, so
// it never does.
ghost use Rattle.std.specs.Prelude.{◌≡◌, ◌++◌, ◌∷◌, [], IfOk, List, map};
ghost use Rattle.std.specs.Option.{option_map};
ghost use Rattle.lb_names.specs.Carriers.{chain_marked};
ghost use Rattle.lb_names.specs.Marks as marks;
ghost use Rattle.lb_names.specs.Passes.{all_own, is_at};
ghost use Rattle.lb_names.specs.Scopes as scopes;
ghost use Rattle.lb_names.specs.Sights as sights;
ghost use Rattle.lb_names.specs.Typing as trees;
ghost use Rattle.lb_scope.specs.Found.{catalogue};
ghost use Rattle.lb_walk.specs.Opened.{arm_of, chain_of, choice_of, own_chains, own_joins, part_of};

use lb_base::{Listing, NoMemory};
use lb_cat::Catalog;
use lb_names::Seen;
use lb_scope::{Meaning, Sight, resolve};
use lb_tree::{Arm, Atom, Chain, Choice, Column, Cond, Expr, Item, Join, Query, Signed, Tab};
use sqlite_items::Boxed;
use std::alloc::Global;

/// Whether all columns in the expression, those in its subqueries too, belong to the query in whose sight it stands.
pub fn names_own_columns(
    catalog: &Catalog,
    alloc: Global,
    expr: &Expr,
    sight: &Sight,
) -> Result<bool, NoMemory>
    ensures { IfOk result (λ own. own ≡ all_own (catalogue catalog.now) sight.now.level ((trees.means (catalogue catalog.now) expr.now).marks sight.now)) }
{
    expr_own(catalog, alloc, sight.level(), expr, sight)
}

#[cycle(own)]
#[tactic(auto, using(crate::proofs::Opens::means_atom, crate::proofs::Opens::means_sum, crate::proofs::Opens::means_concat, crate::proofs::Opens::means_product, crate::proofs::Opens::means_case, crate::proofs::Opens::means_match, crate::proofs::Opens::means_aggregate, crate::proofs::Opens::means_substr, crate::proofs::Opens::means_apply, crate::proofs::Opens::means_coalesce, crate::proofs::OwnQueries::split))]
fn expr_own(
    catalog: &Catalog,
    alloc: Global,
    level: usize,
    expr: &Expr,
    sight: &Sight,
) -> Result<bool, NoMemory>
    ensures { IfOk result (λ own. own ≡ all_own (catalogue catalog.now) level ((trees.means (catalogue catalog.now) expr.now).marks sight.now)) }
{
    match expr {
        Expr::Atom(atom) => Ok(atom_own(catalog, level, atom, sight.seen())),
        Expr::Sum(parts) => parts_own(catalog, alloc, level, parts.as_slice(), sight),
        Expr::Concat(parts) => exprs_own(catalog, alloc, level, parts.as_slice(), sight),
        Expr::Product(parts) => exprs_own(catalog, alloc, level, parts.as_slice(), sight),
        Expr::Case(arms, otherwise) => {
            if !arms_own(catalog, alloc, level, arms.as_slice(), sight)? {
                return Ok(false);
            }
            maybe_own(catalog, alloc, level, otherwise, sight)
        }
        Expr::Match(operand, choices, otherwise) => {
            if !expr_own(catalog, alloc, level, operand.get(), sight)? {
                return Ok(false);
            }
            if !choices_own(catalog, alloc, level, choices.as_slice(), sight)? {
                return Ok(false);
            }
            maybe_own(catalog, alloc, level, otherwise, sight)
        }
        Expr::Aggregate(_, of) => expr_own(catalog, alloc, level, of.get(), sight),
        Expr::Substr(text, from, length) => {
            if !expr_own(catalog, alloc, level, text.get(), sight)? {
                return Ok(false);
            }
            if !expr_own(catalog, alloc, level, from.get(), sight)? {
                return Ok(false);
            }
            maybe_own(catalog, alloc, level, length, sight)
        }
        Expr::Apply(_, to) => expr_own(catalog, alloc, level, to.get(), sight),
        Expr::Coalesce(parts) => exprs_own(catalog, alloc, level, parts.as_slice(), sight),
    }
}

fn column_own(catalog: &Catalog, level: usize, column: &Column, seen: &[Seen]) -> bool
    ensures { result ≡ is_at level (scopes.resolve (catalogue catalog.now) seen.now column.now) }
{
    match resolve(catalog, seen, column) {
        Meaning::Found(item, _) => item.level == level,
        Meaning::Unknown(_) => false,
    }
}

fn atom_own(catalog: &Catalog, level: usize, atom: &Atom, seen: &[Seen]) -> bool
    ensures { (v : sights.Sight) → v.seen ≡ seen.now → result ≡ all_own (catalogue catalog.now) level (marks.atom_marks atom.now v) }
{
    match atom {
        Atom::Column(column) | Atom::SecLabelToChar(_, column) => column_own(
            catalog, level, column, seen,
        ),
        Atom::Null
        | Atom::Int(_)
        | Atom::Text(_)
        | Atom::Date(_)
        | Atom::CurrentDate
        | Atom::SessionUser
        | Atom::CountRows
        | Atom::VerifyRole(_)
        | Atom::VerifyGroup(_)
        | Atom::SecLabel(_, _)
        | Atom::SecLabelByName(_, _) => true,
    }
}

#[cycle(own)]
#[tactic(auto, using(crate::proofs::OwnQueries::split))]
fn maybe_own(
    catalog: &Catalog,
    alloc: Global,
    level: usize,
    expr: &Option<Boxed<Expr>>,
    sight: &Sight,
) -> Result<bool, NoMemory>
    ensures { IfOk result (λ own. own ≡ all_own (catalogue catalog.now) level (marks.of_any (λ m. m.marks) (option_map (trees.means (catalogue catalog.now)) expr.now) sight.now)) }
{
    match expr {
        None => Ok(true),
        Some(expr) => expr_own(catalog, alloc, level, expr.get(), sight),
    }
}

#[cycle(own)]
#[tactic(auto, using(crate::proofs::OwnQueries::split))]
fn exprs_own(
    catalog: &Catalog,
    alloc: Global,
    level: usize,
    exprs: &[Expr],
    sight: &Sight,
) -> Result<bool, NoMemory>
    ensures { IfOk result (λ own. own ≡ all_own (catalogue catalog.now) level (marks.of_each (λ m. m.marks) (map (trees.means (catalogue catalog.now)) exprs.now) sight.now)) }
{
    for expr in exprs {
        if !expr_own(catalog, alloc, level, expr, sight)? {
            return Ok(false);
        }
    }
    Ok(true)
}

#[cycle(own)]
#[tactic(auto, using(crate::proofs::OwnQueries::split))]
fn parts_own(
    catalog: &Catalog,
    alloc: Global,
    level: usize,
    parts: &[Signed],
    sight: &Sight,
) -> Result<bool, NoMemory>
    ensures { IfOk result (λ own. own ≡ all_own (catalogue catalog.now) level (marks.of_each (λ m. m.marks) (map (part_of (catalogue catalog.now)) parts.now) sight.now)) }
{
    for part in parts {
        if !expr_own(catalog, alloc, level, &part.part, sight)? {
            return Ok(false);
        }
    }
    Ok(true)
}

#[cycle(own)]
#[tactic(auto, using(crate::proofs::OwnQueries::split))]
fn arm_own(
    catalog: &Catalog,
    alloc: Global,
    level: usize,
    arm: &Arm,
    sight: &Sight,
) -> Result<bool, NoMemory>
    ensures { IfOk result (λ own. own ≡ all_own (catalogue catalog.now) level ((arm_of (catalogue catalog.now) arm.now).marks sight.now)) }
{
    if !cond_own(catalog, alloc, level, &arm.when, sight)? {
        return Ok(false);
    }
    expr_own(catalog, alloc, level, &arm.result, sight)
}

#[cycle(own)]
#[tactic(auto, using(crate::proofs::OwnQueries::split))]
fn arms_own(
    catalog: &Catalog,
    alloc: Global,
    level: usize,
    arms: &[Arm],
    sight: &Sight,
) -> Result<bool, NoMemory>
    ensures { IfOk result (λ own. own ≡ all_own (catalogue catalog.now) level (marks.of_each (λ m. m.marks) (map (arm_of (catalogue catalog.now)) arms.now) sight.now)) }
{
    for arm in arms {
        if !arm_own(catalog, alloc, level, arm, sight)? {
            return Ok(false);
        }
    }
    Ok(true)
}

#[cycle(own)]
#[tactic(auto, using(crate::proofs::OwnQueries::split))]
fn choice_own(
    catalog: &Catalog,
    alloc: Global,
    level: usize,
    choice: &Choice,
    sight: &Sight,
) -> Result<bool, NoMemory>
    ensures { IfOk result (λ own. own ≡ all_own (catalogue catalog.now) level ((choice_of (catalogue catalog.now) choice.now).marks sight.now)) }
{
    if !expr_own(catalog, alloc, level, &choice.when, sight)? {
        return Ok(false);
    }
    expr_own(catalog, alloc, level, &choice.result, sight)
}

#[cycle(own)]
#[tactic(auto, using(crate::proofs::OwnQueries::split))]
fn choices_own(
    catalog: &Catalog,
    alloc: Global,
    level: usize,
    choices: &[Choice],
    sight: &Sight,
) -> Result<bool, NoMemory>
    ensures { IfOk result (λ own. own ≡ all_own (catalogue catalog.now) level (marks.of_each (λ m. m.marks) (map (choice_of (catalogue catalog.now)) choices.now) sight.now)) }
{
    for choice in choices {
        if !choice_own(catalog, alloc, level, choice, sight)? {
            return Ok(false);
        }
    }
    Ok(true)
}

#[cycle(own)]
#[tactic(auto, using(crate::proofs::Opens::says_or, crate::proofs::Opens::says_and, crate::proofs::Opens::says_not, crate::proofs::Opens::says_exists, crate::proofs::Opens::says_compare, crate::proofs::Opens::says_comparequery, crate::proofs::Opens::says_isnull, crate::proofs::Opens::says_inquery, crate::proofs::Opens::says_inlist, crate::proofs::Opens::says_between, crate::proofs::OwnQueries::split))]
fn cond_own(
    catalog: &Catalog,
    alloc: Global,
    level: usize,
    cond: &Cond,
    sight: &Sight,
) -> Result<bool, NoMemory>
    ensures { IfOk result (λ own. own ≡ all_own (catalogue catalog.now) level ((trees.says (catalogue catalog.now) cond.now).marks sight.now)) }
{
    match cond {
        Cond::Or(parts) => conds_own(catalog, alloc, level, parts.as_slice(), sight),
        Cond::And(parts) => conds_own(catalog, alloc, level, parts.as_slice(), sight),
        Cond::Not(part) => cond_own(catalog, alloc, level, part.get(), sight),
        Cond::Exists(query) => query_own(catalog, alloc, level, query.get(), sight),
        Cond::Compare(_, left, right) => {
            if !expr_own(catalog, alloc, level, left.get(), sight)? {
                return Ok(false);
            }
            expr_own(catalog, alloc, level, right.get(), sight)
        }
        Cond::CompareQuery(_, left, query) => {
            if !expr_own(catalog, alloc, level, left.get(), sight)? {
                return Ok(false);
            }
            query_own(catalog, alloc, level, query.get(), sight)
        }
        Cond::IsNull(part) => expr_own(catalog, alloc, level, part.get(), sight),
        Cond::InQuery(part, query) => {
            if !expr_own(catalog, alloc, level, part.get(), sight)? {
                return Ok(false);
            }
            query_own(catalog, alloc, level, query.get(), sight)
        }
        Cond::InList(part, list) => {
            if !expr_own(catalog, alloc, level, part.get(), sight)? {
                return Ok(false);
            }
            exprs_own(catalog, alloc, level, list.as_slice(), sight)
        }
        Cond::Between(part, low, high) => {
            if !expr_own(catalog, alloc, level, part.get(), sight)? {
                return Ok(false);
            }
            if !expr_own(catalog, alloc, level, low.get(), sight)? {
                return Ok(false);
            }
            expr_own(catalog, alloc, level, high.get(), sight)
        }
    }
}

#[cycle(own)]
#[tactic(auto, using(crate::proofs::OwnQueries::split))]
fn conds_own(
    catalog: &Catalog,
    alloc: Global,
    level: usize,
    conds: &[Cond],
    sight: &Sight,
) -> Result<bool, NoMemory>
    ensures { IfOk result (λ own. own ≡ all_own (catalogue catalog.now) level (marks.of_each (λ m. m.marks) (map (trees.says (catalogue catalog.now)) conds.now) sight.now)) }
{
    for cond in conds {
        if !cond_own(catalog, alloc, level, cond, sight)? {
            return Ok(false);
        }
    }
    Ok(true)
}

#[cycle(own)]
#[tactic(auto, using(crate::proofs::OwnQueries::split))]
fn maybe_cond_own(
    catalog: &Catalog,
    alloc: Global,
    level: usize,
    cond: &Option<Boxed<Cond>>,
    sight: &Sight,
) -> Result<bool, NoMemory>
    ensures { IfOk result (λ own. own ≡ all_own (catalogue catalog.now) level (marks.of_any (λ m. m.marks) (option_map (trees.says (catalogue catalog.now)) cond.now) sight.now)) }
{
    match cond {
        None => Ok(true),
        Some(cond) => cond_own(catalog, alloc, level, cond.get(), sight),
    }
}

#[cycle(own)]
#[tactic(auto, using(crate::proofs::Opens::shows_everything, crate::proofs::Opens::shows_allof, crate::proofs::Opens::shows_value, crate::proofs::OwnQueries::split))]
fn item_own(
    catalog: &Catalog,
    alloc: Global,
    level: usize,
    item: &Item,
    sight: &Sight,
) -> Result<bool, NoMemory>
    ensures { IfOk result (λ own. own ≡ all_own (catalogue catalog.now) level ((trees.shows (catalogue catalog.now) item.now).marks sight.now)) }
{
    match item {
        Item::Everything | Item::AllOf(_) => Ok(false),
        Item::Value(expr, _) => expr_own(catalog, alloc, level, expr, sight),
    }
}

#[cycle(own)]
#[tactic(auto, using(crate::proofs::OwnQueries::split))]
fn items_own(
    catalog: &Catalog,
    alloc: Global,
    level: usize,
    items: &[Item],
    sight: &Sight,
) -> Result<bool, NoMemory>
    ensures { IfOk result (λ own. own ≡ all_own (catalogue catalog.now) level (marks.of_each (λ m. m.marks) (map (trees.shows (catalogue catalog.now)) items.now) sight.now)) }
{
    for item in items {
        if !item_own(catalog, alloc, level, item, sight)? {
            return Ok(false);
        }
    }
    Ok(true)
}

fn columns_own(catalog: &Catalog, level: usize, columns: &[Column], seen: &[Seen]) -> bool
    ensures { result ≡ all_own (catalogue catalog.now) level (map (marks.column seen.now) columns.now) }
{
    for column in columns {
        if !column_own(catalog, level, column, seen) {
            return false;
        }
    }
    true
}

#[cycle(own)]
#[tactic(auto, using(crate::proofs::OwnQueries::split))]
fn query_own(
    catalog: &Catalog,
    alloc: Global,
    level: usize,
    query: &Query,
    sight: &Sight,
) -> Result<bool, NoMemory>
    ensures { IfOk result (λ own. own ≡ all_own (catalogue catalog.now) level ((trees.answers (catalogue catalog.now) query.now).marks sight.now)) }
{
    let inside = sight.inside(alloc, query.from.as_slice())?;
    if !items_own(catalog, alloc, level, query.items.as_slice(), &inside)? {
        return Ok(false);
    }
    if !chains_own(catalog, alloc, level, query.from.as_slice(), sight, &inside)? {
        return Ok(false);
    }
    if !maybe_cond_own(catalog, alloc, level, &query.filter, &inside)? {
        return Ok(false);
    }
    if !columns_own(catalog, level, query.group.as_slice(), inside.seen()) {
        return Ok(false);
    }
    maybe_cond_own(catalog, alloc, level, &query.having, &inside)
}

/// In FROM of a query that stands here, of which `query` is what its clauses see.
#[cycle(own)]
#[tactic(auto, using(crate::proofs::OwnQueries::split))]
fn chains_own(
    catalog: &Catalog,
    alloc: Global,
    level: usize,
    chains: &[Chain],
    outer: &Sight,
    query: &Sight,
) -> Result<bool, NoMemory>
    ensures { IfOk result (λ own. (all : List sights.Name) → query.now.around ≡ all ++ outer.now.around → own ≡ own_chains (catalogue catalog.now) level outer.now all (map chain_marked (map (chain_of (catalogue catalog.now)) chains.now))) }
{
    for chain in chains {
        if !joins_own(catalog, alloc, level, chain, outer, query)? {
            return Ok(false);
        }
    }
    Ok(true)
}

#[cycle(own)]
#[tactic(auto, using(crate::proofs::OwnQueries::split))]
fn joins_own(
    catalog: &Catalog,
    alloc: Global,
    level: usize,
    chain: &Chain,
    outer: &Sight,
    query: &Sight,
) -> Result<bool, NoMemory>
    ensures { IfOk result (λ own. (all : List sights.Name) → query.now.around ≡ all ++ outer.now.around → own ≡ own_joins (catalogue catalog.now) level outer.now all (chain.now.first ∷ []) (map (λ j. j.marked) (map (trees.joins (catalogue catalog.now)) chain.now.joins))) }
{
    let mut tabs = Listing::empty(alloc);
    tabs.push(chain.first.copy()?)?;
    for join in chain.joins.as_slice() {
        tabs.push(table_joined(join).copy()?)?;
        if !join_own(catalog, alloc, level, join, outer, query, tabs.as_slice())? {
            return Ok(false);
        }
    }
    Ok(true)
}

/// The table of a join.
#[tactic(auto, using(crate::proofs::Joins::tab_inner, crate::proofs::Joins::tab_left, crate::proofs::Joins::tab_cross))]
pub fn table_joined(join: &Join) -> &Tab
    ensures { (C : scopes.Catalogue) → result.now ≡ (trees.joins C join.now).marked.tab }
{
    match join {
        Join::Inner(tab, _) | Join::Left(tab, _) => tab,
        Join::Cross(tab) => tab,
    }
}

#[cycle(own)]
#[tactic(auto, using(crate::proofs::Opens::joins_inner, crate::proofs::Opens::joins_left, crate::proofs::Opens::joins_cross, crate::proofs::OwnQueries::split))]
fn join_own(
    catalog: &Catalog,
    alloc: Global,
    level: usize,
    join: &Join,
    outer: &Sight,
    query: &Sight,
    tabs: &[Tab],
) -> Result<bool, NoMemory>
    ensures { IfOk result (λ own. (all : List sights.Name) → query.now.around ≡ all ++ outer.now.around → own ≡ all_own (catalogue catalog.now) level ((trees.joins (catalogue catalog.now) join.now).marked.on (sights.inside_on outer.now all tabs.now))) }
{
    match join {
        Join::Inner(_, cond) | Join::Left(_, cond) => {
            let sight = outer.inside_on(alloc, query, tabs)?;
            cond_own(catalog, alloc, level, cond, &sight)
        }
        Join::Cross(_) => Ok(true),
    }
}
