// Whether two expressions are the same, their columns compared by what they mean. None with a subquery is the same as another.
ghost use Rattle.std.specs.Prelude.{◌≡◌, map, option_map};
ghost use Rattle.lb_tree.specs.Folds.{arm_of, choice_of, cond_of, expr_of, signed_of};
ghost use Rattle.lb_names.specs.Same.{like_steps, liking};
ghost use Rattle.lb_names.specs.Same as same;
ghost use Rattle.lb_scope.specs.Found.{catalogue};

use lb_base::{Name, Str};
use lb_cat::Catalog;
use lb_names::Seen;
use lb_scope::is_same_column;
use lb_tree::{Aggregate, Arm, Atom, Choice, Comparison, Cond, Expr, Function, Signed};
use sqlite_items::Boxed;

/// Whether both are the same expression where these items are in sight. Columns are compared by what they mean, and no expression with a
/// subquery is the same as another (select-clause, order-by-clause).
#[tactic(auto, using(crate::proofs::Sames::same_is))]
pub fn is_same_expr(catalog: &Catalog, seen: &[Seen], one: &Expr, other: &Expr) -> bool
    ensures { result ≡ same.same (catalogue catalog.now) seen.now one.now other.now }
{
    is_same(catalog, seen, one, other)
}

#[cycle(same)]
#[tactic(auto, using(crate::proofs::Sames::like_atom, crate::proofs::Sames::like_sum, crate::proofs::Sames::like_concat, crate::proofs::Sames::like_product, crate::proofs::Sames::like_case, crate::proofs::Sames::like_match, crate::proofs::Sames::like_aggregate, crate::proofs::Sames::like_substr, crate::proofs::Sames::like_apply, crate::proofs::Sames::like_coalesce))]
fn is_same(catalog: &Catalog, seen: &[Seen], one: &Expr, other: &Expr) -> bool
    ensures { result ≡ (expr_of liking (like_steps (catalogue catalog.now) seen.now) one.now).to other.now }
{
    match one {
        Expr::Atom(atom) => match other {
            Expr::Atom(another) => is_same_atom(catalog, seen, atom, another),
            _ => false,
        },
        Expr::Sum(parts) => match other {
            Expr::Sum(others) => are_same_parts(catalog, seen, parts.as_slice(), others.as_slice()),
            _ => false,
        },
        Expr::Concat(parts) => match other {
            Expr::Concat(others) => are_same_exprs(
                catalog,
                seen,
                parts.as_slice(),
                others.as_slice(),
            ),
            _ => false,
        },
        Expr::Product(parts) => match other {
            Expr::Product(others) => are_same_exprs(
                catalog,
                seen,
                parts.as_slice(),
                others.as_slice(),
            ),
            _ => false,
        },
        Expr::Case(arms, otherwise) => match other {
            Expr::Case(others, its_otherwise) => {
                are_same_arms(catalog, seen, arms.as_slice(), others.as_slice())
                    && are_same_options(catalog, seen, otherwise, its_otherwise)
            }
            _ => false,
        },
        Expr::Match(operand, choices, otherwise) => match other {
            Expr::Match(another, others, its_otherwise) => {
                if is_same(catalog, seen, operand.get(), another.get()) {
                    are_same_choices(catalog, seen, choices.as_slice(), others.as_slice())
                        && are_same_options(catalog, seen, otherwise, its_otherwise)
                } else {
                    false
                }
            }
            _ => false,
        },
        Expr::Aggregate(aggregate, of) => match other {
            Expr::Aggregate(another, other_of) => is_same_aggregate(*aggregate, *another)
                && is_same(catalog, seen, of.get(), other_of.get()),
            _ => false,
        },
        Expr::Substr(text, from, length) => match other {
            Expr::Substr(another, other_from, other_length) => {
                if is_same(catalog, seen, text.get(), another.get()) {
                    is_same(catalog, seen, from.get(), other_from.get())
                        && are_same_options(catalog, seen, length, other_length)
                } else {
                    false
                }
            }
            _ => false,
        },
        Expr::Apply(function, to) => match other {
            Expr::Apply(another, other_to) => is_same_function(*function, *another)
                && is_same(catalog, seen, to.get(), other_to.get()),
            _ => false,
        },
        Expr::Coalesce(parts) => match other {
            Expr::Coalesce(others) => are_same_exprs(
                catalog,
                seen,
                parts.as_slice(),
                others.as_slice(),
            ),
            _ => false,
        },
    }
}

/// Whether both are the same condition.
#[cycle(same)]
#[tactic(auto, using(crate::proofs::Sames::like_or, crate::proofs::Sames::like_and, crate::proofs::Sames::like_not, crate::proofs::Sames::like_compare, crate::proofs::Sames::like_isnull, crate::proofs::Sames::like_inlist, crate::proofs::Sames::like_between, crate::proofs::Sames::like_exists, crate::proofs::Sames::like_comparequery, crate::proofs::Sames::like_inquery))]
fn is_same_cond(catalog: &Catalog, seen: &[Seen], one: &Cond, other: &Cond) -> bool
    ensures { result ≡ (cond_of liking (like_steps (catalogue catalog.now) seen.now) one.now).to other.now }
{
    match one {
        Cond::Or(parts) => match other {
            Cond::Or(others) => are_same_conds(catalog, seen, parts.as_slice(), others.as_slice()),
            _ => false,
        },
        Cond::And(parts) => match other {
            Cond::And(others) => are_same_conds(catalog, seen, parts.as_slice(), others.as_slice()),
            _ => false,
        },
        Cond::Not(part) => match other {
            Cond::Not(another) => is_same_cond(catalog, seen, part.get(), another.get()),
            _ => false,
        },
        Cond::Compare(by, left, right) => match other {
            Cond::Compare(other_by, other_left, other_right) => {
                if is_same_comparison(*by, *other_by) {
                    is_same(catalog, seen, left.get(), other_left.get())
                        && is_same(catalog, seen, right.get(), other_right.get())
                } else {
                    false
                }
            }
            _ => false,
        },
        Cond::IsNull(part) => match other {
            Cond::IsNull(another) => is_same(catalog, seen, part.get(), another.get()),
            _ => false,
        },
        Cond::InList(part, list) => match other {
            Cond::InList(another, others) => {
                is_same(catalog, seen, part.get(), another.get())
                    && are_same_exprs(catalog, seen, list.as_slice(), others.as_slice())
            }
            _ => false,
        },
        Cond::Between(part, low, high) => match other {
            Cond::Between(another, other_low, other_high) => {
                if is_same(catalog, seen, part.get(), another.get()) {
                    is_same(catalog, seen, low.get(), other_low.get())
                        && is_same(catalog, seen, high.get(), other_high.get())
                } else {
                    false
                }
            }
            _ => false,
        },
        Cond::Exists(_) | Cond::CompareQuery(_, _, _) | Cond::InQuery(_, _) => false,
    }
}

fn is_same_atom(catalog: &Catalog, seen: &[Seen], one: &Atom, other: &Atom) -> bool
    ensures { result ≡ same.same_atom (catalogue catalog.now) seen.now one.now other.now }
{
    match (one, other) {
        (Atom::Null, Atom::Null) => true,
        (Atom::Int(n), Atom::Int(m)) => *n == *m,
        (Atom::Text(text), Atom::Text(another)) => text.is(another),
        (Atom::Date(day), Atom::Date(another)) => *day == *another,
        (Atom::CurrentDate, Atom::CurrentDate) => true,
        (Atom::SessionUser, Atom::SessionUser) => true,
        (Atom::Column(column), Atom::Column(another)) => is_same_column(
            catalog, seen, column, another,
        ),
        (Atom::CountRows, Atom::CountRows) => true,
        (Atom::VerifyRole(names), Atom::VerifyRole(others)) => are_same_names(
            names.as_slice(),
            others.as_slice(),
        ),
        (Atom::VerifyGroup(names), Atom::VerifyGroup(others)) => are_same_names(
            names.as_slice(),
            others.as_slice(),
        ),
        (Atom::SecLabel(policy, text), Atom::SecLabel(other_policy, another)) => policy.is(
            other_policy,
        ) && text.is(another),
        (Atom::SecLabelByName(policy, label), Atom::SecLabelByName(other_policy, another)) =>
            policy.is(other_policy) && label.is(another),
        (Atom::SecLabelToChar(policy, column), Atom::SecLabelToChar(other_policy, another)) => {
            policy.is(other_policy) && is_same_column(catalog, seen, column, another)
        }
        _ => false,
    }
}

#[tactic(auto, using(crate::proofs::Sames::names_at, crate::proofs::Sames::names_length))]
fn are_same_names(names: &[Str], others: &[Str]) -> bool
    ensures { result ≡ same.same_names names.now others.now }
{
    if names.len() != others.len() {
        return false;
    }
    for (i, name) in names.iter().enumerate() {
        if !name.is(&others[i]) {
            return false;
        }
    }
    true
}

#[cycle(same)]
fn are_same_options(
    catalog: &Catalog,
    seen: &[Seen],
    one: &Option<Boxed<Expr>>,
    other: &Option<Boxed<Expr>>,
) -> bool
    ensures { result ≡ same.both_like (option_map (expr_of liking (like_steps (catalogue catalog.now) seen.now)) one.now) other.now }
{
    match one {
        None => other.is_none(),
        Some(one) => match other {
            None => false,
            Some(other) => is_same(catalog, seen, one.get(), other.get()),
        },
    }
}

#[cycle(same)]
#[tactic(auto, using(crate::proofs::Sames::like_arm))]
fn is_same_arm(catalog: &Catalog, seen: &[Seen], one: &Arm, other: &Arm) -> bool
    ensures { result ≡ (arm_of liking (like_steps (catalogue catalog.now) seen.now) one.now).to other.now }
{
    is_same_cond(catalog, seen, &one.when, &other.when)
        && is_same(catalog, seen, &one.result, &other.result)
}

#[cycle(same)]
#[tactic(auto, using(crate::proofs::Sames::like_choice))]
fn is_same_choice(catalog: &Catalog, seen: &[Seen], one: &Choice, other: &Choice) -> bool
    ensures { result ≡ (choice_of liking (like_steps (catalogue catalog.now) seen.now) one.now).to other.now }
{
    is_same(catalog, seen, &one.when, &other.when)
        && is_same(catalog, seen, &one.result, &other.result)
}

#[cycle(same)]
#[tactic(auto, using(crate::proofs::Sames::like_signed))]
fn is_same_part(catalog: &Catalog, seen: &[Seen], one: &Signed, other: &Signed) -> bool
    ensures { result ≡ (signed_of liking (like_steps (catalogue catalog.now) seen.now) one.now).to other.now }
{
    one.minus == other.minus && is_same(catalog, seen, &one.part, &other.part)
}

#[cycle(same)]
#[tactic(auto, using(crate::proofs::Sames::likes_at, crate::proofs::Sames::likes_length))]
fn are_same_exprs(catalog: &Catalog, seen: &[Seen], ones: &[Expr], others: &[Expr]) -> bool
    ensures { result ≡ same.all_like (map (expr_of liking (like_steps (catalogue catalog.now) seen.now)) ones.now) others.now }
{
    if ones.len() != others.len() {
        return false;
    }
    for (i, one) in ones.iter().enumerate() {
        if !is_same(catalog, seen, one, &others[i]) {
            return false;
        }
    }
    true
}

#[cycle(same)]
#[tactic(auto, using(crate::proofs::Sames::likes_at, crate::proofs::Sames::likes_length))]
fn are_same_parts(catalog: &Catalog, seen: &[Seen], ones: &[Signed], others: &[Signed]) -> bool
    ensures { result ≡ same.all_like (map (signed_of liking (like_steps (catalogue catalog.now) seen.now)) ones.now) others.now }
{
    if ones.len() != others.len() {
        return false;
    }
    for (i, one) in ones.iter().enumerate() {
        if !is_same_part(catalog, seen, one, &others[i]) {
            return false;
        }
    }
    true
}

#[cycle(same)]
#[tactic(auto, using(crate::proofs::Sames::likes_at, crate::proofs::Sames::likes_length))]
fn are_same_arms(catalog: &Catalog, seen: &[Seen], ones: &[Arm], others: &[Arm]) -> bool
    ensures { result ≡ same.all_like (map (arm_of liking (like_steps (catalogue catalog.now) seen.now)) ones.now) others.now }
{
    if ones.len() != others.len() {
        return false;
    }
    for (i, one) in ones.iter().enumerate() {
        if !is_same_arm(catalog, seen, one, &others[i]) {
            return false;
        }
    }
    true
}

#[cycle(same)]
#[tactic(auto, using(crate::proofs::Sames::likes_at, crate::proofs::Sames::likes_length))]
fn are_same_choices(catalog: &Catalog, seen: &[Seen], ones: &[Choice], others: &[Choice]) -> bool
    ensures { result ≡ same.all_like (map (choice_of liking (like_steps (catalogue catalog.now) seen.now)) ones.now) others.now }
{
    if ones.len() != others.len() {
        return false;
    }
    for (i, one) in ones.iter().enumerate() {
        if !is_same_choice(catalog, seen, one, &others[i]) {
            return false;
        }
    }
    true
}

#[cycle(same)]
#[tactic(auto, using(crate::proofs::Sames::likes_at, crate::proofs::Sames::likes_length))]
fn are_same_conds(catalog: &Catalog, seen: &[Seen], ones: &[Cond], others: &[Cond]) -> bool
    ensures { result ≡ same.all_like (map (cond_of liking (like_steps (catalogue catalog.now) seen.now)) ones.now) others.now }
{
    if ones.len() != others.len() {
        return false;
    }
    for (i, one) in ones.iter().enumerate() {
        if !is_same_cond(catalog, seen, one, &others[i]) {
            return false;
        }
    }
    true
}

fn is_same_comparison(one: Comparison, other: Comparison) -> bool
    ensures { result ≡ same.same_comparison one other }
{
    match (one, other) {
        (Comparison::Equal, Comparison::Equal)
        | (Comparison::NotEqual, Comparison::NotEqual)
        | (Comparison::Less, Comparison::Less)
        | (Comparison::AtMost, Comparison::AtMost)
        | (Comparison::Greater, Comparison::Greater)
        | (Comparison::AtLeast, Comparison::AtLeast) => true,
        _ => false,
    }
}

fn is_same_aggregate(one: Aggregate, other: Aggregate) -> bool
    ensures { result ≡ same.same_aggregate one other }
{
    match (one, other) {
        (Aggregate::Count, Aggregate::Count)
        | (Aggregate::CountDistinct, Aggregate::CountDistinct)
        | (Aggregate::Sum, Aggregate::Sum)
        | (Aggregate::Min, Aggregate::Min)
        | (Aggregate::Max, Aggregate::Max) => true,
        _ => false,
    }
}

fn is_same_function(one: Function, other: Function) -> bool
    ensures { result ≡ same.same_function one other }
{
    match (one, other) {
        (Function::Length, Function::Length)
        | (Function::Year, Function::Year)
        | (Function::Month, Function::Month)
        | (Function::Day, Function::Day) => true,
        _ => false,
    }
}
