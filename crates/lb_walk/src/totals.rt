// Whether an aggregate of its own query stands in an expression or a condition. Those of subqueries don't count.
ghost use Rattle.std.specs.Prelude.{◌≡◌, ◌||◌, map};
ghost use Rattle.std.specs.Option.{option_map};
ghost use Rattle.std.specs.List.{list_any};
ghost use Rattle.lb_names.specs.Scopes.{Catalogue};
ghost use Rattle.lb_names.specs.Expressions.{is_total};
ghost use Rattle.lb_names.specs.Sure.{if_any};
ghost use Rattle.lb_names.specs.Typing.{means, says};
ghost use Rattle.lb_walk.specs.Opened.{arm_of, choice_of, part_of};

use lb_tree::{Arm, Atom, Choice, Cond, Expr, Signed};
use sqlite_items::Boxed;

/// Whether an aggregate of its own query stands in the expression.
#[cycle(totals)]
#[tactic(auto, using(crate::proofs::Opens::means_atom, crate::proofs::Opens::means_sum, crate::proofs::Opens::means_concat, crate::proofs::Opens::means_product, crate::proofs::Opens::means_case, crate::proofs::Opens::means_match, crate::proofs::Opens::means_aggregate, crate::proofs::Opens::means_substr, crate::proofs::Opens::means_apply, crate::proofs::Opens::means_coalesce))]
pub fn expr_has_total(expr: &Expr) -> bool
    ensures { (C : Catalogue) → result ≡ (means C expr.now).total }
{
    match expr {
        Expr::Atom(atom) => counts_rows(atom),
        Expr::Sum(parts) => parts_have_total(parts.as_slice()),
        Expr::Concat(parts) => exprs_have_total(parts.as_slice()),
        Expr::Product(parts) => exprs_have_total(parts.as_slice()),
        Expr::Case(arms, otherwise) => arms_have_total(arms.as_slice())
            || maybe_has_total(otherwise),
        Expr::Match(operand, choices, otherwise) => {
            if expr_has_total(operand.get()) {
                return true;
            }
            choices_have_total(choices.as_slice()) || maybe_has_total(otherwise)
        }
        Expr::Aggregate(_, _) => true,
        Expr::Substr(text, from, length) => {
            if expr_has_total(text.get()) {
                return true;
            }
            expr_has_total(from.get()) || maybe_has_total(length)
        }
        Expr::Apply(_, to) => expr_has_total(to.get()),
        Expr::Coalesce(parts) => exprs_have_total(parts.as_slice()),
    }
}

fn counts_rows(atom: &Atom) -> bool
    ensures { result ≡ Rattle.lb_names.specs.Sure.counts_rows atom.now }
{
    match atom {
        Atom::CountRows => true,
        _ => false,
    }
}

#[cycle(totals)]
fn maybe_has_total(expr: &Option<Boxed<Expr>>) -> bool
    ensures { (C : Catalogue) → result ≡ if_any is_total (option_map (means C) expr.now) }
{
    match expr {
        None => false,
        Some(expr) => expr_has_total(expr.get()),
    }
}

#[cycle(totals)]
fn exprs_have_total(exprs: &[Expr]) -> bool
    ensures { (C : Catalogue) → result ≡ list_any is_total (map (means C) exprs.now) }
{
    for expr in exprs {
        if expr_has_total(expr) {
            return true;
        }
    }
    false
}

#[cycle(totals)]
fn parts_have_total(parts: &[Signed]) -> bool
    ensures { (C : Catalogue) → result ≡ list_any is_total (map (part_of C) parts.now) }
{
    for part in parts {
        if expr_has_total(&part.part) {
            return true;
        }
    }
    false
}

#[cycle(totals)]
fn arms_have_total(arms: &[Arm]) -> bool
    ensures { (C : Catalogue) → result ≡ list_any (λ arm. arm.when.total || arm.result.total) (map (arm_of C) arms.now) }
{
    for arm in arms {
        if cond_has_total(&arm.when) || expr_has_total(&arm.result) {
            return true;
        }
    }
    false
}

#[cycle(totals)]
fn choices_have_total(choices: &[Choice]) -> bool
    ensures { (C : Catalogue) → result ≡ list_any (λ c. c.when.total || c.result.total) (map (choice_of C) choices.now) }
{
    for choice in choices {
        if expr_has_total(&choice.when) || expr_has_total(&choice.result) {
            return true;
        }
    }
    false
}

/// Whether an aggregate of its own query stands in the condition.
#[cycle(totals)]
#[tactic(auto, using(crate::proofs::Opens::says_or, crate::proofs::Opens::says_and, crate::proofs::Opens::says_not, crate::proofs::Opens::says_exists, crate::proofs::Opens::says_compare, crate::proofs::Opens::says_comparequery, crate::proofs::Opens::says_isnull, crate::proofs::Opens::says_inquery, crate::proofs::Opens::says_inlist, crate::proofs::Opens::says_between))]
pub fn cond_has_total(cond: &Cond) -> bool
    ensures { (C : Catalogue) → result ≡ (says C cond.now).total }
{
    match cond {
        Cond::Or(parts) => conds_have_total(parts.as_slice()),
        Cond::And(parts) => conds_have_total(parts.as_slice()),
        Cond::Not(part) => cond_has_total(part.get()),
        Cond::Exists(_) => false,
        Cond::Compare(_, left, right) => expr_has_total(left.get()) || expr_has_total(right.get()),
        Cond::CompareQuery(_, left, _) => expr_has_total(left.get()),
        Cond::IsNull(part) => expr_has_total(part.get()),
        Cond::InQuery(part, _) => expr_has_total(part.get()),
        Cond::InList(part, list) => expr_has_total(part.get()) || exprs_have_total(list.as_slice()),
        Cond::Between(part, low, high) => {
            expr_has_total(part.get()) || expr_has_total(low.get()) || expr_has_total(high.get())
        }
    }
}

#[cycle(totals)]
fn conds_have_total(conds: &[Cond]) -> bool
    ensures { (C : Catalogue) → result ≡ list_any (λ c. c.total) (map (says C) conds.now) }
{
    for cond in conds {
        if cond_has_total(cond) {
            return true;
        }
    }
    false
}
