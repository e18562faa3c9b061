// Whether an expression or a condition has neither arithmetic nor a subquery, as an ON condition may not have either.
ghost use Rattle.std.specs.Prelude.{◌≡◌, ◌&&◌, map};
ghost use Rattle.std.specs.Option.{option_map};
ghost use Rattle.std.specs.List.{list_all};
ghost use Rattle.lb_names.specs.Scopes.{Catalogue};
ghost use Rattle.lb_names.specs.Expressions.{is_sure};
ghost use Rattle.lb_names.specs.Sure.{unless_any};
ghost use Rattle.lb_names.specs.Typing.{means, says};
ghost use Rattle.lb_walk.specs.Opened.{arm_of, choice_of};

use lb_tree::{Arm, Choice, Cond, Expr};
use sqlite_items::Boxed;

/// Whether the expression has no `+ - *` and no subquery.
#[cycle(sures)]
#[tactic(auto, using(crate::proofs::Opens::means_atom, crate::proofs::Opens::means_sum, crate::proofs::Opens::means_concat, crate::proofs::Opens::means_product, crate::proofs::Opens::means_case, crate::proofs::Opens::means_match, crate::proofs::Opens::means_aggregate, crate::proofs::Opens::means_substr, crate::proofs::Opens::means_apply, crate::proofs::Opens::means_coalesce))]
pub fn expr_is_sure(expr: &Expr) -> bool
    ensures { (C : Catalogue) → result ≡ (means C expr.now).sure }
{
    match expr {
        Expr::Atom(_) => true,
        Expr::Sum(_) => false,
        Expr::Concat(parts) => exprs_are_sure(parts.as_slice()),
        Expr::Product(_) => false,
        Expr::Case(arms, otherwise) => arms_are_sure(arms.as_slice()) && maybe_is_sure(otherwise),
        Expr::Match(operand, choices, otherwise) => {
            if expr_is_sure(operand.get()) {
                choices_are_sure(choices.as_slice()) && maybe_is_sure(otherwise)
            } else {
                false
            }
        }
        Expr::Aggregate(_, of) => expr_is_sure(of.get()),
        Expr::Substr(text, from, length) => {
            if expr_is_sure(text.get()) {
                expr_is_sure(from.get()) && maybe_is_sure(length)
            } else {
                false
            }
        }
        Expr::Apply(_, to) => expr_is_sure(to.get()),
        Expr::Coalesce(parts) => exprs_are_sure(parts.as_slice()),
    }
}

#[cycle(sures)]
fn maybe_is_sure(expr: &Option<Boxed<Expr>>) -> bool
    ensures { (C : Catalogue) → result ≡ unless_any is_sure (option_map (means C) expr.now) }
{
    match expr {
        None => true,
        Some(expr) => expr_is_sure(expr.get()),
    }
}

#[cycle(sures)]
fn exprs_are_sure(exprs: &[Expr]) -> bool
    ensures { (C : Catalogue) → result ≡ list_all is_sure (map (means C) exprs.now) }
{
    for expr in exprs {
        if !expr_is_sure(expr) {
            return false;
        }
    }
    true
}

#[cycle(sures)]
fn arms_are_sure(arms: &[Arm]) -> bool
    ensures { (C : Catalogue) → result ≡ list_all (λ arm. arm.when.sure && arm.result.sure) (map (arm_of C) arms.now) }
{
    for arm in arms {
        if !(cond_is_sure(&arm.when) && expr_is_sure(&arm.result)) {
            return false;
        }
    }
    true
}

#[cycle(sures)]
fn choices_are_sure(choices: &[Choice]) -> bool
    ensures { (C : Catalogue) → result ≡ list_all (λ c. c.when.sure && c.result.sure) (map (choice_of C) choices.now) }
{
    for choice in choices {
        if !(expr_is_sure(&choice.when) && expr_is_sure(&choice.result)) {
            return false;
        }
    }
    true
}

/// Whether the condition has no `+ - *` and no subquery.
#[cycle(sures)]
#[tactic(auto, using(crate::proofs::Opens::says_or, crate::proofs::Opens::says_and, crate::proofs::Opens::says_not, crate::proofs::Opens::says_exists, crate::proofs::Opens::says_compare, crate::proofs::Opens::says_comparequery, crate::proofs::Opens::says_isnull, crate::proofs::Opens::says_inquery, crate::proofs::Opens::says_inlist, crate::proofs::Opens::says_between))]
pub fn cond_is_sure(cond: &Cond) -> bool
    ensures { (C : Catalogue) → result ≡ (says C cond.now).sure }
{
    match cond {
        Cond::Or(parts) => conds_are_sure(parts.as_slice()),
        Cond::And(parts) => conds_are_sure(parts.as_slice()),
        Cond::Not(part) => cond_is_sure(part.get()),
        Cond::Exists(_) => false,
        Cond::Compare(_, left, right) => expr_is_sure(left.get()) && expr_is_sure(right.get()),
        Cond::CompareQuery(_, _, _) => false,
        Cond::IsNull(part) => expr_is_sure(part.get()),
        Cond::InQuery(_, _) => false,
        Cond::InList(part, list) => expr_is_sure(part.get()) && exprs_are_sure(list.as_slice()),
        Cond::Between(part, low, high) => {
            expr_is_sure(part.get()) && expr_is_sure(low.get()) && expr_is_sure(high.get())
        }
    }
}

#[cycle(sures)]
fn conds_are_sure(conds: &[Cond]) -> bool
    ensures { (C : Catalogue) → result ≡ list_all (λ c. c.sure) (map (says C) conds.now) }
{
    for cond in conds {
        if !cond_is_sure(cond) {
            return false;
        }
    }
    true
}
