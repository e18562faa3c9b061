// Prints expressions, with parentheses exactly where a part holds together less tightly than its place asks.
#![tactic(auto, using(crate::proofs::Rules::exprs))]

ghost use Rattle.std.specs.Prelude.{◌≡◌, OnOk, map};
ghost use Rattle.std.specs.List.{flat_map};
ghost use Rattle.lb_tok.specs.Spacing.{laid};
ghost use Rattle.lb_tok.specs.QueryPieces.{aggregate_front, arm_pieces, at_least, atom_pieces, call, choice_pieces, clause, expr_phrase, expr_pieces, listed, option_of, separated, sign_kind, signed_part, sum_pieces, two_texts, verified};
ghost use Rattle.lb_page.specs.Separator.{separator as separator_pieces};

use crate::condition::cond;
use crate::list::{column, more_texts, separator};
use crate::page::Page;
use crate::word::{function, sign};
use lb_base::{NoMemory, Str};
use lb_tok::Kind;
use lb_tree::{Aggregate, Arm, Atom, Choice, Expr, Signed};
use sqlite_items::Boxed;

// How tightly the expression holds together: 0 for a list of `+` and `-`, 1 for one of `||`, 2 for one of `*`, else 3.
fn expr_rank(expr: &Expr) -> u8
    ensures { result ≡ (expr_phrase expr.now).rank }
{
    match expr {
        Expr::Sum(_) => 0,
        Expr::Concat(_) => 1,
        Expr::Product(_) => 2,
        Expr::Atom(_) => 3,
        Expr::Case(_, _) => 3,
        Expr::Match(_, _, _) => 3,
        Expr::Aggregate(_, _) => 3,
        Expr::Substr(_, _, _) => 3,
        Expr::Apply(_, _) => 3,
        Expr::Coalesce(_) => 3,
    }
}

// SESSION_USER and texts, as the arguments of the function.
fn verify(page: &mut Page, kind: Kind, texts: &[Str]) -> Result<(), NoMemory>
    ensures { OnOk result (page.new ≡ laid page.old (call kind (verified texts.now))) }
{
    page.opening(kind)?;
    page.mark(Kind::SessionUser)?;
    more_texts(page, texts)?;
    page.mark(Kind::Close)
}

// Two texts, as the arguments of the function.
fn label_call(page: &mut Page, kind: Kind, policy: &Str, label: &Str) -> Result<(), NoMemory>
    ensures { OnOk result (page.new ≡ laid page.old (call kind (two_texts policy.now label.now))) }
{
    page.opening(kind)?;
    page.literal(policy)?;
    page.mark(Kind::Comma)?;
    page.literal(label)?;
    page.mark(Kind::Close)
}

// Lays an expression without parts.
fn atom(page: &mut Page, atom: &Atom) -> Result<(), NoMemory>
    ensures { OnOk result (page.new ≡ laid page.old (atom_pieces atom.now)) }
{
    match atom {
        Atom::Null => page.mark(Kind::Null),
        Atom::Int(n) => page.int(*n),
        Atom::Text(text) => page.literal(text),
        Atom::Date(day) => {
            page.mark(Kind::Date)?;
            page.date(*day)
        }
        Atom::CurrentDate => {
            page.mark(Kind::Current)?;
            page.mark(Kind::Date)
        }
        Atom::SessionUser => page.mark(Kind::SessionUser),
        Atom::Column(name) => column(page, name),
        Atom::CountRows => {
            page.opening(Kind::Count)?;
            page.mark(Kind::Star)?;
            page.mark(Kind::Close)
        }
        Atom::VerifyRole(roles) => verify(page, Kind::VerifyRoleForUser, roles.as_slice()),
        Atom::VerifyGroup(groups) => verify(page, Kind::VerifyGroupForUser, groups.as_slice()),
        Atom::SecLabel(policy, text) => label_call(page, Kind::SecLabel, policy, text),
        Atom::SecLabelByName(policy, label) => {
            label_call(page, Kind::SecLabelByName, policy, label)
        }
        Atom::SecLabelToChar(policy, name) => {
            page.opening(Kind::SecLabelToChar)?;
            page.literal(policy)?;
            page.mark(Kind::Comma)?;
            column(page, name)?;
            page.mark(Kind::Close)
        }
    }
}

/// Lays an expression.
#[cycle(prints)]
pub fn expr(page: &mut Page, expr: &Expr) -> Result<(), NoMemory>
    ensures { OnOk result (page.new ≡ laid page.old (expr_pieces expr.now)) }
{
    match expr {
        Expr::Atom(leaf) => atom(page, leaf),
        Expr::Sum(parts) => sum(page, parts.as_slice()),
        Expr::Concat(parts) => operands(page, Kind::Bars, 2, parts.as_slice()),
        Expr::Product(parts) => operands(page, Kind::Star, 3, parts.as_slice()),
        Expr::Case(list, otherwise) => {
            page.mark(Kind::Case)?;
            arms(page, list.as_slice())?;
            else_part(page, otherwise)?;
            page.mark(Kind::End)
        }
        Expr::Match(operand, list, otherwise) => {
            page.mark(Kind::Case)?;
            self::expr(page, operand.get())?;
            choices(page, list.as_slice())?;
            else_part(page, otherwise)?;
            page.mark(Kind::End)
        }
        Expr::Aggregate(by, of) => {
            aggregate_opening(page, *by)?;
            self::expr(page, of.get())?;
            page.mark(Kind::Close)
        }
        Expr::Substr(text, from, length) => {
            page.opening(Kind::Substr)?;
            self::expr(page, text.get())?;
            page.mark(Kind::Comma)?;
            self::expr(page, from.get())?;
            last_part(page, length)?;
            page.mark(Kind::Close)
        }
        Expr::Apply(by, to) => {
            page.opening(function(*by))?;
            self::expr(page, to.get())?;
            page.mark(Kind::Close)
        }
        Expr::Coalesce(parts) => {
            page.opening(Kind::Coalesce)?;
            exprs(page, parts.as_slice())?;
            page.mark(Kind::Close)
        }
    }
}

// The name of the aggregate and its `(`, with DISTINCT after it where it is meant.
fn aggregate_opening(page: &mut Page, by: Aggregate) -> Result<(), NoMemory>
    ensures { OnOk result (page.new ≡ laid page.old (aggregate_front by)) }
{
    match by {
        Aggregate::Count => page.opening(Kind::Count),
        Aggregate::CountDistinct => {
            page.opening(Kind::Count)?;
            page.mark(Kind::Distinct)
        }
        Aggregate::Sum => page.opening(Kind::Sum),
        Aggregate::Min => page.opening(Kind::Min),
        Aggregate::Max => page.opening(Kind::Max),
    }
}

// Lays an expression, in parentheses unless it holds together as tightly as `rank`.
#[cycle(prints)]
fn operand(page: &mut Page, rank: u8, part: &Expr) -> Result<(), NoMemory>
    ensures { OnOk result (page.new ≡ laid page.old (at_least rank (expr_phrase part.now))) }
{
    if rank <= expr_rank(part) {
        expr(page, part)
    } else {
        page.mark(Kind::Open)?;
        expr(page, part)?;
        page.mark(Kind::Close)
    }
}

// Operands with their operator between them.
#[cycle(prints)]
fn operands(page: &mut Page, kind: Kind, rank: u8, parts: &[Expr]) -> Result<(), NoMemory>
    ensures { OnOk result (page.new ≡ laid page.old (separated kind (map (λ x. at_least rank (expr_phrase x)) parts.now))) }
{
    for (place, part) in parts.iter().enumerate() {
        separator(page, kind, place)?;
        operand(page, rank, part)?;
    }
    Ok(())
}

/// Lays expressions with commas between them.
#[cycle(prints)]
pub fn exprs(page: &mut Page, parts: &[Expr]) -> Result<(), NoMemory>
    ensures { OnOk result (page.new ≡ laid page.old (listed (map expr_pieces parts.now))) }
{
    for (place, part) in parts.iter().enumerate() {
        separator(page, Kind::Comma, place)?;
        expr(page, part)?;
    }
    Ok(())
}

// The sign of a part, but for the first one.
fn sign_before(page: &mut Page, place: usize, minus: bool) -> Result<(), NoMemory>
    ensures { OnOk result (page.new ≡ laid page.old (separator_pieces (sign_kind minus) place)) }
{
    separator(page, sign(minus), place)
}

// Parts of a sum with their signs.
#[cycle(prints)]
fn sum(page: &mut Page, parts: &[Signed]) -> Result<(), NoMemory>
    ensures { OnOk result (page.new ≡ laid page.old (sum_pieces (map signed_part parts.now))) }
{
    for (place, part) in parts.iter().enumerate() {
        sign_before(page, place, part.minus)?;
        operand(page, 1, &part.part)?;
    }
    Ok(())
}

#[cycle(prints)]
fn arms(page: &mut Page, arms: &[Arm]) -> Result<(), NoMemory>
    ensures { OnOk result (page.new ≡ laid page.old (flat_map arm_pieces arms.now)) }
{
    for arm in arms {
        self::arm(page, arm)?;
    }
    Ok(())
}

#[cycle(prints)]
fn arm(page: &mut Page, arm: &Arm) -> Result<(), NoMemory>
    ensures { OnOk result (page.new ≡ laid page.old (arm_pieces arm.now)) }
{
    page.mark(Kind::When)?;
    cond(page, &arm.when)?;
    page.mark(Kind::Then)?;
    expr(page, &arm.result)
}

#[cycle(prints)]
fn choices(page: &mut Page, choices: &[Choice]) -> Result<(), NoMemory>
    ensures { OnOk result (page.new ≡ laid page.old (flat_map choice_pieces choices.now)) }
{
    for choice in choices {
        self::choice(page, choice)?;
    }
    Ok(())
}

#[cycle(prints)]
fn choice(page: &mut Page, choice: &Choice) -> Result<(), NoMemory>
    ensures { OnOk result (page.new ≡ laid page.old (choice_pieces choice.now)) }
{
    page.mark(Kind::When)?;
    expr(page, &choice.when)?;
    page.mark(Kind::Then)?;
    expr(page, &choice.result)
}

// ELSE and its expression, where it is written.
#[cycle(prints)]
fn else_part(page: &mut Page, otherwise: &Option<Boxed<Expr>>) -> Result<(), NoMemory>
    ensures { OnOk result (page.new ≡ laid page.old (clause Kind.Else (option_of expr_pieces otherwise.now))) }
{
    match otherwise {
        None => Ok(()),
        Some(part) => {
            page.mark(Kind::Else)?;
            expr(page, part.get())
        }
    }
}

// The last argument of SUBSTR, where it is written.
#[cycle(prints)]
fn last_part(page: &mut Page, length: &Option<Boxed<Expr>>) -> Result<(), NoMemory>
    ensures { OnOk result (page.new ≡ laid page.old (clause Kind.Comma (option_of expr_pieces length.now))) }
{
    match length {
        None => Ok(()),
        Some(part) => {
            page.mark(Kind::Comma)?;
            expr(page, part.get())
        }
    }
}
