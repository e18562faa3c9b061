// Expressions: each function reads one production, and looks one token ahead.
ghost use Rattle.std.specs.Prelude.{◌≡◌, ◌<◌, ◌∷◌, IfOk, Some, None, false};
ghost use Rattle.lb_tok.specs.Kinds.{only};
ghost use Rattle.lb_tree.specs.declared.query.Expr.TheVariants as exprs;
ghost use Rattle.lb_tok.specs.declared.kind.Kind.TheVariants as kinds;
ghost use Rattle.lb_readt.specs.Readers.{heads, many, after, listed};
ghost use Rattle.lb_readt.specs.Answering.{Gives};
ghost use Rattle.lb_reade.specs.Expressions.{parens, arm_at, choice_at, else_at, in_case_at, case_at, counted_at, parted_at, last_part_at, first_of_at, in_arguments_at, arguments_at, begins_arguments, called_at, named_at, literal_at, plain_at, fact_at, product_on, term_at, concat_on, concat_at, signed_at, signs, sum_on, expr_at, rest_at};

use crate::atom::{column_alone, column_of, date, number, shown, sign, today, two_texts, verified};
use crate::brackets::Brackets;
use lb_base::Name;
use lb_readt::{
    Read, further, listed, many, name, next_is, next_is_either, next_is_name, take, take_if, text,
    with_first, word,
};
use lb_tok::{Call, Kind, Token};
use lb_tree::{Aggregate, Arm, Atom, Choice, Expr, Signed};
use sqlite_items::{Boxed, Items};
use std::alloc::Global;

// Whether the next token begins the arguments of the function.
#[tactic(auto, unfolding(crate::specs::Expressions::begins_arguments))]
fn begins_arguments(tokens: &[Token], call: Call) -> bool
    ensures { result ≡ heads (begins_arguments call) tokens.now }
{
    if call.is_date() {
        next_is_either(tokens, Kind::Open, Kind::Text)
    } else {
        next_is(tokens, Kind::Open)
    }
}

// WHEN cond THEN expr
#[tactic(auto, unfolding(crate::specs::Expressions::arm_at))]
fn arm<'a, B: Brackets>(alloc: Global, tokens: &'a [Token], brackets: &B) -> Read<'a, Arm>
    requires { B.ready brackets.now }
    ensures { Gives (λ r. (r.0, r.1.now)) result (arm_at (B.readers brackets.now) tokens.now) }
{
    let rest = take(tokens, Kind::When)?;
    let (when, rest) = brackets.condition(alloc, rest)?;
    let rest = take(rest, Kind::Then)?;
    let (result, rest) = brackets.expr(alloc, rest)?;
    Ok((Arm { when, result }, rest))
}

// {WHEN cond THEN expr}
fn arms<'a, B: Brackets>(alloc: Global, tokens: &'a [Token], brackets: &B) -> Read<'a, Items<Arm>>
    requires { B.ready brackets.now }
    ensures { Gives (λ r. (r.0, r.1.now)) result (many (only kinds.When) (arm_at (B.readers brackets.now)) tokens.now) }
{
    many(
        alloc,
        tokens,
        |rest| next_is(rest, Kind::When),
        |rest| arm(alloc, rest, brackets),
    )
}

// WHEN expr THEN expr
#[tactic(auto, unfolding(crate::specs::Expressions::choice_at))]
fn choice<'a, B: Brackets>(alloc: Global, tokens: &'a [Token], brackets: &B) -> Read<'a, Choice>
    requires { B.ready brackets.now }
    ensures { Gives (λ r. (r.0, r.1.now)) result (choice_at (B.readers brackets.now) tokens.now) }
{
    let rest = take(tokens, Kind::When)?;
    let (when, rest) = brackets.expr(alloc, rest)?;
    let rest = take(rest, Kind::Then)?;
    let (result, rest) = brackets.expr(alloc, rest)?;
    Ok((Choice { when, result }, rest))
}

// {WHEN expr THEN expr}
fn choices<'a, B: Brackets>(
    alloc: Global,
    tokens: &'a [Token],
    brackets: &B,
) -> Read<'a, Items<Choice>>
    requires { B.ready brackets.now }
    ensures { Gives (λ r. (r.0, r.1.now)) result (many (only kinds.When) (choice_at (B.readers brackets.now)) tokens.now) }
{
    many(
        alloc,
        tokens,
        |rest| next_is(rest, Kind::When),
        |rest| choice(alloc, rest, brackets),
    )
}

// [ELSE expr]
#[tactic(auto, unfolding(crate::specs::Expressions::else_at))]
fn otherwise<'a, B: Brackets>(
    alloc: Global,
    tokens: &'a [Token],
    brackets: &B,
) -> Read<'a, Option<Boxed<Expr>>>
    requires { B.ready brackets.now }
    ensures { Gives (λ r. (r.0, r.1.now)) result (else_at (B.readers brackets.now) tokens.now) }
{
    if let Some(rest) = take_if(tokens, Kind::Else) {
        let (value, rest) = brackets.expr(alloc, rest)?;
        Ok((Some(Boxed::new(alloc, value)?), rest))
    } else {
        Ok((None, tokens))
    }
}

// What stands between CASE and END.
#[tactic(auto, unfolding(crate::specs::Expressions::in_case_at, crate::specs::Expressions::arms_at, crate::specs::Expressions::choices_at))]
fn in_case<'a, B: Brackets>(alloc: Global, tokens: &'a [Token], brackets: &B) -> Read<'a, Expr>
    requires { B.ready brackets.now }
    ensures { Gives (λ r. (r.0, r.1.now)) result (in_case_at (B.readers brackets.now) tokens.now) }
{
    if next_is(tokens, Kind::When) {
        let (first, rest) = arm(alloc, tokens, brackets)?;
        let (more, rest) = arms(alloc, rest, brackets)?;
        let (last, rest) = otherwise(alloc, rest, brackets)?;
        Ok((Expr::Case(with_first(alloc, first, more)?, last), rest))
    } else {
        let (operand, rest) = brackets.expr(alloc, tokens)?;
        let (first, rest) = choice(alloc, rest, brackets)?;
        let (more, rest) = choices(alloc, rest, brackets)?;
        let (last, rest) = otherwise(alloc, rest, brackets)?;
        let operand = Boxed::new(alloc, operand)?;
        Ok((
            Expr::Match(operand, with_first(alloc, first, more)?, last),
            rest,
        ))
    }
}

/// Reads a CASE expression, searched or simple. `Deep` at CASE where no bracket may open.
#[tactic(auto, unfolding(crate::specs::Expressions::case_at))]
pub fn case<'a, B: Brackets>(alloc: Global, tokens: &'a [Token], brackets: &B) -> Read<'a, Expr>
    requires { B.ready brackets.now }
    ensures { Gives (λ r. (r.0, r.1.now)) result (case_at (B.readers brackets.now) tokens.now) }
{
    let rest = brackets.open(tokens, Kind::Case)?;
    let (value, rest) = in_case(alloc, rest, brackets)?;
    let rest = take(rest, Kind::End)?;
    Ok((value, rest))
}

// * | [DISTINCT] expr
#[tactic(auto, unfolding(crate::specs::Expressions::counted_at))]
fn counted<'a, B: Brackets>(alloc: Global, tokens: &'a [Token], brackets: &B) -> Read<'a, Expr>
    requires { B.ready brackets.now }
    ensures { Gives (λ r. (r.0, r.1.now)) result (counted_at (B.readers brackets.now) tokens.now) }
{
    if let Some(rest) = take_if(tokens, Kind::Star) {
        Ok((Expr::Atom(Atom::CountRows), rest))
    } else if let Some(rest) = take_if(tokens, Kind::Distinct) {
        let (value, rest) = brackets.expr(alloc, rest)?;
        let value = Boxed::new(alloc, value)?;
        Ok((Expr::Aggregate(Aggregate::CountDistinct, value), rest))
    } else {
        let (value, rest) = brackets.expr(alloc, tokens)?;
        let value = Boxed::new(alloc, value)?;
        Ok((Expr::Aggregate(Aggregate::Count, value), rest))
    }
}

// expr , expr [, expr]
#[tactic(auto, unfolding(crate::specs::Expressions::parted_at, crate::specs::Expressions::last_part_at))]
fn parted<'a, B: Brackets>(alloc: Global, tokens: &'a [Token], brackets: &B) -> Read<'a, Expr>
    requires { B.ready brackets.now }
    ensures { Gives (λ r. (r.0, r.1.now)) result (parted_at (B.readers brackets.now) tokens.now) }
{
    let (text, rest) = brackets.expr(alloc, tokens)?;
    let rest = take(rest, Kind::Comma)?;
    let (start, rest) = brackets.expr(alloc, rest)?;
    let (length, rest) = last_part(alloc, rest, brackets)?;
    let text = Boxed::new(alloc, text)?;
    let start = Boxed::new(alloc, start)?;
    Ok((Expr::Substr(text, start, length), rest))
}

// [, expr]
#[tactic(auto, unfolding(crate::specs::Expressions::last_part_at))]
fn last_part<'a, B: Brackets>(
    alloc: Global,
    tokens: &'a [Token],
    brackets: &B,
) -> Read<'a, Option<Boxed<Expr>>>
    requires { B.ready brackets.now }
    ensures { Gives (λ r. (r.0, r.1.now)) result (last_part_at (B.readers brackets.now) tokens.now) }
{
    if let Some(rest) = take_if(tokens, Kind::Comma) {
        let (value, rest) = brackets.expr(alloc, rest)?;
        Ok((Some(Boxed::new(alloc, value)?), rest))
    } else {
        Ok((None, tokens))
    }
}

// expr , expr {, expr}
#[tactic(auto, unfolding(crate::specs::Expressions::first_of_at))]
fn first_of<'a, B: Brackets>(alloc: Global, tokens: &'a [Token], brackets: &B) -> Read<'a, Expr>
    requires { B.ready brackets.now }
    ensures { Gives (λ r. (r.0, r.1.now)) result (first_of_at (B.readers brackets.now) tokens.now) }
{
    let (first, rest) = brackets.expr(alloc, tokens)?;
    let rest = take(rest, Kind::Comma)?;
    let (others, rest) = exprs(alloc, rest, brackets)?;
    Ok((Expr::Coalesce(with_first(alloc, first, others)?), rest))
}

// What stands between the parentheses of a call.
#[tactic(auto, unfolding(crate::specs::Expressions::in_arguments_at))]
fn in_arguments<'a, B: Brackets>(
    alloc: Global,
    tokens: &'a [Token],
    brackets: &B,
    call: Call,
) -> Read<'a, Expr>
    requires { B.ready brackets.now }
    ensures { Gives (λ r. (r.0, r.1.now)) result (in_arguments_at (B.readers brackets.now) call tokens.now) }
{
    match call {
        Call::Count => counted(alloc, tokens, brackets),
        Call::Total(total) => {
            let (value, rest) = brackets.expr(alloc, tokens)?;
            Ok((Expr::Aggregate(total, Boxed::new(alloc, value)?), rest))
        }
        Call::Substr => parted(alloc, tokens, brackets),
        Call::Apply(function) => {
            let (value, rest) = brackets.expr(alloc, tokens)?;
            Ok((Expr::Apply(function, Boxed::new(alloc, value)?), rest))
        }
        Call::Coalesce => first_of(alloc, tokens, brackets),
        Call::VerifyRole => {
            let (roles, rest) = verified(alloc, tokens)?;
            Ok((Expr::Atom(Atom::VerifyRole(roles)), rest))
        }
        Call::VerifyGroup => {
            let (groups, rest) = verified(alloc, tokens)?;
            Ok((Expr::Atom(Atom::VerifyGroup(groups)), rest))
        }
        Call::SecLabel => {
            let ((policy, label), rest) = two_texts(tokens)?;
            Ok((Expr::Atom(Atom::SecLabel(policy, label)), rest))
        }
        Call::SecLabelByName => {
            let ((policy, label), rest) = two_texts(tokens)?;
            Ok((Expr::Atom(Atom::SecLabelByName(policy, label)), rest))
        }
        Call::SecLabelToChar => shown(tokens),
        Call::Date => date(tokens),
    }
}

// "(" .. ")" of a call
fn in_call<'a, B: Brackets>(
    alloc: Global,
    tokens: &'a [Token],
    brackets: &B,
    call: Call,
) -> Read<'a, Expr>
    requires { B.ready brackets.now }
    ensures { Gives (λ r. (r.0, r.1.now)) result (parens (B.readers brackets.now) (in_arguments_at (B.readers brackets.now) call) tokens.now) }
{
    let rest = brackets.open(tokens, Kind::Open)?;
    let (value, rest) = in_arguments(alloc, rest, brackets, call)?;
    let rest = take(rest, Kind::Close)?;
    Ok((value, rest))
}

// What follows the name of a function.
#[tactic(auto, unfolding(crate::specs::Expressions::arguments_at))]
fn arguments<'a, B: Brackets>(
    alloc: Global,
    tokens: &'a [Token],
    brackets: &B,
    call: Call,
) -> Read<'a, Expr>
    requires { B.ready brackets.now }
    ensures { Gives (λ r. (r.0, r.1.now)) result (arguments_at (B.readers brackets.now) call tokens.now) }
{
    if call.is_date() {
        if next_is(tokens, Kind::Open) {
            in_call(alloc, tokens, brackets, call)
        } else {
            date(tokens)
        }
    } else {
        in_call(alloc, tokens, brackets, call)
    }
}

/// Reads what follows a name that no point follows: the arguments of the function that it names, or nothing. A name that
/// names no function (`call` is `None`), or that no arguments follow, is a column.
#[tactic(auto, unfolding(crate::specs::Expressions::called_at))]
pub fn called<'a, B: Brackets>(
    alloc: Global,
    tokens: &'a [Token],
    brackets: &B,
    call: Option<Call>,
    name: &Name,
) -> Read<'a, Expr>
    requires { B.ready brackets.now }
    ensures { Gives (λ r. (r.0, r.1.now)) result (called_at (B.readers brackets.now) call name.now tokens.now) }
{
    match call {
        None => Ok((column_alone(name)?, tokens)),
        Some(call) => {
            if begins_arguments(tokens, call) {
                arguments(alloc, tokens, brackets, call)
            } else {
                Ok((column_alone(name)?, tokens))
            }
        }
    }
}

// col | call
#[tactic(auto, unfolding(crate::specs::Expressions::named_at, crate::specs::Expressions::named_on))]
fn named<'a, B: Brackets>(alloc: Global, tokens: &'a [Token], brackets: &B) -> Read<'a, Expr>
    requires { B.ready brackets.now }
    ensures { Gives (λ r. (r.0, r.1.now)) result (named_at (B.readers brackets.now) tokens.now) }
{
    let (call, first, rest) = word(tokens)?;
    if let Some(rest) = take_if(rest, Kind::Dot) {
        let (name, rest) = name(rest)?;
        Ok((column_of(first, name)?, rest))
    } else {
        called(alloc, rest, brackets, call, first)
    }
}

/// Reads a factor that begins with neither a name nor a parenthesis: NULL, an integer, a text, the current date, SESSION_USER
/// or a CASE expression.
#[tactic(auto, unfolding(crate::specs::Expressions::literal_at))]
pub fn literal<'a, B: Brackets>(alloc: Global, tokens: &'a [Token], brackets: &B) -> Read<'a, Expr>
    requires { B.ready brackets.now }
    ensures { Gives (λ r. (r.0, r.1.now)) result (literal_at (B.readers brackets.now) tokens.now) }
{
    if let Some(rest) = take_if(tokens, Kind::Null) {
        Ok((Expr::Atom(Atom::Null), rest))
    } else if next_is_either(tokens, Kind::Minus, Kind::Numeral) {
        number(tokens)
    } else if next_is(tokens, Kind::Text) {
        let (text, rest) = text(tokens)?;
        Ok((Expr::Atom(Atom::Text(text)), rest))
    } else if next_is_either(tokens, Kind::Current, Kind::CurrentDate) {
        today(tokens)
    } else if let Some(rest) = take_if(tokens, Kind::SessionUser) {
        Ok((Expr::Atom(Atom::SessionUser), rest))
    } else {
        case(alloc, tokens, brackets)
    }
}

/// Reads a factor that begins with no parenthesis: a column, a call or a literal.
#[tactic(auto, unfolding(crate::specs::Expressions::plain_at))]
pub fn plain<'a, B: Brackets>(alloc: Global, tokens: &'a [Token], brackets: &B) -> Read<'a, Expr>
    requires { B.ready brackets.now }
    ensures { Gives (λ r. (r.0, r.1.now)) result (plain_at (B.readers brackets.now) tokens.now) }
{
    if next_is_name(tokens) {
        named(alloc, tokens, brackets)
    } else {
        literal(alloc, tokens, brackets)
    }
}

/// Reads an expression in parentheses. `Deep` at the opener where no bracket may open.
pub fn in_parens<'a, B: Brackets>(
    alloc: Global,
    tokens: &'a [Token],
    brackets: &B,
) -> Read<'a, Expr>
    requires { B.ready brackets.now }
    ensures { Gives (λ r. (r.0, r.1.now)) result (parens (B.readers brackets.now) (B.readers brackets.now).expr tokens.now) }
{
    let rest = brackets.open(tokens, Kind::Open)?;
    let (value, rest) = brackets.expr(alloc, rest)?;
    let rest = take(rest, Kind::Close)?;
    Ok((value, rest))
}

// fact = "(" expr ")" | col | call | ..
#[tactic(auto, unfolding(crate::specs::Expressions::fact_at))]
fn fact<'a, B: Brackets>(alloc: Global, tokens: &'a [Token], brackets: &B) -> Read<'a, Expr>
    requires { B.ready brackets.now }
    ensures { Gives (λ r. (r.0, r.1.now)) result (fact_at (B.readers brackets.now) tokens.now) }
{
    if next_is(tokens, Kind::Open) {
        in_parens(alloc, tokens, brackets)
    } else {
        plain(alloc, tokens, brackets)
    }
}

// {* fact}
fn factors<'a, B: Brackets>(
    alloc: Global,
    tokens: &'a [Token],
    brackets: &B,
) -> Read<'a, Items<Expr>>
    requires { B.ready brackets.now }
    ensures { Gives (λ r. (r.0, r.1.now)) result (many (only kinds.Star) (after kinds.Star (fact_at (B.readers brackets.now))) tokens.now) }
{
    further(
        alloc,
        tokens,
        Kind::Star,
        |rest| fact(alloc, rest, brackets),
    )
}

// The rest of term after its first part, which alone makes no list.
#[tactic(auto, unfolding(crate::specs::Expressions::product_on))]
fn product_on<'a, B: Brackets>(
    alloc: Global,
    tokens: &'a [Token],
    brackets: &B,
    first: Expr,
) -> Read<'a, Expr>
    requires { B.ready brackets.now }
    ensures { Gives (λ r. (r.0, r.1.now)) result (product_on (B.readers brackets.now) first tokens.now) }
{
    let (more, rest) = factors(alloc, tokens, brackets)?;
    if more.is_empty() {
        Ok((first, rest))
    } else {
        Ok((Expr::Product(with_first(alloc, first, more)?), rest))
    }
}

// term = fact {* fact}
#[tactic(auto, unfolding(crate::specs::Expressions::term_at))]
fn term<'a, B: Brackets>(alloc: Global, tokens: &'a [Token], brackets: &B) -> Read<'a, Expr>
    requires { B.ready brackets.now }
    ensures { Gives (λ r. (r.0, r.1.now)) result (term_at (B.readers brackets.now) tokens.now) }
{
    let (first, rest) = fact(alloc, tokens, brackets)?;
    product_on(alloc, rest, brackets, first)
}

// {"||" term}
fn pieces<'a, B: Brackets>(
    alloc: Global,
    tokens: &'a [Token],
    brackets: &B,
) -> Read<'a, Items<Expr>>
    requires { B.ready brackets.now }
    ensures { Gives (λ r. (r.0, r.1.now)) result (many (only kinds.Bars) (after kinds.Bars (term_at (B.readers brackets.now))) tokens.now) }
{
    further(
        alloc,
        tokens,
        Kind::Bars,
        |rest| term(alloc, rest, brackets),
    )
}

// The rest of cat after its first part, which alone makes no list.
#[tactic(auto, unfolding(crate::specs::Expressions::concat_on))]
fn concat_on<'a, B: Brackets>(
    alloc: Global,
    tokens: &'a [Token],
    brackets: &B,
    first: Expr,
) -> Read<'a, Expr>
    requires { B.ready brackets.now }
    ensures { Gives (λ r. (r.0, r.1.now)) result (concat_on (B.readers brackets.now) first tokens.now) }
{
    let (more, rest) = pieces(alloc, tokens, brackets)?;
    if more.is_empty() {
        Ok((first, rest))
    } else {
        Ok((Expr::Concat(with_first(alloc, first, more)?), rest))
    }
}

// cat = term {"||" term}
#[tactic(auto, unfolding(crate::specs::Expressions::concat_at))]
fn concat<'a, B: Brackets>(alloc: Global, tokens: &'a [Token], brackets: &B) -> Read<'a, Expr>
    requires { B.ready brackets.now }
    ensures { Gives (λ r. (r.0, r.1.now)) result (concat_at (B.readers brackets.now) tokens.now) }
{
    let (first, rest) = term(alloc, tokens, brackets)?;
    concat_on(alloc, rest, brackets, first)
}

// (+ | -) cat
#[tactic(auto, unfolding(crate::specs::Expressions::signed_at))]
fn signed<'a, B: Brackets>(alloc: Global, tokens: &'a [Token], brackets: &B) -> Read<'a, Signed>
    requires { B.ready brackets.now }
    ensures { Gives (λ r. (r.0, r.1.now)) result (signed_at (B.readers brackets.now) tokens.now) }
{
    let (minus, rest) = sign(tokens)?;
    let (part, rest) = concat(alloc, rest, brackets)?;
    Ok((Signed { minus, part }, rest))
}

// {(+ | -) cat}
fn summands<'a, B: Brackets>(
    alloc: Global,
    tokens: &'a [Token],
    brackets: &B,
) -> Read<'a, Items<Signed>>
    requires { B.ready brackets.now }
    ensures { Gives (λ r. (r.0, r.1.now)) result (many signs (signed_at (B.readers brackets.now)) tokens.now) }
{
    many(
        alloc,
        tokens,
        |rest| next_is_either(rest, Kind::Plus, Kind::Minus),
        |rest| signed(alloc, rest, brackets),
    )
}

// The rest of expr after its first part, which alone makes no list.
#[tactic(auto, unfolding(crate::specs::Expressions::sum_on))]
fn sum_on<'a, B: Brackets>(
    alloc: Global,
    tokens: &'a [Token],
    brackets: &B,
    first: Expr,
) -> Read<'a, Expr>
    requires { B.ready brackets.now }
    ensures { Gives (λ r. (r.0, r.1.now)) result (sum_on (B.readers brackets.now) first tokens.now) }
{
    let (more, rest) = summands(alloc, tokens, brackets)?;
    if more.is_empty() {
        Ok((first, rest))
    } else {
        let first = Signed {
            minus: false,
            part: first,
        };
        Ok((Expr::Sum(with_first(alloc, first, more)?), rest))
    }
}

/// Reads an expression, `cat {(+ | -) cat}` of the grammar. `Bad` where the tokens spell none.
#[tactic(auto, unfolding(crate::specs::Expressions::expr_at))]
pub fn expr<'a, B: Brackets>(alloc: Global, tokens: &'a [Token], brackets: &B) -> Read<'a, Expr>
    requires { B.ready brackets.now }
    ensures { Gives (λ r. (r.0, r.1.now)) result (expr_at (B.readers brackets.now) tokens.now) }
{
    let (first, rest) = concat(alloc, tokens, brackets)?;
    sum_on(alloc, rest, brackets, first)
}

/// Reads the rest of an expression after its first factor, which is given.
#[tactic(auto, unfolding(crate::specs::Expressions::rest_at))]
pub fn rest_on<'a, B: Brackets>(
    alloc: Global,
    tokens: &'a [Token],
    brackets: &B,
    first: Expr,
) -> Read<'a, Expr>
    requires { B.ready brackets.now }
    ensures { Gives (λ r. (r.0, r.1.now)) result (rest_at (B.readers brackets.now) first tokens.now) }
{
    let (first, rest) = product_on(alloc, tokens, brackets, first)?;
    let (first, rest) = concat_on(alloc, rest, brackets, first)?;
    sum_on(alloc, rest, brackets, first)
}

/// Reads `expr {, expr}` in a bracket. `Bad` where no expression stands first or after a comma.
pub fn exprs<'a, B: Brackets>(
    alloc: Global,
    tokens: &'a [Token],
    brackets: &B,
) -> Read<'a, Items<Expr>>
    requires { B.ready brackets.now }
    ensures { Gives (λ r. (r.0, r.1.now)) result (listed (B.readers brackets.now).expr tokens.now) }
{
    listed(alloc, tokens, |rest| brackets.expr(alloc, rest))
}
