// Columns, literals and the arguments of functions that hold no expression.
ghost use Rattle.std.specs.Prelude.{◌≡◌, IfOk, Some, None, true, false};
ghost use Rattle.lb_tok.specs.Grammar.{alone, of_table, a_column};
ghost use Rattle.lb_readt.specs.Answering.{Gives};
ghost use Rattle.lb_reade.specs.Expressions.{verified_texts_at, two_texts_at, shown_at, date_at, number_at, today_at, sign_at};

use lb_base::{Name, Str};
use lb_readt::{Read, column, day, int, negative, take, take_if, text, texts};
use lb_tok::{Kind, Token};
use lb_tree::{Atom, Column, Expr};
use sqlite_items::Items;
use std::alloc::{AllocError, Global};

/// A column that is written without a correlation name.
pub fn column_alone(name: &Name) -> Result<Expr, AllocError>
    ensures { IfOk result (λ e. e ≡ a_column (alone name.now)) }
{
    let name = name.copy()?;
    Ok(Expr::Atom(Atom::Column(Column {
        correlation: None,
        name,
    })))
}

/// The expression `table.name`, as a column. The name of the table is copied; there is an error only where no memory is left.
pub fn column_of(table: &Name, name: Name) -> Result<Expr, AllocError>
    ensures { IfOk result (λ e. e ≡ a_column (of_table table.now name)) }
{
    let table = table.copy()?;
    Ok(Expr::Atom(Atom::Column(Column {
        correlation: Some(table),
        name,
    })))
}

/// Reads the arguments of a role or group check, `SESSION_USER , text {, text}`: the texts.
#[tactic(auto, unfolding(crate::specs::Expressions::verified_texts_at))]
pub fn verified<'a>(alloc: Global, tokens: &'a [Token]) -> Read<'a, Items<Str>>
    ensures { Gives (λ r. (r.0, r.1.now)) result (verified_texts_at tokens.now) }
{
    let rest = take(tokens, Kind::SessionUser)?;
    let rest = take(rest, Kind::Comma)?;
    texts(alloc, rest)
}

/// Reads two texts with a comma between them.
#[tactic(auto, unfolding(crate::specs::Expressions::two_texts_at))]
pub fn two_texts<'a>(tokens: &'a [Token]) -> Read<'a, (Str, Str)>
    ensures { Gives (λ r. (r.0, r.1.now)) result (two_texts_at tokens.now) }
{
    let (first, rest) = text(tokens)?;
    let rest = take(rest, Kind::Comma)?;
    let (second, rest) = text(rest)?;
    Ok(((first, second), rest))
}

/// Reads the arguments of SECLABEL_TO_CHAR, a policy's text and a column.
#[tactic(auto, unfolding(crate::specs::Expressions::shown_at))]
pub fn shown<'a>(tokens: &'a [Token]) -> Read<'a, Expr>
    ensures { Gives (λ r. (r.0, r.1.now)) result (shown_at tokens.now) }
{
    let (policy, rest) = text(tokens)?;
    let rest = take(rest, Kind::Comma)?;
    let (column, rest) = column(rest)?;
    Ok((Expr::Atom(Atom::SecLabelToChar(policy, column)), rest))
}

/// Reads a text that writes a day, as a date. `Bad` at a text that writes none.
#[tactic(auto, unfolding(crate::specs::Expressions::date_at))]
pub fn date<'a>(tokens: &'a [Token]) -> Read<'a, Expr>
    ensures { Gives (λ r. (r.0, r.1.now)) result (date_at tokens.now) }
{
    let (day, rest) = day(tokens)?;
    Ok((Expr::Atom(Atom::Date(day)), rest))
}

/// Reads an integer, with its minus if there is one. `Bad` at 9223372036854775808 without a minus.
#[tactic(auto, unfolding(crate::specs::Expressions::number_at))]
pub fn number<'a>(tokens: &'a [Token]) -> Read<'a, Expr>
    ensures { Gives (λ r. (r.0, r.1.now)) result (number_at tokens.now) }
{
    if let Some(rest) = take_if(tokens, Kind::Minus) {
        let (value, rest) = negative(rest)?;
        Ok((Expr::Atom(Atom::Int(value)), rest))
    } else {
        let (value, rest) = int(tokens)?;
        Ok((Expr::Atom(Atom::Int(value)), rest))
    }
}

/// Reads the current date, written as two words or as one.
#[tactic(auto, unfolding(crate::specs::Expressions::today_at))]
pub fn today<'a>(tokens: &'a [Token]) -> Read<'a, Expr>
    ensures { Gives (λ r. (r.0, r.1.now)) result (today_at tokens.now) }
{
    if let Some(rest) = take_if(tokens, Kind::Current) {
        let rest = take(rest, Kind::Date)?;
        Ok((Expr::Atom(Atom::CurrentDate), rest))
    } else {
        let rest = take(tokens, Kind::CurrentDate)?;
        Ok((Expr::Atom(Atom::CurrentDate), rest))
    }
}

/// Reads a plus or a minus: whether it is a minus.
#[tactic(auto, unfolding(crate::specs::Expressions::sign_at))]
pub fn sign<'a>(tokens: &'a [Token]) -> Read<'a, bool>
    ensures { Gives (λ r. (r.0, r.1.now)) result (sign_at tokens.now) }
{
    if let Some(rest) = take_if(tokens, Kind::Plus) {
        Ok((false, rest))
    } else {
        let rest = take(tokens, Kind::Minus)?;
        Ok((true, rest))
    }
}
