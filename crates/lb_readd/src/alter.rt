// Reads ALTER TABLE, where a column may be named as the keyword that comes before it.
ghost use Rattle.std.specs.Prelude.{◌≡◌, Some, None};
ghost use Rattle.lb_tok.specs.declared.kind.Kind.TheVariants as kinds;
ghost use Rattle.lb_readt.specs.Readers.{after};
ghost use Rattle.lb_readt.specs.Answering.{Gives};
ghost use Rattle.lb_readq.specs.Queries.{readers};
ghost use Rattle.lb_readd.specs.Defining.{activates_at, control_of_at, activation_at, acts_at, new_column_on, typed_on, type_word_on, behind_column_at, add_policy_at, added_on, added_at, secure_at, unsecure_at, altered_on, altered_word_on, altered_column_on, altered_column_at, table_change_on, alter_table_at};

use crate::table::{plain_type, width};
use crate::types::{next_is_plain_type, other_name, type_word};
use lb_base::Name;
use lb_readg::{means, name_or, name_or_either, named};
use lb_readt::{Read, name, next_is, next_is_either, take};
use lb_stmt::{Activation, Change, ControlOf, PlainType};
use lb_tok::{Kind, Token};

// ACTIVATE | DEACTIVATE, and whether it is the first
#[tactic(auto, unfolding(crate::specs::Defining::activates_at))]
fn activates<'a>(tokens: &'a [Token]) -> Read<'a, bool>
    ensures { Gives (λ r. (r.0, r.1.now)) result (activates_at tokens.now) }
{
    if next_is(tokens, Kind::Activate) {
        means(tokens, Kind::Activate, true)
    } else {
        means(tokens, Kind::Deactivate, false)
    }
}

// ROW | COLUMN
#[tactic(auto, unfolding(crate::specs::Defining::control_of_at))]
fn control_of<'a>(tokens: &'a [Token]) -> Read<'a, ControlOf>
    ensures { Gives (λ r. (r.0, r.1.now)) result (control_of_at tokens.now) }
{
    if next_is(tokens, Kind::Row) {
        means(tokens, Kind::Row, ControlOf::Row)
    } else {
        means(tokens, Kind::Column, ControlOf::Column)
    }
}

// act = (ACTIVATE | DEACTIVATE) (ROW | COLUMN) ACCESS CONTROL
#[tactic(auto, unfolding(crate::specs::Defining::activation_at))]
fn activation<'a>(tokens: &'a [Token]) -> Read<'a, Activation>
    ensures { Gives (λ r. (r.0, r.1.now)) result (activation_at tokens.now) }
{
    let (activate, rest) = activates(tokens)?;
    let (of, rest) = control_of(rest)?;
    let rest = take(rest, Kind::Access)?;
    means(rest, Kind::Control, Activation { activate, of })
}

// act [act]
#[tactic(auto, unfolding(crate::specs::Defining::acts_at))]
fn acts<'a>(table: Name, tokens: &'a [Token]) -> Read<'a, Change>
    ensures { Gives (λ r. (r.0, r.1.now)) result (acts_at table tokens.now) }
{
    let (first, rest) = activation(tokens)?;
    if next_is_either(rest, Kind::Activate, Kind::Deactivate) {
        let (second, rest) = activation(rest)?;
        Ok((Change::Activate(table, first, Some(second)), rest))
    } else {
        Ok((Change::Activate(table, first, None), rest))
    }
}

// A new column after its name: plain
#[tactic(auto, unfolding(crate::specs::Defining::new_column_on))]
fn new_column<'a>(table: Name, column: Name, tokens: &'a [Token], depth: u32) -> Read<'a, Change>
    ensures { Gives (λ r. (r.0, r.1.now)) result (new_column_on (readers depth) table column tokens.now) }
{
    let (ty, rest) = plain_type(tokens, depth)?;
    Ok((Change::AddColumn(table, column, ty), rest))
}

// A new column of the type whose word is taken.
#[tactic(auto, unfolding(crate::specs::Defining::typed_on))]
fn typed<'a>(
    table: Name,
    column: Name,
    ty: Option<PlainType>,
    tokens: &'a [Token],
    depth: u32,
) -> Read<'a, Change>
    ensures { Gives (λ r. (r.0, r.1.now)) result (typed_on (readers depth) table column ty tokens.now) }
{
    match ty {
        Some(ty) => Ok((Change::AddColumn(table, column, ty), tokens)),
        None => {
            let (ty, rest) = width(tokens, depth)?;
            Ok((Change::AddColumn(table, column, ty), rest))
        }
    }
}

// After COLUMN and a word of a type: the word names the column where a type follows, else it is the type of a column
// named COLUMN.
#[tactic(auto, unfolding(crate::specs::Defining::type_word_on))]
fn behind_type_word<'a>(
    table: Name,
    column: Name,
    word: (Option<PlainType>, Option<Name>),
    tokens: &'a [Token],
    depth: u32,
) -> Read<'a, Change>
    ensures { Gives (λ r. (r.0, r.1.now)) result (type_word_on (readers depth) table column word tokens.now) }
{
    match word {
        (ty, Some(name)) => {
            if next_is_plain_type(tokens) {
                new_column(table, name, tokens, depth)
            } else {
                typed(table, column, ty, tokens, depth)
            }
        }
        (ty, None) => typed(table, column, ty, tokens, depth),
    }
}

// After COLUMN, which may be the column.
#[tactic(auto, unfolding(crate::specs::Defining::behind_column_at))]
fn behind_column<'a>(table: Name, column: Name, tokens: &'a [Token], depth: u32) -> Read<'a, Change>
    ensures { Gives (λ r. (r.0, r.1.now)) result (behind_column_at (readers depth) table column tokens.now) }
{
    if next_is_plain_type(tokens) {
        let (word, rest) = type_word(tokens)?;
        behind_type_word(table, column, word, rest, depth)
    } else {
        let (column, rest) = other_name(tokens)?;
        new_column(table, column, rest, depth)
    }
}

// POLICY name
#[tactic(auto, unfolding(crate::specs::Defining::add_policy_at))]
fn add_policy<'a>(table: Name, tokens: &'a [Token]) -> Read<'a, Change>
    ensures { Gives (λ r. (r.0, r.1.now)) result (add_policy_at table tokens.now) }
{
    let rest = take(tokens, Kind::Policy)?;
    let (policy, rest) = name(rest)?;
    Ok((Change::AddPolicy(table, policy), rest))
}

// ADD [COLUMN] name plain | ADD SECURITY POLICY name, after ADD
#[tactic(auto, unfolding(crate::specs::Defining::added_at, crate::specs::Defining::added_on))]
fn added<'a>(table: Name, tokens: &'a [Token], depth: u32) -> Read<'a, Change>
    ensures { Gives (λ r. (r.0, r.1.now)) result (added_at (readers depth) table tokens.now) }
{
    let (((is_security, is_column), name), rest) = name_or_either(
        tokens,
        Kind::Security,
        Kind::Column,
    )?;
    if is_security && next_is(rest, Kind::Policy) {
        add_policy(table, rest)
    } else if !is_security && is_column {
        behind_column(table, name, rest, depth)
    } else {
        new_column(table, name, rest, depth)
    }
}

// WITH name
#[tactic(auto, unfolding(crate::specs::Defining::secure_at))]
fn secure<'a>(table: Name, column: Name, tokens: &'a [Token]) -> Read<'a, Change>
    ensures { Gives (λ r. (r.0, r.1.now)) result (secure_at table column tokens.now) }
{
    let rest = take(tokens, Kind::With)?;
    let (label, rest) = name(rest)?;
    Ok((Change::SecureColumn(table, column, label), rest))
}

// COLUMN SECURITY
#[tactic(auto, unfolding(crate::specs::Defining::unsecure_at))]
fn unsecure<'a>(table: Name, column: Name, tokens: &'a [Token]) -> Read<'a, Change>
    ensures { Gives (λ r. (r.0, r.1.now)) result (unsecure_at table column tokens.now) }
{
    let rest = take(tokens, Kind::Column)?;
    means(rest, Kind::Security, Change::UnsecureColumn(table, column))
}

// SECURED WITH name | DROP COLUMN SECURITY
#[tactic(auto, unfolding(crate::specs::Defining::altered_on))]
fn altered<'a>(table: Name, column: Name, tokens: &'a [Token]) -> Read<'a, Change>
    ensures { Gives (λ r. (r.0, r.1.now)) result (altered_on table column tokens.now) }
{
    if next_is(tokens, Kind::Secured) {
        let rest = named(tokens, Kind::Secured)?;
        secure(table, column, rest)
    } else {
        let rest = named(tokens, Kind::Drop)?;
        unsecure(table, column, rest)
    }
}

// After COLUMN, which is the column where SECURED WITH or DROP COLUMN follows.
#[tactic(auto, unfolding(crate::specs::Defining::altered_word_on))]
fn altered_named<'a>(
    table: Name,
    column: Name,
    word: ((bool, bool), Name),
    tokens: &'a [Token],
) -> Read<'a, Change>
    ensures { Gives (λ r. (r.0, r.1.now)) result (altered_word_on table column word tokens.now) }
{
    let ((is_secured, is_drop), name) = word;
    if is_secured && next_is(tokens, Kind::With) {
        secure(table, column, tokens)
    } else if !is_secured && is_drop && next_is(tokens, Kind::Column) {
        unsecure(table, column, tokens)
    } else {
        altered(table, name, tokens)
    }
}

// ALTER [COLUMN] name .., after ALTER
#[tactic(auto, unfolding(crate::specs::Defining::altered_column_at, crate::specs::Defining::altered_column_on))]
fn altered_column<'a>(table: Name, tokens: &'a [Token]) -> Read<'a, Change>
    ensures { Gives (λ r. (r.0, r.1.now)) result (altered_column_at table tokens.now) }
{
    let ((is_column, name), rest) = name_or(tokens, Kind::Column)?;
    if is_column {
        let (word, rest) = name_or_either(rest, Kind::Secured, Kind::Drop)?;
        altered_named(table, name, word, rest)
    } else {
        altered(table, name, rest)
    }
}

// ADD ..
fn add<'a>(table: Name, tokens: &'a [Token], depth: u32) -> Read<'a, Change>
    ensures { Gives (λ r. (r.0, r.1.now)) result (after kinds.Add (added_at (readers depth) table) tokens.now) }
{
    let rest = take(tokens, Kind::Add)?;
    added(table, rest, depth)
}

// ALTER ..
fn alter_column<'a>(table: Name, tokens: &'a [Token]) -> Read<'a, Change>
    ensures { Gives (λ r. (r.0, r.1.now)) result (after kinds.Alter (altered_column_at table) tokens.now) }
{
    let rest = take(tokens, Kind::Alter)?;
    altered_column(table, rest)
}

// What stands after the table.
#[tactic(auto, unfolding(crate::specs::Defining::table_change_on))]
fn table_change<'a>(table: Name, tokens: &'a [Token], depth: u32) -> Read<'a, Change>
    ensures { Gives (λ r. (r.0, r.1.now)) result (table_change_on (readers depth) table tokens.now) }
{
    if next_is(tokens, Kind::Add) {
        add(table, tokens, depth)
    } else if next_is(tokens, Kind::Alter) {
        alter_column(table, tokens)
    } else {
        acts(table, tokens)
    }
}

/// TABLE name .., after ALTER
#[tactic(auto, unfolding(crate::specs::Defining::alter_table_at))]
pub fn alter_table<'a>(tokens: &'a [Token], depth: u32) -> Read<'a, Change>
    ensures { Gives (λ r. (r.0, r.1.now)) result (alter_table_at (readers depth) tokens.now) }
{
    let rest = take(tokens, Kind::Table)?;
    let (table, rest) = name(rest)?;
    table_change(table, rest, depth)
}
