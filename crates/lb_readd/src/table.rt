// Reads CREATE TABLE: columns, their options in any order, and PRIMARY KEY elements.
ghost use Rattle.std.specs.Prelude.{◌≡◌, ◌<◌, ◌∷◌, [], ◌++◌, ◌||◌, not, Some, None};
ghost use Rattle.lb_tok.specs.Kinds.{only};
ghost use Rattle.lb_tok.specs.declared.kind.Kind.TheVariants as kinds;
ghost use Rattle.lb_readt.specs.Readers.{heads, listed};
ghost use Rattle.lb_readt.specs.Answering.{Gives};
ghost use Rattle.lb_readq.specs.Queries.{readers};
ghost use Rattle.lb_readd.specs.Defining.{width_at, plain_type_at, type_at, option_at, options_at, secured_at, column_on, key_at, element_at, in_table_at, table_policy_at, create_table_at};

use lb_base::Name;
use lb_readg::{means, name_or};
use lb_readq::open;
use lb_readt::{Read, int, listed, name, next_is, next_is_either, noise, take, take_if};
use lb_stmt::{Change, ColumnDef, ColumnType, Element, PlainType};
use lb_tok::{Kind, Token};
use sqlite_items::Items;
use std::alloc::Global;

/// "(" int ")", as the type VARCHAR of that width
#[tactic(auto, unfolding(crate::specs::Defining::width_at))]
pub fn width<'a>(tokens: &'a [Token], depth: u32) -> Read<'a, PlainType>
    ensures { Gives (λ r. (r.0, r.1.now)) result (width_at (readers depth) tokens.now) }
{
    let rest = open(tokens, Kind::Open, depth)?;
    let (width, rest) = int(rest)?;
    let rest = take(rest, Kind::Close)?;
    Ok((PlainType::Text(width), rest))
}

/// plain = BIGINT | INTEGER | INT | VARCHAR "(" int ")" | DATE
#[tactic(auto, unfolding(crate::specs::Defining::plain_type_at))]
pub fn plain_type<'a>(tokens: &'a [Token], depth: u32) -> Read<'a, PlainType>
    ensures { Gives (λ r. (r.0, r.1.now)) result (plain_type_at (readers depth) tokens.now) }
{
    if next_is(tokens, Kind::BigInt) {
        means(tokens, Kind::BigInt, PlainType::Int)
    } else if next_is(tokens, Kind::Integer) {
        means(tokens, Kind::Integer, PlainType::Int)
    } else if next_is(tokens, Kind::Int) {
        means(tokens, Kind::Int, PlainType::Int)
    } else if let Some(rest) = take_if(tokens, Kind::Varchar) {
        width(rest, depth)
    } else {
        means(tokens, Kind::Date, PlainType::Date)
    }
}

// type = plain | DB2SECURITYLABEL
#[tactic(auto, unfolding(crate::specs::Defining::type_at))]
fn column_type<'a>(tokens: &'a [Token], depth: u32) -> Read<'a, ColumnType>
    ensures { Gives (λ r. (r.0, r.1.now)) result (type_at (readers depth) tokens.now) }
{
    if next_is(tokens, Kind::Db2SecurityLabel) {
        means(tokens, Kind::Db2SecurityLabel, ColumnType::Label)
    } else {
        let (plain, rest) = plain_type(tokens, depth)?;
        Ok((ColumnType::Plain(plain), rest))
    }
}

// NOT NULL | PRIMARY KEY, and whether it is the second
#[tactic(auto, unfolding(crate::specs::Defining::option_at))]
fn option<'a>(tokens: &'a [Token]) -> Read<'a, bool>
    ensures { Gives (λ r. (r.0, r.1.now)) result (option_at tokens.now) }
{
    if let Some(rest) = take_if(tokens, Kind::Not) {
        means(rest, Kind::Null, false)
    } else {
        let rest = take(tokens, Kind::Primary)?;
        means(rest, Kind::Key, true)
    }
}

/// The options of a column that are written.
#[derive(Clone, Copy)]
struct Options {
    not_null: bool,
    key: bool,
}

impl Options {
    // With one more of them: PRIMARY KEY, or NOT NULL.
    fn with(self, is_key: bool) -> Options
        ensures not_null { result.not_null ≡ (self.not_null || not is_key) }
        ensures key { result.key ≡ (self.key || is_key) }
    {
        Options {
            not_null: self.not_null || !is_key,
            key: self.key || is_key,
        }
    }
}

// {NOT NULL | PRIMARY KEY}
#[tactic(auto, unfolding(crate::specs::Defining::options_at))]
fn column_options<'a>(tokens: &'a [Token]) -> Read<'a, Options>
    ensures { Gives (λ r. ((r.0.not_null, r.0.key), r.1.now)) result (options_at tokens.now) }
{
    let mut written = Options {
        not_null: false,
        key: false,
    };
    let mut rest = tokens;
    for _ in 0..tokens.len() {
        if next_is_either(rest, Kind::Not, Kind::Primary) {
            let (is_key, after) = option(rest)?;
            written = written.with(is_key);
            rest = after;
        } else {
            return Ok((written, rest));
        }
    }
    Ok((written, rest))
}

// [COLUMN] SECURED WITH name
#[tactic(auto, unfolding(crate::specs::Defining::secured_at))]
fn secured<'a>(tokens: &'a [Token]) -> Read<'a, Name>
    ensures { Gives (λ r. (r.0, r.1.now)) result (secured_at tokens.now) }
{
    let rest = noise(tokens, Kind::Column);
    let rest = take(rest, Kind::Secured)?;
    let rest = take(rest, Kind::With)?;
    name(rest)
}

// A column after its name.
#[tactic(auto, unfolding(crate::specs::Defining::column_on))]
fn column<'a>(column: Name, tokens: &'a [Token], depth: u32) -> Read<'a, Element>
    ensures { Gives (λ r. (r.0, r.1.now)) result (column_on (readers depth) column tokens.now) }
{
    let (ty, rest) = column_type(tokens, depth)?;
    let (before, rest) = column_options(rest)?;
    if next_is_either(rest, Kind::Column, Kind::Secured) {
        let (label, rest) = secured(rest)?;
        let (behind, rest) = column_options(rest)?;
        Ok((
            Element::Column(ColumnDef {
                name: column,
                ty,
                not_null: before.not_null || behind.not_null,
                key: before.key || behind.key,
                secured: Some(label),
            }),
            rest,
        ))
    } else {
        Ok((
            Element::Column(ColumnDef {
                name: column,
                ty,
                not_null: before.not_null,
                key: before.key,
                secured: None,
            }),
            rest,
        ))
    }
}

// KEY "(" name ")"
#[tactic(auto, unfolding(crate::specs::Defining::key_at))]
fn key<'a>(tokens: &'a [Token], depth: u32) -> Read<'a, Element>
    ensures { Gives (λ r. (r.0, r.1.now)) result (key_at (readers depth) tokens.now) }
{
    let rest = take(tokens, Kind::Key)?;
    let rest = open(rest, Kind::Open, depth)?;
    let (column, rest) = name(rest)?;
    let rest = take(rest, Kind::Close)?;
    Ok((Element::Key(column), rest))
}

// elem = name type .. | PRIMARY KEY "(" name ")"
#[tactic(auto, unfolding(crate::specs::Defining::element_at, crate::specs::Defining::element_on))]
fn element<'a>(tokens: &'a [Token], depth: u32) -> Read<'a, Element>
    ensures { Gives (λ r. (r.0, r.1.now)) result (element_at (readers depth) tokens.now) }
{
    let ((is_primary, name), rest) = name_or(tokens, Kind::Primary)?;
    if is_primary && next_is(rest, Kind::Key) {
        key(rest, depth)
    } else {
        column(name, rest, depth)
    }
}

// elem {, elem}
fn elements<'a>(alloc: Global, tokens: &'a [Token], depth: u32) -> Read<'a, Items<Element>>
    ensures { Gives (λ r. (r.0, r.1.now)) result (listed (element_at (readers depth)) tokens.now) }
{
    listed(alloc, tokens, |rest| element(rest, depth))
}

// What the bracket holds.
#[tactic(auto, using(crate::proofs::Rooms::in_table_is))]
fn in_table<'a>(alloc: Global, tokens: &'a [Token], depth: u32) -> Read<'a, Items<Element>>
    requires { 0 < depth }
    ensures { Gives (λ r. (r.0, r.1.now)) result (in_table_at depth tokens.now) }
{
    elements(alloc, tokens, depth - 1)
}

// [SECURITY POLICY name]
#[tactic(auto, unfolding(crate::specs::Defining::table_policy_at))]
fn table_policy<'a>(tokens: &'a [Token]) -> Read<'a, Option<Name>>
    ensures { Gives (λ r. (r.0, r.1.now)) result (table_policy_at tokens.now) }
{
    if let Some(rest) = take_if(tokens, Kind::Security) {
        let rest = take(rest, Kind::Policy)?;
        let (policy, rest) = name(rest)?;
        Ok((Some(policy), rest))
    } else {
        Ok((None, tokens))
    }
}

/// TABLE name "(" elem {, elem} ")" [SECURITY POLICY name]
#[tactic(auto, unfolding(crate::specs::Defining::create_table_at))]
pub fn create_table<'a>(alloc: Global, tokens: &'a [Token], depth: u32) -> Read<'a, Change>
    ensures { Gives (λ r. (r.0, r.1.now)) result (create_table_at depth tokens.now) }
{
    let rest = take(tokens, Kind::Table)?;
    let (table, rest) = name(rest)?;
    let rest = open(rest, Kind::Open, depth)?;
    let (elements, rest) = in_table(alloc, rest, depth)?;
    let rest = take(rest, Kind::Close)?;
    let (policy, rest) = table_policy(rest)?;
    Ok((Change::CreateTable(table, elements, policy), rest))
}
