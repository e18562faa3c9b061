// Prints CREATE TABLE and ALTER TABLE.
#![tactic(auto, using(lb_page::proofs::Rules::laying))]

ghost use Rattle.std.specs.Prelude.{◌≡◌, [], OnOk, map};
ghost use Rattle.lb_tok.specs.ChangePieces.{activation_pieces, alter_table as alter_table_pieces, change_pieces, element_pieces, key_option_pieces, not_null_pieces, plain_pieces, policy_pieces, second_pieces, secured_pieces, type_pieces};
ghost use Rattle.lb_tok.specs.QueryPieces.{listed};
ghost use Rattle.lb_tok.specs.Spacing.{laid};

use crate::keyword::{named, words};
use crate::word::{activation, control};
use lb_base::{Name, NoMemory};
use lb_page::{Page, separator};
use lb_stmt::{Activation, Change, ColumnDef, ColumnType, Element, PlainType};
use lb_tok::Kind;
use sqlite_items::Items;

// ALTER TABLE and the table.
fn alter_table(page: &mut Page, table: &Name) -> Result<(), NoMemory>
    ensures { OnOk result (page.new ≡ laid page.old (alter_table_pieces table.now [])) }
{
    named(page, &[Kind::Alter, Kind::Table], table)
}

/// Lays CREATE TABLE.
pub fn create_table(
    page: &mut Page,
    table: &Name,
    list: &Items<Element>,
    policy: &Option<Name>,
) -> Result<(), NoMemory>
    ensures { OnOk result (page.new ≡ laid page.old (change_pieces (Change.CreateTable table.now list.now policy.now))) }
{
    named(page, &[Kind::Create, Kind::Table], table)?;
    page.mark(Kind::Open)?;
    elements(page, list.as_slice())?;
    page.mark(Kind::Close)?;
    table_policy(page, policy)
}

fn table_policy(page: &mut Page, policy: &Option<Name>) -> Result<(), NoMemory>
    ensures { OnOk result (page.new ≡ laid page.old (policy_pieces policy.now)) }
{
    match policy {
        None => Ok(()),
        Some(policy) => named(page, &[Kind::Security, Kind::Policy], policy),
    }
}

fn elements(page: &mut Page, elements: &[Element]) -> Result<(), NoMemory>
    ensures { OnOk result (page.new ≡ laid page.old (listed (map element_pieces elements.now))) }
{
    for (place, part) in elements.iter().enumerate() {
        separator(page, Kind::Comma, place)?;
        element(page, part)?;
    }
    Ok(())
}

fn element(page: &mut Page, element: &Element) -> Result<(), NoMemory>
    ensures { OnOk result (page.new ≡ laid page.old (element_pieces element.now)) }
{
    match element {
        Element::Column(part) => column(page, part),
        Element::Key(name) => key_element(page, name),
    }
}

// PRIMARY KEY (name)
fn key_element(page: &mut Page, name: &Name) -> Result<(), NoMemory>
    ensures { OnOk result (page.new ≡ laid page.old (element_pieces (Element.Key name.now))) }
{
    words(page, &[Kind::Primary, Kind::Key, Kind::Open])?;
    page.name(name)?;
    page.mark(Kind::Close)
}

fn column(page: &mut Page, column: &ColumnDef) -> Result<(), NoMemory>
    ensures { OnOk result (page.new ≡ laid page.old (element_pieces (Element.Column column.now))) }
{
    page.name(&column.name)?;
    column_type(page, column.ty)?;
    not_null(page, column.not_null)?;
    key_option(page, column.key)?;
    secured(page, &column.secured)
}

fn column_type(page: &mut Page, ty: ColumnType) -> Result<(), NoMemory>
    ensures { OnOk result (page.new ≡ laid page.old (type_pieces ty)) }
{
    match ty {
        ColumnType::Label => page.mark(Kind::Db2SecurityLabel),
        ColumnType::Plain(plain) => plain_type(page, plain),
    }
}

fn plain_type(page: &mut Page, ty: PlainType) -> Result<(), NoMemory>
    ensures { OnOk result (page.new ≡ laid page.old (plain_pieces ty)) }
{
    match ty {
        PlainType::Int => page.mark(Kind::BigInt),
        PlainType::Text(width) => {
            page.opening(Kind::Varchar)?;
            page.int(width)?;
            page.mark(Kind::Close)
        }
        PlainType::Date => page.mark(Kind::Date),
    }
}

fn not_null(page: &mut Page, meant: bool) -> Result<(), NoMemory>
    ensures { OnOk result (page.new ≡ laid page.old (not_null_pieces meant)) }
{
    if meant {
        words(page, &[Kind::Not, Kind::Null])
    } else {
        Ok(())
    }
}

fn key_option(page: &mut Page, meant: bool) -> Result<(), NoMemory>
    ensures { OnOk result (page.new ≡ laid page.old (key_option_pieces meant)) }
{
    if meant {
        words(page, &[Kind::Primary, Kind::Key])
    } else {
        Ok(())
    }
}

fn secured(page: &mut Page, label: &Option<Name>) -> Result<(), NoMemory>
    ensures { OnOk result (page.new ≡ laid page.old (secured_pieces label.now)) }
{
    match label {
        None => Ok(()),
        Some(label) => named(page, &[Kind::Secured, Kind::With], label),
    }
}

/// Lays ALTER TABLE .. ADD COLUMN.
pub fn add_column(
    page: &mut Page,
    table: &Name,
    column: &Name,
    ty: PlainType,
) -> Result<(), NoMemory>
    ensures { OnOk result (page.new ≡ laid page.old (change_pieces (Change.AddColumn table.now column.now ty))) }
{
    alter_table(page, table)?;
    named(page, &[Kind::Add, Kind::Column], column)?;
    plain_type(page, ty)
}

/// Lays ALTER TABLE .. ADD SECURITY POLICY.
pub fn add_policy(page: &mut Page, table: &Name, policy: &Name) -> Result<(), NoMemory>
    ensures { OnOk result (page.new ≡ laid page.old (change_pieces (Change.AddPolicy table.now policy.now))) }
{
    alter_table(page, table)?;
    named(page, &[Kind::Add, Kind::Security, Kind::Policy], policy)
}

/// Lays ALTER TABLE .. ALTER COLUMN .. SECURED WITH.
pub fn secure_column(
    page: &mut Page,
    table: &Name,
    column: &Name,
    label: &Name,
) -> Result<(), NoMemory>
    ensures { OnOk result (page.new ≡ laid page.old (change_pieces (Change.SecureColumn table.now column.now label.now))) }
{
    alter_table(page, table)?;
    named(page, &[Kind::Alter, Kind::Column], column)?;
    named(page, &[Kind::Secured, Kind::With], label)
}

/// Lays ALTER TABLE .. ALTER COLUMN .. DROP COLUMN SECURITY.
pub fn unsecure_column(page: &mut Page, table: &Name, column: &Name) -> Result<(), NoMemory>
    ensures { OnOk result (page.new ≡ laid page.old (change_pieces (Change.UnsecureColumn table.now column.now))) }
{
    alter_table(page, table)?;
    named(page, &[Kind::Alter, Kind::Column], column)?;
    words(page, &[Kind::Drop, Kind::Column, Kind::Security])
}

/// Lays ALTER TABLE with one or two acts of ACTIVATE or DEACTIVATE.
pub fn activate(
    page: &mut Page,
    table: &Name,
    act: Activation,
    second: &Option<Activation>,
) -> Result<(), NoMemory>
    ensures { OnOk result (page.new ≡ laid page.old (change_pieces (Change.Activate table.now act second.now))) }
{
    alter_table(page, table)?;
    one_act(page, act)?;
    second_act(page, second)
}

fn one_act(page: &mut Page, act: Activation) -> Result<(), NoMemory>
    ensures { OnOk result (page.new ≡ laid page.old (activation_pieces act)) }
{
    page.mark(activation(act.activate))?;
    page.mark(control(act.of))?;
    words(page, &[Kind::Access, Kind::Control])
}

fn second_act(page: &mut Page, act: &Option<Activation>) -> Result<(), NoMemory>
    ensures { OnOk result (page.new ≡ laid page.old (second_pieces act.now)) }
{
    match act {
        None => Ok(()),
        Some(act) => one_act(page, *act),
    }
}
