// Security label components, policies and labels.
#![tactic(auto, using(lb_page::proofs::Rules::laying))]

ghost use Rattle.std.specs.Prelude.{◌≡◌, OnOk, map};
ghost use Rattle.std.specs.List.{flat_map};
ghost use Rattle.lb_tok.specs.ChangePieces.{braces, change_pieces, component_pieces, create_policy_pieces, part_pieces, texts_pieces, under_pieces};
ghost use Rattle.lb_tok.specs.QueryPieces.{listed};
ghost use Rattle.lb_tok.specs.Spacing.{laid};

use crate::keyword::{labelled, named, words};
use crate::word::write_option;
use lb_base::{Name, NoMemory, Str};
use lb_page::{Page, names, separator, texts};
use lb_stmt::{Change, ComponentDef, LabelName, LabelPart, PolicyDef, TreeElement};
use lb_tok::Kind;

/// Lays CREATE SECURITY LABEL COMPONENT.
pub fn create_component(
    page: &mut Page,
    name: &Name,
    component: &ComponentDef,
) -> Result<(), NoMemory>
    ensures { OnOk result (page.new ≡ laid page.old (change_pieces (Change.CreateComponent name.now component.now))) }
{
    named(
        page,
        &[Kind::Create, Kind::Security, Kind::Label, Kind::Component],
        name,
    )?;
    self::component(page, component)
}

/// Lays DROP SECURITY LABEL COMPONENT.
pub fn drop_component(page: &mut Page, name: &Name) -> Result<(), NoMemory>
    ensures { OnOk result (page.new ≡ laid page.old (change_pieces (Change.DropComponent name.now))) }
{
    words(page, &[Kind::Drop, Kind::Security, Kind::Label])?;
    named(page, &[Kind::Component], name)
}

fn component(page: &mut Page, component: &ComponentDef) -> Result<(), NoMemory>
    ensures { OnOk result (page.new ≡ laid page.old (component_pieces component.now)) }
{
    match component {
        ComponentDef::Set(list) => {
            page.mark(Kind::Set)?;
            bracketed(page, Kind::LeftBrace, Kind::RightBrace, list.as_slice())
        }
        ComponentDef::Array(list) => {
            page.mark(Kind::Array)?;
            bracketed(page, Kind::LeftBracket, Kind::RightBracket, list.as_slice())
        }
        ComponentDef::Tree(root, list) => tree(page, root, list.as_slice()),
    }
}

// Texts with commas between them, in brackets.
fn bracketed(page: &mut Page, before: Kind, behind: Kind, list: &[Str]) -> Result<(), NoMemory>
    ensures { OnOk result (page.new ≡ laid page.old (braces before behind (texts_pieces list.now))) }
{
    page.mark(before)?;
    texts(page, list)?;
    page.mark(behind)
}

fn tree(page: &mut Page, root: &Str, list: &[TreeElement]) -> Result<(), NoMemory>
    ensures { OnOk result (page.new ≡ laid page.old (component_pieces (ComponentDef.Tree root.now list.now))) }
{
    words(page, &[Kind::Tree, Kind::Open])?;
    page.literal(root)?;
    page.mark(Kind::Root)?;
    tree_elements(page, list)?;
    page.mark(Kind::Close)
}

fn tree_elements(page: &mut Page, list: &[TreeElement]) -> Result<(), NoMemory>
    ensures { OnOk result (page.new ≡ laid page.old (flat_map under_pieces list.now)) }
{
    for part in list {
        tree_element(page, part)?;
    }
    Ok(())
}

fn tree_element(page: &mut Page, element: &TreeElement) -> Result<(), NoMemory>
    ensures { OnOk result (page.new ≡ laid page.old (under_pieces element.now)) }
{
    page.mark(Kind::Comma)?;
    page.literal(&element.name)?;
    page.mark(Kind::Under)?;
    page.literal(&element.parent)
}

/// Lays CREATE SECURITY POLICY.
pub fn create_policy(page: &mut Page, policy: &PolicyDef) -> Result<(), NoMemory>
    ensures { OnOk result (page.new ≡ laid page.old (create_policy_pieces policy.now)) }
{
    named(
        page,
        &[Kind::Create, Kind::Security, Kind::Policy],
        &policy.name,
    )?;
    page.mark(Kind::Components)?;
    names(page, policy.components.as_slice())?;
    words(page, &[Kind::With, Kind::Db2LbacRules])?;
    page.mark(write_option(policy.option))?;
    words(
        page,
        &[
            Kind::Not,
            Kind::Authorized,
            Kind::Write,
            Kind::Security,
            Kind::Label,
        ],
    )
}

/// Lays CREATE SECURITY LABEL.
pub fn create_label(page: &mut Page, label: &LabelName, parts: &[LabelPart]) -> Result<(), NoMemory>
    ensures { OnOk result (page.new ≡ laid page.old (change_pieces (Change.CreateLabel label.now parts.now))) }
{
    labelled(page, &[Kind::Create, Kind::Security, Kind::Label], label)?;
    self::parts(page, parts)
}

fn parts(page: &mut Page, parts: &[LabelPart]) -> Result<(), NoMemory>
    ensures { OnOk result (page.new ≡ laid page.old (listed (map part_pieces parts.now))) }
{
    for (place, part) in parts.iter().enumerate() {
        separator(page, Kind::Comma, place)?;
        self::part(page, part)?;
    }
    Ok(())
}

fn part(page: &mut Page, part: &LabelPart) -> Result<(), NoMemory>
    ensures { OnOk result (page.new ≡ laid page.old (part_pieces part.now)) }
{
    named(page, &[Kind::Component], &part.component)?;
    texts(page, part.elements.as_slice())
}

/// Lays DROP SECURITY LABEL.
pub fn drop_label(page: &mut Page, label: &LabelName) -> Result<(), NoMemory>
    ensures { OnOk result (page.new ≡ laid page.old (change_pieces (Change.DropLabel label.now))) }
{
    labelled(page, &[Kind::Drop, Kind::Security, Kind::Label], label)
}
