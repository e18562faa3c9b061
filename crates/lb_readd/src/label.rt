// Reads the statements on components, policies and labels.
ghost use Rattle.std.specs.Prelude.{◌≡◌, ◌++◌};
ghost use Rattle.lb_readt.specs.Readers.{commas};
ghost use Rattle.lb_readt.specs.Answering.{Gives};
ghost use Rattle.lb_readq.specs.Queries.{readers};
ghost use Rattle.lb_readd.specs.Defining.{tree_element_at, tree_at, component_at, create_component_at, new_label_on, create_label_on, create_label_at, which_option_at, write_option_at, create_policy_at, dropped_label_on, drop_label_on, drop_label_at};

use crate::parts::label_parts;
use lb_base::Name;
use lb_readg::{label_behind, means, name_or};
use lb_readq::open;
use lb_readt::{
    Read, further, name, names, next_is, next_is_either, next_is_name, take, take_if, text, texts,
};
use lb_stmt::{Change, ComponentDef, PolicyDef, TreeElement, WriteOption};
use lb_tok::{Kind, Token};
use sqlite_items::Items;
use std::alloc::Global;

// text UNDER text
#[tactic(auto, unfolding(crate::specs::Defining::tree_element_at))]
fn tree_element<'a>(tokens: &'a [Token]) -> Read<'a, TreeElement>
    ensures { Gives (λ r. (r.0, r.1.now)) result (tree_element_at tokens.now) }
{
    let (name, rest) = text(tokens)?;
    let rest = take(rest, Kind::Under)?;
    let (parent, rest) = text(rest)?;
    Ok((TreeElement { name, parent }, rest))
}

// {, text UNDER text}
fn tree_elements<'a>(alloc: Global, tokens: &'a [Token]) -> Read<'a, Items<TreeElement>>
    ensures { Gives (λ r. (r.0, r.1.now)) result (commas tree_element_at tokens.now) }
{
    further(alloc, tokens, Kind::Comma, |rest| tree_element(rest))
}

// text ROOT {, text UNDER text}
#[tactic(auto, unfolding(crate::specs::Defining::tree_at))]
fn tree<'a>(alloc: Global, tokens: &'a [Token]) -> Read<'a, ComponentDef>
    ensures { Gives (λ r. (r.0, r.1.now)) result (tree_at tokens.now) }
{
    let (root, rest) = text(tokens)?;
    let rest = take(rest, Kind::Root)?;
    let (others, rest) = tree_elements(alloc, rest)?;
    Ok((ComponentDef::Tree(root, others), rest))
}

// comp = SET "{" .. "}" | ARRAY "[" .. "]" | TREE "(" .. ")"
#[tactic(auto, unfolding(crate::specs::Defining::component_at, crate::specs::Defining::texts_at))]
fn component<'a>(alloc: Global, tokens: &'a [Token], depth: u32) -> Read<'a, ComponentDef>
    ensures { Gives (λ r. (r.0, r.1.now)) result (component_at (readers depth) tokens.now) }
{
    if let Some(rest) = take_if(tokens, Kind::Set) {
        let rest = take(rest, Kind::LeftBrace)?;
        let (elements, rest) = texts(alloc, rest)?;
        let rest = take(rest, Kind::RightBrace)?;
        Ok((ComponentDef::Set(elements), rest))
    } else if let Some(rest) = take_if(tokens, Kind::Array) {
        let rest = take(rest, Kind::LeftBracket)?;
        let (elements, rest) = texts(alloc, rest)?;
        let rest = take(rest, Kind::RightBracket)?;
        Ok((ComponentDef::Array(elements), rest))
    } else {
        let rest = take(tokens, Kind::Tree)?;
        let rest = open(rest, Kind::Open, depth)?;
        let (tree, rest) = tree(alloc, rest)?;
        let rest = take(rest, Kind::Close)?;
        Ok((tree, rest))
    }
}

// name comp
#[tactic(auto, unfolding(crate::specs::Defining::create_component_at))]
fn create_component<'a>(alloc: Global, tokens: &'a [Token], depth: u32) -> Read<'a, Change>
    ensures { Gives (λ r. (r.0, r.1.now)) result (create_component_at (readers depth) tokens.now) }
{
    let (name, rest) = name(tokens)?;
    let (component, rest) = component(alloc, rest, depth)?;
    Ok((Change::CreateComponent(name, component), rest))
}

// . name part {, part}, after the policy
#[tactic(auto, unfolding(crate::specs::Defining::new_label_on))]
fn new_label<'a>(alloc: Global, policy: Name, tokens: &'a [Token]) -> Read<'a, Change>
    ensures { Gives (λ r. (r.0, r.1.now)) result (new_label_on policy tokens.now) }
{
    let (label, rest) = label_behind(policy, tokens)?;
    let (parts, rest) = label_parts(alloc, rest)?;
    Ok((Change::CreateLabel(label, parts), rest))
}

/// COMPONENT name comp | name . name part {, part}, after CREATE SECURITY LABEL
#[tactic(auto, unfolding(crate::specs::Defining::create_label_at, crate::specs::Defining::create_label_on))]
pub fn create_label<'a>(alloc: Global, tokens: &'a [Token], depth: u32) -> Read<'a, Change>
    ensures { Gives (λ r. (r.0, r.1.now)) result (create_label_at (readers depth) tokens.now) }
{
    let ((is_component, name), rest) = name_or(tokens, Kind::Component)?;
    if is_component && next_is_name(rest) {
        create_component(alloc, rest, depth)
    } else {
        new_label(alloc, name, rest)
    }
}

// OVERRIDE | RESTRICT
#[tactic(auto, unfolding(crate::specs::Defining::which_option_at))]
fn which_option<'a>(tokens: &'a [Token]) -> Read<'a, WriteOption>
    ensures { Gives (λ r. (r.0, r.1.now)) result (which_option_at tokens.now) }
{
    if next_is(tokens, Kind::Override) {
        means(tokens, Kind::Override, WriteOption::Override)
    } else {
        means(tokens, Kind::Restrict, WriteOption::Restrict)
    }
}

// [(OVERRIDE | RESTRICT) NOT AUTHORIZED WRITE SECURITY LABEL], where OVERRIDE is meant
#[tactic(auto, unfolding(crate::specs::Defining::write_option_at))]
fn write_option<'a>(tokens: &'a [Token]) -> Read<'a, WriteOption>
    ensures { Gives (λ r. (r.0, r.1.now)) result (write_option_at tokens.now) }
{
    if next_is_either(tokens, Kind::Override, Kind::Restrict) {
        let (option, rest) = which_option(tokens)?;
        let rest = take(rest, Kind::Not)?;
        let rest = take(rest, Kind::Authorized)?;
        let rest = take(rest, Kind::Write)?;
        let rest = take(rest, Kind::Security)?;
        means(rest, Kind::Label, option)
    } else {
        Ok((WriteOption::Override, tokens))
    }
}

/// POLICY name COMPONENTS name {, name} WITH DB2LBACRULES .., after CREATE SECURITY
#[tactic(auto, unfolding(crate::specs::Defining::create_policy_at))]
pub fn create_policy<'a>(alloc: Global, tokens: &'a [Token]) -> Read<'a, Change>
    ensures { Gives (λ r. (r.0, r.1.now)) result (create_policy_at tokens.now) }
{
    let rest = take(tokens, Kind::Policy)?;
    let (policy, rest) = name(rest)?;
    let rest = take(rest, Kind::Components)?;
    let (components, rest) = names(alloc, rest)?;
    let rest = take(rest, Kind::With)?;
    let rest = take(rest, Kind::Db2LbacRules)?;
    let (option, rest) = write_option(rest)?;
    Ok((
        Change::CreatePolicy(PolicyDef {
            name: policy,
            components,
            option,
        }),
        rest,
    ))
}

// . name, after the policy
#[tactic(auto, unfolding(crate::specs::Defining::dropped_label_on))]
fn dropped_label<'a>(policy: Name, tokens: &'a [Token]) -> Read<'a, Change>
    ensures { Gives (λ r. (r.0, r.1.now)) result (dropped_label_on policy tokens.now) }
{
    let (label, rest) = label_behind(policy, tokens)?;
    Ok((Change::DropLabel(label), rest))
}

/// COMPONENT name | name . name, after DROP SECURITY LABEL
#[tactic(auto, unfolding(crate::specs::Defining::drop_label_at, crate::specs::Defining::drop_label_on))]
pub fn drop_label<'a>(tokens: &'a [Token]) -> Read<'a, Change>
    ensures { Gives (λ r. (r.0, r.1.now)) result (drop_label_at tokens.now) }
{
    let ((is_component, policy), rest) = name_or(tokens, Kind::Component)?;
    if is_component && next_is_name(rest) {
        let (component, rest) = name(rest)?;
        Ok((Change::DropComponent(component), rest))
    } else {
        dropped_label(policy, rest)
    }
}
