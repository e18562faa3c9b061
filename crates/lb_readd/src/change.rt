// Reads a whole definition: the first words choose the reader of its kind.
ghost use Rattle.std.specs.Prelude.{◌≡◌, []};
ghost use Rattle.lb_readt.specs.Answering.{Gives};
ghost use Rattle.lb_tok.specs.Limit.{most_brackets};
ghost use Rattle.lb_stmt.specs.declared.change.Change.TheVariants as changes;
ghost use Rattle.lb_tok.specs.declared.kind.Kind.TheVariants as kinds;
ghost use Rattle.lb_readt.specs.Readers.{seq, after, made};
ghost use Rattle.lb_readt.specs.Tokens.{name_at};
ghost use Rattle.lb_readq.specs.Queries.{readers};
ghost use Rattle.lb_readg.specs.Granting.{grant_at, revoke_at};
ghost use Rattle.lb_readd.specs.Defining.{replace_at, control_at, create_secured_at, create_at, switched_permission_at, switched_mask_at, alter_at, dropped_secured_at, drop_at, change_at, definition_at, whole_at};

use crate::alter::alter_table;
use crate::control::{control, replace, switch};
use crate::label::{create_label, create_policy, drop_label};
use crate::table::create_table;
use lb_readg::{granted, revoked};
use lb_readq::{MOST_BRACKETS, at_end};
use lb_readt::{Fault, Read, name, next_is, take, take_if};
use lb_stmt::{Change, Stmt};
use lb_tok::{Kind, Token};
use std::alloc::Global;

// SECURITY (LABEL .. | POLICY ..)
#[tactic(auto, unfolding(crate::specs::Defining::create_secured_at))]
fn create_secured<'a>(alloc: Global, tokens: &'a [Token], depth: u32) -> Read<'a, Change>
    ensures { Gives (λ r. (r.0, r.1.now)) result (create_secured_at (readers depth) tokens.now) }
{
    let rest = take(tokens, Kind::Security)?;
    if let Some(rest) = take_if(rest, Kind::Label) {
        create_label(alloc, rest, depth)
    } else {
        create_policy(alloc, rest)
    }
}

// ROLE name
fn create_role<'a>(tokens: &'a [Token]) -> Read<'a, Change>
    ensures { Gives (λ r. (r.0, r.1.now)) result (after kinds.Role (made changes.CreateRole name_at) tokens.now) }
{
    let rest = take(tokens, Kind::Role)?;
    let (role, rest) = name(rest)?;
    Ok((Change::CreateRole(role), rest))
}

// [OR REPLACE] (PERMISSION .. | MASK ..)
fn create_control<'a>(alloc: Global, tokens: &'a [Token], depth: u32) -> Read<'a, Change>
    ensures { Gives (λ r. (r.0, r.1.now)) result (seq replace_at (control_at (readers depth)) tokens.now) }
{
    let (replace, rest) = replace(tokens)?;
    control(alloc, replace, rest, depth)
}

// What stands after CREATE.
#[tactic(auto, unfolding(crate::specs::Defining::create_at))]
fn created<'a>(alloc: Global, tokens: &'a [Token], depth: u32) -> Read<'a, Change>
    ensures { Gives (λ r. (r.0, r.1.now)) result (create_at depth tokens.now) }
{
    if next_is(tokens, Kind::Table) {
        create_table(alloc, tokens, depth)
    } else if next_is(tokens, Kind::Security) {
        create_secured(alloc, tokens, depth)
    } else if next_is(tokens, Kind::Role) {
        create_role(tokens)
    } else {
        create_control(alloc, tokens, depth)
    }
}

// PERMISSION name (ENABLE | DISABLE)
#[tactic(auto, unfolding(crate::specs::Defining::switched_permission_at))]
fn switched_permission<'a>(tokens: &'a [Token]) -> Read<'a, Change>
    ensures { Gives (λ r. (r.0, r.1.now)) result (switched_permission_at tokens.now) }
{
    let rest = take(tokens, Kind::Permission)?;
    let (permission, rest) = name(rest)?;
    let (switch, rest) = switch(rest)?;
    Ok((Change::SwitchPermission(permission, switch), rest))
}

// MASK name (ENABLE | DISABLE)
#[tactic(auto, unfolding(crate::specs::Defining::switched_mask_at))]
fn switched_mask<'a>(tokens: &'a [Token]) -> Read<'a, Change>
    ensures { Gives (λ r. (r.0, r.1.now)) result (switched_mask_at tokens.now) }
{
    let rest = take(tokens, Kind::Mask)?;
    let (mask, rest) = name(rest)?;
    let (switch, rest) = switch(rest)?;
    Ok((Change::SwitchMask(mask, switch), rest))
}

// What stands after ALTER.
#[tactic(auto, unfolding(crate::specs::Defining::alter_at))]
fn altered<'a>(tokens: &'a [Token], depth: u32) -> Read<'a, Change>
    ensures { Gives (λ r. (r.0, r.1.now)) result (alter_at (readers depth) tokens.now) }
{
    if next_is(tokens, Kind::Table) {
        alter_table(tokens, depth)
    } else if next_is(tokens, Kind::Permission) {
        switched_permission(tokens)
    } else {
        switched_mask(tokens)
    }
}

// SECURITY (LABEL .. | POLICY name)
#[tactic(auto, unfolding(crate::specs::Defining::dropped_secured_at))]
fn dropped_secured<'a>(tokens: &'a [Token]) -> Read<'a, Change>
    ensures { Gives (λ r. (r.0, r.1.now)) result (dropped_secured_at tokens.now) }
{
    let rest = take(tokens, Kind::Security)?;
    if let Some(rest) = take_if(rest, Kind::Label) {
        drop_label(rest)
    } else {
        let rest = take(rest, Kind::Policy)?;
        let (policy, rest) = name(rest)?;
        Ok((Change::DropPolicy(policy), rest))
    }
}

// TABLE name
fn drop_table<'a>(tokens: &'a [Token]) -> Read<'a, Change>
    ensures { Gives (λ r. (r.0, r.1.now)) result (after kinds.Table (made changes.DropTable name_at) tokens.now) }
{
    let rest = take(tokens, Kind::Table)?;
    let (table, rest) = name(rest)?;
    Ok((Change::DropTable(table), rest))
}

// PERMISSION name
fn drop_permission<'a>(tokens: &'a [Token]) -> Read<'a, Change>
    ensures { Gives (λ r. (r.0, r.1.now)) result (after kinds.Permission (made changes.DropPermission name_at) tokens.now) }
{
    let rest = take(tokens, Kind::Permission)?;
    let (permission, rest) = name(rest)?;
    Ok((Change::DropPermission(permission), rest))
}

// MASK name
fn drop_mask<'a>(tokens: &'a [Token]) -> Read<'a, Change>
    ensures { Gives (λ r. (r.0, r.1.now)) result (after kinds.Mask (made changes.DropMask name_at) tokens.now) }
{
    let rest = take(tokens, Kind::Mask)?;
    let (mask, rest) = name(rest)?;
    Ok((Change::DropMask(mask), rest))
}

// ROLE name
fn drop_role<'a>(tokens: &'a [Token]) -> Read<'a, Change>
    ensures { Gives (λ r. (r.0, r.1.now)) result (after kinds.Role (made changes.DropRole name_at) tokens.now) }
{
    let rest = take(tokens, Kind::Role)?;
    let (role, rest) = name(rest)?;
    Ok((Change::DropRole(role), rest))
}

// What stands after DROP.
#[tactic(auto, unfolding(crate::specs::Defining::drop_at))]
fn dropped<'a>(tokens: &'a [Token]) -> Read<'a, Change>
    ensures { Gives (λ r. (r.0, r.1.now)) result (drop_at tokens.now) }
{
    if next_is(tokens, Kind::Table) {
        drop_table(tokens)
    } else if next_is(tokens, Kind::Permission) {
        drop_permission(tokens)
    } else if next_is(tokens, Kind::Mask) {
        drop_mask(tokens)
    } else if next_is(tokens, Kind::Role) {
        drop_role(tokens)
    } else {
        dropped_secured(tokens)
    }
}

// CREATE ..
fn read_create<'a>(alloc: Global, tokens: &'a [Token], depth: u32) -> Read<'a, Change>
    ensures { Gives (λ r. (r.0, r.1.now)) result (after kinds.Create (create_at depth) tokens.now) }
{
    let rest = take(tokens, Kind::Create)?;
    created(alloc, rest, depth)
}

// ALTER ..
fn read_alter<'a>(tokens: &'a [Token], depth: u32) -> Read<'a, Change>
    ensures { Gives (λ r. (r.0, r.1.now)) result (after kinds.Alter (alter_at (readers depth)) tokens.now) }
{
    let rest = take(tokens, Kind::Alter)?;
    altered(rest, depth)
}

// DROP ..
fn read_drop<'a>(tokens: &'a [Token]) -> Read<'a, Change>
    ensures { Gives (λ r. (r.0, r.1.now)) result (after kinds.Drop drop_at tokens.now) }
{
    let rest = take(tokens, Kind::Drop)?;
    dropped(rest)
}

// GRANT ..
fn read_grant<'a>(alloc: Global, tokens: &'a [Token]) -> Read<'a, Change>
    ensures { Gives (λ r. (r.0, r.1.now)) result (after kinds.Grant grant_at tokens.now) }
{
    let rest = take(tokens, Kind::Grant)?;
    granted(alloc, rest)
}

// REVOKE ..
fn read_revoke<'a>(alloc: Global, tokens: &'a [Token]) -> Read<'a, Change>
    ensures { Gives (λ r. (r.0, r.1.now)) result (after kinds.Revoke revoke_at tokens.now) }
{
    let rest = take(tokens, Kind::Revoke)?;
    revoked(alloc, rest)
}

// change = CREATE .. | ALTER .. | DROP .. | GRANT .. | REVOKE ..
#[tactic(auto, unfolding(crate::specs::Defining::change_at))]
fn change<'a>(alloc: Global, tokens: &'a [Token], depth: u32) -> Read<'a, Change>
    ensures { Gives (λ r. (r.0, r.1.now)) result (change_at depth tokens.now) }
{
    if next_is(tokens, Kind::Create) {
        read_create(alloc, tokens, depth)
    } else if next_is(tokens, Kind::Alter) {
        read_alter(tokens, depth)
    } else if next_is(tokens, Kind::Drop) {
        read_drop(tokens)
    } else if next_is(tokens, Kind::Grant) {
        read_grant(alloc, tokens)
    } else {
        read_revoke(alloc, tokens)
    }
}

/// A definition, and nothing after it.
#[tactic(auto, unfolding(crate::specs::Defining::definition_at, crate::specs::Defining::whole_at))]
pub fn whole<'a>(alloc: Global, tokens: &'a [Token]) -> Result<Stmt, Fault<'a>>
    ensures { Gives (λ s. (s, [])) result (whole_at most_brackets tokens.now) }
{
    let (change, rest) = change(alloc, tokens, MOST_BRACKETS)?;
    at_end(Stmt::Change(change), rest)
}
