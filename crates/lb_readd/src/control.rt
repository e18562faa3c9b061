// Reads the statements on row permissions and column masks.
ghost use Rattle.std.specs.Prelude.{◌≡◌};
ghost use Rattle.lb_readt.specs.Answering.{Gives};
ghost use Rattle.lb_readq.specs.Queries.{readers};
ghost use Rattle.lb_readd.specs.Defining.{switch_at, first_switch_at, replace_at, controlled_at, rows_at, masked_at, permission_at, mask_at, control_at};

use lb_base::Name;
use lb_readg::means;
use lb_readq::{case, cond, tab};
use lb_readt::{Read, name, next_is, next_is_either, take, take_if};
use lb_stmt::{Change, MaskDef, PermissionDef, Switch};
use lb_tok::{Kind, Token};
use lb_tree::{Cond, Expr, Tab};
use std::alloc::Global;

/// ENABLE | DISABLE
#[tactic(auto, unfolding(crate::specs::Defining::switch_at))]
pub fn switch<'a>(tokens: &'a [Token]) -> Read<'a, Switch>
    ensures { Gives (λ r. (r.0, r.1.now)) result (switch_at tokens.now) }
{
    if next_is(tokens, Kind::Enable) {
        means(tokens, Kind::Enable, Switch::Enable)
    } else {
        means(tokens, Kind::Disable, Switch::Disable)
    }
}

// [ENABLE | DISABLE], where DISABLE is meant
#[tactic(auto, unfolding(crate::specs::Defining::first_switch_at))]
fn first_switch<'a>(tokens: &'a [Token]) -> Read<'a, Switch>
    ensures { Gives (λ r. (r.0, r.1.now)) result (first_switch_at tokens.now) }
{
    if next_is_either(tokens, Kind::Enable, Kind::Disable) {
        switch(tokens)
    } else {
        Ok((Switch::Disable, tokens))
    }
}

/// [OR REPLACE], and whether it is written
#[tactic(auto, unfolding(crate::specs::Defining::replace_at))]
pub fn replace<'a>(tokens: &'a [Token]) -> Read<'a, bool>
    ensures { Gives (λ r. (r.0, r.1.now)) result (replace_at tokens.now) }
{
    if let Some(rest) = take_if(tokens, Kind::Or) {
        means(rest, Kind::Replace, true)
    } else {
        Ok((false, tokens))
    }
}

// name ON tab FOR
#[tactic(auto, unfolding(crate::specs::Defining::controlled_at))]
fn controlled<'a>(tokens: &'a [Token]) -> Read<'a, (Name, Tab)>
    ensures { Gives (λ r. (r.0, r.1.now)) result (controlled_at tokens.now) }
{
    let (name, rest) = name(tokens)?;
    let rest = take(rest, Kind::On)?;
    let (table, rest) = tab(rest)?;
    means(rest, Kind::For, (name, table))
}

// ROWS WHERE cond ENFORCED FOR ALL ACCESS
#[tactic(auto, unfolding(crate::specs::Defining::rows_at))]
fn rows<'a>(alloc: Global, tokens: &'a [Token], depth: u32) -> Read<'a, Cond>
    ensures { Gives (λ r. (r.0, r.1.now)) result (rows_at (readers depth) tokens.now) }
{
    let rest = take(tokens, Kind::Rows)?;
    let rest = take(rest, Kind::Where)?;
    let (condition, rest) = cond(alloc, rest, depth)?;
    let rest = take(rest, Kind::Enforced)?;
    let rest = take(rest, Kind::For)?;
    let rest = take(rest, Kind::All)?;
    means(rest, Kind::Access, condition)
}

// COLUMN name RETURN case
#[tactic(auto, unfolding(crate::specs::Defining::masked_at))]
fn masked<'a>(alloc: Global, tokens: &'a [Token], depth: u32) -> Read<'a, (Name, Expr)>
    ensures { Gives (λ r. (r.0, r.1.now)) result (masked_at (readers depth) tokens.now) }
{
    let rest = take(tokens, Kind::Column)?;
    let (column, rest) = name(rest)?;
    let rest = take(rest, Kind::Return)?;
    let (value, rest) = case(alloc, rest, depth)?;
    Ok(((column, value), rest))
}

// PERMISSION name ON tab FOR ROWS WHERE cond ENFORCED FOR ALL ACCESS [ENABLE | DISABLE]
#[tactic(auto, unfolding(crate::specs::Defining::permission_at))]
fn permission<'a>(alloc: Global, replace: bool, tokens: &'a [Token], depth: u32) -> Read<'a, Change>
    ensures { Gives (λ r. (r.0, r.1.now)) result (permission_at (readers depth) replace tokens.now) }
{
    let rest = take(tokens, Kind::Permission)?;
    let ((name, on), rest) = controlled(rest)?;
    let (condition, rest) = rows(alloc, rest, depth)?;
    let (switch, rest) = first_switch(rest)?;
    Ok((
        Change::CreatePermission(PermissionDef {
            replace,
            name,
            on,
            condition,
            switch,
        }),
        rest,
    ))
}

// MASK name ON tab FOR COLUMN name RETURN case [ENABLE | DISABLE]
#[tactic(auto, unfolding(crate::specs::Defining::mask_at))]
fn mask<'a>(alloc: Global, replace: bool, tokens: &'a [Token], depth: u32) -> Read<'a, Change>
    ensures { Gives (λ r. (r.0, r.1.now)) result (mask_at (readers depth) replace tokens.now) }
{
    let rest = take(tokens, Kind::Mask)?;
    let ((name, on), rest) = controlled(rest)?;
    let ((column, value), rest) = masked(alloc, rest, depth)?;
    let (switch, rest) = first_switch(rest)?;
    Ok((
        Change::CreateMask(MaskDef {
            replace,
            name,
            on,
            column,
            value,
            switch,
        }),
        rest,
    ))
}

/// PERMISSION .. | MASK .., after CREATE [OR REPLACE]
#[tactic(auto, unfolding(crate::specs::Defining::control_at))]
pub fn control<'a>(
    alloc: Global,
    replace: bool,
    tokens: &'a [Token],
    depth: u32,
) -> Read<'a, Change>
    ensures { Gives (λ r. (r.0, r.1.now)) result (control_at (readers depth) replace tokens.now) }
{
    if next_is(tokens, Kind::Permission) {
        permission(alloc, replace, tokens, depth)
    } else {
        mask(alloc, replace, tokens, depth)
    }
}
