// Reads GRANT and REVOKE, where a table, a user or a role may be named as the keyword that comes before it.
ghost use Rattle.std.specs.Prelude.{◌≡◌, ◌++◌};
ghost use Rattle.lb_tok.specs.declared.kind.Kind.TheVariants as kinds;
ghost use Rattle.lb_readt.specs.Readers.{after};
ghost use Rattle.lb_readt.specs.Answering.{Gives};
ghost use Rattle.lb_readg.specs.Granting.{which_access_at, access_at, down_or_up_at, rule_at, rule_of_at, privilege_at, privileges_at, granted_on, third_on, second_to_on, second_on, first_on, grant_privileges_at, revoked_on, revoked_table_on, revoke_privileges_at, grant_label_at, grant_exemption_at, grant_role_at, grant_secadm_at, grant_at, revoke_label_at, revoke_exemption_at, revoke_role_at, revoke_secadm_at, revoke_at};

use crate::user::{grantee, label_name, spelt_grantee, user};
use crate::word::{means, name_or, named, next_is_grantee};
use lb_base::{Name, Rule};
use lb_readt::{Read, listed, name, next_is, next_is_either, next_is_name, take, take_if};
use lb_stmt::{Access, Change, Exempted, Grantee, Privilege};
use lb_tok::{Kind, Token};
use sqlite_items::Items;
use std::alloc::Global;

// ALL | READ | WRITE
#[tactic(auto, unfolding(crate::specs::Granting::which_access_at))]
fn which_access<'a>(tokens: &'a [Token]) -> Read<'a, Access>
    ensures { Gives (λ r. (r.0, r.1.now)) result (which_access_at tokens.now) }
{
    if next_is(tokens, Kind::All) {
        means(tokens, Kind::All, Access::All)
    } else if next_is(tokens, Kind::Read) {
        means(tokens, Kind::Read, Access::Read)
    } else {
        means(tokens, Kind::Write, Access::Write)
    }
}

// [FOR (ALL | READ | WRITE) ACCESS], where ALL is meant
#[tactic(auto, unfolding(crate::specs::Granting::access_at))]
fn access<'a>(tokens: &'a [Token]) -> Read<'a, Access>
    ensures { Gives (λ r. (r.0, r.1.now)) result (access_at tokens.now) }
{
    if let Some(rest) = take_if(tokens, Kind::For) {
        let (access, rest) = which_access(rest)?;
        means(rest, Kind::Access, access)
    } else {
        Ok((Access::All, tokens))
    }
}

// WRITEDOWN | WRITEUP
#[tactic(auto, unfolding(crate::specs::Granting::down_or_up_at))]
fn down_or_up<'a>(tokens: &'a [Token]) -> Read<'a, Exempted>
    ensures { Gives (λ r. (r.0, r.1.now)) result (down_or_up_at tokens.now) }
{
    if next_is(tokens, Kind::WriteDown) {
        means(tokens, Kind::WriteDown, Exempted::Rule(Rule::WriteDown))
    } else {
        means(tokens, Kind::WriteUp, Exempted::Rule(Rule::WriteUp))
    }
}

// rule = DB2LBACREADARRAY | .. | DB2LBACWRITEARRAY (WRITEDOWN | WRITEUP) | .. | ALL
#[tactic(auto, unfolding(crate::specs::Granting::rule_at))]
fn rule<'a>(tokens: &'a [Token]) -> Read<'a, Exempted>
    ensures { Gives (λ r. (r.0, r.1.now)) result (rule_at tokens.now) }
{
    if next_is(tokens, Kind::Db2LbacReadArray) {
        means(
            tokens,
            Kind::Db2LbacReadArray,
            Exempted::Rule(Rule::ReadArray),
        )
    } else if next_is(tokens, Kind::Db2LbacReadSet) {
        means(tokens, Kind::Db2LbacReadSet, Exempted::Rule(Rule::ReadSet))
    } else if next_is(tokens, Kind::Db2LbacReadTree) {
        means(
            tokens,
            Kind::Db2LbacReadTree,
            Exempted::Rule(Rule::ReadTree),
        )
    } else if let Some(rest) = take_if(tokens, Kind::Db2LbacWriteArray) {
        down_or_up(rest)
    } else if next_is(tokens, Kind::Db2LbacWriteSet) {
        means(
            tokens,
            Kind::Db2LbacWriteSet,
            Exempted::Rule(Rule::WriteSet),
        )
    } else if next_is(tokens, Kind::Db2LbacWriteTree) {
        means(
            tokens,
            Kind::Db2LbacWriteTree,
            Exempted::Rule(Rule::WriteTree),
        )
    } else {
        means(tokens, Kind::All, Exempted::All)
    }
}

// ON RULE rule FOR name
#[tactic(auto, unfolding(crate::specs::Granting::rule_of_at))]
fn rule_of<'a>(tokens: &'a [Token]) -> Read<'a, (Exempted, Name)>
    ensures { Gives (λ r. (r.0, r.1.now)) result (rule_of_at tokens.now) }
{
    let rest = take(tokens, Kind::On)?;
    let rest = take(rest, Kind::Rule)?;
    let (rule, rest) = rule(rest)?;
    let rest = take(rest, Kind::For)?;
    let (policy, rest) = name(rest)?;
    Ok(((rule, policy), rest))
}

// priv = SELECT | INSERT | UPDATE | DELETE
#[tactic(auto, unfolding(crate::specs::Granting::privilege_at))]
fn right<'a>(tokens: &'a [Token]) -> Read<'a, Privilege>
    ensures { Gives (λ r. (r.0, r.1.now)) result (privilege_at tokens.now) }
{
    if next_is(tokens, Kind::Select) {
        means(tokens, Kind::Select, Privilege::Select)
    } else if next_is(tokens, Kind::Insert) {
        means(tokens, Kind::Insert, Privilege::Insert)
    } else if next_is(tokens, Kind::Update) {
        means(tokens, Kind::Update, Privilege::Update)
    } else {
        means(tokens, Kind::Delete, Privilege::Delete)
    }
}

// priv {, priv}
#[tactic(auto, unfolding(crate::specs::Granting::privileges_at))]
fn privileges<'a>(alloc: Global, tokens: &'a [Token]) -> Read<'a, Items<Privilege>>
    ensures { Gives (λ r. (r.0, r.1.now)) result (privileges_at tokens.now) }
{
    listed(alloc, tokens, |rest| right(rest))
}

// TO (u | PUBLIC), after the table
#[tactic(auto, unfolding(crate::specs::Granting::granted_on))]
fn granted_table<'a>(
    privileges: Items<Privilege>,
    table: Name,
    tokens: &'a [Token],
) -> Read<'a, Change>
    ensures { Gives (λ r. (r.0, r.1.now)) result (granted_on privileges table tokens.now) }
{
    let rest = named(tokens, Kind::To)?;
    let (grantee, rest) = grantee(rest)?;
    Ok((Change::GrantPrivileges(privileges, table, grantee), rest))
}

// After TABLE, TO and a name: where that is TO, and a grantee follows, the first TO is the table.
#[tactic(auto, unfolding(crate::specs::Granting::third_on))]
fn behind_to<'a>(
    privileges: Items<Privilege>,
    first: Name,
    second: Name,
    third: (bool, Name),
    tokens: &'a [Token],
) -> Read<'a, Change>
    ensures { Gives (λ r. (r.0, r.1.now)) result (third_on privileges first second third tokens.now) }
{
    let (is_to, name) = third;
    if is_to && next_is_grantee(tokens) {
        let (grantee, rest) = grantee(tokens)?;
        Ok((Change::GrantPrivileges(privileges, second, grantee), rest))
    } else {
        Ok((
            Change::GrantPrivileges(privileges, first, Grantee::User(name)),
            tokens,
        ))
    }
}

// After TABLE and TO, of which each may be the table.
#[tactic(auto, unfolding(crate::specs::Granting::second_to_on))]
fn behind_table_to<'a>(
    privileges: Items<Privilege>,
    first: Name,
    second: Name,
    tokens: &'a [Token],
) -> Read<'a, Change>
    ensures { Gives (λ r. (r.0, r.1.now)) result (second_to_on privileges first second tokens.now) }
{
    if next_is_either(tokens, Kind::Public, Kind::User) {
        let (grantee, rest) = spelt_grantee(tokens)?;
        Ok((Change::GrantPrivileges(privileges, first, grantee), rest))
    } else {
        let (third, rest) = name_or(tokens, Kind::To)?;
        behind_to(privileges, first, second, third, rest)
    }
}

// After TABLE and a name.
#[tactic(auto, unfolding(crate::specs::Granting::second_on))]
fn behind_table<'a>(
    privileges: Items<Privilege>,
    first: Name,
    second: (bool, Name),
    tokens: &'a [Token],
) -> Read<'a, Change>
    ensures { Gives (λ r. (r.0, r.1.now)) result (second_on privileges first second tokens.now) }
{
    let (is_to, name) = second;
    if is_to {
        behind_table_to(privileges, first, name, tokens)
    } else {
        granted_table(privileges, name, tokens)
    }
}

// priv {, priv} ON [TABLE] name TO (u | PUBLIC)
#[tactic(auto, unfolding(crate::specs::Granting::grant_privileges_at, crate::specs::Granting::first_on))]
fn grant_privileges<'a>(alloc: Global, tokens: &'a [Token]) -> Read<'a, Change>
    ensures { Gives (λ r. (r.0, r.1.now)) result (grant_privileges_at tokens.now) }
{
    let (privileges, rest) = privileges(alloc, tokens)?;
    let rest = take(rest, Kind::On)?;
    let ((is_table, first), rest) = name_or(rest, Kind::Table)?;
    if is_table {
        let (second, rest) = name_or(rest, Kind::To)?;
        behind_table(privileges, first, second, rest)
    } else {
        granted_table(privileges, first, rest)
    }
}

// FROM (u | PUBLIC), after the table
#[tactic(auto, unfolding(crate::specs::Granting::revoked_on))]
fn revoked_table<'a>(
    privileges: Items<Privilege>,
    table: Name,
    tokens: &'a [Token],
) -> Read<'a, Change>
    ensures { Gives (λ r. (r.0, r.1.now)) result (revoked_on privileges table tokens.now) }
{
    let rest = take(tokens, Kind::From)?;
    let (grantee, rest) = grantee(rest)?;
    Ok((Change::RevokePrivileges(privileges, table, grantee), rest))
}

// priv {, priv} ON [TABLE] name FROM (u | PUBLIC)
#[tactic(auto, unfolding(crate::specs::Granting::revoke_privileges_at, crate::specs::Granting::revoked_table_on))]
fn revoke_privileges<'a>(alloc: Global, tokens: &'a [Token]) -> Read<'a, Change>
    ensures { Gives (λ r. (r.0, r.1.now)) result (revoke_privileges_at tokens.now) }
{
    let (privileges, rest) = privileges(alloc, tokens)?;
    let rest = take(rest, Kind::On)?;
    let ((is_table, first), rest) = name_or(rest, Kind::Table)?;
    if is_table && next_is_name(rest) {
        let (table, rest) = name(rest)?;
        revoked_table(privileges, table, rest)
    } else {
        revoked_table(privileges, first, rest)
    }
}

// SECURITY LABEL name . name TO u [FOR (ALL | READ | WRITE) ACCESS]
#[tactic(auto, unfolding(crate::specs::Granting::grant_label_at))]
fn grant_label<'a>(tokens: &'a [Token]) -> Read<'a, Change>
    ensures { Gives (λ r. (r.0, r.1.now)) result (after kinds.Security grant_label_at tokens.now) }
{
    let rest = take(tokens, Kind::Security)?;
    let rest = take(rest, Kind::Label)?;
    let (label, rest) = label_name(rest)?;
    let rest = take(rest, Kind::To)?;
    let (user, rest) = user(rest)?;
    let (access, rest) = access(rest)?;
    Ok((Change::GrantLabel(label, user, access), rest))
}

// EXEMPTION ON RULE rule FOR name TO u
#[tactic(auto, unfolding(crate::specs::Granting::grant_exemption_at))]
fn grant_exemption<'a>(tokens: &'a [Token]) -> Read<'a, Change>
    ensures { Gives (λ r. (r.0, r.1.now)) result (grant_exemption_at tokens.now) }
{
    let rest = take(tokens, Kind::Exemption)?;
    let ((rule, policy), rest) = rule_of(rest)?;
    let rest = take(rest, Kind::To)?;
    let (user, rest) = user(rest)?;
    Ok((Change::GrantExemption(rule, policy, user), rest))
}

// ROLE name TO u
#[tactic(auto, unfolding(crate::specs::Granting::grant_role_at))]
fn grant_role<'a>(tokens: &'a [Token]) -> Read<'a, Change>
    ensures { Gives (λ r. (r.0, r.1.now)) result (grant_role_at tokens.now) }
{
    let rest = take(tokens, Kind::Role)?;
    let (role, rest) = name(rest)?;
    let rest = take(rest, Kind::To)?;
    let (user, rest) = user(rest)?;
    Ok((Change::GrantRole(role, user), rest))
}

// SECADM ON DATABASE TO u
#[tactic(auto, unfolding(crate::specs::Granting::grant_secadm_at))]
fn grant_secadm<'a>(tokens: &'a [Token]) -> Read<'a, Change>
    ensures { Gives (λ r. (r.0, r.1.now)) result (grant_secadm_at tokens.now) }
{
    let rest = take(tokens, Kind::Secadm)?;
    let rest = take(rest, Kind::On)?;
    let rest = take(rest, Kind::Database)?;
    let rest = take(rest, Kind::To)?;
    let (user, rest) = user(rest)?;
    Ok((Change::GrantSecadm(user), rest))
}

/// Reads what stands after GRANT, which is taken already: privileges on a table, a role, SECADM, a label or an exemption.
///
/// In `GRANT SELECT ON TABLE TO ..` the words TABLE and TO may be names: the table is TABLE or TO, as the tokens after
/// decide. A label without FOR is granted for all access.
///
/// Db2 11.5 documentation: "GRANT (table, view, or nickname privileges) statement", "GRANT (role) statement", "GRANT
/// (database authorities) statement", "GRANT (security label) statement", "GRANT (exemption) statement".
#[tactic(auto, unfolding(crate::specs::Granting::grant_at))]
pub fn granted<'a>(alloc: Global, tokens: &'a [Token]) -> Read<'a, Change>
    ensures { Gives (λ r. (r.0, r.1.now)) result (grant_at tokens.now) }
{
    if next_is(tokens, Kind::Security) {
        grant_label(tokens)
    } else if next_is(tokens, Kind::Exemption) {
        grant_exemption(tokens)
    } else if next_is(tokens, Kind::Role) {
        grant_role(tokens)
    } else if next_is(tokens, Kind::Secadm) {
        grant_secadm(tokens)
    } else {
        grant_privileges(alloc, tokens)
    }
}

// SECURITY LABEL name . name FROM u
#[tactic(auto, unfolding(crate::specs::Granting::revoke_label_at))]
fn revoke_label<'a>(tokens: &'a [Token]) -> Read<'a, Change>
    ensures { Gives (λ r. (r.0, r.1.now)) result (after kinds.Security revoke_label_at tokens.now) }
{
    let rest = take(tokens, Kind::Security)?;
    let rest = take(rest, Kind::Label)?;
    let (label, rest) = label_name(rest)?;
    let rest = take(rest, Kind::From)?;
    let (user, rest) = user(rest)?;
    Ok((Change::RevokeLabel(label, user), rest))
}

// EXEMPTION ON RULE rule FOR name FROM u
#[tactic(auto, unfolding(crate::specs::Granting::revoke_exemption_at))]
fn revoke_exemption<'a>(tokens: &'a [Token]) -> Read<'a, Change>
    ensures { Gives (λ r. (r.0, r.1.now)) result (revoke_exemption_at tokens.now) }
{
    let rest = take(tokens, Kind::Exemption)?;
    let ((rule, policy), rest) = rule_of(rest)?;
    let rest = take(rest, Kind::From)?;
    let (user, rest) = user(rest)?;
    Ok((Change::RevokeExemption(rule, policy, user), rest))
}

// ROLE name FROM u
#[tactic(auto, unfolding(crate::specs::Granting::revoke_role_at))]
fn revoke_role<'a>(tokens: &'a [Token]) -> Read<'a, Change>
    ensures { Gives (λ r. (r.0, r.1.now)) result (revoke_role_at tokens.now) }
{
    let rest = take(tokens, Kind::Role)?;
    let (role, rest) = name(rest)?;
    let rest = take(rest, Kind::From)?;
    let (user, rest) = user(rest)?;
    Ok((Change::RevokeRole(role, user), rest))
}

// SECADM ON DATABASE FROM u
#[tactic(auto, unfolding(crate::specs::Granting::revoke_secadm_at))]
fn revoke_secadm<'a>(tokens: &'a [Token]) -> Read<'a, Change>
    ensures { Gives (λ r. (r.0, r.1.now)) result (revoke_secadm_at tokens.now) }
{
    let rest = take(tokens, Kind::Secadm)?;
    let rest = take(rest, Kind::On)?;
    let rest = take(rest, Kind::Database)?;
    let rest = take(rest, Kind::From)?;
    let (user, rest) = user(rest)?;
    Ok((Change::RevokeSecadm(user), rest))
}

/// Reads what stands after REVOKE, which is taken already: privileges on a table, a role, SECADM, a label or an exemption. In
/// `REVOKE SELECT ON TABLE FROM ..` the table is named TABLE.
///
/// Db2 11.5 documentation: "REVOKE (table, view, or nickname privileges) statement", "REVOKE (role) statement", "REVOKE
/// (database authorities) statement", "REVOKE (security label) statement", "REVOKE (exemption) statement".
#[tactic(auto, unfolding(crate::specs::Granting::revoke_at))]
pub fn revoked<'a>(alloc: Global, tokens: &'a [Token]) -> Read<'a, Change>
    ensures { Gives (λ r. (r.0, r.1.now)) result (revoke_at tokens.now) }
{
    if next_is(tokens, Kind::Security) {
        revoke_label(tokens)
    } else if next_is(tokens, Kind::Exemption) {
        revoke_exemption(tokens)
    } else if next_is(tokens, Kind::Role) {
        revoke_role(tokens)
    } else if next_is(tokens, Kind::Secadm) {
        revoke_secadm(tokens)
    } else {
        revoke_privileges(alloc, tokens)
    }
}
