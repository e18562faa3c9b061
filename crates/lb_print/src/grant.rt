// Prints GRANT and REVOKE.
#![tactic(auto, using(lb_page::proofs::Rules::laying))]

ghost use Rattle.std.specs.Prelude.{◌≡◌, OnOk, map};
ghost use Rattle.lb_tok.specs.ChangePieces.{access_pieces, change_pieces, exemption_pieces, grantee_pieces, privilege_pieces, privileges_pieces, rule_pieces};
ghost use Rattle.lb_tok.specs.QueryPieces.{listed};
ghost use Rattle.lb_tok.specs.Spacing.{laid};

use crate::keyword::{labelled, named, to_user, with_user, words};
use crate::word::{access, right};
use lb_base::{Name, NoMemory, Rule};
use lb_page::{Page, separator};
use lb_stmt::{Access, Change, Exempted, Grantee, LabelName, Privilege};
use lb_tok::Kind;
use sqlite_items::Items;

/// Lays GRANT SECURITY LABEL.
pub fn grant_label(
    page: &mut Page,
    label: &LabelName,
    user: &Name,
    to: Access,
) -> Result<(), NoMemory>
    ensures { OnOk result (page.new ≡ laid page.old (change_pieces (Change.GrantLabel label.now user.now to))) }
{
    labelled(page, &[Kind::Grant, Kind::Security, Kind::Label], label)?;
    with_user(page, &[Kind::To], user)?;
    for_access(page, to)
}

fn for_access(page: &mut Page, to: Access) -> Result<(), NoMemory>
    ensures { OnOk result (page.new ≡ laid page.old (access_pieces to)) }
{
    page.mark(Kind::For)?;
    page.mark(access(to))?;
    page.mark(Kind::Access)
}

/// Lays REVOKE SECURITY LABEL.
pub fn revoke_label(page: &mut Page, label: &LabelName, user: &Name) -> Result<(), NoMemory>
    ensures { OnOk result (page.new ≡ laid page.old (change_pieces (Change.RevokeLabel label.now user.now))) }
{
    labelled(page, &[Kind::Revoke, Kind::Security, Kind::Label], label)?;
    with_user(page, &[Kind::From], user)
}

fn rule(page: &mut Page, rule: Exempted) -> Result<(), NoMemory>
    ensures { OnOk result (page.new ≡ laid page.old (rule_pieces rule)) }
{
    match rule {
        Exempted::Rule(Rule::ReadArray) => page.mark(Kind::Db2LbacReadArray),
        Exempted::Rule(Rule::ReadSet) => page.mark(Kind::Db2LbacReadSet),
        Exempted::Rule(Rule::ReadTree) => page.mark(Kind::Db2LbacReadTree),
        Exempted::Rule(Rule::WriteDown) => words(page, &[Kind::Db2LbacWriteArray, Kind::WriteDown]),
        Exempted::Rule(Rule::WriteUp) => words(page, &[Kind::Db2LbacWriteArray, Kind::WriteUp]),
        Exempted::Rule(Rule::WriteSet) => page.mark(Kind::Db2LbacWriteSet),
        Exempted::Rule(Rule::WriteTree) => page.mark(Kind::Db2LbacWriteTree),
        Exempted::All => page.mark(Kind::All),
    }
}

fn exemption(page: &mut Page, of: Exempted, policy: &Name) -> Result<(), NoMemory>
    ensures { OnOk result (page.new ≡ laid page.old (exemption_pieces of policy.now)) }
{
    words(page, &[Kind::Exemption, Kind::On, Kind::Rule])?;
    rule(page, of)?;
    named(page, &[Kind::For], policy)
}

/// Lays GRANT EXEMPTION.
pub fn grant_exemption(
    page: &mut Page,
    of: Exempted,
    policy: &Name,
    user: &Name,
) -> Result<(), NoMemory>
    ensures { OnOk result (page.new ≡ laid page.old (change_pieces (Change.GrantExemption of policy.now user.now))) }
{
    page.mark(Kind::Grant)?;
    exemption(page, of, policy)?;
    with_user(page, &[Kind::To], user)
}

/// Lays REVOKE EXEMPTION.
pub fn revoke_exemption(
    page: &mut Page,
    of: Exempted,
    policy: &Name,
    user: &Name,
) -> Result<(), NoMemory>
    ensures { OnOk result (page.new ≡ laid page.old (change_pieces (Change.RevokeExemption of policy.now user.now))) }
{
    page.mark(Kind::Revoke)?;
    exemption(page, of, policy)?;
    with_user(page, &[Kind::From], user)
}

/// Lays GRANT ROLE.
pub fn grant_role(page: &mut Page, role: &Name, user: &Name) -> Result<(), NoMemory>
    ensures { OnOk result (page.new ≡ laid page.old (change_pieces (Change.GrantRole role.now user.now))) }
{
    named(page, &[Kind::Grant, Kind::Role], role)?;
    with_user(page, &[Kind::To], user)
}

/// Lays REVOKE ROLE.
pub fn revoke_role(page: &mut Page, role: &Name, user: &Name) -> Result<(), NoMemory>
    ensures { OnOk result (page.new ≡ laid page.old (change_pieces (Change.RevokeRole role.now user.now))) }
{
    named(page, &[Kind::Revoke, Kind::Role], role)?;
    with_user(page, &[Kind::From], user)
}

/// Lays GRANT SECADM.
pub fn grant_secadm(page: &mut Page, user: &Name) -> Result<(), NoMemory>
    ensures { OnOk result (page.new ≡ laid page.old (change_pieces (Change.GrantSecadm user.now))) }
{
    words(page, &[Kind::Grant, Kind::Secadm, Kind::On, Kind::Database])?;
    with_user(page, &[Kind::To], user)
}

/// Lays REVOKE SECADM.
pub fn revoke_secadm(page: &mut Page, user: &Name) -> Result<(), NoMemory>
    ensures { OnOk result (page.new ≡ laid page.old (change_pieces (Change.RevokeSecadm user.now))) }
{
    words(
        page,
        &[Kind::Revoke, Kind::Secadm, Kind::On, Kind::Database],
    )?;
    with_user(page, &[Kind::From], user)
}

fn privileges(page: &mut Page, list: &[Privilege]) -> Result<(), NoMemory>
    ensures { OnOk result (page.new ≡ laid page.old (listed (map privilege_pieces list.now))) }
{
    for (place, part) in list.iter().enumerate() {
        separator(page, Kind::Comma, place)?;
        page.mark(right(*part))?;
    }
    Ok(())
}

fn privileges_on(page: &mut Page, list: &[Privilege], table: &Name) -> Result<(), NoMemory>
    ensures { OnOk result (page.new ≡ laid page.old (privileges_pieces list.now table.now)) }
{
    privileges(page, list)?;
    named(page, &[Kind::On], table)
}

fn to_grantee(page: &mut Page, grantee: &Grantee) -> Result<(), NoMemory>
    ensures { OnOk result (page.new ≡ laid page.old (grantee_pieces grantee.now)) }
{
    match grantee {
        Grantee::Public => page.mark(Kind::Public),
        Grantee::User(user) => to_user(page, user),
    }
}

/// Lays GRANT of privileges on a table.
pub fn grant_privileges(
    page: &mut Page,
    list: &Items<Privilege>,
    table: &Name,
    grantee: &Grantee,
) -> Result<(), NoMemory>
    ensures { OnOk result (page.new ≡ laid page.old (change_pieces (Change.GrantPrivileges list.now table.now grantee.now))) }
{
    page.mark(Kind::Grant)?;
    privileges_on(page, list.as_slice(), table)?;
    page.mark(Kind::To)?;
    to_grantee(page, grantee)
}

/// Lays REVOKE of privileges on a table.
pub fn revoke_privileges(
    page: &mut Page,
    list: &Items<Privilege>,
    table: &Name,
    grantee: &Grantee,
) -> Result<(), NoMemory>
    ensures { OnOk result (page.new ≡ laid page.old (change_pieces (Change.RevokePrivileges list.now table.now grantee.now))) }
{
    page.mark(Kind::Revoke)?;
    privileges_on(page, list.as_slice(), table)?;
    page.mark(Kind::From)?;
    to_grantee(page, grantee)
}
