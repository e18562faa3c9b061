// Prints a statement that changes the catalogue: chooses the printer of its kind.
#![tactic(auto, using(lb_page::proofs::Rules::laying))]

ghost use Rattle.std.specs.Prelude.{◌≡◌, OnOk};
ghost use Rattle.lb_tok.specs.ChangePieces.{change_pieces};
ghost use Rattle.lb_tok.specs.Spacing.{laid};

use crate::access::{create_mask, create_permission, switch_mask, switch_permission};
use crate::grant::{
    grant_exemption, grant_label, grant_privileges, grant_role, grant_secadm, revoke_exemption,
    revoke_label, revoke_privileges, revoke_role, revoke_secadm,
};
use crate::keyword::named;
use crate::label::{create_component, create_label, create_policy, drop_component, drop_label};
use crate::table::{
    activate, add_column, add_policy, create_table, secure_column, unsecure_column,
};
use lb_base::NoMemory;
use lb_page::Page;
use lb_stmt::Change;
use lb_tok::Kind;

/// Lays a statement that changes the catalogue.
pub fn change(page: &mut Page, change: &Change) -> Result<(), NoMemory>
    ensures { OnOk result (page.new ≡ laid page.old (change_pieces change.now)) }
{
    match change {
        Change::CreateTable(table, list, policy) => create_table(page, table, list, policy),
        Change::DropTable(table) => named(page, &[Kind::Drop, Kind::Table], table),
        Change::AddColumn(table, column, ty) => add_column(page, table, column, *ty),
        Change::AddPolicy(table, policy) => add_policy(page, table, policy),
        Change::SecureColumn(table, column, label) => secure_column(page, table, column, label),
        Change::UnsecureColumn(table, column) => unsecure_column(page, table, column),
        Change::Activate(table, act, second) => activate(page, table, *act, second),
        Change::CreatePermission(permission) => create_permission(page, permission),
        Change::CreateMask(mask) => create_mask(page, mask),
        Change::SwitchPermission(name, to) => switch_permission(page, name, *to),
        Change::SwitchMask(name, to) => switch_mask(page, name, *to),
        Change::DropPermission(name) => named(page, &[Kind::Drop, Kind::Permission], name),
        Change::DropMask(name) => named(page, &[Kind::Drop, Kind::Mask], name),
        Change::CreateComponent(name, component) => create_component(page, name, component),
        Change::DropComponent(name) => drop_component(page, name),
        Change::CreatePolicy(policy) => create_policy(page, policy),
        Change::DropPolicy(name) => named(page, &[Kind::Drop, Kind::Security, Kind::Policy], name),
        Change::CreateLabel(label, parts) => create_label(page, label, parts.as_slice()),
        Change::DropLabel(label) => drop_label(page, label),
        Change::GrantLabel(label, user, to) => grant_label(page, label, user, *to),
        Change::RevokeLabel(label, user) => revoke_label(page, label, user),
        Change::GrantExemption(rule, policy, user) => grant_exemption(page, *rule, policy, user),
        Change::RevokeExemption(rule, policy, user) => revoke_exemption(page, *rule, policy, user),
        Change::CreateRole(role) => named(page, &[Kind::Create, Kind::Role], role),
        Change::DropRole(role) => named(page, &[Kind::Drop, Kind::Role], role),
        Change::GrantRole(role, user) => grant_role(page, role, user),
        Change::RevokeRole(role, user) => revoke_role(page, role, user),
        Change::GrantSecadm(user) => grant_secadm(page, user),
        Change::RevokeSecadm(user) => revoke_secadm(page, user),
        Change::GrantPrivileges(list, table, grantee) => grant_privileges(
            page, list, table, grantee,
        ),
        Change::RevokePrivileges(list, table, grantee) => revoke_privileges(
            page, list, table, grantee,
        ),
    }
}
