// The keywords that stand for what a change holds.

ghost use Rattle.std.specs.Prelude.{◌≡◌};
ghost use Rattle.lb_tok.specs.ChangePieces.{switch_kind, access_kind, activate_kind, control_kind, privilege_kind, write_option_kind};

use lb_stmt::{Access, ControlOf, Privilege, Switch, WriteOption};
use lb_tok::Kind;

/// ACTIVATE or DEACTIVATE.
pub fn activation(activate: bool) -> Kind
    ensures { result ≡ activate_kind activate }
{
    if activate {
        Kind::Activate
    } else {
        Kind::Deactivate
    }
}

/// ROW or COLUMN.
pub fn control(of: ControlOf) -> Kind
    ensures { result ≡ control_kind of }
{
    match of {
        ControlOf::Row => Kind::Row,
        ControlOf::Column => Kind::Column,
    }
}

/// ENABLE or DISABLE.
pub fn switch(switch: Switch) -> Kind
    ensures { result ≡ switch_kind switch }
{
    match switch {
        Switch::Enable => Kind::Enable,
        Switch::Disable => Kind::Disable,
    }
}

/// OVERRIDE or RESTRICT.
pub fn write_option(option: WriteOption) -> Kind
    ensures { result ≡ write_option_kind option }
{
    match option {
        WriteOption::Override => Kind::Override,
        WriteOption::Restrict => Kind::Restrict,
    }
}

/// ALL, READ or WRITE.
pub fn access(access: Access) -> Kind
    ensures { result ≡ access_kind access }
{
    match access {
        Access::All => Kind::All,
        Access::Read => Kind::Read,
        Access::Write => Kind::Write,
    }
}

/// The word of a privilege.
pub fn right(right: Privilege) -> Kind
    ensures { result ≡ privilege_kind right }
{
    match right {
        Privilege::Select => Kind::Select,
        Privilege::Insert => Kind::Insert,
        Privilege::Update => Kind::Update,
        Privilege::Delete => Kind::Delete,
    }
}
