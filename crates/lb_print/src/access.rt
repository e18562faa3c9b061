// Prints the statements on row permissions and column masks.
#![tactic(auto, using(lb_page::proofs::Rules::laying))]

ghost use Rattle.std.specs.Prelude.{◌≡◌, OnOk};
ghost use Rattle.lb_tok.specs.ChangePieces.{change_pieces, mask_pieces, permission_pieces, replace_pieces};
ghost use Rattle.lb_tok.specs.Spacing.{laid};

use crate::keyword::{named, switched, words};
use crate::word::switch;
use lb_base::{Name, NoMemory};
use lb_page::{Page, cond, expr, tab};
use lb_stmt::{Change, MaskDef, PermissionDef, Switch};
use lb_tok::Kind;

fn replace(page: &mut Page, meant: bool) -> Result<(), NoMemory>
    ensures { OnOk result (page.new ≡ laid page.old (replace_pieces meant)) }
{
    if meant {
        words(page, &[Kind::Or, Kind::Replace])
    } else {
        Ok(())
    }
}

/// Lays CREATE PERMISSION.
pub fn create_permission(page: &mut Page, permission: &PermissionDef) -> Result<(), NoMemory>
    ensures { OnOk result (page.new ≡ laid page.old (permission_pieces permission.now)) }
{
    page.mark(Kind::Create)?;
    replace(page, permission.replace)?;
    named(page, &[Kind::Permission], &permission.name)?;
    page.mark(Kind::On)?;
    tab(page, &permission.on)?;
    words(page, &[Kind::For, Kind::Rows, Kind::Where])?;
    cond(page, &permission.condition)?;
    words(page, &[Kind::Enforced, Kind::For, Kind::All, Kind::Access])?;
    page.mark(switch(permission.switch))
}

/// Lays CREATE MASK.
pub fn create_mask(page: &mut Page, mask: &MaskDef) -> Result<(), NoMemory>
    ensures { OnOk result (page.new ≡ laid page.old (mask_pieces mask.now)) }
{
    page.mark(Kind::Create)?;
    replace(page, mask.replace)?;
    named(page, &[Kind::Mask], &mask.name)?;
    page.mark(Kind::On)?;
    tab(page, &mask.on)?;
    named(page, &[Kind::For, Kind::Column], &mask.column)?;
    page.mark(Kind::Return)?;
    expr(page, &mask.value)?;
    page.mark(switch(mask.switch))
}

/// Lays ALTER PERMISSION.
pub fn switch_permission(page: &mut Page, name: &Name, to: Switch) -> Result<(), NoMemory>
    ensures { OnOk result (page.new ≡ laid page.old (change_pieces (Change.SwitchPermission name.now to))) }
{
    switched(page, &[Kind::Alter, Kind::Permission], name, to)
}

/// Lays ALTER MASK.
pub fn switch_mask(page: &mut Page, name: &Name, to: Switch) -> Result<(), NoMemory>
    ensures { OnOk result (page.new ≡ laid page.old (change_pieces (Change.SwitchMask name.now to))) }
{
    switched(page, &[Kind::Alter, Kind::Mask], name, to)
}
