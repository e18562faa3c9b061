// Keywords, and the names after them.
#![tactic(auto, using(lb_page::proofs::Rules::laying))]

ghost use Rattle.std.specs.Prelude.{◌≡◌, ◌∷◌, [], ◌++◌, OnOk, map};
ghost use Rattle.lb_tok.specs.ChangePieces.{label_piece, switch_kind, user_pieces};
ghost use Rattle.lb_tok.specs.Spacing.{laid, mark as mark_piece, name as name_piece};

use crate::word::switch;
use lb_base::{Name, NoMemory};
use lb_page::Page;
use lb_stmt::{LabelName, Switch};
use lb_tok::Kind;

/// Lays keywords and symbols one after the other.
pub fn words(page: &mut Page, kinds: &[Kind]) -> Result<(), NoMemory>
    ensures { OnOk result (page.new ≡ laid page.old (map mark_piece kinds.now)) }
{
    for kind in kinds {
        page.mark(*kind)?;
    }
    Ok(())
}

/// Lays keywords, and then a name.
pub fn named(page: &mut Page, kinds: &[Kind], name: &Name) -> Result<(), NoMemory>
    ensures { OnOk result (page.new ≡ laid page.old (map mark_piece kinds.now ++ name_piece name.now ∷ [])) }
{
    words(page, kinds)?;
    page.name(name)
}

/// Lays keywords, and then USER and the name.
pub fn with_user(page: &mut Page, kinds: &[Kind], user: &Name) -> Result<(), NoMemory>
    ensures { OnOk result (page.new ≡ laid page.old (map mark_piece kinds.now ++ user_pieces user.now)) }
{
    words(page, kinds)?;
    to_user(page, user)
}

/// Lays USER and the name.
pub fn to_user(page: &mut Page, user: &Name) -> Result<(), NoMemory>
    ensures { OnOk result (page.new ≡ laid page.old (user_pieces user.now)) }
{
    page.mark(Kind::User)?;
    page.name(user)
}

/// Lays keywords, and then policy.label.
pub fn labelled(page: &mut Page, kinds: &[Kind], label: &LabelName) -> Result<(), NoMemory>
    ensures { OnOk result (page.new ≡ laid page.old (map mark_piece kinds.now ++ label_piece label.now ∷ [])) }
{
    words(page, kinds)?;
    page.dotted(&label.policy, &label.label)
}

/// Lays keywords, a name, and ENABLE or DISABLE.
pub fn switched(page: &mut Page, kinds: &[Kind], name: &Name, to: Switch) -> Result<(), NoMemory>
    ensures { OnOk result (page.new ≡ laid page.old (map mark_piece kinds.now ++ name_piece name.now ∷ mark_piece (switch_kind to) ∷ [])) }
{
    named(page, kinds, name)?;
    page.mark(switch(to))
}
