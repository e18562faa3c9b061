// The fixed words of an answer: marks, verbs, privileges, rules and the names of refusals.
ghost use Rattle.std.specs.Prelude.{◌≡◌};
ghost use Rattle.lb_model.specs.Out.{flaw_text, limit_text, mark_text, reason_name, privilege_text, rule_text, verb_text};

use lb_base::Rule;
use lb_cat::{Flaw, LimitOf, Mark, NeededPrivilege, Refusal, Verb};

/// The mark of a plan, or `-`.
pub fn mark_word(mark: Mark) -> &'static str
    ensures { result.now ≡ mark_text mark }
{
    match mark {
        Mark::Dash => "-",
        Mark::Cached => "plan=cached",
        Mark::Compiled => "plan=compiled",
        Mark::Unkept => "plan=unkept",
    }
}

/// What a write did, with a blank after it.
pub fn verb_word(verb: Verb) -> &'static str
    ensures { result.now ≡ verb_text verb }
{
    match verb {
        Verb::Inserted => "INSERTED ",
        Verb::Updated => "UPDATED ",
        Verb::Deleted => "DELETED ",
    }
}

/// The name of a refusal.
pub fn reason_word(refusal: &Refusal) -> &'static str
    ensures { result.now ≡ reason_name refusal.now }
{
    match refusal {
        Refusal::Syntax(_) => "SYNTAX",
        Refusal::Unknown(_) => "UNKNOWN",
        Refusal::Exists(_) => "EXISTS",
        Refusal::Types(_) => "TYPES",
        Refusal::Privilege(_, _) => "PRIVILEGE",
        Refusal::NotSecadm => "NOTSECADM",
        Refusal::ColumnRead(_, _, _) => "COLUMNREAD",
        Refusal::ColumnWrite(_, _, _) => "COLUMNWRITE",
        Refusal::RowWrite(_, _) => "ROWWRITE",
        Refusal::LabelWrite(_, _) => "LABELWRITE",
        Refusal::NoWriteLabel(_) => "NOWRITELABEL",
        Refusal::RowPermission(_, _) => "ROWPERMISSION",
        Refusal::MaskedSource(_) => "MASKEDSOURCE",
        Refusal::MaskGroup(_) => "MASKGROUP",
        Refusal::DuplicateKey(_) => "DUPLICATEKEY",
        Refusal::Overflow => "OVERFLOW",
        Refusal::ManyRows => "MANYROWS",
        Refusal::InUse(_, _) => "INUSE",
        Refusal::BadLabel(_) => "BADLABEL",
        Refusal::GrantMismatch(_) => "GRANTMISMATCH",
        Refusal::Limit(_, _) => "LIMIT",
        Refusal::JournalFull(_) => "JOURNALFULL",
        Refusal::NullValue(_, _) => "NULLVALUE",
        Refusal::TooWide(_, _, _) => "TOOWIDE",
        Refusal::BadSource(_, _) => "BADSOURCE",
        Refusal::BadTable(_, _) => "BADTABLE",
        Refusal::NotYet => "NOTYET",
    }
}

/// A privilege on a table.
pub fn privilege_word(privilege: NeededPrivilege) -> &'static str
    ensures { result.now ≡ privilege_text privilege }
{
    match privilege {
        NeededPrivilege::Select => "SELECT",
        NeededPrivilege::Insert => "INSERT",
        NeededPrivilege::Update => "UPDATE",
        NeededPrivilege::Delete => "DELETE",
        NeededPrivilege::Control => "CONTROL",
    }
}

/// A label rule, by the name that an exemption gives it (GRANT (exemption) statement).
pub fn rule_word(rule: Rule) -> &'static str
    ensures { result.now ≡ rule_text rule }
{
    match rule {
        Rule::ReadArray => "DB2LBACREADARRAY",
        Rule::ReadSet => "DB2LBACREADSET",
        Rule::ReadTree => "DB2LBACREADTREE",
        Rule::WriteDown => "DB2LBACWRITEARRAY WRITEDOWN",
        Rule::WriteUp => "DB2LBACWRITEARRAY WRITEUP",
        Rule::WriteSet => "DB2LBACWRITESET",
        Rule::WriteTree => "DB2LBACWRITETREE",
    }
}

/// What there may be only so many of.
pub fn limit_word(of: LimitOf) -> &'static str
    ensures { result.now ≡ limit_text of }
{
    match of {
        LimitOf::Tables => "TABLES",
        LimitOf::Columns => "COLUMNS",
        LimitOf::Cells => "CELLS",
        LimitOf::Width => "WIDTH",
        LimitOf::Kept => "KEPT",
        LimitOf::Elements => "ELEMENTS",
        LimitOf::Components => "COMPONENTS",
    }
}

/// What is wrong with a column.
pub fn flaw_word(flaw: Flaw) -> &'static str
    ensures { result.now ≡ flaw_text flaw }
{
    match flaw {
        Flaw::NoPolicy => "NOPOLICY",
        Flaw::TwoLabels => "TWOLABELS",
        Flaw::TwoKeys => "TWOKEYS",
        Flaw::LabelKey => "LABELKEY",
    }
}
