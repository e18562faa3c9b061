// Prints a refusal: its number, its name and its fields. Each refusal has its own fields; all are matched here alone.
ghost use Rattle.std.specs.Prelude.{◌≡◌, ◌++◌, OnOk, codes, string_bytes};
ghost use Rattle.lb_model.specs.Out.{fields, joined_by, refusal_text, tried_text};
ghost use Rattle.lb_block.specs.Parts.{behind_blanks};

use crate::part::{push_number, push_separator, push_word, push_words};
use crate::word::{flaw_word, limit_word, privilege_word, reason_word, rule_word};
use lb_base::{Name, NoMemory};
use lb_cat::Refusal;

/// REFUSED, and the refusal's number, name and fields.
pub fn push_refusal(out: &mut String, refusal: &Refusal) -> Result<(), NoMemory>
    ensures { OnOk result (string_bytes out.new ≡ string_bytes out.old ++ refusal_text refusal.now) }
{
    let number = refusal.number();
    write!(out, "REFUSED {number} ")?;
    out.push_str(reason_word(refusal))?;
    push_fields(out, refusal)
}

// Each field after a blank.
fn push_fields(out: &mut String, refusal: &Refusal) -> Result<(), NoMemory>
    ensures { OnOk result (string_bytes out.new ≡ string_bytes out.old ++ behind_blanks (fields refusal.now)) }
{
    match refusal {
        Refusal::Overflow | Refusal::ManyRows | Refusal::NotSecadm | Refusal::NotYet => Ok(()),
        Refusal::Syntax(at) | Refusal::Types(at) | Refusal::BadLabel(at) => {
            push_number(out, u64::from(*at))
        }
        Refusal::JournalFull(most) => push_number(out, *most),
        Refusal::Limit(of, most) => {
            push_word(out, limit_word(*of))?;
            push_number(out, *most)
        }
        Refusal::Unknown(name)
        | Refusal::Exists(name)
        | Refusal::NoWriteLabel(name)
        | Refusal::MaskedSource(name)
        | Refusal::MaskGroup(name)
        | Refusal::DuplicateKey(name)
        | Refusal::GrantMismatch(name) => push_word(out, name.as_str()),
        Refusal::InUse(first, second)
        | Refusal::NullValue(first, second)
        | Refusal::BadSource(first, second) => push_words(out, first.as_str(), second.as_str()),
        Refusal::TooWide(table, column, width) => {
            push_words(out, table.as_str(), column.as_str())?;
            push_number(out, u64::from(*width))
        }
        Refusal::BadTable(column, flaw) => push_words(out, column.as_str(), flaw_word(*flaw)),
        Refusal::Privilege(right, table) => push_words(out, privilege_word(*right), table.as_str()),
        Refusal::RowWrite(component, rule) | Refusal::LabelWrite(component, rule) => {
            push_words(out, component.as_str(), rule_word(*rule))
        }
        Refusal::ColumnRead(column, component, rule)
        | Refusal::ColumnWrite(column, component, rule) => {
            push_word(out, column.as_str())?;
            push_words(out, component.as_str(), rule_word(*rule))
        }
        Refusal::RowPermission(table, tried) => {
            push_word(out, table.as_str())?;
            out.push_str(" ")?;
            push_tried(out, tried.as_slice())
        }
    }
}

// The permissions that were tried, or DEFAULT where none is enabled.
fn push_tried(out: &mut String, tried: &[Name]) -> Result<(), NoMemory>
    ensures { OnOk result (string_bytes out.new ≡ string_bytes out.old ++ tried_text tried.now) }
{
    if tried.is_empty() {
        out.push_str("DEFAULT")
    } else {
        push_names(out, tried)
    }
}

fn push_names(out: &mut String, names: &[Name]) -> Result<(), NoMemory>
    ensures { OnOk result (string_bytes out.new ≡ string_bytes out.old ++ joined_by (codes ",") names.now) }
{
    for (place, name) in names.iter().enumerate() {
        push_separator(out, ",", place)?;
        out.push_str(name.as_str())?;
    }
    Ok(())
}
