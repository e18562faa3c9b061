// Prints a journal: the line with the number of its entries, and the line of each entry.
ghost use Rattle.std.specs.Prelude.{◌≡◌, ◌++◌, IfOk, OnOk, string_bytes};
ghost use Rattle.lb_block.specs.Journal.{entry_text, entry_words, journal_text};
ghost use Rattle.lb_block.specs.Parts.{behind_blanks};

use crate::part::{push_number, push_word, push_words};
use lb_base::{Name, NoMemory, Str};
use lb_cat::Entry;
use std::alloc::Global;

/// The first line of a journal, with the number of its entries. The only error is out of memory.
pub fn journal(alloc: Global, entries: u64) -> Result<Str, NoMemory>
    ensures { IfOk result (λ t. t ≡ journal_text entries) }
{
    let mut out = String::new(alloc);
    write!(out, "JOURNAL {entries}\n")?;
    Ok(Str::from_string(out))
}

/// The line of the entry at a place of the journal, counted from 0, before which so many sessions were opened: the number
/// of its session, and of an Open its user and groups, or of a statement its number within the session and its canonical
/// text. The only error is out of memory.
pub fn entry(alloc: Global, place: u64, opened: u32, entry: &Entry) -> Result<Str, NoMemory>
    ensures { IfOk result (λ t. t ≡ entry_text place opened entry.now) }
{
    let mut out = String::new(alloc);
    write!(out, "{place}")?;
    push_entry(&mut out, opened, entry)?;
    out.push_str("\n")?;
    Ok(Str::from_string(out))
}

fn push_entry(out: &mut String, opened: u32, entry: &Entry) -> Result<(), NoMemory>
    ensures { OnOk result (string_bytes out.new ≡ string_bytes out.old ++ behind_blanks (entry_words opened entry.now)) }
{
    match entry {
        Entry::Open(user, groups) => {
            push_number(out, u64::from(opened))?;
            push_words(out, "OPEN", user.as_str())?;
            push_each(out, groups.as_slice())
        }
        Entry::Said(said) => {
            push_number(out, u64::from(said.session))?;
            push_number(out, u64::from(said.number))?;
            push_word(out, said.text.as_str())
        }
    }
}

// Each name after a blank.
fn push_each(out: &mut String, names: &[Name]) -> Result<(), NoMemory>
    ensures { OnOk result (string_bytes out.new ≡ string_bytes out.old ++ behind_blanks names.now) }
{
    for name in names {
        push_word(out, name.as_str())?;
    }
    Ok(())
}
