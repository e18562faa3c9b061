// The text of an answer, of a section's line and of a script that breaks the form.
ghost use Rattle.std.specs.Prelude.{◌≡◌, ◌++◌, IfOk, OnOk, string_bytes};
ghost use Rattle.lb_model.specs.Out.{bad_script_text, block_text, header_text, place_text, reply_text};

use crate::refusal::push_refusal;
use crate::row::push_rows;
use crate::word::{mark_word, verb_word};
use lb_base::{Name, NoMemory, Str};
use lb_cat::{Answer, Reply};
use std::alloc::Global;

/// The block of an answer: a line with its place in the journal (or `-`), its mark and its reply, and a line for each row
/// of a query. Days are written as yyyy-mm-dd; a label, or a day outside the years 0001 to 9999, would give an empty value.
/// The only error is out of memory.
pub fn block(alloc: Global, answer: &Answer) -> Result<Str, NoMemory>
    ensures { IfOk result (λ t. t ≡ block_text answer.now) }
{
    let mut out = String::new(alloc);
    push_place(&mut out, answer.place)?;
    out.push_str(" ")?;
    out.push_str(mark_word(answer.mark))?;
    out.push_str(" ")?;
    push_reply(&mut out, &answer.reply)?;
    Ok(Str::from_string(out))
}

/// The line of a section: the place in the journal of the entry that opened its session, counted from 0, the session's
/// number, and its user. The only error is out of memory.
pub fn header(alloc: Global, place: u64, session: u32, user: &Name) -> Result<Str, NoMemory>
    ensures { IfOk result (λ t. t ≡ header_text place session user.now) }
{
    let mut out = String::new(alloc);
    write!(out, "{place} - SESSION {session} ")?;
    out.push_str(user.as_str())?;
    out.push_str("\n")?;
    Ok(Str::from_string(out))
}

/// The one line of a script that breaks the form at this line, counted from 1. The only error is out of memory.
pub fn bad_script(alloc: Global, line: u32) -> Result<Str, NoMemory>
    ensures { IfOk result (λ t. t ≡ bad_script_text line) }
{
    let mut out = String::new(alloc);
    write!(out, "BADSCRIPT {line}\n")?;
    Ok(Str::from_string(out))
}

fn push_place(out: &mut String, place: Option<u64>) -> Result<(), NoMemory>
    ensures { OnOk result (string_bytes out.new ≡ string_bytes out.old ++ place_text place) }
{
    match place {
        Some(place) => write!(out, "{place}"),
        None => out.push_str("-"),
    }
}

fn push_reply(out: &mut String, reply: &Reply) -> Result<(), NoMemory>
    ensures { OnOk result (string_bytes out.new ≡ string_bytes out.old ++ reply_text reply.now) }
{
    match reply {
        Reply::Rows(rows) => {
            let count = rows.len();
            write!(out, "ROWS {count}\n")?;
            push_rows(out, rows.as_slice())
        }
        Reply::Wrote(verb, count) => {
            out.push_str(verb_word(*verb))?;
            write!(out, "{count}\n")
        }
        Reply::Done => out.push_str("DONE\n"),
        Reply::Refused(refusal) => {
            push_refusal(out, refusal)?;
            out.push_str("\n")
        }
        Reply::NoMemory => out.push_str("NOMEMORY\n"),
    }
}
