// Runs one section: opens its session, and executes its statements one after the other.
ghost use Rattle.std.specs.Prelude.{◌≡◌, ◌≤◌, map, OnOk, OnErr, Err};
ghost use Rattle.lb_wire.specs.Causes.{Rose};
ghost use Rattle.lb_model.specs.Journal.{opens};
ghost use Rattle.lb_front.specs.Booked.{Stands, IsSessionOf};
ghost use Rattle.lb_split.specs.Scripts.{text_in};
ghost use Rattle.lb_front.specs.Headline.{outside_of};
ghost use Rattle.lb_front.specs.Scripted.{section_in};
ghost use Rattle.lb_front.specs.declared.output.Cut.TheVariants as cuts;
ghost use Rattle.lb_front.specs.Running.{SectionWritten, SectionCut, SessionWritten, SessionPartWritten, ShutWritten, ShutPartWritten, IsShutAnswer, WrittenAfter, CutAfter};

use crate::book::{Book, Session};
use crate::output::{Cut, put_block, put_full, put_header};
use crate::stop::{Stop, unplaced};
use lb_cat::Answer;
use lb_readable::readable;
use lb_split::{Section, Span, text_at};
use lb_wire::{Clock, Sink};
use std::alloc::Global;

/// Runs sections, whose statements stand in the bytes, one after the other.
pub fn run_sections<K: Sink, C: Clock>(
    alloc: Global,
    bytes: &[u8],
    sections: &[Section],
    book: &mut Book,
    sink: &mut K,
    clock: &mut C,
) -> Result<(), Cut>
    requires stands { Stands book.old.journal.items book.old.limit book.old.store }
    requires counted { book.old.sessions ≡ opens book.old.journal.items }
    ensures ran { OnOk result (WrittenAfter book.old.journal.items book.new.journal.items book.old.limit (map (section_in bytes.now) sections.now) (outside_of (C.given clock.old) (C.given clock.new) (K.written sink.old) (K.written sink.new))) }
    ensures cut { OnErr result (CutAfter book.old.journal.items book.old.limit (map (section_in bytes.now) sections.now) (outside_of (C.given clock.old) (C.given clock.new) (K.written sink.old) (K.written sink.new))) }
    ensures stands { Stands book.new.journal.items book.new.limit book.new.store }
    ensures counted { book.new.sessions ≡ opens book.new.journal.items }
    ensures limit { book.new.limit ≡ book.old.limit }
    ensures cause { result ≡ Err cuts.WriteFault → Rose (K.faults sink.old) (K.faults sink.new) }
    ensures later { K.faults sink.old ≤ K.faults sink.new }
{
    for section in sections {
        match run_section(alloc, bytes, section, book, sink, clock) {
            Ok(()) => {}
            Err(cut) => return Err(cut),
        }
    }
    Ok(())
}

/// Opens the session of a section, whose statements stand in the bytes, and runs them. Its line is written first, and
/// the block of each statement when it is done.
fn run_section<K: Sink, C: Clock>(
    alloc: Global,
    bytes: &[u8],
    section: &Section,
    book: &mut Book,
    sink: &mut K,
    clock: &mut C,
) -> Result<(), Cut>
    requires stands { Stands book.old.journal.items book.old.limit book.old.store }
    requires counted { book.old.sessions ≡ opens book.old.journal.items }
    ensures ran { OnOk result (SectionWritten book.old.journal.items book.new.journal.items book.old.limit (section_in bytes.now section.now) (outside_of (C.given clock.old) (C.given clock.new) (K.written sink.old) (K.written sink.new))) }
    ensures cut { OnErr result (SectionCut book.old.journal.items book.new.journal.items book.old.limit (section_in bytes.now section.now) (outside_of (C.given clock.old) (C.given clock.new) (K.written sink.old) (K.written sink.new))) }
    ensures stands { Stands book.new.journal.items book.new.limit book.new.store }
    ensures counted { book.new.sessions ≡ opens book.new.journal.items }
    ensures limit { book.new.limit ≡ book.old.limit }
    ensures cause { result ≡ Err cuts.WriteFault → Rose (K.faults sink.old) (K.faults sink.new) }
    ensures later { K.faults sink.old ≤ K.faults sink.new }
{
    match book.open(alloc, &section.user, &section.groups) {
        Ok(session) => {
            run_session(
                alloc,
                bytes,
                section.statements.as_slice(),
                session,
                book,
                sink,
                clock,
            )
        }
        Err(Stop::JournalFull(limit)) => {
            run_shut(alloc, bytes, section.statements.as_slice(), limit, sink)
        }
        Err(_) => Err(Cut::NoMemory),
    }
}

/// Writes the line of a section, and runs its statements in the session that was opened now.
fn run_session<K: Sink, C: Clock>(
    alloc: Global,
    bytes: &[u8],
    statements: &[Span],
    session: Session,
    book: &mut Book,
    sink: &mut K,
    clock: &mut C,
) -> Result<(), Cut>
    requires stands { Stands book.old.journal.items book.old.limit book.old.store }
    requires session_of { IsSessionOf book.old.journal.items session }
    ensures ran { OnOk result (SessionWritten book.old.journal.items book.new.journal.items book.old.limit session (map (text_in bytes.now) statements.now) (outside_of (C.given clock.old) (C.given clock.new) (K.written sink.old) (K.written sink.new))) }
    ensures cut { OnErr result (SessionPartWritten book.old.journal.items book.new.journal.items book.old.limit session (map (text_in bytes.now) statements.now) (outside_of (C.given clock.old) (C.given clock.new) (K.written sink.old) (K.written sink.new))) }
    ensures stands { Stands book.new.journal.items book.new.limit book.new.store }
    ensures sessions { book.new.sessions ≡ book.old.sessions }
    ensures opens { opens book.new.journal.items ≡ opens book.old.journal.items }
    ensures limit { book.new.limit ≡ book.old.limit }
    ensures cause { result ≡ Err cuts.WriteFault → Rose (K.faults sink.old) (K.faults sink.new) }
    ensures later { K.faults sink.old ≤ K.faults sink.new }
{
    let mut session = session;
    match put_header(alloc, &session, sink) {
        Ok(()) => {}
        Err(cut) => return Err(cut),
    }
    for span in statements {
        let day = clock.today();
        let answer = book.execute(alloc, &mut session, day, text_at(bytes, *span));
        match put_block(alloc, answer, sink) {
            Ok(()) => {}
            Err(cut) => return Err(cut),
        }
    }
    Ok(())
}

/// Writes the line of a section whose session was not opened, and answers each of its statements without running it.
fn run_shut<K: Sink>(
    alloc: Global,
    bytes: &[u8],
    statements: &[Span],
    limit: u64,
    sink: &mut K,
) -> Result<(), Cut>
    ensures ran { OnOk result (ShutWritten limit (map (text_in bytes.now) statements.now) (K.written sink.old) (K.written sink.new)) }
    ensures cut { OnErr result (ShutPartWritten limit (map (text_in bytes.now) statements.now) (K.written sink.old) (K.written sink.new)) }
    ensures cause { result ≡ Err cuts.WriteFault → Rose (K.faults sink.old) (K.faults sink.new) }
    ensures later { K.faults sink.old ≤ K.faults sink.new }
{
    match put_full(alloc, limit, sink) {
        Ok(()) => {}
        Err(cut) => return Err(cut),
    }
    for span in statements {
        let answer = shut(alloc, limit, text_at(bytes, *span));
        match put_block(alloc, answer, sink) {
            Ok(()) => {}
            Err(cut) => return Err(cut),
        }
    }
    Ok(())
}

/// The answer to a statement of a section without a session.
fn shut(alloc: Global, limit: u64, text: &[u8]) -> Answer
    ensures { IsShutAnswer limit text.now result }
{
    match readable(alloc, text) {
        Ok(_) => unplaced(Stop::JournalFull(limit)),
        Err(fault) => unplaced(Stop::from(fault)),
    }
}
