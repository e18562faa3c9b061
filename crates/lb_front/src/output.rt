// Writes the lines of a run: the line of a section, the block of an answer, the line of a broken script.
ghost use Rattle.std.specs.Prelude.{◌≡◌, ◌≤◌, [], OnOk, OnErr, Err};
ghost use Rattle.std.specs.Io.KnownBytes.{Appends};
ghost use Rattle.lb_wire.specs.Causes.{Rose};
ghost use Rattle.lb_wire.specs.Told.{AppendsPart};
ghost use Rattle.lb_model.specs.Out.{bad_script_text, block_text, full_text, header_text};
ghost use Rattle.lb_front.specs.declared.output.Cut.TheVariants as cuts;
ghost use Rattle.lb_front.specs.Running.{cut_status};

use crate::book::Session;
use crate::stop::{Stop, unplaced};
use lb_block::{bad_script, block, header};
use lb_cat::Answer;
use lb_wire::{Sink, Status, put_all};
use std::alloc::Global;

/// Why a text was not written whole.
#[derive(Clone, Copy, Debug, PartialEq, Eq)]
pub enum Cut {
    NoMemory,
    WriteFault,
}

/// The status of a run that was cut short so.
pub fn status_of(cut: Cut) -> Status
    ensures { result ≡ cut_status cut }
{
    match cut {
        Cut::NoMemory => Status::NoMemory,
        Cut::WriteFault => Status::WriteFault,
    }
}

/// Writes the line of a section whose session was opened.
pub fn put_header<K: Sink>(alloc: Global, session: &Session, sink: &mut K) -> Result<(), Cut>
    ensures ok { OnOk result (Appends (K.written sink.old) (K.written sink.new) (header_text session.now.place session.now.number session.now.user)) }
    ensures part { OnErr result (AppendsPart (K.written sink.old) (K.written sink.new) (header_text session.now.place session.now.number session.now.user)) }
    ensures cause { result ≡ Err cuts.WriteFault → Rose (K.faults sink.old) (K.faults sink.new) }
    ensures later { K.faults sink.old ≤ K.faults sink.new }
{
    match header(alloc, session.place, session.number, &session.user) {
        Ok(line) => put_text(line.as_str().as_bytes(), sink),
        Err(_) => Err(Cut::NoMemory),
    }
}

/// Writes the line of a section whose session was not opened, since the journal has as many entries as it may have.
pub fn put_full<K: Sink>(alloc: Global, limit: u64, sink: &mut K) -> Result<(), Cut>
    ensures ok { OnOk result (Appends (K.written sink.old) (K.written sink.new) (full_text limit)) }
    ensures part { OnErr result (AppendsPart (K.written sink.old) (K.written sink.new) (full_text limit)) }
    ensures cause { result ≡ Err cuts.WriteFault → Rose (K.faults sink.old) (K.faults sink.new) }
    ensures later { K.faults sink.old ≤ K.faults sink.new }
{
    put_block(alloc, unplaced(Stop::JournalFull(limit)), sink)
}

/// Writes the one line of a script that breaks the form at this line.
pub fn put_bad_script<K: Sink>(alloc: Global, line: u32, sink: &mut K) -> Result<(), Cut>
    ensures ok { OnOk result (Appends (K.written sink.old) (K.written sink.new) (bad_script_text line)) }
    ensures part { OnErr result (AppendsPart (K.written sink.old) (K.written sink.new) (bad_script_text line)) }
    ensures memory { result ≡ Err cuts.NoMemory → Appends (K.written sink.old) (K.written sink.new) [] }
    ensures cause { result ≡ Err cuts.WriteFault → Rose (K.faults sink.old) (K.faults sink.new) }
    ensures later { K.faults sink.old ≤ K.faults sink.new }
{
    match bad_script(alloc, line) {
        Ok(line) => put_text(line.as_str().as_bytes(), sink),
        Err(_) => Err(Cut::NoMemory),
    }
}

/// Writes the block of an answer.
pub fn put_block<K: Sink>(alloc: Global, answer: Answer, sink: &mut K) -> Result<(), Cut>
    ensures ok { OnOk result (Appends (K.written sink.old) (K.written sink.new) (block_text answer)) }
    ensures part { OnErr result (AppendsPart (K.written sink.old) (K.written sink.new) (block_text answer)) }
    ensures cause { result ≡ Err cuts.WriteFault → Rose (K.faults sink.old) (K.faults sink.new) }
    ensures later { K.faults sink.old ≤ K.faults sink.new }
{
    match block(alloc, &answer) {
        Ok(text) => put_text(text.as_str().as_bytes(), sink),
        Err(_) => Err(Cut::NoMemory),
    }
}

fn put_text<K: Sink>(text: &[u8], sink: &mut K) -> Result<(), Cut>
    ensures ok { OnOk result (Appends (K.written sink.old) (K.written sink.new) text.now) }
    ensures part { OnErr result (AppendsPart (K.written sink.old) (K.written sink.new) text.now) }
    ensures cause { OnErr result (Rose (K.faults sink.old) (K.faults sink.new)) }
    ensures fault { result ≡ Err cuts.NoMemory → ⊥ }
    ensures later { K.faults sink.old ≤ K.faults sink.new }
{
    match put_all(sink, text) {
        Ok(()) => Ok(()),
        Err(_) => Err(Cut::WriteFault),
    }
}
