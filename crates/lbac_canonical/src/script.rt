// Prints the line of each statement of a script.
ghost use Rattle.std.specs.Prelude.{◌≡◌, ◌⊎◌, ◌≤◌, ◌<◌, ◌^◌, Err, IfOk, OnOk, OnErr, length, map, string_bytes};
ghost use Rattle.lb_wire.specs.Causes.{Rose};
ghost use Rattle.lb_wire.specs.Inputs.{IsRunnable};
ghost use Rattle.lb_wire.specs.declared.status.Status.TheVariants as statuses;
ghost use Rattle.lb_split.specs.Pieces.{pieces_of};
ghost use Rattle.lb_split.specs.Scripts.{text_in};
ghost use Rattle.lbac_canonical.specs.declared.script.Cut.TheVariants as cuts;
ghost use Rattle.lbac_canonical.specs.Lines.{IsPut, IsPutPart, IsPrinted, Printed, PrintedPart, all_statements};
ghost use Rattle.lbac_canonical.specs.Ending.{Ends};

use crate::line::line_of;
use lb_base::{Listing, NoMemory};
use lb_split::{Piece, Span, Spans, resume, split, text_at};
use lb_wire::{InputFault, MOST_INPUT_BYTES, Sink, Source, Status, put_all, read_all};
use std::alloc::Global;

/// Why the lines were not all written.
#[derive(Clone, Copy, Debug, PartialEq, Eq)]
enum Cut {
    NoMemory,
    WriteFault,
}

/// Reads a script to its end, and writes the line of each of its statements. Headers, QUIT and blank statements have
/// none. The status is Done, of a script of at most 16,777,216 bytes; or ReadFault, TooLong (where the source gave more
/// bytes than that) or NoMemory, and nothing was written; or WriteFault or NoMemory, and the first bytes of the lines were
/// written. Where the source tells bytes within the limit and neither it nor the sink failed, it is Done or NoMemory.
pub fn put_script<S: Source, K: Sink>(alloc: Global, source: &mut S, sink: &mut K) -> Status
    ensures ends { Ends result (S.left source.old) (S.left source.new) (K.written sink.old) (K.written sink.new) }
    ensures read { result ≡ statuses.ReadFault → Rose (S.faults source.old) (S.faults source.new) }
    ensures write { result ≡ statuses.WriteFault → Rose (K.faults sink.old) (K.faults sink.new) }
    ensures complete { IsRunnable (S.left source.old) → (Rose (S.faults source.old) (S.faults source.new) → ⊥) → (Rose (K.faults sink.old) (K.faults sink.new) → ⊥) → (result ≡ statuses.Done) ⊎ (result ≡ statuses.NoMemory) }
{
    let script = match read_all(alloc, source, MOST_INPUT_BYTES) {
        Ok(script) => script,
        Err(InputFault::Failed) => return Status::ReadFault,
        Err(InputFault::TooLong) => return Status::TooLong,
        Err(InputFault::NoMemory) => return Status::NoMemory,
    };
    let spans = match statements(alloc, &script) {
        Ok(spans) => spans,
        Err(_) => return Status::NoMemory,
    };
    match put_lines(alloc, &script, spans.as_slice(), sink) {
        Ok(()) => Status::Done,
        Err(Cut::NoMemory) => Status::NoMemory,
        Err(Cut::WriteFault) => Status::WriteFault,
    }
}

/// The statements of a script.
fn statements(alloc: Global, script: &[u8]) -> Result<Spans, NoMemory>
    requires short { length script.now < 2 ^ 32 }
    ensures { IfOk result (λ spans. spans ≡ all_statements (pieces_of script.now)) }
{
    let mut statements = Listing::empty(alloc);
    let mut at = 0;
    'pieces: loop {
        let piece = split(script, at);
        match piece {
            Piece::Header(_, _) => {}
            Piece::Statement(from, to) => statements.push((from, to))?,
            Piece::Quit(_, _) => {}
            Piece::End => return Ok(statements),
        }
        at = resume(script, piece);
    }
}

/// Writes the line of each of these statements of the script.
fn put_lines<K: Sink>(alloc: Global, script: &[u8], spans: &[Span], sink: &mut K) -> Result<(), Cut>
    ensures ok { OnOk result (Printed (map (text_in script.now) spans.now) (K.written sink.old) (K.written sink.new)) }
    ensures part { OnErr result (PrintedPart (map (text_in script.now) spans.now) (K.written sink.old) (K.written sink.new)) }
    ensures cause { result ≡ Err cuts.WriteFault → Rose (K.faults sink.old) (K.faults sink.new) }
{
    for span in spans {
        match put_line(alloc, text_at(script, *span), sink) {
            Ok(()) => {}
            Err(cut) => return Err(cut),
        }
    }
    Ok(())
}

/// Writes the line of one statement.
fn put_line<K: Sink>(alloc: Global, text: &[u8], sink: &mut K) -> Result<(), Cut>
    ensures ok { OnOk result (IsPut text.now (K.written sink.old) (K.written sink.new)) }
    ensures part { OnErr result (IsPutPart text.now (K.written sink.old) (K.written sink.new)) }
    ensures cause { result ≡ Err cuts.WriteFault → Rose (K.faults sink.old) (K.faults sink.new) }
    ensures later { K.faults sink.old ≤ K.faults sink.new }
{
    match printed(alloc, text) {
        Ok(line) => match put_all(sink, line.as_str().as_bytes()) {
            Ok(()) => Ok(()),
            Err(_) => Err(Cut::WriteFault),
        },
        Err(_) => Err(Cut::NoMemory),
    }
}

/// The line of one statement, with its end.
fn printed(alloc: Global, text: &[u8]) -> Result<String, NoMemory>
    ensures { IfOk result (λ s. IsPrinted text.now (string_bytes s)) }
{
    let line = line_of(alloc, text)?.text(alloc)?;
    let mut out = String::from_str(alloc, line.as_str())?;
    out.push_str("\n")?;
    Ok(out)
}
