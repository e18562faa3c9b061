// The top call: reads the whole input, takes it apart into sections and runs them, and answers the status.
ghost use Rattle.std.specs.Prelude.{◌≡◌, ◌<◌, ◌^◌, ◌∷◌, ◌↔◌, ◌⊎◌, ℕ, [], codes, IsTrue};
ghost use Rattle.std.specs.Io.KnownBytes.{Appends};
ghost use Rattle.lb_model.specs.Out.{bad_script_text};
ghost use Rattle.lb_wire.specs.Causes.{Rose};
ghost use Rattle.lb_wire.specs.declared.status.Status.TheVariants as statuses;
ghost use Rattle.lb_wire.specs.Inputs.{IsRunnable};
ghost use Rattle.lb_front.specs.Headline.{Ends, IsAnswered, most_entries, outside_of};
ghost use Rattle.lb_front.specs.Scripted.{sections_in};
ghost use Rattle.lb_front.specs.Running.{ScriptEnds, BrokenEnds};

use crate::book::Book;
use crate::output::{Cut, put_bad_script, status_of};
use crate::section::run_sections;
use lb_base::Str;
use lb_split::{Script, ScriptFault, sections};
use lb_wire::{Clock, InputFault, MOST_INPUT_BYTES, Sink, Source, Status, read_all};
use std::alloc::Global;

/// The most entries of the journal.
const MOST_ENTRIES: u64 = 1_048_576;

/// Runs the script of the source, and writes the line of each section and the block of each statement to the sink. The words are those of the command
/// line after the program's name; the one form is `run`.
pub fn run_alone<S: Source, K: Sink, C: Clock>(
    alloc: Global,
    words: &[Str],
    source: &mut S,
    sink: &mut K,
    clock: &mut C,
) -> Status
    ensures words { (result ≡ statuses.BadWords) ↔ ((words.now ≡ codes "run" ∷ []) → ⊥) }
    ensures untouched { result ≡ statuses.BadWords → (source.new ≡ source.old) × (sink.new ≡ sink.old) × (clock.new ≡ clock.old) }
    ensures read { result ≡ statuses.ReadFault → Rose (S.faults source.old) (S.faults source.new) }
    ensures write { result ≡ statuses.WriteFault → Rose (K.faults sink.old) (K.faults sink.new) }
    ensures line { (n : ℕ) → result ≡ statuses.BadScript n → Appends (K.written sink.old) (K.written sink.new) (bad_script_text n) ⊎ Rose (K.faults sink.old) (K.faults sink.new) }
    ensures ends { Ends result most_entries (S.left source.old) (S.left source.new) (outside_of (C.given clock.old) (C.given clock.new) (K.written sink.old) (K.written sink.new)) }
    ensures complete { words.now ≡ codes "run" ∷ [] → IsRunnable (S.left source.old) → (Rose (S.faults source.old) (S.faults source.new) → ⊥) → (Rose (K.faults sink.old) (K.faults sink.new) → ⊥) → IsAnswered result }
{
    if !is_run(words) {
        return Status::BadWords;
    }
    run_within(alloc, MOST_ENTRIES, source, sink, clock)
}

/// Whether the words are the one form: `run`.
fn is_run(words: &[Str]) -> bool
    ensures { IsTrue result ↔ (words.now ≡ codes "run" ∷ []) }
{
    match words {
        [word] => word.as_str() == "run",
        _ => false,
    }
}

/// Runs the script of the source over a journal that may have so many entries.
pub fn run_within<S: Source, K: Sink, C: Clock>(
    alloc: Global,
    limit: u64,
    source: &mut S,
    sink: &mut K,
    clock: &mut C,
) -> Status
    requires bounded { limit < 2 ^ 32 }
    ensures words { result ≡ statuses.BadWords → ⊥ }
    ensures read { result ≡ statuses.ReadFault → Rose (S.faults source.old) (S.faults source.new) }
    ensures write { result ≡ statuses.WriteFault → Rose (K.faults sink.old) (K.faults sink.new) }
    ensures line { (n : ℕ) → result ≡ statuses.BadScript n → Appends (K.written sink.old) (K.written sink.new) (bad_script_text n) ⊎ Rose (K.faults sink.old) (K.faults sink.new) }
    ensures ends { Ends result limit (S.left source.old) (S.left source.new) (outside_of (C.given clock.old) (C.given clock.new) (K.written sink.old) (K.written sink.new)) }
    ensures complete { IsRunnable (S.left source.old) → (Rose (S.faults source.old) (S.faults source.new) → ⊥) → (Rose (K.faults sink.old) (K.faults sink.new) → ⊥) → IsAnswered result }
{
    let input = match read_all(alloc, source, MOST_INPUT_BYTES) {
        Ok(input) => input,
        Err(InputFault::Failed) => return Status::ReadFault,
        Err(InputFault::TooLong) => return Status::TooLong,
        Err(InputFault::NoMemory) => return Status::NoMemory,
    };
    match sections(alloc, &input) {
        Ok(script) => run_script(alloc, limit, &input, script, sink, clock),
        Err(ScriptFault::BadScript(line)) => run_broken(alloc, line, sink),
        Err(ScriptFault::NoMemory) => Status::NoMemory,
    }
}

/// Says at which line the form of a script is broken, also where that can't be written whole.
fn run_broken<K: Sink>(alloc: Global, line: u32, sink: &mut K) -> Status
    ensures line { (n : ℕ) → result ≡ statuses.BadScript n → Appends (K.written sink.old) (K.written sink.new) (bad_script_text n) ⊎ Rose (K.faults sink.old) (K.faults sink.new) }
    ensures ends { BrokenEnds result line (K.written sink.old) (K.written sink.new) }
{
    match put_bad_script(alloc, line, sink) {
        Ok(()) => Status::BadScript(line),
        Err(Cut::WriteFault) => Status::BadScript(line),
        Err(Cut::NoMemory) => Status::NoMemory,
    }
}

/// Runs the sections of a script, whose statements stand in the bytes: that of SETUP, if there is one, and then those of
/// the sessions.
fn run_script<K: Sink, C: Clock>(
    alloc: Global,
    limit: u64,
    bytes: &[u8],
    script: Script,
    sink: &mut K,
    clock: &mut C,
) -> Status
    requires bounded { limit < 2 ^ 32 }
    ensures write { result ≡ statuses.WriteFault → Rose (K.faults sink.old) (K.faults sink.new) }
    ensures ends { ScriptEnds result limit (sections_in bytes.now script) (outside_of (C.given clock.old) (C.given clock.new) (K.written sink.old) (K.written sink.new)) }
{
    let mut book = Book::empty(alloc, limit);
    match run_sections(
        alloc,
        bytes,
        script.setup.as_slice(),
        &mut book,
        sink,
        clock,
    ) {
        Ok(()) => {}
        Err(cut) => return status_of(cut),
    }
    match run_sections(
        alloc,
        bytes,
        script.sessions.as_slice(),
        &mut book,
        sink,
        clock,
    ) {
        Ok(()) => Status::Done,
        Err(cut) => status_of(cut),
    }
}
