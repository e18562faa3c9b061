// A whole input, and a whole piece of output.
ghost use Rattle.std.specs.Prelude.{◌≡◌, ◌≤◌, Ok, Err, length, IfOk, OnOk, OnErr, vec_len};
ghost use Rattle.std.specs.Io.KnownBytes.{Appends};
ghost use Rattle.lb_wire.specs.Causes.{Rose, HasCause};
ghost use Rattle.lb_wire.specs.Told.{TookAll, AppendsPart};
ghost use Rattle.lb_wire.specs.Reading.{TookUpTo};

use crate::{Failed, Sink, Source};
use std::alloc::Global;

/// The most bytes of a program's input.
pub const MOST_INPUT_BYTES: usize = 16_777_216;

// How many bytes are asked for at once.
const PIECE: usize = 4096;

/// Why no whole input was read.
#[derive(Clone, Copy, Debug, PartialEq, Eq)]
pub enum InputFault {
    /// The source failed.
    Failed,
    /// The source gave more bytes than are taken.
    TooLong,
    /// Memory ran out.
    NoMemory,
}

/// Reads all that the source has left, which may be `most` bytes.
///
/// `TooLong` comes exactly where the source gave more than that in this call, and then it gave
/// one more: the call never asks for more than what is missing to `most + 1`. `Failed` comes only
/// where the source's count of faults rose in this call. Where the answer isn't `Ok`, what was
/// read is lost.
pub fn read_all<S: Source>(
    alloc: Global,
    source: &mut S,
    most: usize,
) -> Result<Vec<u8>, InputFault>
    ensures all { IfOk result (λ v. TookAll (S.left source.old) (S.left source.new) v.items) }
    ensures most { IfOk result (λ v. vec_len v ≤ most) }
    ensures taken { TookUpTo (S.left source.old) (S.left source.new) most result }
    ensures later { S.faults source.old ≤ S.faults source.new }
    ensures failed { result ≡ Err InputFault.Failed
        → Rose (S.faults source.old) (S.faults source.new) }
{
    let mut bytes: Vec<u8> = Vec::new(alloc);
    let mut buf = [0u8; PIECE];
    loop {
        let missing = most - bytes.len();
        let room = missing.saturating_add(1).min(PIECE);
        match source.read(&mut buf[..room]) {
            Err(Failed) => return Err(InputFault::Failed),
            Ok(0) => return Ok(bytes),
            Ok(count) if count > missing => return Err(InputFault::TooLong),
            Ok(count) => {
                if bytes.extend_from_slice(&buf[..count]).is_err() {
                    return Err(InputFault::NoMemory);
                }
            }
        }
    }
}

/// Writes the whole piece, in one call of `put` where the sink takes it whole, and in none where
/// it is empty.
///
/// `Failed` comes only where the sink's count of faults rose in this call. Then the first bytes of
/// the piece were written, some of them or none.
pub fn put_all<K: Sink>(sink: &mut K, piece: &[u8]) -> Result<(), Failed>
    ensures ok { OnOk result (Appends (K.written sink.old) (K.written sink.new) piece.now) }
    ensures part { OnErr result (AppendsPart (K.written sink.old) (K.written sink.new) piece.now) }
    ensures cause { HasCause (K.faults sink.old) (K.faults sink.new) result }
    ensures empty { length piece.now ≡ 0 → (result ≡ Ok tt) × (sink.new ≡ sink.old) }
{
    let mut at = 0;
    while at < piece.len() {
        let count = sink.put(&piece[at..])?;
        at += count;
    }
    Ok(())
}
