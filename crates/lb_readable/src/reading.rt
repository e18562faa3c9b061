// A statement is read, printed, and read again from what was printed.
ghost use Rattle.std.specs.Prelude.{◌≡◌, IfOk, IfErr, OnOk};
ghost use Rattle.lb_tok.specs.Canonical.{canonical as canonical_text};
ghost use Rattle.lb_tok.specs.Spelled.{IsSpoken};
ghost use Rattle.lb_tok.specs.Syntax.{IsTextOf, IsBeyond};
ghost use Rattle.lb_readable.specs.Again.{HoldsStatementOf, IsRefusedSo, IsReadAgain, FailsAgain};

use crate::Readable;
use lb_print::canonical;
use lb_read::{ReadFault, read};
use lb_stmt::Stmt;
use lb_tok::MOST_STATEMENT_BYTES;
use std::alloc::Global;

/// The statement of a text, and its canonical text, which is read as that statement again.
///
/// Errors: `Syntax(at)` with the byte, from 0, at which the text goes wrong, as `lb_read::read` tells it; and `Syntax(4096)`
/// where the text is read, but its canonical text has more than 4,096 bytes or more than 64 brackets open at a time, so
/// that it can't be read again. `NoMemory` where memory runs out.
pub fn readable(alloc: Global, text: &[u8]) -> Result<Readable, ReadFault>
    ensures read { IfOk result (HoldsStatementOf text.now) }
    ensures refused { IfErr result (IsRefusedSo text.now) }
{
    let stmt = read(alloc, text)?;
    let again = read_again(alloc, &stmt);
    drop(stmt);
    again
}

/// Prints a statement that some text spells, and reads what was printed: the statement that is read is the same.
///
/// Errors: `Syntax(4096)` where the canonical text has more than 4,096 bytes or more than 64 brackets open at a time.
/// `NoMemory` where memory runs out.
pub fn read_back(alloc: Global, stmt: &Stmt) -> Result<Stmt, ReadFault>
    requires spoken { IsSpoken stmt.now }
    ensures same { IfOk result (λ s. s ≡ stmt.now) }
    ensures read { OnOk result (IsTextOf (canonical_text stmt.now) stmt.now) }
    ensures within { OnOk result (IsBeyond stmt.now → ⊥) }
    ensures refused { IfErr result (FailsAgain stmt.now) }
{
    let again = read_again(alloc, stmt)?;
    Ok(again.stmt)
}

/// The canonical text of a statement, and the statement that is read from it.
fn read_again(alloc: Global, stmt: &Stmt) -> Result<Readable, ReadFault>
    requires { IsSpoken stmt.now }
    ensures read { IfOk result (IsReadAgain stmt.now) }
    ensures refused { IfErr result (FailsAgain stmt.now) }
{
    let text = canonical(alloc, stmt)?;
    match read(alloc, text.as_str().as_bytes()) {
        Ok(again) => Ok(Readable { stmt: again, text }),
        Err(ReadFault::Syntax(_)) => Err(ReadFault::Syntax(MOST_STATEMENT_BYTES as u32)),
        Err(ReadFault::NoMemory) => Err(ReadFault::NoMemory),
    }
}
