// Reads a statement from its text: the tokens, and then the reader that the first token chooses.
ghost use Rattle.std.specs.Prelude.{◌≡◌, length, IfOk, IfErr};
ghost use Rattle.lb_tok.specs.Changes.{IsStmt};
ghost use Rattle.lb_tok.specs.Refusals.{IsSpelledWithin, FaultSays};
ghost use Rattle.lb_tok.specs.Limit.{most_brackets};
ghost use Rattle.lb_tok.specs.Syntax.{IsTextOf, FailsSo};
ghost use Rattle.lb_readt.specs.Readers.{heads};
ghost use Rattle.lb_readd.specs.Choosing.{definers};

use lb_readd::definition;
use lb_readq::query_or_write;
use lb_readt::next_is;
use lb_stmt::Stmt;
use lb_tok::{Kind, ReadFault, Token, Tokens, tokens};
use std::alloc::Global;

/// The statement that a text spells: one query, write or definition, of at most 4,096 bytes of UTF-8, with at most 64
/// brackets (parentheses and CASE) open at a time.
///
/// Errors: `Syntax(at)` with the byte, from 0, at which the text goes wrong: 4096 where it is longer than that; else the
/// first byte that is not UTF-8; else the beginning of the first token with which no statement goes on, or that opens a
/// 65th bracket; else the byte that begins no token; else the text's length, where more must follow. `NoMemory` where
/// memory runs out. No text is both read and refused, and none is refused at two bytes: see the laws.
pub fn read(alloc: Global, text: &[u8]) -> Result<Stmt, ReadFault>
    ensures read { IfOk result (IsTextOf text.now) }
    ensures refused { IfErr result (FailsSo text.now) }
{
    let found = tokens(alloc, text)?;
    statement(alloc, &found)
}

// The statement that the tokens spell: the first of them tells which kind it is.
fn statement(alloc: Global, found: &Tokens) -> Result<Stmt, ReadFault>
    requires { length found.now.spans ≡ length found.now.tokens }
    ensures read { IfOk result (λ s. IsSpelledWithin IsStmt most_brackets found.now s) }
    ensures refused { IfErr result (λ e. FaultSays IsStmt most_brackets found.now e) }
{
    if begins_definition(found.tokens.as_slice()) {
        definition(alloc, found)
    } else {
        query_or_write(alloc, found)
    }
}

// Whether the first token begins a definition.
#[tactic(auto, using(crate::proofs::First::any_of_five))]
fn begins_definition(tokens: &[Token]) -> bool
    ensures { result ≡ heads definers tokens.now }
{
    next_is(tokens, Kind::Create)
        || next_is(tokens, Kind::Alter)
        || next_is(tokens, Kind::Drop)
        || next_is(tokens, Kind::Grant)
        || next_is(tokens, Kind::Revoke)
}
