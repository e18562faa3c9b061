// The public call: a definition from its tokens, or the byte at which they go wrong.
ghost use Rattle.std.specs.Prelude.{◌≡◌, length, IfOk, IfErr};
ghost use Rattle.lb_tok.specs.Changes.{IsDefinition};
ghost use Rattle.lb_tok.specs.Refusals.{IsSpelledWithin, FaultSays};
ghost use Rattle.lb_tok.specs.Limit.{most_brackets};

use crate::change::whole;
use lb_readq::{offset, unless_cut};
use lb_readt::Fault;
use lb_stmt::Stmt;
use lb_tok::{ReadFault, Tokens};
use std::alloc::Global;

/// The definition that the tokens of a text spell: CREATE, ALTER, DROP, GRANT or REVOKE. `Syntax` names the byte offset at
/// which the text goes wrong: that of the first token with which no definition goes on or which opens a 65th bracket, else
/// that of the byte that begins no token, else the length of the text. `NoMemory` where no memory is left.
pub fn definition(alloc: Global, tokens: &Tokens) -> Result<Stmt, ReadFault>
    requires { length tokens.now.spans ≡ length tokens.now.tokens }
    ensures read { IfOk result (λ s. IsSpelledWithin IsDefinition most_brackets tokens.now s) }
    ensures refused { IfErr result (λ e. FaultSays IsDefinition most_brackets tokens.now e) }
{
    match whole(alloc, tokens.tokens.as_slice()) {
        Ok(stmt) => unless_cut(stmt, tokens.stop),
        Err(Fault::Memory) => Err(ReadFault::NoMemory),
        Err(Fault::Bad(rest)) => Err(ReadFault::Syntax(offset(tokens, rest))),
        Err(Fault::Deep(rest)) => Err(ReadFault::Syntax(offset(tokens, rest))),
    }
}
