// Openers, where a number of brackets may still open.
ghost use Rattle.std.specs.Prelude.{◌<◌, IfOk};
ghost use Rattle.lb_readt.specs.Readers.{open_at};
ghost use Rattle.lb_readt.specs.Answering.{Gives};
ghost use Rattle.lb_readq.specs.Queries.{readers};

use lb_readt::{Fault, next_is, take};
use lb_tok::{Kind, Token};

/// Takes an opener of this kind, where `depth` brackets may still open: the tokens after it. `Deep` at an opener where
/// `depth` is 0, `Bad` at any other token.
#[tactic(auto, using(crate::proofs::Rooms::no_room, crate::proofs::Rooms::has_room))]
pub fn open<'a>(tokens: &'a [Token], kind: Kind, depth: u32) -> Result<&'a [Token], Fault<'a>>
    ensures given { Gives (λ r. (tt, r.now)) result (open_at (readers depth).room kind tokens.now) }
    ensures room { IfOk result (λ _. 0 < depth) }
{
    if depth > 0 {
        take(tokens, kind)
    } else if next_is(tokens, kind) {
        Err(Fault::Deep(tokens))
    } else {
        Err(Fault::Bad(tokens))
    }
}
