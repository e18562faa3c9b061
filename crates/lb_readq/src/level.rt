// One level of brackets over the next: the only recursion of the readers.
ghost use Rattle.std.specs.Prelude.{⊤};
ghost use Rattle.lb_readq.specs.Queries.{readers};
ghost use Rattle.lb_readt.specs.Answering.{Gives};
ghost use Rattle.lb_reade.specs.Bracketed.{inner_of, within};
ghost use Rattle.lb_readq.specs.Levels.{level_at};

use crate::clause::query;
use crate::opener::open;
use lb_reade::{Brackets, Inside, Mixed, Wanted, cond, expr, mixed};
use lb_readt::{Fault, Read};
use lb_tok::{Kind, Token};
use std::alloc::Global;

// Brackets whose content a closure reads, so that `level` may lend its readers a call of itself.
#[derive(Drop)]
struct Through<F> {
    // How many brackets may still open.
    depth: u32,
    read: F,
}

impl<F: for<'t> Fn(&'t [Token], Wanted) -> Read<'t, Inside>> Brackets for Through<F> {
    ghost readers = { λ s. readers s.depth };

    ghost ready = { λ s. F.IsAlwaysCallable s.read × ((tokens : _) (wanted : _) (r : _) → F.post s.read tokens wanted r
        → Gives (λ r. (inner_of r.0, r.1.now)) r (within (readers s.depth) wanted tokens.now)) };

    fn open<'a>(&self, tokens: &'a [Token], kind: Kind) -> Result<&'a [Token], Fault<'a>> {
        open(tokens, kind, self.depth)
    }

    fn inside<'a>(&self, _alloc: Global, tokens: &'a [Token], wanted: Wanted) -> Read<'a, Inside> {
        (self.read)(tokens, wanted)
    }
}

// Reads what stands after an opener, where `depth` brackets might still open before it.
#[cycle(levels)]
#[tactic(auto, using(crate::proofs::Levels::one_in, crate::proofs::Levels::none_in))]
fn below<'a>(alloc: Global, tokens: &'a [Token], depth: u32, wanted: Wanted) -> Read<'a, Inside>
    ensures { Gives (λ r. (inner_of r.0, r.1.now)) result (within (readers depth) wanted tokens.now) }
{
    if depth == 0 {
        Err(Fault::Deep(tokens))
    } else {
        level(alloc, tokens, depth - 1, wanted)
    }
}

// Reads what is wanted, where `depth` brackets may still open and `read` reads what stands in them.
fn read_through<'a, F: for<'t> Fn(&'t [Token], Wanted) -> Read<'t, Inside>>(
    alloc: Global,
    tokens: &'a [Token],
    depth: u32,
    wanted: Wanted,
    read: F,
) -> Read<'a, Inside>
    requires called { F.IsAlwaysCallable read }
    requires reads { (rest : _) (wanted : _) (r : _) → F.post read rest wanted r → Gives (λ r. (inner_of r.0, r.1.now)) r (within (readers depth) wanted rest.now) }
    ensures { Gives (λ r. (inner_of r.0, r.1.now)) result (level_at (readers depth) wanted tokens.now) }
{
    let brackets = Through { depth, read };
    match wanted {
        Wanted::Expr => {
            let (value, rest) = expr(alloc, tokens, &brackets)?;
            Ok((Inside::Expr(value), rest))
        }
        Wanted::Condition => {
            let (value, rest) = cond(alloc, tokens, &brackets)?;
            Ok((Inside::Condition(value), rest))
        }
        Wanted::Mixed => {
            let (value, rest) = mixed(alloc, tokens, &brackets)?;
            match value {
                Mixed::Cond(value) => Ok((Inside::Condition(value), rest)),
                Mixed::Expr(value) => Ok((Inside::Expr(value), rest)),
            }
        }
        Wanted::Query => {
            let (value, rest) = query(alloc, tokens, &brackets)?;
            Ok((Inside::Query(value), rest))
        }
    }
}

// Reads what is wanted, where `depth` brackets may still open.
#[cycle(levels)]
fn level<'a>(alloc: Global, tokens: &'a [Token], depth: u32, wanted: Wanted) -> Read<'a, Inside>
    ensures { Gives (λ r. (inner_of r.0, r.1.now)) result (level_at (readers depth) wanted tokens.now) }
{
    read_through(
        alloc,
        tokens,
        depth,
        wanted,
        |rest, wanted|
            ensures { Gives (λ r. (inner_of r.0, r.1.now)) result (within (readers depth) wanted rest.now) }
        { below(alloc, rest, depth, wanted) },
    )
}

/// Brackets of which a certain number may still open.
#[derive(Clone, Copy)]
pub struct Depth {
    /// How many may still open.
    pub left: u32,
}

impl Brackets for Depth {
    ghost readers = { λ s. readers s.left };

    ghost ready = { λ _. ⊤ };

    fn open<'a>(&self, tokens: &'a [Token], kind: Kind) -> Result<&'a [Token], Fault<'a>> {
        open(tokens, kind, self.left)
    }

    fn inside<'a>(&self, alloc: Global, tokens: &'a [Token], wanted: Wanted) -> Read<'a, Inside> {
        below(alloc, tokens, self.left, wanted)
    }
}
