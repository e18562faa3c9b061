// Readers for the crates above, with the number of brackets that may still open.
ghost use Rattle.lb_readt.specs.Answering.{Gives};
ghost use Rattle.lb_reade.specs.Expressions.{cond_at, case_at};
ghost use Rattle.lb_readq.specs.Queries.{readers, select_at};

use crate::level::Depth;
use crate::select_statement;
use lb_readt::Read;
use lb_tok::Token;
use lb_tree::{Cond, Expr, Select};
use std::alloc::Global;

/// Reads a condition where `depth` brackets may still open.
pub fn cond<'a>(alloc: Global, tokens: &'a [Token], depth: u32) -> Read<'a, Cond>
    ensures { Gives (λ r. (r.0, r.1.now)) result (cond_at (readers depth) tokens.now) }
{
    lb_reade::cond(alloc, tokens, &Depth { left: depth })
}

/// Reads a CASE expression where `depth` brackets may still open, its own included.
pub fn case<'a>(alloc: Global, tokens: &'a [Token], depth: u32) -> Read<'a, Expr>
    ensures { Gives (λ r. (r.0, r.1.now)) result (case_at (readers depth) tokens.now) }
{
    lb_reade::case(alloc, tokens, &Depth { left: depth })
}

/// Reads a query with its order and the number of rows to fetch, where `depth` brackets may still open.
pub fn select<'a>(alloc: Global, tokens: &'a [Token], depth: u32) -> Read<'a, Select>
    ensures { Gives (λ r. (r.0, r.1.now)) result (select_at (readers depth) tokens.now) }
{
    select_statement::select(alloc, tokens, &Depth { left: depth })
}
