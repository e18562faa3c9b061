// What readers ask of whatever reads in their brackets.
ghost use Rattle.lb_readt.specs.Readers.{open_at};
ghost use Rattle.lb_reade.specs.Expressions.{Readers};
ghost use Rattle.lb_readt.specs.Answering.{Gives};
ghost use Rattle.lb_reade.specs.Bracketed.{mixed_of, inner_of, within};

use crate::inside::{Inside, Mixed, Wanted};
use lb_readt::{Fault, Read};
use lb_tok::{Kind, Token};
use lb_tree::{Cond, Expr, Query};
use std::alloc::Global;

/// Opens brackets and reads what stands in them, where a certain number of brackets may still open.
pub trait Brackets {
    /// Whether a bracket may open, and what each kind of content is read by.
    ghost readers: { Self → Readers };

    /// Holds where a bracket's content may be read.
    ghost ready: { Self → Type 0 };

    /// Takes an opener, a parenthesis or CASE. `Bad` at another token, `Deep` at an opener for which no room is left.
    fn open<'a>(&self, tokens: &'a [Token], kind: Kind) -> Result<&'a [Token], Fault<'a>>
        ensures { Gives (λ r. (tt, r.now)) result (open_at (readers self.now).room kind tokens.now) };

    /// Reads what stands after an opener that was taken, as the kind of content that is wanted.
    fn inside<'a>(&self, alloc: Global, tokens: &'a [Token], wanted: Wanted) -> Read<'a, Inside>
        requires { ready self.now }
        ensures { Gives (λ r. (inner_of r.0, r.1.now)) result (within (readers self.now) wanted tokens.now) };

    /// Reads an expression in a bracket.
    final fn expr<'a>(&self, alloc: Global, tokens: &'a [Token]) -> Read<'a, Expr>
        requires { ready self.now }
        ensures { Gives (λ r. (r.0, r.1.now)) result ((readers self.now).expr tokens.now) }
    {
        let (inside, rest) = self.inside(alloc, tokens, Wanted::Expr)?;
        match inside {
            Inside::Expr(value) => Ok((value, rest)),
            _ => unreachable!(),
        }
    }

    /// Reads a condition in a bracket.
    final fn condition<'a>(&self, alloc: Global, tokens: &'a [Token]) -> Read<'a, Cond>
        requires { ready self.now }
        ensures { Gives (λ r. (r.0, r.1.now)) result ((readers self.now).condition tokens.now) }
    {
        let (inside, rest) = self.inside(alloc, tokens, Wanted::Condition)?;
        match inside {
            Inside::Condition(value) => Ok((value, rest)),
            _ => unreachable!(),
        }
    }

    /// Reads a condition in a bracket, or an expression with which a condition may begin.
    final fn mixed<'a>(&self, alloc: Global, tokens: &'a [Token]) -> Read<'a, Mixed>
        requires { ready self.now }
        ensures { Gives (λ r. (mixed_of r.0, r.1.now)) result ((readers self.now).mixed tokens.now) }
    {
        let (inside, rest) = self.inside(alloc, tokens, Wanted::Mixed)?;
        match inside {
            Inside::Condition(value) => Ok((Mixed::Cond(value), rest)),
            Inside::Expr(value) => Ok((Mixed::Expr(value), rest)),
            _ => unreachable!(),
        }
    }

    /// Reads a query in a bracket.
    final fn query<'a>(&self, alloc: Global, tokens: &'a [Token]) -> Read<'a, Query>
        requires { ready self.now }
        ensures { Gives (λ r. (r.0, r.1.now)) result ((readers self.now).query tokens.now) }
    {
        let (inside, rest) = self.inside(alloc, tokens, Wanted::Query)?;
        match inside {
            Inside::Query(value) => Ok((value, rest)),
            _ => unreachable!(),
        }
    }
}
