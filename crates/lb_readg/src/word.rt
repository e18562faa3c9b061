// Keywords: those that stand for a value, and those that may be names.
ghost use Rattle.std.specs.Prelude.{◌≡◌};
ghost use Rattle.lb_tok.specs.Kinds.{only, has};
ghost use Rattle.lb_readt.specs.Readers.{heads, means};
ghost use Rattle.lb_readt.specs.Answering.{Gives};
ghost use Rattle.lb_readg.specs.Granting.{marked, name_or, named_at, in_grantee};

use lb_base::Name;
use lb_readt::{Fault, Read, take};
use lb_tok::{Content, Kind, Token};

/// Takes the keyword, which must be next, and returns the value that it stands for.
pub fn means<'a, T: Drop>(tokens: &'a [Token], keyword: Kind, value: T) -> Read<'a, T>
    ensures { Gives (λ r. (r.0, r.1.now)) result (means keyword value tokens.now) }
{
    let rest = take(tokens, keyword)?;
    Ok((value, rest))
}

/// Takes a name, and returns whether it is this keyword, and the name. `Bad` at a token that may not be a name.
#[tactic(auto, unfolding(crate::specs::Granting::name_or))]
pub fn name_or<'a>(tokens: &'a [Token], keyword: Kind) -> Read<'a, (bool, Name)>
    ensures { Gives (λ r. (r.0, r.1.now)) result (name_or keyword tokens.now) }
{
    match tokens {
        [] => Err(Fault::Bad(tokens)),
        [first, rest @ ..] => match &first.content {
            Content::Word(name) if first.kind.may_be_name() => {
                let name = name.copy()?;
                Ok(((first.kind.is(keyword), name), rest))
            }
            _ => Err(Fault::Bad(tokens)),
        },
    }
}

/// Takes a name, and returns whether it is the one keyword and whether it is the other, and the name. `Bad` at a token that
/// may not be a name.
pub fn name_or_either<'a>(
    tokens: &'a [Token],
    one: Kind,
    other: Kind,
) -> Read<'a, ((bool, bool), Name)>
    ensures { Gives (λ r. (r.0, r.1.now)) result (marked (λ k. (has (only one) k, has (only other) k)) tokens.now) }
{
    match tokens {
        [] => Err(Fault::Bad(tokens)),
        [first, rest @ ..] => match &first.content {
            Content::Word(name) if first.kind.may_be_name() => {
                let name = name.copy()?;
                Ok((((first.kind.is(one), first.kind.is(other)), name), rest))
            }
            _ => Err(Fault::Bad(tokens)),
        },
    }
}

/// Takes the keyword, which must be next and is a name too, and returns the tokens after it.
#[tactic(auto, unfolding(crate::specs::Granting::named_at))]
pub fn named<'a>(tokens: &'a [Token], keyword: Kind) -> Result<&'a [Token], Fault<'a>>
    ensures { Gives (λ r. (tt, r.now)) result (named_at keyword tokens.now) }
{
    match tokens {
        [] => Err(Fault::Bad(tokens)),
        [first, rest @ ..] => match &first.content {
            Content::Word(_) if first.kind.is(keyword) => Ok(rest),
            _ => Err(Fault::Bad(tokens)),
        },
    }
}

/// Whether the next token begins a grantee: whether it is PUBLIC, USER or a name.
#[tactic(auto, using(crate::proofs::Runs::grantee_is))]
pub fn next_is_grantee(tokens: &[Token]) -> bool
    ensures { result ≡ heads in_grantee tokens.now }
{
    match tokens {
        [] => false,
        [first, ..] => {
            first.kind.is(Kind::Public) || first.kind.is(Kind::User) || first.kind.may_be_name()
        }
    }
}
