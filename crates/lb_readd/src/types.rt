// Words of types, which may be names too.
ghost use Rattle.std.specs.Prelude.{◌≡◌, ◌++◌};
ghost use Rattle.lb_tok.specs.Kinds.{from_to, has};
ghost use Rattle.lb_tok.specs.declared.kind.Kind.TheVariants as kinds;
ghost use Rattle.lb_readt.specs.Readers.{heads};
ghost use Rattle.lb_readt.specs.Answering.{Gives};
ghost use Rattle.lb_readd.specs.Defining.{plain_types, type_of, type_word_at, other_name_at};

use lb_base::Name;
use lb_readt::{Fault, Read};
use lb_stmt::PlainType;
use lb_tok::{Content, Kind, Token};

/// Whether the next token begins a type that is no label's.
pub fn next_is_plain_type(tokens: &[Token]) -> bool
    ensures { result ≡ heads plain_types tokens.now }
{
    match tokens {
        [] => false,
        [first, ..] => first.kind.is_within(Kind::Date, Kind::Varchar),
    }
}

// The type that a word is alone.
#[tactic(auto, unfolding(crate::specs::Defining::type_of))]
fn type_of(kind: Kind) -> Option<PlainType>
    ensures { result ≡ type_of kind }
{
    match kind {
        Kind::BigInt => Some(PlainType::Int),
        Kind::Integer => Some(PlainType::Int),
        Kind::Int => Some(PlainType::Int),
        Kind::Date => Some(PlainType::Date),
        _ => None,
    }
}

/// A word of a type: the type that it is alone, and its name.
#[tactic(auto, unfolding(crate::specs::Defining::type_word_at))]
pub fn type_word<'a>(tokens: &'a [Token]) -> Read<'a, (Option<PlainType>, Option<Name>)>
    ensures { Gives (λ r. (r.0, r.1.now)) result (type_word_at tokens.now) }
{
    match tokens {
        [] => Err(Fault::Bad(tokens)),
        [first, rest @ ..] => {
            if !first.kind.is_within(Kind::Date, Kind::Varchar) {
                return Err(Fault::Bad(tokens));
            }
            match &first.content {
                Content::Word(name) => {
                    let name = name.copy()?;
                    Ok(((type_of(first.kind), Some(name)), rest))
                }
                _ => Ok(((type_of(first.kind), None), rest)),
            }
        }
    }
}

// Whether the kind may be a name, and is no word of a type.
#[tactic(auto, using(crate::proofs::Runs::other_is))]
fn is_other_name(kind: Kind) -> bool
    ensures { result ≡ has (from_to kinds.Count kinds.SecLabelToChar ++ from_to kinds.First kinds.Word) kind }
{
    kind.is_within(Kind::Count, Kind::SecLabelToChar) || kind.is_within(Kind::First, Kind::Word)
}

/// A name that is no word of a type.
#[tactic(auto, unfolding(crate::specs::Defining::other_name_at))]
pub fn other_name<'a>(tokens: &'a [Token]) -> Read<'a, Name>
    ensures { Gives (λ r. (r.0, r.1.now)) result (other_name_at tokens.now) }
{
    match tokens {
        [] => Err(Fault::Bad(tokens)),
        [first, rest @ ..] => match &first.content {
            Content::Word(name) if is_other_name(first.kind) => {
                let name = name.copy()?;
                Ok((name, rest))
            }
            _ => Err(Fault::Bad(tokens)),
        },
    }
}
