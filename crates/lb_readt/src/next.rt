// Readers of single tokens, and what the next token is.
ghost use Rattle.std.specs.Prelude.{◌≡◌, ◌++◌, ◌<◌, ◌≤◌, ◌^◌, pos, neg_ℤ, true, false};
ghost use Rattle.std.specs.Option.{MatchOption};
ghost use Rattle.lb_tok.specs.Kinds.{only, from_to, names};
ghost use Rattle.lb_tok.specs.declared.kind.Kind.TheVariants as kinds;
ghost use Rattle.lb_readt.specs.Readers.{heads, word, got};
ghost use Rattle.lb_readt.specs.Answering.{Gives};
ghost use Rattle.lb_readt.specs.Tokens.{name_at, text_at, int_at, negative_at, count_at, day_at, word_at, comparison_at};

use crate::fault::{Fault, Read};
use lb_base::{Name, Str, date_of};
use lb_tok::{Call, Content, Kind, Token};
use lb_tree::Comparison;

// The least magnitude that a 64-bit integer holds only after a minus.
const LIMIT: u64 = 9223372036854775808;

/// Whether the next token is of this kind.
pub fn next_is(tokens: &[Token], kind: Kind) -> bool
    ensures { result ≡ heads (only kind) tokens.now }
{
    match tokens {
        [] => false,
        [first, ..] => first.kind.is(kind),
    }
}

/// Whether the next token may be a name.
pub fn next_is_name(tokens: &[Token]) -> bool
    ensures { result ≡ heads names tokens.now }
{
    match tokens {
        [] => false,
        [first, ..] => first.kind.may_be_name(),
    }
}

/// Whether the next token is a comparison sign.
pub fn next_is_comparison(tokens: &[Token]) -> bool
    ensures { result ≡ heads (from_to kinds.Equal kinds.AtLeast) tokens.now }
{
    match tokens {
        [] => false,
        [first, ..] => first.kind.is_within(Kind::Equal, Kind::AtLeast),
    }
}

/// Whether the next token is of one of two kinds.
#[tactic(auto, using(crate::proofs::Among::two))]
pub fn next_is_either(tokens: &[Token], one: Kind, other: Kind) -> bool
    ensures { result ≡ heads (only one ++ only other) tokens.now }
{
    match tokens {
        [] => false,
        [first, ..] => first.kind.is(one) || first.kind.is(other),
    }
}

/// Takes a token of this kind: the tokens after it. `Bad` where the next token is of another kind, or none is left.
pub fn take<'a>(tokens: &'a [Token], kind: Kind) -> Result<&'a [Token], Fault<'a>>
    ensures { Gives (λ r. (tt, r.now)) result (word kind tokens.now) }
{
    match tokens {
        [] => Err(Fault::Bad(tokens)),
        [first, rest @ ..] => {
            if first.kind.is(kind) {
                Ok(rest)
            } else {
                Err(Fault::Bad(tokens))
            }
        }
    }
}

/// Takes a token of this kind if it is next: the tokens after it. `None` where the next token is of another kind, or none is
/// left.
pub fn take_if<'a>(tokens: &'a [Token], kind: Kind) -> Option<&'a [Token]>
    ensures { MatchOption result (heads (only kind) tokens.now ≡ false) (λ rest. (heads (only kind) tokens.now ≡ true) × (word kind tokens.now ≡ got tt rest.now)) }
{
    match tokens {
        [first, rest @ ..] if first.kind.is(kind) => Some(rest),
        _ => None,
    }
}

/// Reads a name, which may be a keyword that isn't reserved. `Bad` at any other token.
pub fn name<'a>(tokens: &'a [Token]) -> Read<'a, Name>
    ensures { Gives (λ r. (r.0, r.1.now)) result (name_at tokens.now) }
{
    match tokens {
        [] => Err(Fault::Bad(tokens)),
        [first, rest @ ..] => match &first.content {
            Content::Word(name) if first.kind.may_be_name() => {
                let name = name.copy()?;
                Ok((name, rest))
            }
            _ => Err(Fault::Bad(tokens)),
        },
    }
}

/// Reads a name, which is lent, with the function that it names, if it names one. `Bad` at any other token.
pub fn word<'a>(tokens: &'a [Token]) -> Result<(Option<Call>, &'a Name, &'a [Token]), Fault<'a>>
    ensures { Gives (λ r. ((r.0, r.1.now), r.2.now)) result (word_at tokens.now) }
{
    match tokens {
        [] => Err(Fault::Bad(tokens)),
        [first, rest @ ..] => match &first.content {
            Content::Word(name) if first.kind.may_be_name() => Ok((first.kind.call(), name, rest)),
            _ => Err(Fault::Bad(tokens)),
        },
    }
}

/// Reads a text, without its quotes. `Bad` at any other token.
pub fn text<'a>(tokens: &'a [Token]) -> Read<'a, Str>
    ensures { Gives (λ r. (r.0, r.1.now)) result (text_at tokens.now) }
{
    match tokens {
        [] => Err(Fault::Bad(tokens)),
        [first, rest @ ..] => match &first.content {
            Content::Text(text) if first.kind.is(Kind::Text) => {
                let text = text.copy()?;
                Ok((text, rest))
            }
            _ => Err(Fault::Bad(tokens)),
        },
    }
}

/// Reads a text that writes a day of the years 0001 to 9999: the day's number. `Bad` at any other text or token.
pub fn day<'a>(tokens: &'a [Token]) -> Read<'a, i32>
    ensures { Gives (λ r. (r.0, r.1.now)) result (day_at tokens.now) }
{
    match tokens {
        [] => Err(Fault::Bad(tokens)),
        [first, rest @ ..] => match &first.content {
            Content::Text(text) if first.kind.is(Kind::Text) => match date_of(text.as_str()) {
                Some(day) => Ok((day, rest)),
                None => Err(Fault::Bad(tokens)),
            },
            _ => Err(Fault::Bad(tokens)),
        },
    }
}

/// Reads an integer below 2^63. `Bad` at 2^63 and at any other token.
pub fn int<'a>(tokens: &'a [Token]) -> Read<'a, i64>
    ensures { Gives (λ r. (r.0, r.1.now)) result (int_at tokens.now) }
{
    match tokens {
        [] => Err(Fault::Bad(tokens)),
        [first, rest @ ..] => match first.content {
            Content::Number(n) if first.kind.is(Kind::Numeral) && n < LIMIT => Ok((n as i64, rest)),
            _ => Err(Fault::Bad(tokens)),
        },
    }
}

/// Reads an integer after a minus that is taken: the negative of a number up to 2^63. `Bad` at any other token.
pub fn negative<'a>(tokens: &'a [Token]) -> Read<'a, i64>
    ensures { Gives (λ r. (r.0, r.1.now)) result (negative_at tokens.now) }
{
    match tokens {
        [] => Err(Fault::Bad(tokens)),
        [first, rest @ ..] => match first.content {
            Content::Number(n) if first.kind.is(Kind::Numeral) && n <= LIMIT => {
                Ok((negative_of(n), rest))
            }
            _ => Err(Fault::Bad(tokens)),
        },
    }
}

// The negative of a number up to 2^63.
fn negative_of(n: u64) -> i64
    requires { n ≤ 2 ^ 63 }
    ensures { result ≡ neg_ℤ (pos n) }
{
    if n == LIMIT { i64::MIN } else { -(n as i64) }
}

/// Reads an integer from 1 on, below 2^63. `Bad` at 0, at 2^63 and at any other token.
pub fn count<'a>(tokens: &'a [Token]) -> Read<'a, i64>
    ensures { Gives (λ r. (r.0, r.1.now)) result (count_at tokens.now) }
{
    match tokens {
        [] => Err(Fault::Bad(tokens)),
        [first, rest @ ..] => match first.content {
            Content::Number(n) if first.kind.is(Kind::Numeral) && 0 < n && n < LIMIT => {
                Ok((n as i64, rest))
            }
            _ => Err(Fault::Bad(tokens)),
        },
    }
}

/// Reads a comparison sign. `Bad` at any other token.
pub fn comparison<'a>(tokens: &'a [Token]) -> Read<'a, Comparison>
    ensures { Gives (λ r. (r.0, r.1.now)) result (comparison_at tokens.now) }
{
    match tokens {
        [] => Err(Fault::Bad(tokens)),
        [first, rest @ ..] => {
            if !first.kind.is_within(Kind::Equal, Kind::AtLeast) {
                return Err(Fault::Bad(tokens));
            }
            match first.kind.comparison() {
                Some(comparison) => Ok((comparison, rest)),
                None => Err(Fault::Bad(tokens)),
            }
        }
    }
}
