// Lists, and words that may be left out.
ghost use Rattle.std.specs.Prelude.{◌≡◌, ◌<◌, ◌∷◌, IfOk, true, false};
ghost use Rattle.lb_tok.specs.Kinds.{Kinds, only};
ghost use Rattle.lb_readt.specs.Readers.{Reader, got, after, many, listed, flag, may};
ghost use Rattle.lb_readt.specs.Answering.{Gives, ReadsAs, TellsNext};
ghost use Rattle.lb_readt.specs.Tokens.{text_at, name_at};

use crate::fault::Read;
use crate::next::{name, next_is, take, text};
use lb_base::{Name, Str};
use lb_tok::{Kind, Token};
use sqlite_items::Items;
use std::alloc::{AllocError, Global};

/// The first, and then the others. There is an error only where no memory is left.
pub fn with_first<T: Drop>(alloc: Global, first: T, more: Items<T>) -> Result<Items<T>, AllocError>
    ensures { IfOk result (λ l. l ≡ first ∷ more) }
{
    let mut all = Items::new(alloc);
    all.push(first)?;
    all.append(more)?;
    Ok(all)
}

/// Passes over a word that may be left out and changes nothing: the tokens after it, or all where it isn't written.
pub fn noise<'a>(tokens: &'a [Token], kind: Kind) -> &'a [Token]
    ensures { may kind tokens.now ≡ got tt result.now }
{
    match tokens {
        [first, rest @ ..] if first.kind.is(kind) => rest,
        _ => tokens,
    }
}

/// Takes a word that may be left out: whether it is written, and the tokens after it.
pub fn flag<'a>(tokens: &'a [Token], kind: Kind) -> (bool, &'a [Token])
    ensures { flag kind tokens.now ≡ got result.0 result.1.now }
{
    match tokens {
        [first, rest @ ..] if first.kind.is(kind) => (true, rest),
        _ => (false, tokens),
    }
}

/// Reads `{item}`: items as long as the next token begins one, which `begins` tells. `item` reads one of them, and where it
/// stops, reading stops.
pub fn many<'a, T: Drop, G: Fn(&[Token]) -> bool, F: for<'t> Fn(&'t [Token]) -> Read<'t, T>>(
    alloc: Global,
    tokens: &'a [Token],
    begins: G,
    item: F,
) -> Read<'a, Items<T>>
    requires tells { G.IsAlwaysCallable begins }
    requires reads { F.IsAlwaysCallable item }
    ensures { (ks : Kinds) (f : Reader T) → TellsNext ks (G.post begins) → ReadsAs f (F.post item) → Gives (λ r. (r.0, r.1.now)) result (many ks f tokens.now) }
{
    let mut parts = Items::new(alloc);
    let mut rest = tokens;
    for _ in 0..tokens.len() {
        if begins(rest) {
            let (part, after) = item(rest)?;
            parts.push(part)?;
            rest = after;
        } else {
            return Ok((parts, rest));
        }
    }
    Ok((parts, rest))
}

/// Reads `{kind item}`: items, each after a token of this kind; none where no such token is next. `item` reads one of them,
/// and where it stops, reading stops.
pub fn further<'a, T: Drop, F: for<'t> Fn(&'t [Token]) -> Read<'t, T>>(
    alloc: Global,
    tokens: &'a [Token],
    kind: Kind,
    item: F,
) -> Read<'a, Items<T>>
    requires { F.IsAlwaysCallable item }
    ensures { (f : Reader T) → ReadsAs f (F.post item) → Gives (λ r. (r.0, r.1.now)) result (many (only kind) (after kind f) tokens.now) }
{
    many(
        alloc,
        tokens,
        |rest| next_is(rest, kind),
        |rest|
            requires { F.IsAlwaysCallable item }
            ensures { (f : Reader T) → ReadsAs f (F.post item) → Gives (λ r. (r.0, r.1.now)) result (after kind f rest.now) }
        {
            let rest = take(rest, kind)?;
            item(rest)
        },
    )
}

/// Reads `item {, item}`. `item` reads one of them, and where it stops, reading stops.
pub fn listed<'a, T: Drop, F: for<'t> Fn(&'t [Token]) -> Read<'t, T>>(
    alloc: Global,
    tokens: &'a [Token],
    item: F,
) -> Read<'a, Items<T>>
    requires { F.IsAlwaysCallable item }
    ensures { (f : Reader T) → ReadsAs f (F.post item) → Gives (λ r. (r.0, r.1.now)) result (listed f tokens.now) }
{
    let (first, rest) = item(tokens)?;
    let (more, rest) = further(alloc, rest, Kind::Comma, item)?;
    Ok((with_first(alloc, first, more)?, rest))
}

/// Reads `text {, text}`. `Bad` where no text stands first or after a comma.
pub fn texts<'a>(alloc: Global, tokens: &'a [Token]) -> Read<'a, Items<Str>>
    ensures { Gives (λ r. (r.0, r.1.now)) result (listed text_at tokens.now) }
{
    listed(alloc, tokens, |rest| text(rest))
}

/// Reads `name {, name}`. `Bad` where no name stands first or after a comma.
pub fn names<'a>(alloc: Global, tokens: &'a [Token]) -> Read<'a, Items<Name>>
    ensures { Gives (λ r. (r.0, r.1.now)) result (listed name_at tokens.now) }
{
    listed(alloc, tokens, |rest| name(rest))
}
