// The parts of a label: COMPONENT name text {, text} {, COMPONENT name text {, text}}.
ghost use Rattle.std.specs.Prelude.{◌≡◌, ◌∷◌, [], ◌++◌, List, IfOk};
ghost use Rattle.lb_stmt.specs.declared.change.LabelPart.{LabelPart};
ghost use Rattle.lb_readt.specs.Readers.{seq};
ghost use Rattle.lb_readt.specs.Answering.{Gives};
ghost use Rattle.lb_readd.specs.Defining.{Next, part_at, piece_at, parts_from, parts_on, parts_at};
ghost use Rattle.lb_readd.specs.Pieces.{piece_of, all_parts};

use lb_base::{Name, Str};
use lb_readt::{Fault, Read, name, next_is, take, text};
use lb_stmt::LabelPart;
use lb_tok::{Kind, Token};
use sqlite_items::Items;
use std::alloc::{AllocError, Global};

/// What may follow a comma after an element.
#[derive(Drop)]
pub enum Piece {
    /// A further element of the part.
    Element(Str),
    /// A further part: its component and first element.
    First(Name, Str),
}

/// The parts that are read so far: the whole ones, and the one that is begun.
#[derive(Drop)]
pub struct Parts {
    whole: Items<LabelPart>,
    component: Name,
    elements: Items<Str>,
}

// A list of one item.
fn list_of<T: Drop>(alloc: Global, item: T) -> Result<Items<T>, AllocError>
    ensures { IfOk result (λ l. l ≡ item ∷ []) }
{
    let mut items = Items::new(alloc);
    items.push(item)?;
    Ok(items)
}

impl Parts {
    // No whole part yet, and a part with its first element.
    fn begun(alloc: Global, component: Name, element: Str) -> Result<Parts, AllocError>
        ensures { IfOk result (λ p. (more : List Next) → all_parts p more ≡ parts_from component (element ∷ []) more) }
    {
        Ok(Parts {
            whole: Items::new(alloc),
            component,
            elements: list_of(alloc, element)?,
        })
    }

    // With one piece more.
    #[tactic(auto, unfolding(crate::specs::Defining::parts_from))]
    fn with(self, alloc: Global, piece: Piece) -> Result<Parts, AllocError>
        ensures { IfOk result (λ p. (more : List Next) → all_parts p more ≡ all_parts self (piece_of piece ∷ more)) }
    {
        let Parts {
            mut whole,
            component,
            mut elements,
        } = self;
        match piece {
            Piece::Element(element) => {
                elements.push(element)?;
                Ok(Parts {
                    whole,
                    component,
                    elements,
                })
            }
            Piece::First(next, element) => {
                whole.push(LabelPart {
                    component,
                    elements,
                })?;
                Ok(Parts {
                    whole,
                    component: next,
                    elements: list_of(alloc, element)?,
                })
            }
        }
    }

    // All parts, where no piece follows.
    #[tactic(auto, unfolding(crate::specs::Defining::parts_from))]
    fn ended(self) -> Result<Items<LabelPart>, AllocError>
        ensures { IfOk result (λ l. l ≡ all_parts self []) }
    {
        let Parts {
            mut whole,
            component,
            elements,
        } = self;
        whole.push(LabelPart {
            component,
            elements,
        })?;
        Ok(whole)
    }
}

// COMPONENT name text
#[tactic(auto, unfolding(crate::specs::Defining::part_at))]
fn part<'a>(tokens: &'a [Token]) -> Read<'a, (Name, Str)>
    ensures { Gives (λ r. (r.0, r.1.now)) result (part_at tokens.now) }
{
    let rest = take(tokens, Kind::Component)?;
    let (component, rest) = name(rest)?;
    let (element, rest) = text(rest)?;
    Ok(((component, element), rest))
}

#[tactic(auto, unfolding(crate::specs::Defining::piece_at))]
fn next_piece<'a>(tokens: &'a [Token]) -> Read<'a, Piece>
    ensures { Gives (λ r. (piece_of r.0, r.1.now)) result (piece_at tokens.now) }
{
    if next_is(tokens, Kind::Text) {
        let (element, rest) = text(tokens)?;
        Ok((Piece::Element(element), rest))
    } else {
        let ((component, element), rest) = part(tokens)?;
        Ok((Piece::First(component, element), rest))
    }
}

// {, piece} after a part's first element
#[tactic(auto, unfolding(crate::specs::Defining::parts_on))]
fn pieces<'a>(
    alloc: Global,
    component: Name,
    element: Str,
    tokens: &'a [Token],
) -> Read<'a, Items<LabelPart>>
    ensures { Gives (λ r. (r.0, r.1.now)) result (parts_on (component, element) tokens.now) }
{
    let mut parts = Parts::begun(alloc, component, element)?;
    let mut rest = tokens;
    for _ in 0..tokens.len() {
        if next_is(rest, Kind::Comma) {
            let after = take(rest, Kind::Comma)?;
            let (piece, after) = next_piece(after)?;
            let next = parts.with(alloc, piece)?;
            parts = next;
            rest = after;
        } else {
            let all = parts.ended()?;
            return Ok((all, rest));
        }
    }
    let all = parts.ended()?;
    Ok((all, rest))
}

/// part {, part}
#[tactic(auto, unfolding(crate::specs::Defining::parts_at))]
pub fn label_parts<'a>(alloc: Global, tokens: &'a [Token]) -> Read<'a, Items<LabelPart>>
    ensures { Gives (λ r. (r.0, r.1.now)) result (parts_at tokens.now) }
{
    let ((component, element), rest) = part(tokens)?;
    pieces(alloc, component, element, rest)
}
