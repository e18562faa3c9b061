// The text of a label, as SECLABEL takes it and SECLABEL_TO_CHAR gives it: read and written.
ghost use Rattle.std.specs.Prelude.{◌≡◌, ℕ, filter, ◌+◌, ◌-◌, ◌^◌, ◌<◌, ◌≤◌, ◌==◌, List, [], ◌∷◌, ◌++◌, length, map, min, All, true, false, MatchResult, IfOk, OnOk, IfSome, IfNone, slice_index_or, Ok, Err};
ghost use Rattle.std.specs.Int.{bit_at};
ghost use Rattle.std.specs.List.{slice_split, join_with_byte};
ghost use Rattle.std.specs.Option.{option_copied, option_map};
ghost use Rattle.std.specs.Str.{IsUtf8};
ghost use Rattle.std.specs.String.{string_bytes};
ghost use Rattle.lb_label.specs.Label.{IsLabel, IsPart, elements_in, has_element, label_of};
ghost use Rattle.lb_label.specs.Component.{numbers};
ghost use Rattle.lb_label.specs.declared.kind.ComponentKind.TheVariants.{Array};
ghost use Rattle.lb_label.specs.LabelText.{is_bracketed, inside, label_text, named_from, named_in, part_text, read_label};
ghost use Rattle.lb_label.specs.Reading.{split_left, with_name, with_names};

use crate::component::Component;
use crate::kind::ComponentKind;
use crate::shape::Shape;
use arrayvec::ArrayVec;
use lb_base::{NoMemory, Parts};
use std::alloc::Global;
use thiserror::Error;

/// A text is not the text of a label.
#[derive(Clone, Copy, Debug, PartialEq, Eq, Error)]
#[error("not a label text, from byte {at} on")]
pub struct BadLabel {
    /// Where the text fails, in bytes from its beginning: at the first element that is none of its component, or in an
    /// ARRAY another one than the part's first, or at the first part beyond the components, whichever is first, else at
    /// the end where parts are missing. A place beyond 4,294,967,295 is told as that number.
    pub at: u32,
}

impl BadLabel {
    fn from_place(place: usize) -> BadLabel
        ensures { result.at ≡ min place (2 ^ 32 - 1) }
    {
        BadLabel {
            at: place.min(u32::MAX as usize) as u32,
        }
    }
}

/// The label of a text: parts in policy order with a colon between each two, each of them `e`, `(e1,e2)` or `()`.
/// A part may also be `(e)`, list elements in any order and repeat them. Blanks belong to an element.
/// It takes no memory.
pub fn read_text(shape: &Shape, text: &str) -> Result<Parts, BadLabel>
    ensures label { IfOk result (λ parts. IsLabel shape.now parts.items) }
    ensures exact { MatchResult result
        (λ parts. read_label shape.now text.now ≡ Ok (label_of shape.now parts.items))
        (λ fault. (place : ℕ) × (read_label shape.now text.now ≡ Err place) × (fault.at ≡ min place (2 ^ 32 - 1))) }
{
    let mut parts = Parts::new();
    let mut rest = Some(text);
    let mut at = 0;
    for place in 0..shape.len() {
        let Some(left) = rest else {
            return Err(BadLabel::from_place(text.len()));
        };
        let (part, after) = cut(left, ':');
        parts.push(read_part(shape.at(place), part, at)?);
        at += part.len() + 1;
        rest = after;
    }
    match rest {
        None => Ok(parts),
        Some(_) => Err(BadLabel::from_place(at)),
    }
}

/// What stands before the first separator, and what stands after it, if there is one.
fn cut(text: &str, separator: char) -> (&str, Option<&str>)
    requires { separator < 128 }
    ensures parts { slice_split (λ byte. byte == separator) text.now ≡ result.0.now ∷ split_left separator (option_copied result.1) }
    ensures shorter { IfSome result.1 (λ rest. length result.0.now + length rest.now + 1 ≡ length text.now) }
    ensures whole { IfNone result.1 (result.0.now ≡ text.now) }
    ensures within { length result.0.now ≤ length text.now }
    ensures utf8 { IfSome result.1 (λ rest. IsUtf8 rest.now) }
{
    match text.split_once(separator) {
        Some((before, after)) => (before, Some(after)),
        None => (text, None),
    }
}

/// The part of a label that a part of a text names, where that part begins at `at`.
fn read_part(component: &Component, part: &str, at: usize) -> Result<u64, BadLabel>
    requires { at + length part.now < 2 ^ 64 }
    ensures { MatchResult result
        (λ bits. with_names component.now (at + named_from part.now) (named_in part.now) 0 ≡ Ok bits)
        (λ fault. (place : ℕ) × (with_names component.now (at + named_from part.now) (named_in part.now) 0 ≡ Err place) × (fault.at ≡ min place (2 ^ 32 - 1))) }
{
    match between_brackets(part) {
        Some("") => Ok(0),
        Some(list) => read_names(component, list, at + 1),
        None => with_element(component, 0, part).ok_or(BadLabel::from_place(at)),
    }
}

/// What stands between the `(` that a part begins with and the later `)` that it ends with.
fn between_brackets(part: &str) -> Option<&str>
    ensures some { IfSome result (λ list. (is_bracketed part.now ≡ true) × (list.now ≡ inside part.now)) }
    ensures none { IfNone result (is_bracketed part.now ≡ false) }
{
    part.strip_prefix('(')?.strip_suffix(')')
}

/// The part of a label with the elements of a list of names, which begins at `start`.
fn read_names(component: &Component, list: &str, start: usize) -> Result<u64, BadLabel>
    requires { start + length list.now < 2 ^ 64 }
    ensures { MatchResult result
        (λ bits. with_names component.now start (slice_split (λ byte. byte == 44) list.now) 0 ≡ Ok bits)
        (λ fault. (place : ℕ) × (with_names component.now start (slice_split (λ byte. byte == 44) list.now) 0 ≡ Err place) × (fault.at ≡ min place (2 ^ 32 - 1))) }
{
    let mut bits = 0;
    let mut at = start;
    let mut left = list;
    loop {
        let (name, after) = cut(left, ',');
        bits = with_element(component, bits, name).ok_or(BadLabel::from_place(at))?;
        match after {
            None => return Ok(bits),
            Some(rest) => {
                at += name.len() + 1;
                left = rest;
            }
        }
    }
}

/// The part with the element of this name too, if it may have it.
fn with_element(component: &Component, part: u64, name: &str) -> Option<u64>
    ensures { result ≡ with_name component.now part name.now }
{
    let number = u64::from(component.find(name)?);
    match component.kind() {
        ComponentKind::Array if part == 0 || part == number + 1 => Some(number + 1),
        ComponentKind::Array => None,
        _ => Some(part | 1 << number),
    }
}

/// The text of a label. An element stands in its component's order of adding, however the label was made.
pub fn print_text(alloc: Global, shape: &Shape, label: &[u64]) -> Result<String, NoMemory>
    requires { IsLabel shape.now label.now }
    ensures text { IfOk result (λ text. string_bytes text ≡ label_text shape.now (label_of shape.now label.now)) }
    // The text reads back to the label.
    ensures again { IfOk result (λ text. 0 < length shape.now → read_label shape.now (string_bytes text) ≡ Ok (label_of shape.now label.now)) }
{
    let mut text = String::new(alloc);
    for place in 0..shape.len() {
        if place > 0 {
            text.push(':')?;
        }
        print_part(&mut text, shape.at(place), label[place])?;
    }
    Ok(text)
}

/// Writes the text of one component of a label at the end.
fn print_part(text: &mut String, component: &Component, part: u64) -> Result<(), NoMemory>
    requires { IsPart component.now part }
    ensures { OnOk result (string_bytes text.new ≡ string_bytes text.old ++ part_text component.now (elements_in component.now part)) }
{
    match numbers_in(component, part).as_slice() {
        [] => text.push_str("()"),
        [number] => text.push_str(component.text(*number)),
        numbers => {
            text.push('(')?;
            print_elements(text, component, numbers)?;
            text.push(')')
        }
    }
}

/// Writes elements at the end, with a comma between each two.
fn print_elements(text: &mut String, component: &Component, numbers: &[u32]) -> Result<(), NoMemory>
    requires { All (λ number. number < length component.now.elements) numbers.now }
    ensures { OnOk result (string_bytes text.new ≡ string_bytes text.old ++ join_with_byte 44 (map (λ number. slice_index_or component.now.elements number []) numbers.now)) }
{
    for (place, number) in numbers.iter().enumerate() {
        if place > 0 {
            text.push(',')?;
        }
        text.push_str(component.text(*number))?;
    }
    Ok(())
}

/// The elements that a part has.
fn numbers_in(component: &Component, part: u64) -> ArrayVec<u32, 64>
    requires { IsPart component.now part }
    ensures { result.items ≡ elements_in component.now part }
{
    match component.kind() {
        ComponentKind::Array => numbers_up_to_one(part, component.len()),
        ComponentKind::Set => numbers_of_bits(part, component.len()),
        ComponentKind::Tree => numbers_of_bits(part, component.len()),
    }
}

/// The element that a part of an ARRAY of so many elements has, if it has one.
fn numbers_up_to_one(part: u64, count: u32) -> ArrayVec<u32, 64>
    requires { part ≤ count }
    ensures { result.items ≡ filter (has_element Array part) (numbers count) }
{
    let mut numbers = ArrayVec::new();
    if part > 0 {
        numbers.push((part - 1) as u32);
    }
    numbers
}

/// The elements whose bits are set, of so many.
fn numbers_of_bits(part: u64, count: u32) -> ArrayVec<u32, 64>
    requires { count ≤ 64 }
    ensures { result.items ≡ filter (λ element. bit_at part element == 1) (numbers count) }
{
    let mut numbers = ArrayVec::new();
    for number in 0..count {
        if part >> number & 1 == 1 {
            numbers.push(number);
        }
    }
    numbers
}
