// Security label components: the elements of a SET, an ARRAY or a TREE, their order and their descent.
ghost use Rattle.std.specs.Prelude.{◌≡◌, ℕ, ◌+◌, ◌<◌, ◌≤◌, ◌↔◌, ◌==◌, ◌||◌, [], ◌∷◌, ◌++◌, cond, length, IsSome, IfOk, IfSome, IsTrue, is_some, true, MatchResult, OnOk, OnErr, IfErr, map, slice_get, slice_index, slice_index_or};
ghost use Rattle.std.specs.Int.{bit_at};
ghost use Rattle.std.specs.List.{list_any};
ghost use Rattle.std.specs.Option.{option_map, option_and_then, option_copied};
ghost use Rattle.std.specs.String.{string_bytes};
ghost use Rattle.lb_label.specs.Component.{IsComponent, Higher, Descends, empty_component, is_delimiter, is_element_text, is_higher, descends, limit, number_of, refusal, with_element, IsParent, ancestors, and_above, rank};
ghost use Rattle.lb_label.specs.declared.kind.ComponentKind.TheVariants.{Array, Tree};
ghost use Rattle.lb_label.specs.Outcome.{IsFault};

use crate::kind::ComponentKind;
use std::alloc::{AllocError, Global};
use std::marker::Model;
use thiserror::Error;

/// An element of a component.
#[derive(Drop)]
struct Element {
    text: String,
    /// Of a TREE the element that this one stands directly under, if it is not the root.
    parent: Option<u32>,
    /// How many elements stand before it in the order.
    rank: u32,
    /// Of a TREE the element itself and its ancestors, as bits.
    line: u64,
}

/// A security label component (CREATE SECURITY LABEL COMPONENT statement): the elements of a SET, an ARRAY or a TREE.
///
/// Elements are numbered from 0 in the order of adding. Contracts see a component as its definition.
#[derive(Drop)]
pub struct Component {
    kind: ComponentKind,
    elements: Vec<Element>,
    /// The numbers of the elements in their order, which in an ARRAY goes from the highest to the lowest.
    order: Vec<u32>,
}

impl Model for Component {
    ghost use Rattle.lb_label.specs.Component.{Definition};

    ghost Value = { Definition };

    ghost use Rattle.lb_label.specs.Kept.{definition_of, IsKept};

    ghost view = { λ c. definition_of c.kind c.elements.items c.order.items };

    ghost invariant = { λ c. IsKept c.kind c.elements.items c.order.items };
}

/// Why an element is not added to a component.
#[derive(Debug, Drop, Error)]
pub enum ElementFault {
    /// The component has as many elements as one of its kind may have: so many.
    #[error("a component of this kind has at most {0} elements")]
    TooMany(u32),
    /// The text does not have 1 to 32 bytes, or holds one of `( ) , :`.
    #[error("an element has 1 to 32 bytes, none of them `(`, `)`, `,` or `:`")]
    BadElement,
    /// The component has an element with this text.
    #[error("the component has this element already")]
    Repeated,
    /// The parent that is named is not an element.
    #[error("the parent is not an element of the component")]
    NoParent,
    /// There is no memory left.
    #[error("out of memory")]
    NoMemory,
}

/// The largest number of elements of a SET or TREE.
const SET_LIMIT: u32 = 64;
/// The largest number of elements of an ARRAY.
const ARRAY_LIMIT: u32 = 1024;
/// The largest number of bytes of an element.
const ELEMENT_BYTES: usize = 32;

fn limit_of(kind: ComponentKind) -> u32
    ensures { result ≡ limit kind }
{
    match kind {
        ComponentKind::Set => SET_LIMIT,
        ComponentKind::Array => ARRAY_LIMIT,
        ComponentKind::Tree => SET_LIMIT,
    }
}

fn is_separator(byte: u8) -> bool
    ensures { result ≡ is_delimiter byte }
{
    byte == b'(' || byte == b')' || byte == b',' || byte == b':'
}

fn holds_separator(text: &str) -> bool
    ensures { result ≡ list_any is_delimiter text.now }
{
    text.as_bytes().iter().any(|byte| is_separator(*byte))
}

/// Whether `text` may be an element.
fn is_element(text: &str) -> bool
    ensures { result ≡ is_element_text text.now }
{
    !text.is_empty() && text.len() <= ELEMENT_BYTES && !holds_separator(text)
}

/// Puts `element` and its number at the end of two lists. An `Err` leaves both as they were.
fn append(
    elements: &mut Vec<Element>,
    order: &mut Vec<u32>,
    element: Element,
    number: u32,
) -> Result<(), AllocError>
    ensures elements { OnOk result (elements.new.items ≡ elements.old.items ++ element ∷ []) }
    ensures order { OnOk result (order.new.items ≡ order.old.items ++ number ∷ []) }
    ensures same_elements { OnErr result (elements.new.items ≡ elements.old.items) }
    ensures same_order { OnErr result (order.new.items ≡ order.old.items) }
{
    order.reserve(1)?;
    elements.push(element)?;
    order.push(number)?;
    Ok(())
}

impl Component {
    /// The component of this kind that has no element. It takes no memory; `alloc` is where `add` takes it.
    pub fn empty(alloc: Global, kind: ComponentKind) -> Component
        ensures { result ≡ empty_component kind }
    {
        Component {
            kind,
            elements: Vec::new(alloc),
            order: Vec::new(alloc),
        }
    }

    /// The kind of the component.
    pub fn kind(&self) -> ComponentKind
        ensures kind { result ≡ self.now.kind }
        ensures valid { IsComponent self.now }
    {
        self.kind
    }

    /// How many elements the component has.
    pub fn len(&self) -> u32
        ensures len { result ≡ length self.now.elements }
        ensures valid { IsComponent self.now }
    {
        self.elements.len() as u32
    }

    /// Whether the component has no element.
    pub fn is_empty(&self) -> bool
        ensures { IsTrue result ↔ (length self.now.elements ≡ 0) }
    {
        self.elements.is_empty()
    }

    /// The number of the element with this text, and `None` exactly where there is no such element.
    pub fn find(&self, element: &str) -> Option<u32>
        ensures number { result ≡ number_of self.now element.now }
        ensures below { IfSome result (λ number. number < length self.now.elements) }
    {
        for (number, known) in self.elements.iter().enumerate() {
            if known.text.as_str() == element {
                return Some(number as u32);
            }
        }
        None
    }

    /// The text of the element with this number, and `None` exactly where there is no such element.
    pub fn element(&self, number: u32) -> Option<&str>
        ensures { option_map (λ text. text.now) result ≡ slice_get self.now.elements number }
    {
        match self.elements.get(number as usize) {
            Some(element) => Some(element.text.as_str()),
            None => None,
        }
    }

    /// The text of the element with this number.
    pub(crate) fn text(&self, number: u32) -> &str
        requires { number < length self.now.elements }
        ensures { result.now ≡ slice_index_or self.now.elements number [] }
    {
        self.elements[number as usize].text.as_str()
    }

    /// Whether the element `a` is higher than the element `b` in the order of an ARRAY.
    pub fn is_higher(&self, a: u32, b: u32) -> bool
        requires a { a < length self.now.elements }
        requires b { b < length self.now.elements }
        ensures holds { IsTrue result ↔ Higher self.now a b }
        ensures test { result ≡ is_higher self.now a b }
    {
        self.elements[a as usize].rank < self.elements[b as usize].rank
    }

    /// Whether the element `a` is a descendant of the element `b` in a TREE.
    pub fn descends(&self, a: u32, b: u32) -> bool
        requires tree { self.now.kind ≡ Tree }
        requires a { a < length self.now.elements }
        requires b { b < length self.now.elements }
        ensures holds { IsTrue result ↔ Descends self.now a b }
        ensures test { result ≡ descends self.now a b }
    {
        let line = self.line(a);
        a != b && line >> b & 1 == 1
    }

    /// The element of a TREE and its ancestors, as bits.
    pub(crate) fn line(&self, element: u32) -> u64
        requires tree { self.now.kind ≡ Tree }
        requires element { element < length self.now.elements }
        ensures bits { (i : ℕ) → bit_at result i ≡ cond ((element == i) || descends self.now element i) 1 0 }
        ensures valid { IsComponent self.now }
    {
        self.elements[element as usize].line
    }

    /// Adds an element at the end, which comes last in the order too. `parent` is the element of a TREE that it
    /// stands directly under. Refused are, in this order: an element beyond the limit, a text that may be no
    /// element, a text that is an element already, and a parent that is not an element.
    ///
    /// After a refusal, and where memory runs out, nothing has changed.
    pub fn add(&mut self, element: &str, parent: Option<&str>) -> Result<(), ElementFault>
        requires { IsSome parent ↔ ((self.old.kind ≡ Tree) × (0 < length self.old.elements)) }
        ensures ok { OnOk result (refusal self.old element.now (option_copied parent.entry) ≡ None) }
        ensures added { OnOk result (self.new ≡ with_element self.old element.now (option_copied parent.entry)) }
        ensures err { IfErr result (λ fault. IsFault fault (refusal self.old element.now (option_copied parent.entry))) }
        ensures unchanged { OnErr result (self.new ≡ self.old) }
    {
        let parent = self.admit(element, parent)?;
        match self.append(element, parent) {
            Ok(()) => Ok(()),
            Err(_) => Err(ElementFault::NoMemory),
        }
    }

    /// The number of the parent, where nothing forbids to add the element.
    fn admit(&self, element: &str, parent: Option<&str>) -> Result<Option<u32>, ElementFault>
        ensures outcome { MatchResult result
            (λ number. (refusal self.now element.now (option_copied parent.entry) ≡ None) × (number ≡ option_and_then (number_of self.now) (option_copied parent.entry)))
            (λ fault. refusal self.now element.now (option_copied parent.entry) ≡ Some fault) }
        ensures given { IfOk result (λ number. is_some number ≡ is_some parent.entry) }
        ensures below { IfOk result (λ number. IfSome number (λ parent. parent < length self.now.elements)) }
    {
        let most = limit_of(self.kind);
        if self.len() >= most {
            return Err(ElementFault::TooMany(most));
        }
        if !is_element(element) {
            return Err(ElementFault::BadElement);
        }
        if self.find(element).is_some() {
            return Err(ElementFault::Repeated);
        }
        match parent {
            None => Ok(None),
            Some(parent) => match self.find(parent) {
                Some(number) => Ok(Some(number)),
                None => Err(ElementFault::NoParent),
            },
        }
    }

    /// Adds an element that nothing forbids.
    fn append(&mut self, text: &str, parent: Option<u32>) -> Result<(), AllocError>
        requires few { length self.old.elements < limit self.old.kind }
        requires text { is_element_text text.now ≡ true }
        requires fresh { number_of self.old text.now ≡ None }
        requires parent { IsParent self.old.kind (length self.old.elements) parent }
        ensures added { OnOk result (self.new ≡ record {
          kind = self.old.kind;
          elements = self.old.elements ++ text.now ∷ [];
          order = self.old.order ++ length self.old.elements ∷ [];
          parents = self.old.parents ++ parent ∷ [];
        }) }
        ensures unchanged { OnErr result (self.new ≡ self.old) }
    {
        let number = self.len();
        let element = Element {
            text: String::from_str(*self.order.allocator(), text)?,
            parent,
            rank: number,
            line: self.new_line(number, parent),
        };
        append(&mut self.elements, &mut self.order, element, number)?;
        Ok(())
    }

    /// The element `number` and the ancestors that it has under `parent`, as bits. It is 0 but in a TREE.
    fn new_line(&self, number: u32, parent: Option<u32>) -> u64
        requires number { number ≡ length self.now.elements }
        requires few { number < limit self.now.kind }
        requires parent { IsParent self.now.kind number parent }
        ensures { self.now.kind ≡ Tree → (i : ℕ) → bit_at result i ≡ cond ((number == i) || list_any (λ ancestor. ancestor == i) (and_above (ancestors self.now) parent)) 1 0 }
    {
        match (self.kind, parent) {
            (ComponentKind::Tree, None) => 1 << number,
            (ComponentKind::Tree, Some(parent)) => self.line(parent) | 1 << number,
            _ => 0,
        }
    }
}
