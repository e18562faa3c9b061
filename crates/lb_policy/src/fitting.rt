// Whether the parts of a new label fit its policy.
ghost use Rattle.std.specs.Prelude.{◌≡◌, ◌<◌, [], length, map, not, slice_get, take, IfNone, IfSome};
ghost use Rattle.std.specs.List.{list_any, position_or_len};
ghost use Rattle.std.specs.Option.{option_map};
ghost use Rattle.std.specs.Str.{bytes_eq};
ghost use Rattle.lb_alter.specs.ChangeLabel as change;
ghost use Rattle.lb_alter.specs.Refusing as refusing;
ghost use Rattle.lb_cat.specs.Catalog as cat;
ghost use Rattle.lb_cat.specs.Stamps.{bare_policy};
ghost use Rattle.lb_cat.specs.declared.refusal.Refusal.TheVariants as refusals;
ghost use Rattle.lb_label.specs.Component.{empty_component};
ghost use Rattle.lb_label.specs.declared.kind.ComponentKind.TheVariants as kinds;
ghost use Rattle.lb_changed.specs.Given.{Passes};
ghost use Rattle.lb_policy.specs.Before.{turned};

use crate::stops::{unknown_text, unless_taken};
use crate::used::is_among;
use lb_base::{Name, Str};
use lb_cat::{PolicyRec, Refusal};
use lb_changed::{Stop, unknown};
use lb_label::{Component, ComponentKind};
use lb_stmt::LabelPart;
use std::alloc::Global;

/// The first refusal of a part, in the order of the parts.
#[tactic(auto, using(crate::proofs::Parts::part_stops, crate::proofs::Parts::part_passes, crate::proofs::Components::turned_more))]
pub fn parts_fit(alloc: Global, policy: &PolicyRec, parts: &[LabelPart]) -> Result<(), Stop>
    ensures { Passes (change.parts_refusal (bare_policy policy.now) [] parts.now) result }
{
    for (place, part) in parts.iter().enumerate() {
        part_fits(alloc, policy, before(parts, place), part)?;
    }
    Ok(())
}

fn before(parts: &[LabelPart], place: usize) -> &[LabelPart]
    requires { place < length parts.now }
    ensures { result.now ≡ take place parts.now }
{
    &parts[..place]
}

/// A part that stands after these: its component is of the policy and new, its elements are of the component, and an ARRAY has one.
#[tactic(auto, using(crate::proofs::Tests::tests))]
fn part_fits(
    alloc: Global,
    policy: &PolicyRec,
    before: &[LabelPart],
    part: &LabelPart,
) -> Result<(), Stop>
    ensures { Passes (change.part_refusal (bare_policy policy.now) (turned (map (λ x. x.component) before.now)) part.now) result }
{
    is_of_policy(alloc, policy, &part.component)?;
    is_first(alloc, before, &part.component)?;
    elements_are_there(alloc, policy, &part.component, part.elements.as_slice())?;
    has_one_of_array(policy, &part.component, part.elements.as_slice())
}

#[tactic(auto, using(crate::proofs::Tests::refuses))]
fn is_of_policy(alloc: Global, policy: &PolicyRec, component: &Name) -> Result<(), Stop>
    ensures { Passes (refusing.when (not (cat.is_among policy.now.components component.now)) (refusals.Unknown component.now)) result }
{
    if is_among(policy.components.as_slice(), component) {
        Ok(())
    } else {
        Err(unknown(alloc, component))
    }
}

fn is_first(alloc: Global, before: &[LabelPart], component: &Name) -> Result<(), Stop>
    ensures { Passes (refusing.when (cat.is_among (turned (map (λ x. x.component) before.now)) component.now) (refusals.Exists component.now)) result }
{
    unless_taken(alloc, component, is_named(before, component))
}

/// Whether one of the parts is of the component.
fn is_named(parts: &[LabelPart], component: &Name) -> bool
    ensures { result ≡ cat.is_among (map (λ x. x.component) parts.now) component.now }
{
    for part in parts {
        if part.component.is(component) {
            return true;
        }
    }
    false
}

#[tactic(auto, using(crate::proofs::Parts::first_unknown))]
fn elements_are_there(
    alloc: Global,
    policy: &PolicyRec,
    component: &Name,
    elements: &[Str],
) -> Result<(), Stop>
    ensures { Passes (refusing.each_passes (change.unknown_element (change.definition_in (bare_policy policy.now) component.now)) elements.now) result }
{
    match component_in(policy, component) {
        Some((_, component)) => are_elements_of(alloc, component, elements),
        None => none_is_there(alloc, elements),
    }
}

#[tactic(auto, using(crate::proofs::Parts::element_stops, crate::proofs::Parts::element_passes))]
fn are_elements_of(alloc: Global, component: &Component, elements: &[Str]) -> Result<(), Stop>
    ensures { Passes (refusing.each_passes (change.unknown_element component.now) elements.now) result }
{
    for element in elements {
        is_element_of(alloc, component, element)?;
    }
    Ok(())
}

#[tactic(auto, using(crate::proofs::Tests::refuses))]
fn is_element_of(alloc: Global, component: &Component, element: &Str) -> Result<(), Stop>
    ensures { Passes (change.unknown_element component.now element.now) result }
{
    match component.find(element.as_str()) {
        Some(_) => Ok(()),
        None => Err(unknown_text(alloc, element.as_str())),
    }
}

#[tactic(auto, using(crate::proofs::Tests::refuses))]
fn none_is_there(alloc: Global, elements: &[Str]) -> Result<(), Stop>
    ensures { Passes (refusing.each_passes (change.unknown_element (empty_component kinds.Set)) elements.now) result }
{
    match elements {
        [] => Ok(()),
        [first, ..] => Err(unknown_text(alloc, first.as_str())),
    }
}

fn has_one_of_array(policy: &PolicyRec, component: &Name, elements: &[Str]) -> Result<(), Stop>
    ensures { Passes (refusing.when (change.are_two (change.definition_in (bare_policy policy.now) component.now).kind elements.now) (refusals.BadLabel (change.place_in (bare_policy policy.now) component.now))) result }
{
    match component_in(policy, component) {
        Some((place, component)) => if_one(place, component.kind(), elements),
        None => Ok(()),
    }
}

fn if_one(place: u32, kind: ComponentKind, elements: &[Str]) -> Result<(), Stop>
    ensures { Passes (refusing.when (change.are_two kind elements.now) (refusals.BadLabel place)) result }
{
    if are_two(kind, elements) {
        return Err(Stop::Refused(Refusal::BadLabel(place)));
    }
    Ok(())
}

/// Two different elements of an ARRAY.
fn are_two(kind: ComponentKind, elements: &[Str]) -> bool
    ensures { result ≡ change.are_two kind elements.now }
{
    match kind {
        ComponentKind::Array => differ(elements),
        ComponentKind::Set | ComponentKind::Tree => false,
    }
}

fn differ(elements: &[Str]) -> bool
    ensures { result ≡ change.are_two kinds.Array elements.now }
{
    match elements {
        [] => false,
        [first, others @ ..] => others_differ(first, others),
    }
}

fn others_differ(first: &Str, others: &[Str]) -> bool
    ensures { result ≡ list_any (λ other. not (bytes_eq first.now other)) others.now }
{
    for other in others {
        if !first.is(other) {
            return true;
        }
    }
    false
}

/// The component of that name in the policy, and its place.
#[tactic(auto, using(crate::proofs::Numbering::at_place, crate::proofs::Numbering::past_place))]
fn component_in<'a>(policy: &'a PolicyRec, name: &Name) -> Option<(u32, &'a Component)>
    ensures place { IfSome result (λ c. c.0 ≡ change.place_in (bare_policy policy.now) name.now) }
    ensures there { IfSome result (λ c. change.definition_in (bare_policy policy.now) name.now ≡ c.1.now) }
    ensures none { IfNone result (change.definition_in (bare_policy policy.now) name.now ≡ empty_component kinds.Set) }
{
    let place = place_of(policy.components.as_slice(), name);
    let component = component_at(policy, place)?;
    Some((place as u32, component))
}

/// The place of the name, and the number of names where it is none of them.
fn place_of(names: &[Name], name: &Name) -> usize
    ensures { result ≡ position_or_len (λ m. bytes_eq m name.now) names.now }
{
    let mut place = 0;
    for other in names {
        if other.is(name) {
            return place;
        }
        place += 1;
    }
    place
}

/// The component in a place of the policy.
pub fn component_at(policy: &PolicyRec, place: usize) -> Option<&Component>
    ensures component { option_map (λ c. c.now) result ≡ slice_get policy.now.shape place }
    ensures below { IfSome result (λ c. place < 16) }
{
    if place >= policy.shape.len() {
        return None;
    }
    match policy.shape.component(place as u32) {
        Some(component) => Some(component),
        None => None,
    }
}
