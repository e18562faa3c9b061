// The parts of a label as numbers, one for each component of the policy.
ghost use Rattle.std.specs.Prelude.{◌≡◌, ◌+◌, ◌^◌, ◌<◌, ◌≤◌, find, length, slice_get, if◌then◌else◌};
ghost use Rattle.std.specs.List.{list_any};
ghost use Rattle.std.specs.Option.{option_copied};
ghost use Rattle.std.specs.Str.{bytes_eq};
ghost use Rattle.lb_alter.specs.ChangeLabel as change;
ghost use Rattle.lb_cat.specs.Stamps.{bare_policy};
ghost use Rattle.lb_label.specs.Label.{part_of};
ghost use Rattle.lb_label.specs.LabelText as texts;
ghost use Rattle.lb_label.specs.declared.kind.ComponentKind.TheVariants as kinds;

use crate::fitting::component_at;
use lb_base::{Name, Parts, Str};
use lb_cat::PolicyRec;
use lb_label::{Component, ComponentKind};
use lb_stmt::LabelPart;

/// The parts of the label that has these elements, for each component of the policy in its order.
#[tactic(auto, using(crate::proofs::Numbering::few_parts, crate::proofs::Numbering::all_parts, crate::proofs::Numbering::no_part))]
pub fn label_parts(policy: &PolicyRec, listed: &[LabelPart]) -> Parts
    ensures { result.items ≡ change.label_parts (bare_policy policy.now) listed.now }
{
    let mut parts = Parts::new();
    for place in 0..policy.shape.len() {
        let Some(part) = part_at(policy, listed, place) else {
            return parts;
        };
        parts.push(part);
    }
    parts
}

#[tactic(auto, using(crate::proofs::Numbering::part_there, crate::proofs::Numbering::part_lacks_name, crate::proofs::Numbering::part_lacks_component))]
fn part_at(policy: &PolicyRec, listed: &[LabelPart], place: usize) -> Option<u64>
    ensures { result ≡ slice_get (change.label_parts (bare_policy policy.now) listed.now) place }
{
    let name = policy.components.at(place)?;
    let component = component_at(policy, place)?;
    Some(part_named(component, listed_for(listed, name)))
}

/// The elements that the statement lists for the component.
fn listed_for<'a>(listed: &'a [LabelPart], component: &Name) -> &'a [Str]
    ensures { result.now ≡ change.listed_for listed.now component.now }
{
    match part_for(listed, component) {
        Some(part) => part.elements.as_slice(),
        None => &[],
    }
}

fn part_for<'a>(listed: &'a [LabelPart], component: &Name) -> Option<&'a LabelPart>
    ensures { option_copied result ≡ find (λ x. bytes_eq x.component component.now) listed.now }
{
    for part in listed {
        if part.component.is(component) {
            return Some(part);
        }
    }
    None
}

/// The part that stands for elements of a component, by their texts.
fn part_named(component: &Component, names: &[Str]) -> u64
    ensures { result ≡ change.part_named component.now names.now }
{
    match component.kind() {
        ComponentKind::Array => place_named(component, names),
        ComponentKind::Set | ComponentKind::Tree => bits_named(component, names),
    }
}

/// One more than the number of the first element that is named, and 0 where none is.
#[tactic(auto, using(crate::proofs::Numbering::place_here, crate::proofs::Numbering::place_later, crate::proofs::Numbering::no_place))]
fn place_named(component: &Component, names: &[Str]) -> u64
    ensures { result ≡ part_of kinds.Array (change.elements_named component.now names.now) }
{
    for number in 0..component.len() {
        if is_named(component, number, names) {
            return u64::from(number) + 1;
        }
    }
    0
}

/// The bits of the elements that are named.
#[tactic(auto, using(crate::proofs::Numbering::bits_more, crate::proofs::Numbering::bits_below))]
fn bits_named(component: &Component, names: &[Str]) -> u64
    requires { length component.now.elements ≤ 64 }
    ensures { result ≡ part_of kinds.Set (change.elements_named component.now names.now) }
{
    let mut bits = 0;
    for number in 0..component.len() {
        bits = with_bit(component, names, number, bits);
    }
    bits
}

/// These bits, and that of the element with this number if it is named.
fn with_bit(component: &Component, names: &[Str], number: u32, bits: u64) -> u64
    requires number { number < length component.now.elements }
    requires few { length component.now.elements ≤ 64 }
    requires below { bits < 2 ^ number }
    ensures { result ≡ (if texts.is_named component.now names.now number then bits + 2 ^ number else bits) }
{
    if is_named(component, number, names) {
        bits + (1 << number)
    } else {
        bits
    }
}

/// Whether the element with this number is named by one of the names.
fn is_named(component: &Component, number: u32, names: &[Str]) -> bool
    requires { number < length component.now.elements }
    ensures { result ≡ texts.is_named component.now names.now number }
{
    match component.element(number) {
        Some(text) => is_among(text, names),
        None => unreachable!(),
    }
}

fn is_among(text: &str, names: &[Str]) -> bool
    ensures { result ≡ list_any (λ name. bytes_eq text.now name) names.now }
{
    for name in names {
        if text == name.as_str() {
            return true;
        }
    }
    false
}
