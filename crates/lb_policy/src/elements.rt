// The elements of a new component, added in their order.
ghost use Rattle.std.specs.Prelude.{◌≡◌, ◌↔◌, ◌<◌, ◌∷◌, ◌≢◌, length, map, None, Some, IsSome, OnOk};
ghost use Rattle.std.specs.Option.{option_copied};
ghost use Rattle.lb_alter.specs.ChangePolicy as change;
ghost use Rattle.lb_label.specs.Component.{empty_component, refusal, with_element};
ghost use Rattle.lb_label.specs.declared.kind.ComponentKind.TheVariants as kinds;
ghost use Rattle.lb_changed.specs.Given.{Gives, Passes};
ghost use Rattle.lb_policy.specs.Faults.{StopsAt};

use crate::stops::{exists_text, unknown_text};
use lb_base::Str;
use lb_cat::{LimitOf, Refusal};
use lb_changed::{Stop, limit};
use lb_label::{Component, ComponentKind, ElementFault};
use lb_stmt::{ComponentDef, TreeElement};
use std::alloc::Global;

/// The component with the elements of its definition, or the refusal of the first that can't be added.
pub fn component_of(alloc: Global, definition: &ComponentDef) -> Result<Component, Stop>
    ensures { Gives (λ c. c) (change.with_elements 0 (empty_component (change.kind_of_definition definition.now)) (change.elements_of definition.now)) result }
{
    match definition {
        ComponentDef::Set(elements) => listed(alloc, ComponentKind::Set, elements.as_slice()),
        ComponentDef::Array(elements) => listed(alloc, ComponentKind::Array, elements.as_slice()),
        ComponentDef::Tree(root, elements) => tree(alloc, root, elements.as_slice()),
    }
}

#[tactic(auto, using(crate::proofs::Adding::element_stops, crate::proofs::Adding::element_passes))]
fn listed(alloc: Global, kind: ComponentKind, elements: &[Str]) -> Result<Component, Stop>
    requires { kind ≢ kinds.Tree }
    ensures { Gives (λ c. c) (change.with_elements 0 (empty_component kind) (map (λ e. (e, None)) elements.now)) result }
{
    let mut component = Component::empty(alloc, kind);
    for element in elements {
        add(alloc, &mut component, element.as_str(), None)?;
    }
    Ok(component)
}

#[tactic(auto, using(crate::proofs::Adding::element_stops, crate::proofs::Adding::element_passes))]
fn tree(alloc: Global, root: &Str, elements: &[TreeElement]) -> Result<Component, Stop>
    ensures { Gives (λ c. c) (change.with_elements 0 (empty_component kinds.Tree) ((root.now, None) ∷ map (λ e. (e.name, Some e.parent)) elements.now)) result }
{
    let mut component = Component::empty(alloc, ComponentKind::Tree);
    add(alloc, &mut component, root.as_str(), None)?;
    for element in elements {
        let parent = element.parent.as_str();
        add(alloc, &mut component, element.name.as_str(), Some(parent))?;
    }
    Ok(component)
}

/// Adds an element; its number is that of the elements that are there.
#[tactic(auto, using(crate::proofs::Adding::fault_stops))]
fn add(
    alloc: Global,
    component: &mut Component,
    element: &str,
    parent: Option<&str>,
) -> Result<(), Stop>
    requires { IsSome parent ↔ ((component.old.kind ≡ kinds.Tree) × (0 < length component.old.elements)) }
    ensures added { OnOk result (component.new ≡ with_element component.old element.now (option_copied parent.entry)) }
    ensures passes { Passes (change.element_refusal (length component.old.elements) element.now (option_copied parent.entry) (refusal component.old element.now (option_copied parent.entry))) result }
{
    let number = component.len();
    match component.add(element, parent) {
        Ok(()) => Ok(()),
        Err(fault) => Err(stop_for(alloc, number, element, parent, fault)),
    }
}

/// Why the element with this number isn't added.
fn stop_for(
    alloc: Global,
    number: u32,
    element: &str,
    parent: Option<&str>,
    fault: ElementFault,
) -> Stop
    ensures { StopsAt number element.now (option_copied parent.entry) fault result }
{
    match fault {
        ElementFault::TooMany(most) => limit(LimitOf::Elements, u64::from(most)),
        ElementFault::BadElement => Stop::Refused(Refusal::BadLabel(number)),
        ElementFault::Repeated => exists_text(alloc, element),
        ElementFault::NoParent => match parent {
            Some(parent) => unknown_text(alloc, parent),
            None => unknown_text(alloc, ""),
        },
        ElementFault::NoMemory => Stop::NoMemory,
    }
}
