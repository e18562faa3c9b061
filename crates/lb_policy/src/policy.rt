// Security policies, made over the components that are there.
ghost use Rattle.std.specs.Prelude.{◌≡◌, ◌≤◌, ◌<◌, ◌++◌, ◌∷◌, [], filter_map, is_none, is_some, length, nat_lt, take, IfOk, OnOk};
ghost use Rattle.lb_base.specs.declared.key.Key.TheVariants as keys;
ghost use Rattle.lb_alter.specs.ChangePolicy as change;
ghost use Rattle.lb_alter.specs.Refusing as refusing;
ghost use Rattle.lb_cat.specs.Catalog as cat;
ghost use Rattle.lb_cat.specs.Stamps.{bare, bare_policy, look};
ghost use Rattle.lb_cat.specs.declared.refusal.LimitOf.TheVariants as limits;
ghost use Rattle.lb_cat.specs.declared.refusal.Refusal.TheVariants as refusals;
ghost use Rattle.lb_rows.specs.Tables.{Tables};
ghost use Rattle.lb_changed.specs.Given.{Passes};
ghost use Rattle.lb_changed.specs.Made.{Makes};
ghost use Rattle.lb_policy.specs.Before.{turned};

use crate::stops::unless_taken;
use crate::used::is_among;
use lb_base::{Listing, Name, Names, NoMemory};
use lb_cat::{Catalog, LimitOf, PolicyRec};
use lb_changed::{Changed, Stop, alters_policy, exists, limit, secadm, unknown};
use lb_label::Shape;
use lb_stmt::{PolicyDef, WriteOption};
use sqlite_items::Items;
use std::alloc::Global;

/// CREATE SECURITY POLICY (CREATE SECURITY POLICY statement). NotSecadm; Exists where the name is taken; Limit beyond 16 components;
/// and of the components in their order the first that isn't there (Unknown) or stands twice (Exists).
#[tactic(auto, using(lb_changed::proofs::Steps::steps))]
pub fn create_policy(
    alloc: Global,
    catalog: &Catalog,
    user: &Name,
    definition: &PolicyDef,
) -> Result<Changed, Stop>
    ensures { (T : Tables) → Makes catalog.now T (change.create_policy (bare catalog.now) T user.now definition.now) result }
{
    secadm(catalog, user)?;
    is_new(alloc, catalog, &definition.name)?;
    are_few(&definition.components)?;
    are_there(alloc, catalog, definition.components.as_slice())?;
    leaves(alloc, catalog, definition)
}

#[tactic(auto, using(crate::proofs::Tests::refuses))]
fn is_new(alloc: Global, catalog: &Catalog, name: &Name) -> Result<(), Stop>
    ensures passes { Passes (refusing.when (is_some (cat.policy_named (bare catalog.now) name.now)) (refusals.Exists name.now)) result }
    ensures stamp { OnOk result (look catalog.now (keys.Policy name.now) ≡ 0) }
{
    match catalog.policy(name) {
        Some(_) => Err(exists(alloc, name)),
        None => Ok(()),
    }
}

fn are_few(components: &Items<Name>) -> Result<(), Stop>
    ensures passes { Passes (refusing.when (nat_lt 16 (length components.now)) (refusals.Limit limits.Components 16)) result }
    ensures few { OnOk result (length components.now ≤ 16) }
{
    if components.len() > 16 {
        return Err(limit(LimitOf::Components, 16));
    }
    Ok(())
}

/// Each component is there and stands once.
#[tactic(auto, using(crate::proofs::Components::absent_stops, crate::proofs::Components::repeated_stops, crate::proofs::Components::component_passes, crate::proofs::Components::turned_more))]
fn are_there(alloc: Global, catalog: &Catalog, names: &[Name]) -> Result<(), Stop>
    ensures { Passes (change.components_refusal (bare catalog.now) [] names.now) result }
{
    for (place, name) in names.iter().enumerate() {
        is_there(alloc, catalog, name)?;
        is_first(alloc, before(names, place), name)?;
    }
    Ok(())
}

fn before(names: &[Name], place: usize) -> &[Name]
    requires { place < length names.now }
    ensures { result.now ≡ take place names.now }
{
    &names[..place]
}

#[tactic(auto, using(crate::proofs::Tests::refuses))]
fn is_there(alloc: Global, catalog: &Catalog, name: &Name) -> Result<(), Stop>
    ensures { Passes (refusing.when (is_none (cat.component_named (bare catalog.now) name.now)) (refusals.Unknown name.now)) result }
{
    match catalog.component(name) {
        Some(_) => Ok(()),
        None => Err(unknown(alloc, name)),
    }
}

fn is_first(alloc: Global, before: &[Name], name: &Name) -> Result<(), Stop>
    ensures { Passes (refusing.when (cat.is_among (turned before.now) name.now) (refusals.Exists name.now)) result }
{
    unless_taken(alloc, name, is_among(before, name))
}

fn leaves(alloc: Global, catalog: &Catalog, definition: &PolicyDef) -> Result<Changed, Stop>
    requires new { look catalog.now (keys.Policy definition.now.name) ≡ 0 }
    requires few { length definition.now.components ≤ 16 }
    ensures { (T : Tables) → Makes catalog.now T (refusing.done (cat.put_policy (change.new_policy (bare catalog.now) definition.now) (bare catalog.now)) T (keys.Policy definition.now.name ∷ [])) result }
{
    let policy = new_policy(alloc, catalog, definition)?;
    alters_policy(alloc, catalog, policy)
}

/// The policy, without labels.
fn new_policy(
    alloc: Global,
    catalog: &Catalog,
    definition: &PolicyDef,
) -> Result<PolicyRec, NoMemory>
    requires { length definition.now.components ≤ 16 }
    ensures bare { IfOk result (λ p. bare_policy p ≡ change.new_policy (bare catalog.now) definition.now) }
    ensures name { IfOk result (λ p. p.name ≡ definition.now.name) }
    ensures stamp { IfOk result (λ p. p.stamp ≡ 0) }
{
    let name = definition.name.copy()?;
    let components = copies(alloc, definition.components.as_slice())?;
    let shape = shape_of(catalog, definition.components.as_slice())?;
    Ok(PolicyRec {
        name,
        components,
        shape,
        restrict: restricts(definition.option),
        labels: Listing::empty(alloc),
        stamp: 0,
    })
}

fn restricts(option: WriteOption) -> bool
    ensures { result ≡ change.restricts option }
{
    match option {
        WriteOption::Override => false,
        WriteOption::Restrict => true,
    }
}

fn copies(alloc: Global, names: &[Name]) -> Result<Names, NoMemory>
    ensures { IfOk result (λ c. c ≡ names.now) }
{
    let mut copies = Listing::empty(alloc);
    for name in names {
        copies.push(name.copy()?)?;
    }
    Ok(copies)
}

/// The components of these names that are there.
#[tactic(auto, using(crate::proofs::Components::few_are_there, crate::proofs::Components::there_more))]
fn shape_of(catalog: &Catalog, names: &[Name]) -> Result<Shape, NoMemory>
    requires { length names.now ≤ 16 }
    ensures { IfOk result (λ s. s ≡ filter_map (change.definition_named (bare catalog.now)) names.now) }
{
    let mut shape = Shape::empty();
    for name in names {
        add_component(catalog, &mut shape, name)?;
    }
    Ok(shape)
}

fn add_component(catalog: &Catalog, shape: &mut Shape, name: &Name) -> Result<(), NoMemory>
    requires { length shape.old < 16 }
    ensures { OnOk result (shape.new ≡ shape.old ++ filter_map (change.definition_named (bare catalog.now)) (name.now ∷ [])) }
{
    match catalog.component(name) {
        Some(component) => {
            let _ = shape.push(component.component.clone()?);
            Ok(())
        }
        None => Ok(()),
    }
}
