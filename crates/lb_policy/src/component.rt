// Security label components, made and dropped.
ghost use Rattle.std.specs.Prelude.{◌≡◌, ◌∷◌, [], find, is_some, IfOk, OnOk};
ghost use Rattle.std.specs.Arc.{arc_value};
ghost use Rattle.std.specs.Option.{option_map};
ghost use Rattle.lb_base.specs.declared.key.Key.TheVariants as keys;
ghost use Rattle.lb_alter.specs.ChangePolicy as change;
ghost use Rattle.lb_alter.specs.Refusing as refusing;
ghost use Rattle.lb_cat.specs.Catalog as cat;
ghost use Rattle.lb_cat.specs.Stamps.{bare, bare_component, look};
ghost use Rattle.lb_cat.specs.declared.refusal.Refusal.TheVariants as refusals;
ghost use Rattle.lb_rows.specs.Tables.{Tables};
ghost use Rattle.lb_changed.specs.Given.{Gives, Passes};
ghost use Rattle.lb_changed.specs.Made.{Makes};

use crate::elements::component_of;
use crate::left::left;
use crate::used::first_policy_with;
use lb_base::{Key, Name, NoMemory};
use lb_cat::{Catalog, ComponentRec};
use lb_changed::{Changed, Stop, done, exists, in_use, one_key, secadm, unknown, with_component};
use lb_label::Component;
use lb_stmt::ComponentDef;
use std::alloc::Global;
use std::sync::Arc;

/// CREATE SECURITY LABEL COMPONENT (CREATE SECURITY LABEL COMPONENT statement). NotSecadm; Exists where the name is taken; and of the
/// elements in their order the first that can't be added: Limit beyond 64, or 1,024 of an ARRAY; BadLabel with its number where it
/// has not 1 to 32 bytes or holds one of `( ) , :`; Exists where it stands twice; Unknown where its parent is no earlier element.
#[tactic(auto, using(lb_changed::proofs::Steps::steps))]
pub fn create_component(
    alloc: Global,
    catalog: &Catalog,
    user: &Name,
    name: &Name,
    definition: &ComponentDef,
) -> Result<Changed, Stop>
    ensures { (T : Tables) → Makes catalog.now T (change.create_component (bare catalog.now) T user.now name.now definition.now) result }
{
    secadm(catalog, user)?;
    is_new(alloc, catalog, name)?;
    let component = component_of(alloc, definition)?;
    leaves(alloc, catalog, name, component)
}

#[tactic(auto, using(crate::proofs::Tests::refuses))]
fn is_new(alloc: Global, catalog: &Catalog, name: &Name) -> Result<(), Stop>
    ensures passes { Passes (refusing.when (is_some (cat.component_named (bare catalog.now) name.now)) (refusals.Exists name.now)) result }
    ensures stamp { OnOk result (look catalog.now (keys.Component name.now) ≡ 0) }
{
    match catalog.component(name) {
        Some(_) => Err(exists(alloc, name)),
        None => Ok(()),
    }
}

fn leaves(
    alloc: Global,
    catalog: &Catalog,
    name: &Name,
    component: Component,
) -> Result<Changed, Stop>
    requires { look catalog.now (keys.Component name.now) ≡ 0 }
    ensures { (T : Tables) → Makes catalog.now T (refusing.done (cat.put_component (record { name = name.now; definition = component }) (bare catalog.now)) T (keys.Component name.now ∷ [])) result }
{
    let touched = one_key(alloc, Key::Component(name.copy()?))?;
    let rec = record_of(alloc, name, component)?;
    let changed = with_component(alloc, catalog, rec)?;
    Ok(done(changed, touched))
}

fn record_of(alloc: Global, name: &Name, component: Component) -> Result<ComponentRec, NoMemory>
    ensures bare { IfOk result (λ r. bare_component r ≡ record { name = name.now; definition = component }) }
    ensures name { IfOk result (λ r. r.name ≡ name.now) }
    ensures stamp { IfOk result (λ r. r.stamp ≡ 0) }
{
    let name = name.copy()?;
    let component = Arc::new(alloc, component)?;
    Ok(ComponentRec {
        name,
        component,
        stamp: 0,
    })
}

/// DROP SECURITY LABEL COMPONENT (DROP statement). NotSecadm; Unknown; InUse with the first policy that has the component.
#[tactic(auto, using(lb_changed::proofs::Steps::steps))]
pub fn drop_component(
    alloc: Global,
    catalog: &Catalog,
    user: &Name,
    name: &Name,
) -> Result<Changed, Stop>
    ensures { (T : Tables) → Makes catalog.now T (change.drop_component_of (bare catalog.now) T user.now name.now) result }
{
    secadm(catalog, user)?;
    the_component(alloc, catalog, name)?;
    is_unused(alloc, catalog, name)?;
    drops(alloc, catalog, name)
}

/// The component of that name, or Unknown.
fn the_component<'a>(
    alloc: Global,
    catalog: &'a Catalog,
    name: &Name,
) -> Result<&'a Arc<ComponentRec>, Stop>
    ensures { Gives (λ c. bare_component (arc_value c.now)) (refusing.found name.now (cat.component_named (bare catalog.now) name.now)) result }
{
    match catalog.component(name) {
        Some(component) => Ok(component),
        None => Err(unknown(alloc, name)),
    }
}

fn is_unused(alloc: Global, catalog: &Catalog, name: &Name) -> Result<(), Stop>
    ensures { Passes (refusing.in_use name.now (option_map change.policy_name (find (change.has_component name.now) (bare catalog.now).policies))) result }
{
    match first_policy_with(catalog, name) {
        Some(policy) => Err(in_use(alloc, name, &policy.name)),
        None => Ok(()),
    }
}

fn drops(alloc: Global, catalog: &Catalog, name: &Name) -> Result<Changed, Stop>
    ensures { (T : Tables) → Makes catalog.now T (refusing.done (cat.drop_component name.now (bare catalog.now)) T (keys.Component name.now ∷ [])) result }
{
    lb_cat::stamps_follow_their_records();
    let touched = one_key(alloc, Key::Component(name.copy()?))?;
    let mut changed = catalog.copy()?;
    changed.drop_component(name);
    Ok(left(changed, touched))
}
