// The rules over labels: which access fails, and which labels a user may hold together.
ghost use Rattle.std.specs.Prelude.{◌≡◌, ℕ, ◌+◌, ◌<◌, ◌==◌, ◌&&◌, length, not, if◌then◌else◌};
ghost use Rattle.std.specs.Int.{bit_at};
ghost use Rattle.lb_label.specs.Component.{IsComponent};
ghost use Rattle.lb_label.specs.Exemption.{is_exempt};
ghost use Rattle.lb_label.specs.Label.{IsLabel, IsPart, elements_in, label_of};
ghost use Rattle.lb_label.specs.Rules.{agrees, blocks, failing_rule, failure, first_disagreement, is_under, kind_of};
ghost use Rattle.lb_label.specs.declared.kind.Access.TheVariants.{Read, Write};
ghost use Rattle.lb_label.specs.declared.kind.ComponentKind.TheVariants.{Set, Array, Tree};
ghost use Rattle.lb_base.specs.declared.rule.Rule.TheVariants.{ReadArray, ReadSet, ReadTree, WriteDown, WriteUp, WriteSet, WriteTree};

use crate::component::Component;
use crate::exemption::Exempt;
use crate::kind::{Access, ComponentKind};
use crate::shape::Shape;
use lb_base::Rule;

/// The component in which an access fails, by its place in the policy, and the rule that fails there.
#[derive(Clone, Copy, Debug, PartialEq, Eq)]
pub struct Fail {
    pub component: u32,
    pub rule: Rule,
}

/// The first component, in policy order, whose read rule is not among the exemptions and blocks the label `value` for
/// the label `user`, with that rule (LBAC rule set: DB2LBACRULES). It takes no memory.
///
/// A user without a label is tested as the label whose parts are all 0.
pub fn read_fail(shape: &Shape, user: &[u64], exempt: Exempt, value: &[u64]) -> Option<Fail>
    requires user { IsLabel shape.now user.now }
    requires value { IsLabel shape.now value.now }
    ensures { result ≡ failure Read shape.now (label_of shape.now user.now) (is_exempt exempt) (label_of shape.now value.now) }
{
    first_fail(Access::Read, shape, user, &exempt, value)
}

/// The same for the write rules. Of the two rules of an ARRAY at most one blocks.
pub fn write_fail(shape: &Shape, user: &[u64], exempt: Exempt, value: &[u64]) -> Option<Fail>
    requires user { IsLabel shape.now user.now }
    requires value { IsLabel shape.now value.now }
    ensures { result ≡ failure Write shape.now (label_of shape.now user.now) (is_exempt exempt) (label_of shape.now value.now) }
{
    first_fail(Access::Write, shape, user, &exempt, value)
}

/// The first component in which a user may not hold the label `write` for writing beside the label `read` for reading,
/// if there is one (GRANT (security label) statement): in an ARRAY both have the same element, in a SET each element
/// of `write` is one of `read`, in a TREE it is one of `read` or a descendant of one. It takes no memory.
pub fn grant_fits(shape: &Shape, read: &[u64], write: &[u64]) -> Option<u32>
    requires read { IsLabel shape.now read.now }
    requires write { IsLabel shape.now write.now }
    ensures { result ≡ first_disagreement 0 shape.now (label_of shape.now read.now) (label_of shape.now write.now) }
{
    for at in 0..shape.len() {
        if !agree(shape.at(at), read[at], write[at]) {
            return Some(at as u32);
        }
    }
    None
}

fn first_fail(
    access: Access,
    shape: &Shape,
    user: &[u64],
    exempt: &Exempt,
    value: &[u64],
) -> Option<Fail>
    requires user { IsLabel shape.now user.now }
    requires value { IsLabel shape.now value.now }
    ensures { result ≡ failure access shape.now (label_of shape.now user.now) (is_exempt exempt.now) (label_of shape.now value.now) }
{
    for at in 0..shape.len() {
        if let Some(rule) = failing(access, shape.at(at), user[at], exempt, value[at]) {
            return Some(Fail {
                component: at as u32,
                rule,
            });
        }
    }
    None
}

/// The rule by which an access fails in one component.
fn failing(
    access: Access,
    component: &Component,
    user: u64,
    exempt: &Exempt,
    value: u64,
) -> Option<Rule>
    requires user { IsPart component.now user }
    requires value { IsPart component.now value }
    ensures { result ≡ failing_rule access (is_exempt exempt.now) component.now (elements_in component.now user) (elements_in component.now value) }
{
    match (access, component.kind()) {
        (Access::Read, ComponentKind::Set) => unless_exempt(
            Rule::ReadSet,
            component,
            user,
            exempt,
            value,
        ),
        (Access::Read, ComponentKind::Array) => unless_exempt(
            Rule::ReadArray,
            component,
            user,
            exempt,
            value,
        ),
        (Access::Read, ComponentKind::Tree) => unless_exempt(
            Rule::ReadTree,
            component,
            user,
            exempt,
            value,
        ),
        (Access::Write, ComponentKind::Set) => unless_exempt(
            Rule::WriteSet,
            component,
            user,
            exempt,
            value,
        ),
        (Access::Write, ComponentKind::Array) => match unless_exempt(
            Rule::WriteDown,
            component,
            user,
            exempt,
            value,
        ) {
            Some(rule) => Some(rule),
            None => unless_exempt(Rule::WriteUp, component, user, exempt, value),
        },
        (Access::Write, ComponentKind::Tree) => unless_exempt(
            Rule::WriteTree,
            component,
            user,
            exempt,
            value,
        ),
    }
}

/// The rule, where it blocks and there is no exemption from it.
fn unless_exempt(
    rule: Rule,
    component: &Component,
    user: u64,
    exempt: &Exempt,
    value: u64,
) -> Option<Rule>
    requires valid { IsComponent component.now }
    requires kind { kind_of rule ≡ component.now.kind }
    requires user { IsPart component.now user }
    requires value { IsPart component.now value }
    ensures { result ≡ (if not (is_exempt exempt.now rule) && blocks rule component.now (elements_in component.now user) (elements_in component.now value) then Some rule else None) }
{
    if !exempt.has(rule) && is_blocked(rule, component, user, value) {
        Some(rule)
    } else {
        None
    }
}

/// Whether a rule blocks in a component of its kind.
fn is_blocked(rule: Rule, component: &Component, user: u64, value: u64) -> bool
    requires valid { IsComponent component.now }
    requires kind { kind_of rule ≡ component.now.kind }
    requires user { IsPart component.now user }
    requires value { IsPart component.now value }
    ensures { result ≡ blocks rule component.now (elements_in component.now user) (elements_in component.now value) }
{
    match rule {
        Rule::ReadArray => user_is_below(component, user, value),
        Rule::ReadSet => user_lacks_one(component, user, value),
        Rule::ReadTree => none_is_under(component, user, value),
        Rule::WriteDown => user_is_above(component, user, value),
        Rule::WriteUp => user_is_below(component, user, value),
        Rule::WriteSet => user_lacks_one(component, user, value),
        Rule::WriteTree => none_is_under(component, user, value),
    }
}

/// Whether the value has an element of an ARRAY and the user a lower one, or none.
fn user_is_below(component: &Component, user: u64, value: u64) -> bool
    requires valid { IsComponent component.now }
    requires kind { component.now.kind ≡ Array }
    requires user { IsPart component.now user }
    requires value { IsPart component.now value }
    ensures read { result ≡ blocks ReadArray component.now (elements_in component.now user) (elements_in component.now value) }
    ensures write { result ≡ blocks WriteUp component.now (elements_in component.now user) (elements_in component.now value) }
{
    if value == 0 {
        return false;
    }
    if user == 0 {
        return true;
    }
    component.is_higher(element_of(component, value), element_of(component, user))
}

/// Whether the value has an element of an ARRAY and the user a higher one.
fn user_is_above(component: &Component, user: u64, value: u64) -> bool
    requires valid { IsComponent component.now }
    requires kind { component.now.kind ≡ Array }
    requires user { IsPart component.now user }
    requires value { IsPart component.now value }
    ensures { result ≡ blocks WriteDown component.now (elements_in component.now user) (elements_in component.now value) }
{
    if value == 0 {
        return false;
    }
    if user == 0 {
        return false;
    }
    component.is_higher(element_of(component, user), element_of(component, value))
}

/// The element that a part of an ARRAY has.
fn element_of(component: &Component, part: u64) -> u32
    requires valid { IsComponent component.now }
    requires kind { component.now.kind ≡ Array }
    requires part { IsPart component.now part }
    requires some { 0 < part }
    ensures { result + 1 ≡ part }
{
    (part - 1) as u32
}

/// Whether the value has an element of a SET that the user lacks.
fn user_lacks_one(component: &Component, user: u64, value: u64) -> bool
    requires valid { IsComponent component.now }
    requires kind { component.now.kind ≡ Set }
    requires user { IsPart component.now user }
    requires value { IsPart component.now value }
    ensures read { result ≡ blocks ReadSet component.now (elements_in component.now user) (elements_in component.now value) }
    ensures write { result ≡ blocks WriteSet component.now (elements_in component.now user) (elements_in component.now value) }
{
    value & !user != 0
}

/// Whether the value has elements of a TREE, and none of them is one of the user's or a descendant of one.
fn none_is_under(component: &Component, user: u64, value: u64) -> bool
    requires valid { IsComponent component.now }
    requires kind { component.now.kind ≡ Tree }
    requires user { IsPart component.now user }
    requires value { IsPart component.now value }
    ensures read { result ≡ blocks ReadTree component.now (elements_in component.now user) (elements_in component.now value) }
    ensures write { result ≡ blocks WriteTree component.now (elements_in component.now user) (elements_in component.now value) }
{
    if value == 0 {
        return false;
    }
    under(component, value, user) == 0
}

/// Of the elements of a TREE in `elements` those that are elements in `top` or descendants of them.
fn under(component: &Component, elements: u64, top: u64) -> u64
    requires valid { IsComponent component.now }
    requires kind { component.now.kind ≡ Tree }
    requires elements { IsPart component.now elements }
    requires top { IsPart component.now top }
    ensures { (i : ℕ) → bit_at result i ≡ (if (bit_at elements i == 1) && is_under component.now (elements_in component.now top) i then 1 else 0) }
{
    let mut found = 0;
    let mut rest = elements;
    while rest != 0 {
        let element = rest.trailing_zeros();
        if is_in_or_under(component, element, top) {
            found |= 1 << element;
        }
        rest &= !(1 << element);
    }
    found
}

/// Whether an element of a TREE is one of `top` or a descendant of one.
fn is_in_or_under(component: &Component, element: u32, top: u64) -> bool
    requires valid { IsComponent component.now }
    requires kind { component.now.kind ≡ Tree }
    requires element { element < length component.now.elements }
    requires top { IsPart component.now top }
    ensures { result ≡ is_under component.now (elements_in component.now top) element }
{
    component.line(element) & top != 0
}

/// Whether a user may hold the part `write` beside the part `read`.
fn agree(component: &Component, read: u64, write: u64) -> bool
    requires read { IsPart component.now read }
    requires write { IsPart component.now write }
    ensures { result ≡ agrees component.now (elements_in component.now read) (elements_in component.now write) }
{
    match component.kind() {
        ComponentKind::Array => read == write,
        ComponentKind::Set => write & !read == 0,
        ComponentKind::Tree => under(component, write, read) == write,
    }
}
