// Label components, labels and their rules: what each rule blocks, label texts, limits, as one table for each thing.
ghost use Rattle.std.specs.Prelude.{◌≡◌, ◌≢◌, IfOk};
ghost use Rattle.lb_label.specs.declared.kind.ComponentKind.TheVariants.{Set, Array, Tree};

use lb_base::Rule::{self, ReadArray, ReadSet, ReadTree, WriteDown, WriteSet, WriteTree, WriteUp};
use lb_base::{NoMemory, values_stand_in_one_order};
use lb_label::{
    BadLabel, Component, ComponentKind, ElementFault, Exempt, Fail, Shape, ShapeFault, grant_fits,
    parts_are_told_by_their_elements, print_text, read_fail, read_text, write_fail,
};
use std::alloc::Global;
use std::process::Abort;
use std::sync::Arc;
use std::test::Fail as Failure;

/// A SET or an ARRAY of these elements.
fn flat(alloc: Global, kind: ComponentKind, elements: &[&str]) -> Result<Component, ElementFault>
    requires { kind ≢ Tree }
{
    let mut component = Component::empty(alloc, kind);
    for element in elements {
        component.add(element, None)?;
    }
    Ok(component)
}

/// A TREE of these elements, each under the one beside it.
fn tree(alloc: Global, root: &str, elements: &[(&str, &str)]) -> Result<Component, ElementFault> {
    let mut component = Component::empty(alloc, ComponentKind::Tree);
    component.add(root, None)?;
    for (element, parent) in elements {
        component.add(element, Some(parent))?;
    }
    Ok(component)
}

/// The components LEVEL, DEPT and REGION.
fn level_dept_region(alloc: Global) -> Result<Shape, Failure> {
    let level = flat(alloc, ComponentKind::Array, &["TOP", "MID", "LOW"])?;
    let dept = flat(alloc, ComponentKind::Set, &["HR", "IT", "FIN"])?;
    let region = tree(alloc, "ALL", &[("EU", "ALL"), ("FR", "EU"), ("US", "ALL")])?;
    let mut shape = Shape::empty();
    shape.push(Arc::new(alloc, level)?)?;
    shape.push(Arc::new(alloc, dept)?)?;
    shape.push(Arc::new(alloc, region)?)?;
    Ok(shape)
}

const MHE: &str = "MID:HR:EU";

const FULL: &str = "TOP:(HR,IT,FIN):ALL";

const NO_LABEL: &str = "():():()";

/// A user's label, its exemption, the label of data, and the rules by which reading and writing fail.
/// The first component that fails is named, and not a later one. The root of a tree is under none of the others.
type Case = (
    &'static str,
    Option<Rule>,
    &'static str,
    Option<Rule>,
    Option<Rule>,
);

const ACCESSES: [Case; 38] = [
    (MHE, None, "MID:HR:FR", None, None),
    (MHE, None, "TOP:HR:FR", Some(ReadArray), Some(WriteUp)),
    (MHE, None, "LOW:():()", None, Some(WriteDown)),
    (MHE, None, "MID:(HR,IT):EU", Some(ReadSet), Some(WriteSet)),
    (MHE, None, "MID:HR:(US,FR)", None, None),
    (MHE, None, "MID:HR:US", Some(ReadTree), Some(WriteTree)),
    (MHE, None, NO_LABEL, None, None),
    (FULL, None, "MID:HR:FR", None, Some(WriteDown)),
    (FULL, None, "TOP:HR:FR", None, None),
    (FULL, None, "LOW:():()", None, Some(WriteDown)),
    (FULL, None, "MID:(HR,IT):EU", None, Some(WriteDown)),
    (FULL, None, "MID:HR:(US,FR)", None, Some(WriteDown)),
    (FULL, None, "MID:HR:US", None, Some(WriteDown)),
    (FULL, None, NO_LABEL, None, None),
    (NO_LABEL, None, "MID:HR:FR", Some(ReadArray), Some(WriteUp)),
    (NO_LABEL, None, "():HR:FR", Some(ReadSet), Some(WriteSet)),
    (NO_LABEL, None, "():():FR", Some(ReadTree), Some(WriteTree)),
    (NO_LABEL, None, NO_LABEL, None, None),
    (NO_LABEL, Some(ReadArray), "LOW:():()", None, Some(WriteUp)),
    (
        NO_LABEL,
        Some(WriteDown),
        "LOW:():()",
        Some(ReadArray),
        Some(WriteUp),
    ),
    (NO_LABEL, Some(WriteUp), "LOW:():()", Some(ReadArray), None),
    (
        MHE,
        Some(ReadArray),
        "TOP:IT:US",
        Some(ReadSet),
        Some(WriteUp),
    ),
    (
        MHE,
        Some(ReadSet),
        "MID:IT:US",
        Some(ReadTree),
        Some(WriteSet),
    ),
    (MHE, Some(ReadTree), "MID:HR:US", None, Some(WriteTree)),
    (MHE, Some(WriteDown), "LOW:HR:EU", None, None),
    (
        MHE,
        Some(WriteDown),
        "TOP:HR:EU",
        Some(ReadArray),
        Some(WriteUp),
    ),
    (MHE, Some(WriteUp), "LOW:HR:EU", None, Some(WriteDown)),
    (MHE, Some(WriteUp), "TOP:HR:EU", Some(ReadArray), None),
    (
        MHE,
        Some(WriteSet),
        "MID:IT:US",
        Some(ReadSet),
        Some(WriteTree),
    ),
    (MHE, Some(WriteTree), "MID:HR:US", Some(ReadTree), None),
    (MHE, None, "LOW:IT:EU", Some(ReadSet), Some(WriteDown)),
    (MHE, None, "TOP:IT:US", Some(ReadArray), Some(WriteUp)),
    (MHE, None, "MID:HR:ALL", Some(ReadTree), Some(WriteTree)),
    (MHE, None, "MID:HR:EU", None, None),
    (
        "MID:HR:FR",
        None,
        "MID:HR:EU",
        Some(ReadTree),
        Some(WriteTree),
    ),
    ("MID:HR:(FR,US)", None, "MID:HR:(ALL,US)", None, None),
    (
        "MID:():EU",
        None,
        "MID:HR:EU",
        Some(ReadSet),
        Some(WriteSet),
    ),
    (
        "():HR:EU",
        None,
        "LOW:HR:EU",
        Some(ReadArray),
        Some(WriteUp),
    ),
];

/// The component of LEVEL, DEPT, REGION that a rule speaks of.
fn place_of(rule: Rule) -> u32 {
    match rule {
        ReadArray | WriteDown | WriteUp => 0,
        ReadSet | WriteSet => 1,
        ReadTree | WriteTree => 2,
    }
}

fn fail(rule: Rule) -> Fail {
    Fail {
        component: place_of(rule),
        rule,
    }
}

fn check_accesses(rt: &impl Abort, shape: &Shape, rows: &[Case]) -> Result<(), BadLabel> {
    for (user, exempt, value, read, write) in rows {
        let user_parts = read_text(shape, user)?;
        let value_parts = read_text(shape, value)?;
        let exempt = match exempt {
            None => Exempt::none(),
            Some(rule) => Exempt::none().with(*rule),
        };
        let reads = read_fail(shape, &user_parts, exempt, &value_parts);
        let writes = write_fail(shape, &user_parts, exempt, &value_parts);
        assert!(rt; reads == read.map(fail), "{user} reads {value}");
        assert!(rt; writes == write.map(fail), "{user} writes {value}");
    }
    Ok(())
}

#[test]
fn laws_stand() {
    parts_are_told_by_their_elements();
    values_stand_in_one_order();
}

#[test]
fn rules_block(rt: HostRuntime) -> Result<(), Failure> {
    check_accesses(&rt, &level_dept_region(rt.alloc())?, &ACCESSES)?;
    Ok(())
}

/// A label for reading, one for writing, and the first component in which they disagree.
type Grant = (&'static str, &'static str, Option<u32>);

const GRANTS: [Grant; 9] = [
    (MHE, MHE, None),
    (MHE, "MID:():FR", None),
    (MHE, "MID:():()", None),
    (MHE, "():HR:EU", Some(0)),
    ("LOW:HR:EU", MHE, Some(0)),
    (MHE, "MID:(HR,IT):US", Some(1)),
    (MHE, "MID:HR:(FR,US)", Some(2)),
    ("MID:HR:FR", MHE, Some(2)),
    (NO_LABEL, NO_LABEL, None),
];

fn check_grants(rt: &impl Abort, shape: &Shape, rows: &[Grant]) -> Result<(), BadLabel> {
    for (read, write, disagrees) in rows {
        let read_parts = read_text(shape, read)?;
        let write_parts = read_text(shape, write)?;
        assert!(rt;
            grant_fits(shape, &read_parts, &write_parts) == *disagrees,
            "{read} beside {write}"
        );
    }
    Ok(())
}

#[test]
fn grants_agree(rt: HostRuntime) -> Result<(), Failure> {
    check_grants(&rt, &level_dept_region(rt.alloc())?, &GRANTS)?;
    Ok(())
}

/// A text, and the text that its label has, or where it fails.
type Reading = (&'static str, Result<&'static str, u32>);

const TEXTS: [Reading; 32] = [
    ("MID:HR:EU", Ok("MID:HR:EU")),
    ("(MID):(HR):(EU)", Ok("MID:HR:EU")),
    ("MID:HR:(US,FR)", Ok("MID:HR:(FR,US)")),
    ("MID:(IT,HR,IT):EU", Ok("MID:(HR,IT):EU")),
    ("(LOW,LOW):():()", Ok("LOW:():()")),
    ("():():()", Ok("():():()")),
    ("TOP:(FIN,IT,HR):ALL", Ok("TOP:(HR,IT,FIN):ALL")),
    ("MID:XX:EU", Err(4)),
    ("LOW:HR:DE", Err(7)),
    ("LOW:HR:EU:ALL", Err(10)),
    ("LOW:HR:EU:", Err(10)),
    ("LOW:XX:EU:ALL", Err(4)),
    ("LOW:HR", Err(6)),
    ("LOW:HR:", Err(7)),
    ("", Err(0)),
    (":", Err(0)),
    ("LOW", Err(3)),
    ("(TOP,MID):HR:EU", Err(5)),
    ("(TOP,TOP,LOW):HR:EU", Err(9)),
    ("(MID,XX):HR:EU", Err(5)),
    ("MID:(HR,XX):EU", Err(8)),
    ("MID:(XX,HR):EU", Err(5)),
    ("MID:(HR,):EU", Err(8)),
    ("MID:(,HR):EU", Err(5)),
    ("MID:HR,IT:EU", Err(4)),
    ("MID:(HR:EU", Err(4)),
    ("MID:HR):EU", Err(4)),
    ("MID:((HR)):EU", Err(5)),
    ("MID: HR:EU", Err(4)),
    ("MID:HR :EU", Err(4)),
    ("MID:( HR):EU", Err(5)),
    ("mid:HR:EU", Err(0)),
];

/// Reads a text, and writes the label again, or tells where the text fails.
fn read_again(alloc: Global, shape: &Shape, text: &str) -> Result<Result<String, u32>, NoMemory> {
    match read_text(shape, text) {
        Ok(parts) => Ok(Ok(print_text(alloc, shape, &parts)?)),
        Err(fault) => Ok(Err(fault.at)),
    }
}

fn check_texts(
    rt: &impl Abort,
    alloc: Global,
    shape: &Shape,
    rows: &[Reading],
) -> Result<(), NoMemory> {
    for (text, outcome) in rows {
        match (read_again(alloc, shape, text)?, outcome) {
            (Ok(printed), Ok(written)) => assert!(rt;
                printed.as_str() == *written,
                "the label of {text}"
            ),
            (Err(place), Err(at)) => assert!(rt; place == *at, "in {text}"),
            _ => assert!(rt; false, "whether {text} is a label text"),
        }
    }
    Ok(())
}

#[test]
fn texts_are_read_and_written(rt: HostRuntime) -> Result<(), Failure> {
    check_texts(&rt, rt.alloc(), &level_dept_region(rt.alloc())?, &TEXTS)?;
    Ok(())
}

/// Fills a component up, and what one element more is answered.
fn overfill(alloc: Global, kind: ComponentKind, most: u32) -> Result<Option<ElementFault>, Failure>
    requires { kind ≢ Tree }
{
    let mut component = Component::empty(alloc, kind);
    for number in 0..most {
        component.add(format!(in alloc; "E{number}")?.as_str(), None)?;
    }
    Ok(component.add("MORE", None).err())
}

#[test]
fn elements_have_limits(rt: HostRuntime) -> Result<(), Failure> {
    assert!(rt;
        matches!(
            overfill(rt.alloc(), ComponentKind::Set, 64)?,
            Some(ElementFault::TooMany(64))
        )
    );
    assert!(rt; matches!(overfill(rt.alloc(), ComponentKind::Set, 63)?, None));
    assert!(rt;
        matches!(
            overfill(rt.alloc(), ComponentKind::Array, 1024)?,
            Some(ElementFault::TooMany(1024))
        )
    );
    assert!(rt; matches!(overfill(rt.alloc(), ComponentKind::Array, 1023)?, None));
    Ok(())
}

#[test]
fn elements_are_refused(rt: HostRuntime) -> Result<(), Failure> {
    for text in [
        "",
        "(EU",
        "EU)",
        "E,U",
        "E:U",
        "123456789012345678901234567890123",
    ] {
        let mut dept = Component::empty(rt.alloc(), ComponentKind::Set);
        assert!(rt;
            matches!(dept.add(text, None), Err(ElementFault::BadElement)),
            "{text}"
        );
    }
    let mut region = tree(rt.alloc(), "ALL", &[("EU", "ALL")])?;
    assert_eq!(rt; region.len(), 2);
    assert!(rt; region.kind() == ComponentKind::Tree);
    assert!(rt; matches!(region.add("FR", Some("UK")), Err(ElementFault::NoParent)));
    assert!(rt; matches!(region.add("EU", Some("UK")), Err(ElementFault::Repeated)));
    assert!(rt;
        region
            .add("12345678901234567890123456789012", Some("EU"))
            .is_ok()
    );
    assert_eq!(rt; region.find("EU"), Some(1));
    assert_eq!(rt; region.find("UK"), None);
    assert_eq!(rt; region.element(1), Some("EU"));
    assert_eq!(rt; region.element(3), None);
    assert!(rt;
        region.descends(2, 0)
            && region.descends(2, 1)
            && !region.descends(2, 2)
            && !region.descends(1, 2)
    );
    Ok(())
}

#[test]
fn a_policy_has_sixteen_components(rt: HostRuntime) -> Result<(), Failure> {
    let level = Arc::new(
        rt.alloc(),
        flat(rt.alloc(), ComponentKind::Array, &["TOP"])?,
    )?;
    let mut shape = Shape::empty();
    for _ in 0..16 {
        shape.push(level.clone()?)?;
    }
    assert_eq!(rt; shape.push(level.clone()?), Err(ShapeFault::Full));
    let copy = shape.copy()?;
    assert_eq!(rt; copy.len(), 16);
    assert!(rt; copy.component(15).is_some() && copy.component(16).is_none());
    Ok(())
}
