//! Tests labels of three components against each other as often as the first argument says, and prints how many
//! tests there were and how many of them failed. bench/label.sh times it.
#![tactic(auto)]

ghost use Rattle.lb_label.specs.Label.{IsLabel};

use anyhow::{Context, Result};
use lb_label::{Component, ComponentKind, Exempt, Shape, read_fail, read_text};
use std::alloc::Global;
use std::env;
use std::sync::Arc;

fn level(alloc: Global) -> Result<Component> {
    let mut level = Component::empty(alloc, ComponentKind::Array);
    level.add("TOP", None)?;
    level.add("MID", None)?;
    level.add("LOW", None)?;
    Ok(level)
}

fn dept(alloc: Global) -> Result<Component> {
    let mut dept = Component::empty(alloc, ComponentKind::Set);
    dept.add("HR", None)?;
    dept.add("IT", None)?;
    dept.add("FIN", None)?;
    Ok(dept)
}

fn region(alloc: Global) -> Result<Component> {
    let mut region = Component::empty(alloc, ComponentKind::Tree);
    region.add("ALL", None)?;
    region.add("EU", Some("ALL"))?;
    region.add("FR", Some("EU"))?;
    region.add("US", Some("ALL"))?;
    Ok(region)
}

fn shape(alloc: Global) -> Result<Shape> {
    let mut shape = Shape::empty();
    shape.push(Arc::new(alloc, level(alloc)?)?)?;
    shape.push(Arc::new(alloc, dept(alloc)?)?)?;
    shape.push(Arc::new(alloc, region(alloc)?)?)?;
    Ok(shape)
}

/// How many of so many tests of the user's label fail, where four labels of data take turns.
fn failures(
    shape: &Shape,
    tests: u64,
    user: &[u64],
    a: &[u64],
    b: &[u64],
    c: &[u64],
    d: &[u64],
) -> u64
    requires user { IsLabel shape.now user.now }
    requires a { IsLabel shape.now a.now }
    requires b { IsLabel shape.now b.now }
    requires c { IsLabel shape.now c.now }
    requires d { IsLabel shape.now d.now }
{
    let mut failures = 0u64;
    for test in 0..tests {
        let fail = match test % 4 {
            0 => read_fail(shape, user, Exempt::none(), a),
            1 => read_fail(shape, user, Exempt::none(), b),
            2 => read_fail(shape, user, Exempt::none(), c),
            _ => read_fail(shape, user, Exempt::none(), d),
        };
        if fail.is_some() {
            failures = failures.saturating_add(1);
        }
    }
    failures
}

fn main(rt: HostRuntime) -> Result<()> {
    let tests = match env::args(&rt)?.nth(1) {
        Some(word) => word
            .as_str()
            .parse::<u64>()
            .context("reading the number of tests")?,
        None => 0,
    };
    let shape = shape(rt.alloc())?;
    let user = read_text(&shape, "MID:(HR,FIN):EU")?;
    let seen = read_text(&shape, "LOW:HR:FR")?;
    let many = read_text(&shape, "MID:(FIN,HR):(EU,FR)")?;
    let elsewhere = read_text(&shape, "MID:HR:US")?;
    let other = read_text(&shape, "MID:(HR,IT):FR")?;
    let failed = failures(
        &shape,
        tests,
        user.as_slice(),
        seen.as_slice(),
        many.as_slice(),
        elsewhere.as_slice(),
        other.as_slice(),
    );
    println!(rt; "{tests} tests, {failed} failed")?;
    Ok(())
}
