//! Reads one text as often as the first argument says, and prints how often it was a statement. The text is a SELECT
//! whose condition is a row of brackets: as deep as the second argument says, and as many as fit into so many bytes as
//! the third says. bench/read.sh times it.
#![tactic(auto)]

use anyhow::{Context, Result};
use lb_read::{ReadFault, read};
use std::alloc::Global;
use std::env;

// The number in this place of the arguments, from 1; none where there is no such argument.
fn number(rt: &HostRuntime, place: usize) -> Result<usize> {
    match env::args(rt)?.nth(place) {
        Some(word) => word.as_str().parse::<usize>().context("reading a number"),
        None => Ok(0),
    }
}

// A condition after so many brackets, and its length.
fn nested(alloc: Global, depth: usize) -> Result<String> {
    let mut text = String::from_str(alloc, " OR ")?;
    for _ in 0..depth {
        text.push('(')?;
    }
    text.push_str("A = 1")?;
    for _ in 0..depth {
        text.push(')')?;
    }
    Ok(text)
}

// The statement: as many such conditions as fit into the bytes.
fn statement(alloc: Global, depth: usize, bytes: usize) -> Result<String> {
    let mut text = String::from_str(alloc, "SELECT A FROM T WHERE A = 1")?;
    let more = nested(alloc, depth)?;
    for _ in 0..bytes {
        if text.len().saturating_add(more.len()) > bytes {
            break;
        }
        text.push_str(more.as_str())?;
    }
    Ok(text)
}

fn is_statement(alloc: Global, text: &str) -> bool {
    is_value(read(alloc, text.as_bytes()))
}

// Whether a reading gave a value.
fn is_value<T: Drop>(reading: Result<T, ReadFault>) -> bool {
    match reading {
        Ok(_) => true,
        Err(_) => false,
    }
}

fn main(rt: HostRuntime) -> Result<()> {
    let count = number(&rt, 1)?;
    let depth = number(&rt, 2)?;
    let text = statement(rt.alloc(), depth, number(&rt, 3)?)?;
    let mut good = 0u64;
    for _ in 0..count {
        if is_statement(rt.alloc(), text.as_str()) {
            good = good.saturating_add(1);
        }
    }
    println!(rt; "{count} times {} bytes, {good} statements", text.len())?;
    Ok(())
}
