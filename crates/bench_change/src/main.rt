//! Makes a catalogue of 64 tables and 1,000 users, and then changes it as often as the first argument says: each change is accepted, and
//! what it leaves is what the next one finds. Prints how many keys were touched. bench/change.sh times it.
#![tactic(auto)]

ghost use Rattle.std.specs.Prelude.{OnOk};
ghost use Rattle.lb_trial.specs.Trials.{IsSoundKept};

mod script;

use crate::script::{grant, statement, table};
use anyhow::{Context, Result, bail};
use lb_base::Name;
use lb_cat::Reply;
use lb_trial::Trial;
use std::alloc::Global;
use std::env;

/// How many tables and users there are.
const TABLES: u32 = 64;

const USERS: u32 = 1_000;

/// Makes the change that the text says, and answers how many keys it touches.
fn make(alloc: Global, trial: &mut Trial, user: &Name, text: &str) -> Result<usize>
    requires { IsSoundKept trial.old.catalog }
    ensures { OnOk result (IsSoundKept trial.new.catalog) }
{
    let changed = trial.changed(alloc, user, text.as_bytes())?;
    let touched = changed.touched.len();
    match trial.keep(changed)? {
        Reply::Done => Ok(touched),
        _ => bail!("refused: {text}"),
    }
}

fn make_tables(alloc: Global, trial: &mut Trial, user: &Name) -> Result<()>
    requires { IsSoundKept trial.old.catalog }
    ensures { OnOk result (IsSoundKept trial.new.catalog) }
{
    for number in 0..TABLES {
        make(alloc, trial, user, table(alloc, number)?.as_str())?;
    }
    Ok(())
}

/// Each user may read one of the tables.
fn make_users(alloc: Global, trial: &mut Trial, user: &Name) -> Result<()>
    requires { IsSoundKept trial.old.catalog }
    ensures { OnOk result (IsSoundKept trial.new.catalog) }
{
    for number in 0..USERS {
        make(
            alloc,
            trial,
            user,
            grant(alloc, number % TABLES, number)?.as_str(),
        )?;
    }
    Ok(())
}

/// Makes so many changes, and answers how many keys they touch together.
fn change(alloc: Global, trial: &mut Trial, user: &Name, count: u32) -> Result<u64>
    requires { IsSoundKept trial.old.catalog }
    ensures { OnOk result (IsSoundKept trial.new.catalog) }
{
    let mut touched = 0u64;
    for number in 0..count {
        let keys = make(alloc, trial, user, statement(alloc, number)?.as_str())?;
        touched = touched.saturating_add(keys as u64);
    }
    Ok(touched)
}

fn count(rt: &HostRuntime) -> Result<u32> {
    match env::args(rt)?.nth(1) {
        Some(word) => word
            .as_str()
            .parse::<u32>()
            .context("the number of changes"),
        None => Ok(0),
    }
}

fn main(rt: HostRuntime) -> Result<()> {
    let alloc = rt.alloc();
    let count = count(&rt)?;
    let user = Name::of(alloc, "SECADMIN")?.context("the name of the user")?;
    let mut trial = Trial::first(alloc)?;
    make_tables(alloc, &mut trial, &user)?;
    make_users(alloc, &mut trial, &user)?;
    let touched = change(alloc, &mut trial, &user, count)?;
    let (tables, users) = (trial.catalog.table_count(), trial.catalog.user_count());
    println!(rt;
        "{tables} tables, {users} users, {count} changes, {touched} keys touched, {} statements",
        trial.place
    )?;
    Ok(())
}
