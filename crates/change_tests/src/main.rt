//! Runs a script of changes over one catalogue, which goes on from statement to statement, and prints each statement with what it is
//! answered and what it touches.
#![tactic(auto)]

ghost use Rattle.std.specs.Prelude.{◌<◌, ◌^◌, vec_len, IfOk, OnOk};
ghost use Rattle.lb_trial.specs.Trials.{IsSoundKept};

mod line;
mod rows;

use crate::line::{block_of, keys_line};
use crate::rows::added;
use anyhow::{Context, Result, bail};
use lb_base::Name;
use lb_split::{Section, Span, sections, text_at};
use lb_trial::{Fault, Trial};
use lb_wire::{MOST_INPUT_BYTES, StdSource, read_all};

/// The whole script.
fn input(rt: &HostRuntime) -> Result<Vec<u8>>
    ensures { IfOk result (λ v. vec_len v < 2 ^ 32) }
{
    let mut source = StdSource::new(rt.stdin());
    match read_all(rt.alloc(), &mut source, MOST_INPUT_BYTES) {
        Ok(input) => Ok(input),
        Err(_) => bail!("reading the script"),
    }
}

/// Runs one statement of a user, and prints it with what comes of it.
fn tell(rt: &HostRuntime, trial: &mut Trial, user: &Name, text: &[u8]) -> Result<()>
    requires { IsSoundKept trial.old.catalog }
    ensures { OnOk result (IsSoundKept trial.new.catalog) }
{
    let alloc = rt.alloc();
    let place = trial.place;
    let written = std::str::from_utf8(text)
        .ok()
        .context("a statement that isn't UTF-8")?;
    println!(rt; "{written}")?;
    match trial.changed(alloc, user, text) {
        Ok(changed) => {
            let keys = keys_line(alloc, trial, &changed)?;
            let reply = trial.keep(changed)?;
            print!(rt;
                "{}{}",
                block_of(alloc, place, reply)?.as_str(),
                keys.as_str()
            )?;
            Ok(())
        }
        Err(Fault::NoChange) => {
            let rows = added(alloc, trial, text)?;
            println!(rt; "{place} - {rows} ROWS")?;
            Ok(())
        }
        Err(fault) => Err(fault.into()),
    }
}

/// Runs a user's statements, which stand in the script.
fn run_section(rt: &HostRuntime, trial: &mut Trial, script: &[u8], section: &Section) -> Result<()>
    requires { IsSoundKept trial.old.catalog }
    ensures { OnOk result (IsSoundKept trial.new.catalog) }
{
    println!(rt; "SESSION {}", section.user.as_str())?;
    run_statements(
        rt,
        trial,
        &section.user,
        script,
        section.statements.as_slice(),
    )
}

fn run_statements(
    rt: &HostRuntime,
    trial: &mut Trial,
    user: &Name,
    script: &[u8],
    statements: &[Span],
) -> Result<()>
    requires { IsSoundKept trial.old.catalog }
    ensures { OnOk result (IsSoundKept trial.new.catalog) }
{
    for span in statements {
        tell(rt, trial, user, text_at(script, *span))?;
    }
    Ok(())
}

fn run_sections(rt: &HostRuntime, trial: &mut Trial, script: &[u8], list: &[Section]) -> Result<()>
    requires { IsSoundKept trial.old.catalog }
    ensures { OnOk result (IsSoundKept trial.new.catalog) }
{
    for section in list {
        run_section(rt, trial, script, section)?;
    }
    Ok(())
}

fn main(rt: HostRuntime) -> Result<()> {
    let alloc = rt.alloc();
    let input = input(&rt)?;
    let script = match sections(alloc, &input) {
        Ok(script) => script,
        Err(_) => bail!("the script has no sections"),
    };
    let mut trial = Trial::first(alloc)?;
    run_sections(&rt, &mut trial, &input, script.sessions.as_slice())
}
