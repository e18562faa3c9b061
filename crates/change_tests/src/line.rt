// What is printed of a statement.
use lb_base::{Key, NoMemory, Str};
use lb_block::block;
use lb_cat::{Answer, Mark, Reply};
use lb_changed::Changed;
use lb_trial::Trial;
use std::alloc::Global;

/// The line of a reply.
pub fn block_of(alloc: Global, place: u64, reply: Reply) -> Result<Str, NoMemory> {
    let answer = Answer {
        place: Some(place),
        mark: Mark::Dash,
        reply,
    };
    block(alloc, &answer)
}

/// The keys that a statement touches, each with its stamp before the statement's own is given; nothing where it touches none.
pub fn keys_line(alloc: Global, trial: &Trial, changed: &Changed) -> Result<String, NoMemory> {
    let mut line = String::new(alloc);
    for (place, key) in changed.touched.as_slice().iter().enumerate() {
        line.push_str(if place > 0 { ", " } else { "  " })?;
        push_key(&mut line, key)?;
        write!(line, " {}", trial.stamp(changed, key))?;
    }
    if !line.is_empty() {
        line.push_str("\n")?;
    }
    Ok(line)
}

fn push_key(line: &mut String, key: &Key) -> Result<(), NoMemory> {
    match key {
        Key::Table(name) => write!(line, "TABLE {}", name.as_str()),
        Key::Rows(name) => write!(line, "ROWS {}", name.as_str()),
        Key::Policy(name) => write!(line, "POLICY {}", name.as_str()),
        Key::Component(name) => write!(line, "COMPONENT {}", name.as_str()),
        Key::User(name) => write!(line, "USER {}", name.as_str()),
    }
}
