// What is in sight where a name stands: the FROM items of its query and of the queries round it.
ghost use Rattle.std.specs.Prelude.{◌≡◌, ◌<◌, ◌++◌, ◌∷◌, [], IfOk, length, map, ◌≤◌};
ghost use Rattle.lb_tree.specs.Folds.{chain_of};
ghost use Rattle.lb_names.specs.Marks.{marked, mark_steps, tables_of};
ghost use Rattle.lb_names.specs.Sights as sights;
ghost use Rattle.lb_names.specs.StatementMarks as statements;

use crate::from::{calls, tables};
use lb_base::{Listing, Name, Names, NoMemory};
use lb_names::Seen;
use lb_tree::{Chain, Tab};
use std::alloc::Global;
use std::marker::Model;

/// What is in sight where a name stands. A query within another one sees the items of both, its own first.
#[derive(Drop)]
pub struct Sight {
    level: usize,
    own: usize,
    seen: Listing<Seen>,
    around: Names,
}

impl Model for Sight {
    ghost use Rattle.std.specs.Prelude.{take, length, ◌≤◌};
    ghost use Rattle.lb_names.specs.Sights as sights;

    ghost Value = { sights.Sight };

    ghost view = { λ s. record { level = s.level; own = take s.own s.seen; seen = s.seen; around = s.around } };

    ghost invariant = { λ s. (s.own ≤ length s.seen) × (sights.level_in s.seen ≤ length s.seen) };
}

impl Sight {
    /// Outside all queries: nothing is in sight.
    pub fn nothing(alloc: Global) -> Sight
        ensures { result ≡ sights.nothing }
    {
        Sight {
            level: 0,
            own: 0,
            seen: Listing::empty(alloc),
            around: Listing::empty(alloc),
        }
    }

    /// Inside a query with these FROM items that stands here.
    pub fn inside(&self, alloc: Global, from: &[Chain]) -> Result<Sight, NoMemory>
        ensures { IfOk result (λ v. v ≡ sights.inside self.now (tables_of (map (chain_of marked mark_steps) from.now))) }
    {
        let tabs = tables(alloc, from)?;
        let names = calls(alloc, tabs.as_slice())?;
        self.inside_tables(alloc, tabs.as_slice(), names, &self.around)
    }

    /// In an ON condition of a query that stands here, of which `query` is what its clauses see. The tables of the chain up to
    /// the condition's own one are seen, and all correlation names of the query are taken.
    pub fn inside_on(&self, alloc: Global, query: &Sight, tabs: &[Tab]) -> Result<Sight, NoMemory>
        ensures { IfOk result (λ v. v ≡ record (sights.inside self.now tabs.now) { around = query.now.around }) }
    {
        self.inside_tables(alloc, tabs, Listing::empty(alloc), &query.around)
    }

    /// Inside a write of that target, or a permission or mask on that table.
    pub fn over(alloc: Global, tab: &Tab) -> Result<Sight, NoMemory>
        ensures { IfOk result (λ v. v ≡ statements.over tab.now) }
    {
        let mut tabs = Listing::empty(alloc);
        tabs.push(tab.copy()?)?;
        let names = calls(alloc, tabs.as_slice())?;
        let nothing = Sight::nothing(alloc);
        let outer = &nothing;
        outer.inside_tables(alloc, tabs.as_slice(), names, &outer.around)
    }

    /// The number of queries that enclose the query.
    pub fn level(&self) -> usize
        ensures { result ≡ self.now.level }
    {
        self.level
    }

    /// The FROM items of the query that it sees.
    pub fn own(&self) -> &[Seen]
        ensures { result.now ≡ self.now.own }
    {
        &self.seen.as_slice()[..self.own]
    }

    /// All FROM items in sight, the innermost query's first.
    pub fn seen(&self) -> &[Seen]
        ensures { result.now ≡ self.now.seen }
    {
        self.seen.as_slice()
    }

    /// The correlation names of the query and of those round it, those that come later in the text too.
    pub fn around(&self) -> &[Name]
        ensures { result.now ≡ self.now.around }
    {
        self.around.as_slice()
    }

    /// What is seen inside a query with these tables that stands here; the correlation names that are taken are these and then
    /// those around.
    fn inside_tables(
        &self,
        alloc: Global,
        tabs: &[Tab],
        names: Names,
        around: &Names,
    ) -> Result<Sight, NoMemory>
        ensures { IfOk result (λ v. v ≡ record (sights.inside self.now tabs.now) { around = names ++ around.now }) }
    {
        let level = level_in(self.seen.as_slice());
        let mut seen = items(alloc, level, tabs)?;
        let own = seen.len();
        seen.append(copy_seen(alloc, self.seen.as_slice())?)?;
        let mut taken = names;
        taken.append(around.copy(alloc)?)?;
        Ok(Sight {
            level,
            own,
            seen,
            around: taken,
        })
    }
}

/// How many queries enclose a query that stands where these items are in sight.
fn level_in(seen: &[Seen]) -> usize
    requires { sights.level_in seen.now ≤ length seen.now }
    ensures { result ≡ sights.level_in seen.now }
{
    match seen.first() {
        Some(item) => item.level + 1,
        None => 0,
    }
}

/// The FROM items with these tables, at that level.
fn items(alloc: Global, level: usize, tabs: &[Tab]) -> Result<Listing<Seen>, NoMemory>
    ensures { IfOk result (λ s. s ≡ map (sights.at_level level) tabs.now) }
{
    let mut items = Listing::empty(alloc);
    for tab in tabs {
        items.push(item(level, tab)?)?;
    }
    Ok(items)
}

fn item(level: usize, tab: &Tab) -> Result<Seen, NoMemory>
    ensures { IfOk result (λ s. s ≡ sights.at_level level tab.now) }
{
    let tab = tab.copy()?;
    Ok(Seen { level, tab })
}

fn copy_seen(alloc: Global, seen: &[Seen]) -> Result<Listing<Seen>, NoMemory>
    ensures { IfOk result (λ s. s ≡ seen.now) }
{
    let mut copied = Listing::empty(alloc);
    for one in seen {
        copied.push(item(one.level, &one.tab)?)?;
    }
    Ok(copied)
}
