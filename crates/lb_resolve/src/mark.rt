// What each pass asks of a name: a FROM item, a column, a `*`, or a call that names a policy.
ghost use Rattle.std.specs.Prelude.{◌≡◌, Some, None};
ghost use Rattle.std.specs.List.{list_any};
ghost use Rattle.lb_alter.specs.ChangeControl as control;
ghost use Rattle.lb_alter.specs.ChangeTable.{is_label_column};
ghost use Rattle.lb_cat.specs.Catalog.{table_named};
ghost use Rattle.lb_cat.specs.Stamps.{bare};
ghost use Rattle.lb_names.specs.Marks as marks;
ghost use Rattle.lb_names.specs.Passes as passes;
ghost use Rattle.lb_names.specs.declared.refused.Refused.TheVariants as refused;
ghost use Rattle.lb_tree.specs.declared.query.Atom.TheVariants as atoms;
ghost use Rattle.lb_scope.specs.Found.{catalogue};
ghost use Rattle.lb_resolve.specs.Passing.{Passes, asked};

use crate::stop::Stop;
use lb_base::{Name, Str, Ty};
use lb_cat::{Catalog, ColumnRec};
use lb_names::{Refused, Seen};
use lb_scope::{Meaning, correlation, has_label, has_policy, has_table, label_fault, resolve};
use lb_tree::{Atom, Column, Tab};
use std::alloc::Global;

/// What a pass asks for.
#[derive(Clone, Copy)]
pub enum Pass<'a> {
    /// That the table of each FROM item is there, and its correlation name isn't taken.
    Tables,
    /// That each column means something.
    Columns,
    /// That the policies and labels of calls are there.
    Calls,
    /// That the texts of SECLABEL are label texts.
    Texts,
    /// That a permission or mask of this table may read each table of FROM. One that may not is told as Unknown.
    Sources(&'a Name),
}

/// A pass over the names of a text.
#[derive(Clone, Copy)]
pub struct Walk<'a> {
    pub alloc: Global,
    pub catalog: &'a Catalog,
    /// It is the text of a permission or mask, in which a correlation name of an enclosing query is taken too.
    pub stored: bool,
    pub pass: Pass<'a>,
}

impl Walk<'_> {
    /// Asks a FROM item that stands after these correlation names of its query; those of the enclosing queries are around.
    pub fn ask_table(&self, before: &[Name], around: &[Name], tab: &Tab) -> Result<(), Stop>
        ensures { Passes result (asked self.now (marks.item before.now around.now tab.now)) }
    {
        match self.pass {
            Pass::Tables => self.item_table(before, around, tab),
            Pass::Sources(protected) if is_bad_source(self.catalog, protected, &tab.table) => {
                unknown(self.alloc, tab.table.as_str())
            }
            Pass::Sources(_) | Pass::Columns | Pass::Calls | Pass::Texts => Ok(()),
        }
    }

    fn item_table(&self, before: &[Name], around: &[Name], tab: &Tab) -> Result<(), Stop>
        ensures { Passes result (passes.item_refusal (catalogue self.now.catalog.now) self.now.stored (marks.item before.now around.now tab.now)) }
    {
        if !has_table(self.catalog, &tab.table) {
            return unknown(self.alloc, tab.table.as_str());
        }
        let name = correlation(tab);
        if is_taken(self.stored, before, around, name) {
            return exists(self.alloc, name);
        }
        Ok(())
    }

    /// Asks a column where these items are in sight.
    pub fn ask_column(&self, seen: &[Seen], column: &Column) -> Result<(), Stop>
        ensures { Passes result (asked self.now (marks.column seen.now column.now)) }
    {
        match self.pass {
            Pass::Columns => match resolve(self.catalog, seen, column) {
                Meaning::Found(_, _) => Ok(()),
                Meaning::Unknown(name) => unknown(self.alloc, name.as_str()),
            },
            Pass::Tables | Pass::Calls | Pass::Texts | Pass::Sources(_) => Ok(()),
        }
    }

    /// Asks `x.*` in a query with these items.
    pub fn ask_star(&self, own: &[Seen], by: &Name) -> Result<(), Stop>
        ensures { Passes result (asked self.now (marks.star own.now (Some by.now))) }
    {
        match self.pass {
            Pass::Columns if !is_called(by, own) => unknown(self.alloc, by.as_str()),
            _ => Ok(()),
        }
    }

    /// Asks SECLABEL(policy, text).
    pub fn ask_label_text(&self, policy: &Str, text: &Str) -> Result<(), Stop>
        ensures { Passes result (asked self.now (marks.call (atoms.SecLabel policy.now text.now))) }
    {
        match self.pass {
            Pass::Calls => self.call_policy(policy),
            Pass::Texts => match label_fault(self.catalog, policy, text) {
                Some(at) => Err(Stop::Refused(Refused::BadLabel(at))),
                None => Ok(()),
            },
            Pass::Tables | Pass::Columns | Pass::Sources(_) => Ok(()),
        }
    }

    /// Asks SECLABEL_BY_NAME(policy, label).
    pub fn ask_label_name(&self, policy: &Str, label: &Str) -> Result<(), Stop>
        ensures { Passes result (asked self.now (marks.call (atoms.SecLabelByName policy.now label.now))) }
    {
        match self.pass {
            Pass::Calls => self.call_label(policy, label),
            Pass::Tables | Pass::Columns | Pass::Texts | Pass::Sources(_) => Ok(()),
        }
    }

    /// Asks the policy of SECLABEL_TO_CHAR(policy, column).
    pub fn ask_label_column(&self, policy: &Str, column: &Column) -> Result<(), Stop>
        ensures { Passes result (asked self.now (marks.call (atoms.SecLabelToChar policy.now column.now))) }
    {
        match self.pass {
            Pass::Calls => self.call_policy(policy),
            Pass::Tables | Pass::Columns | Pass::Texts | Pass::Sources(_) => Ok(()),
        }
    }

    fn call_policy(&self, policy: &Str) -> Result<(), Stop>
        ensures { Passes result (passes.unless_known ((catalogue self.now.catalog.now).has_policy policy.now) policy.now) }
    {
        if has_policy(self.catalog, policy) {
            return Ok(());
        }
        unknown(self.alloc, policy.as_str())
    }

    fn call_label(&self, policy: &Str, label: &Str) -> Result<(), Stop>
        ensures { Passes result (passes.call_refusal_of (catalogue self.now.catalog.now) (atoms.SecLabelByName policy.now label.now)) }
    {
        self.call_policy(policy)?;
        if has_label(self.catalog, policy, label) {
            return Ok(());
        }
        unknown(self.alloc, label.as_str())
    }
}

/// The refusal that there is nothing of that name.
pub fn unknown(alloc: Global, name: &str) -> Result<(), Stop>
    ensures { Passes result (Some (refused.Unknown name.now)) }
{
    let name = Str::of(alloc, name)?;
    Err(Stop::Refused(Refused::Unknown(name)))
}

/// The refusal that the name is taken.
pub fn exists(alloc: Global, name: &Name) -> Result<(), Stop>
    ensures { Passes result (Some (refused.Exists name.now)) }
{
    let name = Str::of(alloc, name.as_str())?;
    Err(Stop::Refused(Refused::Exists(name)))
}

/// Whether the name is among these.
pub fn holds(name: &Name, names: &[Name]) -> bool
    ensures { result ≡ passes.holds name.now names.now }
{
    for other in names {
        if name.is(other) {
            return true;
        }
    }
    false
}

/// Whether one of the items is called so.
fn is_called(name: &Name, items: &[Seen]) -> bool
    ensures { result ≡ passes.is_called name.now items.now }
{
    for item in items {
        if correlation(&item.tab).is(name) {
            return true;
        }
    }
    false
}

fn is_taken(stored: bool, before: &[Name], around: &[Name], name: &Name) -> bool
    ensures { result ≡ passes.is_taken stored before.now around.now name.now }
{
    holds(name, before) || (stored && holds(name, around))
}

/// Whether a subquery of a permission or mask of the protected table may not read the table of this name: it is the protected one, or
/// has a label column.
fn is_bad_source(catalog: &Catalog, protected: &Name, name: &Name) -> bool
    ensures { result ≡ control.is_bad_source (bare catalog.now) protected.now name.now }
{
    name.is(protected) || has_labels(catalog, name)
}

/// Whether the table is there and has a label column.
fn has_labels(catalog: &Catalog, name: &Name) -> bool
    ensures { result ≡ control.has_labels (table_named (bare catalog.now) name.now) }
{
    match catalog.table(name) {
        Some(table) => has_label_column(table.columns.as_slice()),
        None => false,
    }
}

fn has_label_column(columns: &[ColumnRec]) -> bool
    ensures { result ≡ list_any is_label_column columns.now }
{
    for column in columns {
        if let Ty::Label(_) = &column.ty {
            return true;
        }
    }
    false
}
