// The rows of all tables at one time.
ghost use Rattle.std.specs.Prelude.{◌≡◌, ◌≤◌, ◌<◌, ◌⊎◌, [], find, length, IfOk, IsSome, OnOk, slice_get};
ghost use Rattle.std.specs.Option.{option_copied, option_map};
ghost use Rattle.std.specs.List.{position_or_len};
ghost use Rattle.std.specs.Arc.{arc_value};
ghost use Rattle.lb_rows.specs.Kept.{AllThere, holds, is_of, versions_in};
ghost use Rattle.lb_rows.specs.Lists.{put, without};
ghost use Rattle.lb_rows.specs.Stamped.{Stamped, is_stamped, rows_only, stamp_of, stamped_in, stamped_of};
ghost use Rattle.lb_rows.specs.Tables.{drop_version, is_version, put_version};

use crate::item::item_at;
use crate::version::TableVersion;
use arrayvec::ArrayVec;
use lb_base::{Name, NoMemory};
use std::marker::Model;
use std::sync::Arc;

/// How many tables there are at most.
pub const TABLE_LIMIT: usize = 64;

/// The version of a table that stands, and its stamp: one more than the place of the last entry that touched its rows.
#[derive(Drop)]
pub struct StampedVersion {
    pub version: Arc<TableVersion>,
    pub stamp: u64,
}

/// The rows of all tables, at most 64, each with its stamp. Contracts see the list of the versions with their stamps.
#[derive(Drop)]
pub struct Snap {
    versions: ArrayVec<Option<StampedVersion>, { TABLE_LIMIT }>,
}

impl Model for Snap {
    ghost use Rattle.std.specs.Prelude.{List};
    ghost use Rattle.lb_rows.specs.Stamped.{Stamped};

    ghost Value = { List Stamped };

    ghost use Rattle.lb_rows.specs.Stamped.{stamped_in};
    ghost use Rattle.lb_rows.specs.Kept.{versions_in, AllThere};

    ghost view = { λ s. stamped_in (versions_in s.versions.items) };

    ghost invariant = { λ s. AllThere s.versions.items };
}

impl Snap {
    /// No table. It takes no memory.
    pub fn empty() -> Snap
        ensures { result ≡ [] }
    {
        Snap {
            versions: ArrayVec::new(),
        }
    }

    /// How many tables there are.
    pub fn len(&self) -> usize
        ensures len { result ≡ length self.now }
        ensures few { length self.now ≤ TABLE_LIMIT }
    {
        let _room = self.versions.is_full();
        self.versions.len()
    }

    /// The version in this place with its stamp. None exactly past the last one.
    pub fn at(&self, place: usize) -> Option<&StampedVersion>
        ensures { option_map (λ s. stamped_of s.now) result ≡ slice_get self.now place }
    {
        held(self.versions.as_slice(), place)
    }

    /// The version of a table. None exactly where the table is absent.
    pub fn version(&self, table: &Name) -> Option<&Arc<TableVersion>>
        ensures { option_map (λ v. arc_value v.now) result ≡ find (is_version table.now) (rows_only self.now) }
    {
        match found(self.versions.as_slice(), table) {
            Some(stamped) => Some(&stamped.version),
            None => None,
        }
    }

    /// The rows of a table. None exactly where the table is absent.
    pub fn rows(&self, table: &Name) -> Option<&TableVersion>
        ensures { option_map (λ v. v.now) result ≡ find (is_version table.now) (rows_only self.now) }
    {
        match found(self.versions.as_slice(), table) {
            Some(stamped) => Some(&*stamped.version),
            None => None,
        }
    }

    /// The stamp of a table's rows, and 0 where the table is absent.
    pub fn stamp(&self, table: &Name) -> u64
        ensures { result ≡ stamp_of table.now self.now }
    {
        match found(self.versions.as_slice(), table) {
            Some(stamped) => stamped.stamp,
            None => 0,
        }
    }

    /// Puts a version in the place of its table's, or last where the table is absent. All other tables stay. It takes no memory.
    pub fn put(&mut self, version: Arc<TableVersion>, stamp: u64)
        requires room { IsSome (find (is_version (arc_value version).name) (rows_only self.old)) ⊎ (length self.old < TABLE_LIMIT) }
        ensures stamped { self.new ≡ put (is_stamped (arc_value version).name) (record { version = arc_value version; stamp = stamp }) self.old }
        ensures rows { rows_only self.new ≡ put_version (arc_value version) (rows_only self.old) }
    {
        put_in(&mut self.versions, StampedVersion { version, stamp });
    }

    /// Takes a table's version out. The others keep their order, and an absent table changes nothing. It takes no memory.
    pub fn remove(&mut self, table: &Name)
        ensures stamped { self.new ≡ without (is_stamped table.now) self.old }
        ensures rows { rows_only self.new ≡ drop_version table.now (rows_only self.old) }
    {
        take_out(&mut self.versions, table);
    }

    /// The same tables once more, whose versions are shared. It fails only where memory runs out.
    pub fn copy(&self) -> Result<Snap, NoMemory>
        ensures { IfOk result (λ s. s ≡ self.now) }
    {
        let mut versions = ArrayVec::new();
        share_all(self.versions.as_slice(), &mut versions)?;
        Ok(Snap { versions })
    }
}

/// What the place has. None exactly past the last one.
fn held(versions: &[Option<StampedVersion>], place: usize) -> Option<&StampedVersion>
    requires { AllThere versions.now }
    ensures { option_copied result ≡ slice_get (versions_in versions.now) place }
{
    match item_at(versions, place) {
        Some(version) => version.as_ref(),
        None => None,
    }
}

/// The first place that has the version of the table; the number of places where there is none.
fn place_of(versions: &[Option<StampedVersion>], table: &Name) -> usize
    ensures { result ≡ position_or_len (holds table.now) versions.now }
{
    let mut place = 0;
    for version in versions {
        if is_of_table(version, table) {
            return place;
        }
        place += 1;
    }
    place
}

fn is_of_table(version: &Option<StampedVersion>, table: &Name) -> bool
    ensures { result ≡ holds table.now version.now }
{
    match version {
        Some(stamped) => stamped.version.name().is(table),
        None => false,
    }
}

/// The version of the table, where there is one.
fn found<'a>(versions: &'a [Option<StampedVersion>], table: &Name) -> Option<&'a StampedVersion>
    requires { AllThere versions.now }
    ensures { option_copied result ≡ find (is_of table.now) (versions_in versions.now) }
{
    held(versions, place_of(versions, table))
}

/// Puts a version in the first place that has one of its table, or last where there is none.
fn put_in(versions: &mut ArrayVec<Option<StampedVersion>, { TABLE_LIMIT }>, stamped: StampedVersion)
    requires there { AllThere versions.old.items }
    requires room { IsSome (find (is_of (arc_value stamped.version).name) (versions_in versions.old.items)) ⊎ (length versions.old.items < TABLE_LIMIT) }
    ensures there { AllThere versions.new.items }
    ensures put { versions_in versions.new.items ≡ put (is_of (arc_value stamped.version).name) stamped (versions_in versions.old.items) }
{
    let place = place_of(versions.as_slice(), stamped.version.name());
    if place < versions.len() {
        versions[place] = Some(stamped);
    } else {
        versions.push(Some(stamped));
    }
}

/// Takes the versions of a table out.
fn take_out(versions: &mut ArrayVec<Option<StampedVersion>, { TABLE_LIMIT }>, table: &Name)
    requires { AllThere versions.old.items }
    ensures there { AllThere versions.new.items }
    ensures rest { versions_in versions.new.items ≡ without (is_of table.now) (versions_in versions.old.items) }
{
    versions.retain(|version| !is_of_table(version, table));
}

/// Puts all of these versions after the others; they are shared.
fn share_all(
    versions: &[Option<StampedVersion>],
    shared: &mut ArrayVec<Option<StampedVersion>, { TABLE_LIMIT }>,
) -> Result<(), NoMemory>
    requires there { AllThere versions.now }
    requires fits { length versions.now ≤ TABLE_LIMIT }
    requires none { shared.old.items ≡ [] }
    ensures there { OnOk result (AllThere shared.new.items) }
    ensures same { OnOk result (stamped_in (versions_in shared.new.items) ≡ stamped_in (versions_in versions.now)) }
{
    for version in versions {
        shared.push(share(version)?);
    }
    Ok(())
}

fn share(version: &Option<StampedVersion>) -> Result<Option<StampedVersion>, NoMemory>
    ensures { IfOk result (λ v. option_map stamped_of v ≡ option_map stamped_of version.now) }
{
    match version {
        Some(stamped) => {
            let version = stamped.version.clone()?;
            Ok(Some(StampedVersion {
                version,
                stamp: stamped.stamp,
            }))
        }
        None => Ok(None),
    }
}
