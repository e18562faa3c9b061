// Lists of entries that a name tells apart: finding one, putting one in, and taking one out.
ghost use Rattle.std.specs.Prelude.{◌≡◌, ℕ, List, find, IfOk};
ghost use Rattle.std.specs.Option.{option_copied};
ghost use Rattle.std.specs.List.{position_or_len};
ghost use Rattle.std.specs.Str.{bytes_eq};
ghost use Rattle.lb_rows.specs.Lists.{put, without as left_without};

use lb_base::{Listing, Name, NoMemory};
use lb_cat::{Copied, Grant, Holding, LabelRec, MaskRec, PermissionRec, copy_records};
use std::alloc::Global;

/// An entry of a list, of which a name says what it is of.
pub trait Entry: Copied {
    ghost of: { Self → List ℕ };

    /// The name of what it is of.
    fn of(&self) -> &Name
        ensures { result.now ≡ of self.now };
}

impl Entry for Grant {
    ghost of = { λ x. x.table };

    fn of(&self) -> &Name {
        &self.table
    }
}

impl Entry for Holding {
    ghost of = { λ x. x.policy };

    fn of(&self) -> &Name {
        &self.policy
    }
}

impl Entry for LabelRec {
    ghost of = { λ x. x.name };

    fn of(&self) -> &Name {
        &self.name
    }
}

impl Entry for PermissionRec {
    ghost of = { λ x. x.name };

    fn of(&self) -> &Name {
        &self.name
    }
}

impl Entry for MaskRec {
    ghost of = { λ x. x.name };

    fn of(&self) -> &Name {
        &self.name
    }
}

/// The first entry of that name, and nothing exactly where there is none.
pub fn entry_of<'a, E: Entry>(entries: &'a [E], name: &Name) -> Option<&'a E>
    ensures { option_copied result ≡ find (λ x. bytes_eq (E.of x) name.now) entries.now }
{
    for entry in entries {
        if entry.of().is(name) {
            return Some(entry);
        }
    }
    None
}

/// Copies of the entries but those of that name, in their order.
pub fn without<E: Entry>(alloc: Global, entries: &[E], name: &Name) -> Result<Listing<E>, NoMemory>
    ensures { IfOk result (λ es. es ≡ left_without (λ x. bytes_eq (E.of x) name.now) entries.now) }
{
    let mut left = Listing::empty(alloc);
    for entry in entries {
        if !entry.of().is(name) {
            left.push(entry.copy(alloc)?)?;
        }
    }
    Ok(left)
}

/// Copies of the entries with this one in the place of the first of its name, or last.
pub fn with_entry<E: Entry>(alloc: Global, entries: &[E], new: E) -> Result<Listing<E>, NoMemory>
    ensures { IfOk result (λ es. es ≡ put (λ x. bytes_eq (E.of x) (E.of new)) new entries.now) }
{
    let place = place_of(entries, new.of());
    let mut changed = copy_records(alloc, entries)?;
    if place < changed.len() {
        changed.set(place, new);
    } else {
        changed.push(new)?;
    }
    Ok(changed)
}

/// The place of the first entry of that name, and the number of entries where there is none.
fn place_of<E: Entry>(entries: &[E], name: &Name) -> usize
    ensures { result ≡ position_or_len (λ x. bytes_eq (E.of x) name.now) entries.now }
{
    let mut place = 0;
    for entry in entries {
        if entry.of().is(name) {
            return place;
        }
        place += 1;
    }
    place
}
