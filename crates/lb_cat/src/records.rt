// The records of one kind, found by name and by place, in the order of making.
ghost use Rattle.std.specs.Prelude.{◌≡◌, ◌<◌, [], Some, find, length, slice_get, slice_set, OnOk, OnErr, IfOk};
ghost use Rattle.std.specs.Option.{option_map};
ghost use Rattle.std.specs.Arc.{arc_value};
ghost use Rattle.std.specs.List.{AllZip};
ghost use Rattle.std.specs.Str.{bytes_eq};
ghost use Rattle.lb_rows.specs.Lists.{put, without};
ghost use Rattle.lb_cat.specs.Keys.{has_key};
ghost use Rattle.lb_cat.specs.Records.{IsMarked};
ghost use Rattle.lb_cat.specs.Stamps.{stamp_or};

use crate::keys::Keys;
use crate::named::{Named, Stamped};
use indexmap::IndexMap;
use lb_base::{Key, Name, NoMemory};
use std::alloc::Global;
use std::marker::Model;
use std::sync::Arc;

/// The records of one kind. Contracts see the list of them in the order of making.
#[derive(Drop)]
pub struct Records<R: Named> {
    records: IndexMap<String, Arc<R>>,
}

impl<R: Named> Model for Records<R> {
    ghost use Rattle.std.specs.Prelude.{List};

    ghost Value = { List R };

    ghost use Rattle.lb_cat.specs.Records.{records_in, AreByName};

    ghost view = { λ r. records_in r.records.entries };

    ghost invariant = { λ r. AreByName R.name r.records.entries };
}

impl<R: Named> Records<R> {
    /// No record. It takes no memory yet.
    pub fn empty(alloc: Global) -> Self
        ensures { result ≡ [] }
    {
        Records {
            records: IndexMap::new(alloc),
        }
    }

    /// The record goes last, or into the place of the one of its name. Where memory is refused nothing changes.
    pub fn put(&mut self, rec: Arc<R>) -> Result<(), NoMemory>
        ensures ok { OnOk result (self.new ≡ put (λ x. bytes_eq (R.name x) (R.name (arc_value rec))) (arc_value rec) self.old) }
        ensures err { OnErr result (self.new ≡ self.old) }
    {
        let name = String::from_str(*self.records.allocator(), rec.name().as_str())?;
        self.records.insert(name, rec)?;
        Ok(())
    }

    /// Without the record of this name. The others keep their order.
    pub fn remove(&mut self, name: &Name)
        ensures { self.new ≡ without (λ x. bytes_eq (R.name x) name.now) self.old }
    {
        // `len` is called for its clause that the keys differ, which the proof cites.
        let _count = self.records.len();
        self.records.shift_remove(name.as_str());
    }

    /// The record in this place, and `None` exactly past the last one.
    pub fn at(&self, place: usize) -> Option<&Arc<R>>
        ensures { option_map (λ r. arc_value r.now) result ≡ slice_get self.now place }
    {
        let (_, record) = self.records.get_index(place)?;
        Some(record)
    }

    /// The record of this name, and `None` exactly where there is none.
    pub fn named(&self, name: &Name) -> Option<&Arc<R>>
        ensures { option_map (λ r. arc_value r.now) result ≡ find (λ x. bytes_eq (R.name x) name.now) self.now }
    {
        self.spelled(name.as_str())
    }

    /// The record whose name this text is, and `None` exactly where there is none.
    pub fn spelled(&self, name: &str) -> Option<&Arc<R>>
        ensures { option_map (λ r. arc_value r.now) result ≡ find (λ x. bytes_eq (R.name x) name.now) self.now }
    {
        self.records.get(name)
    }

    /// The same records once more, which are shared.
    pub fn copy(&self) -> Result<Records<R>, NoMemory>
        ensures { IfOk result (λ c. c ≡ self.now) }
    {
        let records = self.records.clone()?;
        Ok(Records { records })
    }

    /// How many records there are.
    pub fn len(&self) -> usize
        ensures { result ≡ length self.now }
    {
        self.records.len()
    }

    /// The record in this place.
    fn held(&self, place: usize) -> &Arc<R>
        requires { place < length self.now }
        ensures { slice_get self.now place ≡ Some (arc_value result.now) }
    {
        &self.records[place]
    }

    /// Another record in the place of the one of its name.
    fn set(&mut self, place: usize, rec: Arc<R>)
        requires there { place < length self.old }
        requires name { (r : R) → slice_get self.old place ≡ Some r → R.name (arc_value rec) ≡ R.name r }
        ensures { self.new ≡ slice_set self.old place (arc_value rec) }
    {
        self.records[place] = rec;
    }
}

impl<R: Stamped> Records<R> {
    /// The stamp of the record of this name, and 0 where there is none.
    pub fn stamp(&self, name: &Name) -> u64
        ensures { result ≡ stamp_or R.own_stamp (find (λ x. bytes_eq (R.name x) name.now) self.now) }
    {
        match self.named(name) {
            Some(record) => record.stamp(),
            None => 0,
        }
    }

    /// The records, of which those whose keys are among these have this stamp.
    pub fn marked(&self, keys: &Keys, stamp: u64) -> Result<Records<R>, NoMemory>
        ensures { IfOk result (AllZip (IsMarked R.own_key (R.stamped stamp) keys.now) self.now) }
    {
        let alloc = *self.records.allocator();
        let mut marked = self.copy()?;
        for place in 0..self.len() {
            let rec = marked_record(alloc, self.held(place), keys.as_slice(), stamp)?;
            marked.set(place, rec);
        }
        Ok(marked)
    }
}

/// The record, with this stamp where its key is among these.
fn marked_record<R: Stamped>(
    alloc: Global,
    rec: &Arc<R>,
    keys: &[Key],
    stamp: u64,
) -> Result<Arc<R>, NoMemory>
    ensures marked { IfOk result (λ r. IsMarked R.own_key (R.stamped stamp) keys.now (arc_value rec.now) (arc_value r)) }
    ensures name { IfOk result (λ r. R.name (arc_value r) ≡ R.name (arc_value rec.now)) }
{
    if is_among::<R>(rec, keys) {
        let rec = Arc::new(alloc, rec.with_stamp(alloc, stamp)?)?;
        Ok(rec)
    } else {
        let rec = rec.clone()?;
        Ok(rec)
    }
}

/// Whether the record's key is among these.
fn is_among<R: Stamped>(rec: &R, keys: &[Key]) -> bool
    ensures { result ≡ has_key (R.own_key rec.now) keys.now }
{
    for key in keys {
        if rec.has_key(key) {
            return true;
        }
    }
    false
}
