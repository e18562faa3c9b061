// What the five kinds of records have in common: a name, and for all but roles a key and a stamp.
ghost use Rattle.std.specs.Prelude.{◌≡◌, ℕ, IfOk, List};
ghost use Rattle.std.proofs.Common.{ap};
ghost use Rattle.lb_base.specs.declared.key.Key.{Key as AnyKey};
ghost use Rattle.lb_base.specs.declared.key.Key.TheVariants as keys;
ghost use Rattle.lb_cat.specs.Keys.{same_key};
ghost use Rattle.lb_cat.specs.Stamps.{stamped_table, stamped_policy, stamped_component, stamped_user, IsAlikeComponent};

use crate::catalog::{ComponentRec, PolicyRec, RoleRec, TableRec, UserRec};
use crate::copies::Copied;
use lb_base::{Key, Name, NoMemory};
use std::alloc::Global;

/// A record of the catalogue, which is found by its name.
pub trait Named: Drop {
    ghost name: { Self → List ℕ };

    /// Its name.
    fn name(&self) -> &Name
        ensures { result.now ≡ name self.now };
}

impl Named for TableRec {
    ghost name = { λ r. r.name };

    fn name(&self) -> &Name {
        &self.name
    }
}

impl Named for PolicyRec {
    ghost name = { λ r. r.name };

    fn name(&self) -> &Name {
        &self.name
    }
}

impl Named for ComponentRec {
    ghost name = { λ r. r.name };

    fn name(&self) -> &Name {
        &self.name
    }
}

impl Named for UserRec {
    ghost name = { λ r. r.name };

    fn name(&self) -> &Name {
        &self.name
    }
}

impl Named for RoleRec {
    ghost name = { λ r. r.name };

    fn name(&self) -> &Name {
        &self.name
    }
}

/// A record with a stamp, which a key names.
pub trait Stamped: Named {
    ghost own_key: { Self → AnyKey };

    ghost own_stamp: { Self → ℕ };

    // the second record is the first with this stamp
    ghost stamped: { ℕ → Self → Self → Type 0 };

    /// Whether this is the record's key.
    fn has_key(&self, key: &Key) -> bool
        ensures { result ≡ same_key (own_key self.now) key.now };

    /// Its stamp.
    fn stamp(&self) -> u64
        ensures { result ≡ own_stamp self.now };

    /// The record in memory of its own, with this stamp.
    fn with_stamp(&self, alloc: Global, stamp: u64) -> Result<Self, NoMemory>
        ensures { IfOk result (stamped stamp self.now) };

    ghost keeps_name: { (stamp : ℕ) (old new : Self) → stamped stamp old new → Self.name new ≡ Self.name old };
}

impl Stamped for TableRec {
    ghost own_key = { λ r. keys.Table r.name };

    ghost own_stamp = { λ r. r.stamp };

    ghost stamped = { λ stamp old new. new ≡ stamped_table stamp old };

    fn has_key(&self, key: &Key) -> bool {
        match key {
            Key::Table(name) => self.name.is(name),
            _ => false,
        }
    }

    fn stamp(&self) -> u64 {
        self.stamp
    }

    fn with_stamp(&self, alloc: Global, stamp: u64) -> Result<Self, NoMemory> {
        let mut copy = self.copy(alloc)?;
        copy.stamp = stamp;
        Ok(copy)
    }

    ghost keeps_name = { λ stamp old new h. ap (λ r. r.name) h };
}

impl Stamped for PolicyRec {
    ghost own_key = { λ r. keys.Policy r.name };

    ghost own_stamp = { λ r. r.stamp };

    ghost stamped = { λ stamp old new. new ≡ stamped_policy stamp old };

    fn has_key(&self, key: &Key) -> bool {
        match key {
            Key::Policy(name) => self.name.is(name),
            _ => false,
        }
    }

    fn stamp(&self) -> u64 {
        self.stamp
    }

    fn with_stamp(&self, alloc: Global, stamp: u64) -> Result<Self, NoMemory> {
        let mut copy = self.copy(alloc)?;
        copy.stamp = stamp;
        Ok(copy)
    }

    ghost keeps_name = { λ stamp old new h. ap (λ r. r.name) h };
}

impl Stamped for ComponentRec {
    ghost own_key = { λ r. keys.Component r.name };

    ghost own_stamp = { λ r. r.stamp };

    ghost stamped = { λ stamp old new. IsAlikeComponent new (stamped_component stamp old) };

    fn has_key(&self, key: &Key) -> bool {
        match key {
            Key::Component(name) => self.name.is(name),
            _ => false,
        }
    }

    fn stamp(&self) -> u64 {
        self.stamp
    }

    fn with_stamp(&self, _alloc: Global, stamp: u64) -> Result<Self, NoMemory> {
        let mut copy = self.copy()?;
        copy.stamp = stamp;
        Ok(copy)
    }

    ghost keeps_name = { λ stamp old new h. ap (λ c. c.name) h.0 };
}

impl Stamped for UserRec {
    ghost own_key = { λ r. keys.User r.name };

    ghost own_stamp = { λ r. r.stamp };

    ghost stamped = { λ stamp old new. new ≡ stamped_user stamp old };

    fn has_key(&self, key: &Key) -> bool {
        match key {
            Key::User(name) => self.name.is(name),
            _ => false,
        }
    }

    fn stamp(&self) -> u64 {
        self.stamp
    }

    fn with_stamp(&self, alloc: Global, stamp: u64) -> Result<Self, NoMemory> {
        let mut copy = self.copy(alloc)?;
        copy.stamp = stamp;
        Ok(copy)
    }

    ghost keeps_name = { λ stamp old new h. ap (λ r. r.name) h };
}
