// The catalogue that the program keeps: five kinds of records, each found by name and by place.
ghost use Rattle.std.specs.Prelude.{◌≡◌, find, is_some, length, slice_get, IfOk, OnErr, OnOk};
ghost use Rattle.std.specs.Option.{option_map};
ghost use Rattle.std.specs.Arc.{arc_value};
ghost use Rattle.lb_base.specs.declared.key.Key.{Key as AnyKey};
ghost use Rattle.lb_cat.specs.Catalog as cat;
ghost use Rattle.lb_cat.specs.Stamps as kept;
ghost use Rattle.lb_cat.specs.Stamps.{bare, bare_table, bare_policy, bare_component, bare_user};

use crate::catalog::{ComponentRec, PolicyRec, RoleRec, TableRec, UserRec};
use crate::keys::Keys;
use crate::records::Records;
use lb_base::{Key, Listing, Name, NoMemory};
use std::alloc::Global;
use std::marker::Model;
use std::sync::Arc;

/// The records of tables, policies, components, users and roles, each kind in the order of making.
/// Contracts see the five lists, and by `bare` the same lists without stamps.
#[derive(Drop)]
pub struct Catalog {
    tables: Records<TableRec>,
    policies: Records<PolicyRec>,
    components: Records<ComponentRec>,
    users: Records<UserRec>,
    roles: Records<RoleRec>,
}

impl Model for Catalog {
    ghost use Rattle.lb_cat.specs.Stamps.{Kept};

    ghost Value = { Kept };

    ghost use Rattle.std.specs.Coded.{codes};
    ghost use Rattle.lb_tree.specs.contracts.query.Cond as conditions;
    ghost use Rattle.lb_tree.specs.contracts.query.Expr as expressions;

    ghost coded = { Prim.hlevel (codes, conditions.the_row.coded, expressions.the_row.coded) };

    ghost view = { λ c. record { tables = c.tables; policies = c.policies; components = c.components; users = c.users; roles = c.roles } };
}

impl Catalog {
    /// The catalogue at the beginning: one user, SECADMIN, with SECADM authority. Its stamps are 0.
    pub fn first(alloc: Global) -> Result<Catalog, NoMemory>
        ensures bare { IfOk result (λ c. bare c ≡ cat.first_cat) }
        ensures stamps { IfOk result (λ c. (k : AnyKey) → kept.look c k ≡ 0) }
    {
        let Some(name) = Name::of(alloc, "SECADMIN")? else {
            unreachable!();
        };
        let mut users = Records::empty(alloc);
        let user = UserRec {
            name,
            secadm: true,
            roles: Listing::empty(alloc),
            privileges: Listing::empty(alloc),
            held: Listing::empty(alloc),
            stamp: 0,
        };
        users.put(Arc::new(alloc, user)?)?;
        Ok(Catalog {
            tables: Records::empty(alloc),
            policies: Records::empty(alloc),
            components: Records::empty(alloc),
            users,
            roles: Records::empty(alloc),
        })
    }

    /// The same catalogue once more. The records are shared.
    pub fn copy(&self) -> Result<Catalog, NoMemory>
        ensures { IfOk result (λ c. c ≡ self.now) }
    {
        let tables = self.tables.copy()?;
        let policies = self.policies.copy()?;
        let components = self.components.copy()?;
        let users = self.users.copy()?;
        let roles = self.roles.copy()?;
        Ok(Catalog {
            tables,
            policies,
            components,
            users,
            roles,
        })
    }

    /// Gives this stamp to each record whose key is among these; all else stays. A Rows key is that of no record.
    /// Where memory is refused nothing changes.
    pub fn mark(&mut self, keys: &Keys, stamp: u64) -> Result<(), NoMemory>
        ensures kept { OnOk result (kept.IsAlike self.new (kept.marked keys.now stamp self.old)) }
        ensures bare { OnOk result (bare self.new ≡ bare self.old) }
        ensures stamps { OnOk result ((k : AnyKey) → kept.look self.new k ≡ kept.marked_stamp keys.now stamp self.old k) }
        ensures err { OnErr result (self.new ≡ self.old) }
    {
        *self = self.marked(keys, stamp)?;
        Ok(())
    }

    fn marked(&self, keys: &Keys, stamp: u64) -> Result<Catalog, NoMemory>
        ensures { IfOk result (λ c. kept.IsAlike c (kept.marked keys.now stamp self.now)) }
    {
        let tables = self.tables.marked(keys, stamp)?;
        let policies = self.policies.marked(keys, stamp)?;
        let components = self.components.marked(keys, stamp)?;
        let users = self.users.marked(keys, stamp)?;
        let roles = self.roles.copy()?;
        Ok(Catalog {
            tables,
            policies,
            components,
            users,
            roles,
        })
    }

    /// The stamp of the record under a key, and 0 where there is none. A Rows key has the stamp of the table's record: that of the
    /// rows themselves stands in a snapshot. It takes no memory.
    pub fn look(&self, key: &Key) -> u64
        ensures { result ≡ kept.look self.now key.now }
    {
        match key {
            Key::Table(name) => self.tables.stamp(name),
            Key::Rows(name) => self.tables.stamp(name),
            Key::Policy(name) => self.policies.stamp(name),
            Key::Component(name) => self.components.stamp(name),
            Key::User(name) => self.users.stamp(name),
        }
    }
}

/// The records of tables.
impl Catalog {
    /// Puts a table's record last, or into the place of the one of its name; all else stays. Where memory is refused nothing changes.
    pub fn put_table(&mut self, rec: Arc<TableRec>) -> Result<(), NoMemory>
        ensures kept { OnOk result (self.new ≡ kept.with_kept_table (arc_value rec) self.old) }
        ensures bare { OnOk result (bare self.new ≡ cat.put_table (bare_table (arc_value rec)) (bare self.old)) }
        ensures err { OnErr result (self.new ≡ self.old) }
    {
        self.tables.put(rec)
    }

    /// Drops the table of this name. The others keep their order, and an absent name changes nothing. It takes no memory.
    pub fn drop_table(&mut self, name: &Name)
        ensures kept { self.new ≡ kept.without_kept_table name.now self.old }
        ensures bare { bare self.new ≡ cat.drop_table name.now (bare self.old) }
    {
        self.tables.remove(name);
    }

    /// How many tables there are.
    pub fn table_count(&self) -> usize
        ensures kept { result ≡ length self.now.tables }
        ensures bare { result ≡ length (bare self.now).tables }
    {
        self.tables.len()
    }

    /// The table in this place, counted from 0 in the order of making. None exactly past the last.
    pub fn table_at(&self, place: usize) -> Option<&Arc<TableRec>>
        ensures kept { option_map (λ r. arc_value r.now) result ≡ slice_get self.now.tables place }
        ensures bare { option_map (λ r. bare_table (arc_value r.now)) result ≡ slice_get (bare self.now).tables place }
    {
        self.tables.at(place)
    }

    /// The table of this name. None exactly where there is none.
    pub fn table(&self, name: &Name) -> Option<&Arc<TableRec>>
        ensures kept { option_map (λ r. arc_value r.now) result ≡ kept.kept_table self.now name.now }
        ensures bare { option_map (λ r. bare_table (arc_value r.now)) result ≡ cat.table_named (bare self.now) name.now }
    {
        self.tables.named(name)
    }
}

/// The records of policies.
impl Catalog {
    /// Puts a policy's record last, or into the place of the one of its name; all else stays. Where memory is refused nothing changes.
    pub fn put_policy(&mut self, rec: Arc<PolicyRec>) -> Result<(), NoMemory>
        ensures kept { OnOk result (self.new ≡ kept.with_kept_policy (arc_value rec) self.old) }
        ensures bare { OnOk result (bare self.new ≡ cat.put_policy (bare_policy (arc_value rec)) (bare self.old)) }
        ensures err { OnErr result (self.new ≡ self.old) }
    {
        self.policies.put(rec)
    }

    /// Drops the policy of this name. The others keep their order, and an absent name changes nothing. It takes no memory.
    pub fn drop_policy(&mut self, name: &Name)
        ensures kept { self.new ≡ kept.without_kept_policy name.now self.old }
        ensures bare { bare self.new ≡ cat.drop_policy name.now (bare self.old) }
    {
        self.policies.remove(name);
    }

    /// How many policies there are.
    pub fn policy_count(&self) -> usize
        ensures kept { result ≡ length self.now.policies }
        ensures bare { result ≡ length (bare self.now).policies }
    {
        self.policies.len()
    }

    /// The policy in this place, counted from 0 in the order of making. None exactly past the last.
    pub fn policy_at(&self, place: usize) -> Option<&Arc<PolicyRec>>
        ensures kept { option_map (λ r. arc_value r.now) result ≡ slice_get self.now.policies place }
        ensures bare { option_map (λ r. bare_policy (arc_value r.now)) result ≡ slice_get (bare self.now).policies place }
    {
        self.policies.at(place)
    }

    /// The policy of this name. None exactly where there is none.
    pub fn policy(&self, name: &Name) -> Option<&Arc<PolicyRec>>
        ensures kept { option_map (λ r. arc_value r.now) result ≡ kept.kept_policy self.now name.now }
        ensures bare { option_map (λ r. bare_policy (arc_value r.now)) result ≡ cat.policy_named (bare self.now) name.now }
    {
        self.policies.named(name)
    }

    /// The policy whose name this text is, as calls of label functions give it. None exactly where there is none.
    pub fn policy_called(&self, name: &str) -> Option<&Arc<PolicyRec>>
        ensures kept { option_map (λ r. arc_value r.now) result ≡ kept.kept_policy self.now name.now }
        ensures bare { option_map (λ r. bare_policy (arc_value r.now)) result ≡ cat.policy_named (bare self.now) name.now }
    {
        self.policies.spelled(name)
    }
}

/// The records of components.
impl Catalog {
    /// Puts a component's record last, or into the place of the one of its name; all else stays. Where memory is refused nothing changes.
    pub fn put_component(&mut self, rec: Arc<ComponentRec>) -> Result<(), NoMemory>
        ensures kept { OnOk result (self.new ≡ kept.with_kept_component (arc_value rec) self.old) }
        ensures bare { OnOk result (bare self.new ≡ cat.put_component (bare_component (arc_value rec)) (bare self.old)) }
        ensures err { OnErr result (self.new ≡ self.old) }
    {
        self.components.put(rec)
    }

    /// Drops the component of this name. The others keep their order, and an absent name changes nothing. It takes no memory.
    pub fn drop_component(&mut self, name: &Name)
        ensures kept { self.new ≡ kept.without_kept_component name.now self.old }
        ensures bare { bare self.new ≡ cat.drop_component name.now (bare self.old) }
    {
        self.components.remove(name);
    }

    /// How many components there are.
    pub fn component_count(&self) -> usize
        ensures kept { result ≡ length self.now.components }
        ensures bare { result ≡ length (bare self.now).components }
    {
        self.components.len()
    }

    /// The component in this place, counted from 0 in the order of making. None exactly past the last.
    pub fn component_at(&self, place: usize) -> Option<&Arc<ComponentRec>>
        ensures kept { option_map (λ r. arc_value r.now) result ≡ slice_get self.now.components place }
        ensures bare { option_map (λ r. bare_component (arc_value r.now)) result ≡ slice_get (bare self.now).components place }
    {
        self.components.at(place)
    }

    /// The component of this name. None exactly where there is none.
    pub fn component(&self, name: &Name) -> Option<&Arc<ComponentRec>>
        ensures kept { option_map (λ r. arc_value r.now) result ≡ kept.kept_component self.now name.now }
        ensures bare { option_map (λ r. bare_component (arc_value r.now)) result ≡ cat.component_named (bare self.now) name.now }
    {
        self.components.named(name)
    }
}

/// The records of users.
impl Catalog {
    /// Puts a user's record last, or into the place of the one of its name; all else stays. Where memory is refused nothing changes.
    pub fn put_user(&mut self, rec: Arc<UserRec>) -> Result<(), NoMemory>
        ensures kept { OnOk result (self.new ≡ kept.with_kept_user (arc_value rec) self.old) }
        ensures bare { OnOk result (bare self.new ≡ cat.put_user (bare_user (arc_value rec)) (bare self.old)) }
        ensures err { OnErr result (self.new ≡ self.old) }
    {
        self.users.put(rec)
    }

    /// How many users there are.
    pub fn user_count(&self) -> usize
        ensures kept { result ≡ length self.now.users }
        ensures bare { result ≡ length (bare self.now).users }
    {
        self.users.len()
    }

    /// The user in this place, counted from 0 in the order of making. None exactly past the last.
    pub fn user_at(&self, place: usize) -> Option<&Arc<UserRec>>
        ensures kept { option_map (λ r. arc_value r.now) result ≡ slice_get self.now.users place }
        ensures bare { option_map (λ r. bare_user (arc_value r.now)) result ≡ slice_get (bare self.now).users place }
    {
        self.users.at(place)
    }

    /// The user of this name. None exactly where there is none.
    pub fn user(&self, name: &Name) -> Option<&Arc<UserRec>>
        ensures kept { option_map (λ r. arc_value r.now) result ≡ kept.kept_user self.now name.now }
        ensures bare { option_map (λ r. bare_user (arc_value r.now)) result ≡ cat.user_named (bare self.now) name.now }
    {
        self.users.named(name)
    }
}

/// The records of roles.
impl Catalog {
    /// Puts a role's record last, or into the place of the one of its name; all else stays. Where memory is refused nothing changes.
    pub fn put_role(&mut self, rec: Arc<RoleRec>) -> Result<(), NoMemory>
        ensures kept { OnOk result (self.new ≡ kept.with_kept_role (arc_value rec) self.old) }
        ensures bare { OnOk result (bare self.new ≡ cat.put_role (arc_value rec) (bare self.old)) }
        ensures err { OnErr result (self.new ≡ self.old) }
    {
        self.roles.put(rec)
    }

    /// Drops the role of this name. The others keep their order, and an absent name changes nothing. It takes no memory.
    pub fn drop_role(&mut self, name: &Name)
        ensures kept { self.new ≡ kept.without_kept_role name.now self.old }
        ensures bare { bare self.new ≡ cat.drop_role name.now (bare self.old) }
    {
        self.roles.remove(name);
    }

    /// How many roles there are.
    pub fn role_count(&self) -> usize
        ensures kept { result ≡ length self.now.roles }
        ensures bare { result ≡ length (bare self.now).roles }
    {
        self.roles.len()
    }

    /// The role in this place, counted from 0 in the order of making. None exactly past the last.
    pub fn role_at(&self, place: usize) -> Option<&Arc<RoleRec>>
        ensures kept { option_map (λ r. arc_value r.now) result ≡ slice_get self.now.roles place }
        ensures bare { option_map (λ r. arc_value r.now) result ≡ slice_get (bare self.now).roles place }
    {
        self.roles.at(place)
    }

    /// The role of this name. None exactly where there is none.
    pub fn role(&self, name: &Name) -> Option<&Arc<RoleRec>>
        ensures kept { is_some result ≡ kept.has_kept_role self.now name.now }
        ensures bare { is_some result ≡ cat.has_role (bare self.now) name.now }
        ensures named { option_map (λ r. arc_value r.now) result ≡ find (cat.is_role name.now) self.now.roles }
    {
        self.roles.named(name)
    }
}
