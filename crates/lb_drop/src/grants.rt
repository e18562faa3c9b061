// Privileges on a table, which end with it.
ghost use Rattle.lb_cat.specs.Privileges.{has_grant_on, without_grant};

use lb_base::{Name, NoMemory};
use lb_cat::{Copied, UserRec};
use lb_changed::{entry_of, without};
use lb_first::{UserChange, UserTest};
use std::alloc::Global;

/// Who has privileges on the table of this name, and loses them.
#[derive(Clone, Copy)]
pub(crate) struct GrantsOn<'a> {
    pub table: &'a Name,
}

impl UserTest for GrantsOn<'_> {
    ghost test = { λ g. has_grant_on g.table.now };

    fn passes(&self, user: &UserRec) -> bool {
        entry_of(user.privileges.as_slice(), self.table).is_some()
    }
}

impl UserChange for GrantsOn<'_> {
    ghost change = { λ g. without_grant g.table.now };

    fn changed(&self, alloc: Global, user: &UserRec) -> Result<UserRec, NoMemory> {
        let mut rec = user.copy(alloc)?;
        rec.privileges = without(alloc, user.privileges.as_slice(), self.table)?;
        Ok(rec)
    }
}
