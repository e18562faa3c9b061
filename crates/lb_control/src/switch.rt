// ENABLE and DISABLE of permissions and masks.
ghost use Rattle.std.specs.Prelude.{◌≡◌, Bool, IfOk, map, if◌then◌else◌};
ghost use Rattle.std.specs.Str.{bytes_eq};
ghost use Rattle.lb_alter.specs.ChangeControl as control;

use lb_base::{Listing, Name, NoMemory};
use lb_cat::{Copied, MaskRec, PermissionRec};
use lb_changed::Entry;
use lb_stmt::Switch;
use std::alloc::Global;

/// Whether a permission or mask is enabled after ENABLE or DISABLE.
pub fn is_enabled(switch: Switch) -> bool
    ensures { result ≡ control.is_enabled switch }
{
    match switch {
        Switch::Enable => true,
        Switch::Disable => false,
    }
}

/// What can be enabled and disabled.
pub trait Switched: Entry {
    ghost switched: { Bool → Self → Self };

    /// It, enabled or disabled.
    fn switched(self, enabled: bool) -> Self
        ensures { result ≡ switched enabled self };
}

impl Switched for PermissionRec {
    ghost switched = { λ b p. record p { enabled = b } };

    fn switched(self, enabled: bool) -> PermissionRec {
        let mut permission = self;
        permission.enabled = enabled;
        permission
    }
}

impl Switched for MaskRec {
    ghost switched = { λ b m. record m { enabled = b } };

    fn switched(self, enabled: bool) -> MaskRec {
        let mut mask = self;
        mask.enabled = enabled;
        mask
    }
}

/// Copies of the entries, of which those of that name are enabled or disabled.
pub fn with_switched<E: Switched>(
    alloc: Global,
    entries: &[E],
    name: &Name,
    enabled: bool,
) -> Result<Listing<E>, NoMemory>
    ensures { IfOk result (λ es. es ≡ map (λ x. if bytes_eq (E.of x) name.now then E.switched enabled x else x) entries.now) }
{
    let mut copies = Listing::empty(alloc);
    for entry in entries {
        copies.push(after_switch(alloc, entry, name, enabled)?)?;
    }
    Ok(copies)
}

/// A copy of the entry, enabled or disabled where it has that name.
fn after_switch<E: Switched>(
    alloc: Global,
    entry: &E,
    name: &Name,
    enabled: bool,
) -> Result<E, NoMemory>
    ensures { IfOk result (λ e. e ≡ (if bytes_eq (E.of entry.now) name.now then E.switched enabled entry.now else entry.now)) }
{
    let copied = entry.copy(alloc)?;
    if entry.of().is(name) {
        Ok(copied.switched(enabled))
    } else {
        Ok(copied)
    }
}
