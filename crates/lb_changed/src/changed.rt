// What a change leaves.
ghost use Rattle.std.specs.Prelude.{◌≡◌, ◌∷◌, [], false, IfOk};
ghost use Rattle.std.specs.List.{list_any};
ghost use Rattle.lb_base.specs.declared.key.Key.TheVariants as keys;
ghost use Rattle.lb_alter.specs.Refusing.{Changed as AnyChanged};
ghost use Rattle.lb_alter.specs.Refusing as refusing;
ghost use Rattle.lb_cat.specs.OrRefused.{OrRefused};
ghost use Rattle.lb_cat.specs.Stamps.{Kept, bare, bare_policy, bare_table, look};
ghost use Rattle.lb_cat.specs.declared.reply.Reply.TheVariants as replies;
ghost use Rattle.lb_rows.specs.Tables.{Tables};
ghost use Rattle.lb_changed.specs.Made.{IsMade, Makes, StampsStay, is_rows};

use crate::put::{with_policy, with_table};
use crate::stop::Stop;
use lb_base::{Key, Listing, NoMemory};
use lb_cat::{Catalog, Keys, PolicyRec, Refusal, Reply, TableRec};
use lb_rows::TableVersion;
use std::alloc::{AllocError, Global};
use std::sync::Arc;

/// What a change leaves, accepted or refused.
#[derive(Drop)]
pub struct Changed {
    /// The catalogue afterwards. A record that was there keeps its stamp, and a new one has 0.
    pub catalog: Catalog,
    /// The new rows of the one table whose rows the change touches. Where a table's rows are touched and there are none here, the table
    /// is gone, and its rows with it.
    pub table: Option<Arc<TableVersion>>,
    /// What the change touches, in the order in which the change names it.
    pub touched: Keys,
    pub reply: Reply,
}

/// An accepted change of the catalogue alone, which touches the rows of no table. It takes no memory.
pub fn done(catalog: Catalog, touched: Keys) -> Changed
    ensures { (K : Kept) (T : Tables) → StampsStay K catalog → list_any is_rows touched ≡ false → IsMade K T (record { cat = bare catalog; tables = T; touched = touched; reply = replies.Done }) result }
{
    Changed {
        catalog,
        table: None,
        touched,
        reply: Reply::Done,
    }
}

/// The one key.
pub fn one_key(alloc: Global, key: Key) -> Result<Keys, NoMemory>
    ensures { IfOk result (λ ks. ks ≡ key ∷ []) }
{
    let mut keys = Listing::empty(alloc);
    keys.push(key)?;
    Ok(keys)
}

/// An accepted change of one table's record, which keeps its stamp.
pub fn alters(alloc: Global, catalog: &Catalog, rec: TableRec) -> Result<Changed, Stop>
    requires { rec.stamp ≡ look catalog.now (keys.Table rec.name) }
    ensures { (T : Tables) → Makes catalog.now T (refusing.alters (bare catalog.now) T (bare_table rec)) result }
{
    let touched = one_key(alloc, Key::Table(rec.name.copy()?))?;
    let changed = with_table(alloc, catalog, rec)?;
    Ok(done(changed, touched))
}

/// An accepted change of one policy's record, which keeps its stamp.
pub fn alters_policy(alloc: Global, catalog: &Catalog, rec: PolicyRec) -> Result<Changed, Stop>
    requires { rec.stamp ≡ look catalog.now (keys.Policy rec.name) }
    ensures { (T : Tables) → Makes catalog.now T (refusing.alters_policy (bare catalog.now) T (bare_policy rec)) result }
{
    let touched = one_key(alloc, Key::Policy(rec.name.copy()?))?;
    let changed = with_policy(alloc, catalog, rec)?;
    Ok(done(changed, touched))
}

/// What is left by a change that was made or refused: a refused one leaves all as it was and touches nothing.
pub fn settled(
    alloc: Global,
    catalog: &Catalog,
    attempted: Result<Changed, Stop>,
) -> Result<Changed, NoMemory>
    ensures { (T : Tables) (given : OrRefused AnyChanged) → Makes catalog.now T given attempted → IfOk result (IsMade catalog.now T (refusing.settled (bare catalog.now) T given)) }
{
    match attempted {
        Ok(changed) => Ok(changed),
        Err(Stop::Refused(refusal)) => refused(alloc, catalog, refusal),
        Err(Stop::NoMemory) => Err(AllocError),
    }
}

fn refused(alloc: Global, catalog: &Catalog, refusal: Refusal) -> Result<Changed, NoMemory>
    ensures { (T : Tables) → IfOk result (IsMade catalog.now T (record { cat = bare catalog.now; tables = T; touched = []; reply = replies.Refused refusal })) }
{
    let catalog = catalog.copy()?;
    Ok(Changed {
        catalog,
        table: None,
        touched: Listing::empty(alloc),
        reply: Reply::Refused(refusal),
    })
}
