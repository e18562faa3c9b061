// What is left by a change that drops a record: the stamp of a key that isn't touched stays.
ghost use Rattle.std.specs.Prelude.{◌≡◌, false};
ghost use Rattle.std.specs.List.{list_any};
ghost use Rattle.lb_base.specs.declared.key.Key.{Key as AnyKey};
ghost use Rattle.lb_cat.specs.Keys.{has_key};
ghost use Rattle.lb_cat.specs.Stamps.{Kept, bare, look};
ghost use Rattle.lb_cat.specs.declared.reply.Reply.TheVariants as replies;
ghost use Rattle.lb_rows.specs.Tables.{Tables};
ghost use Rattle.lb_changed.specs.Made.{IsMade, is_rows};

use lb_cat::{Catalog, Keys, Reply};
use lb_changed::Changed;

/// An accepted change that touches the rows of no table. It takes no memory.
pub fn left(catalog: Catalog, touched: Keys) -> Changed
    ensures { (K : Kept) (T : Tables) → ((k : AnyKey) → has_key k touched ≡ false → look catalog k ≡ look K k) → list_any is_rows touched ≡ false → IsMade K T (record { cat = bare catalog; tables = T; touched = touched; reply = replies.Done }) result }
{
    Changed {
        catalog,
        table: None,
        touched,
        reply: Reply::Done,
    }
}
