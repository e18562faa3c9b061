// What a key of ORDER BY stands for: a whole bare name for the first item with that output name, an integer for the item with that number.
ghost use Rattle.std.specs.Prelude.{◌≡◌};
ghost use Rattle.std.specs.Option.{option_copied};
ghost use Rattle.lb_tree.specs.declared.query.Cond.TheViews.{out-Expr, out-Item};
ghost use Rattle.lb_names.specs.SortNames as sorts;

use lb_base::Name;
use lb_tree::{Atom, Expr, Item};

/// The item's expression for which the key's name stands: that of the first item with this output name, where the key is a whole bare
/// name (ORDER BY clause of the select-statement).
pub fn meant<'a>(items: &'a [Item], key: &Expr) -> Option<&'a Expr>
    ensures { option_copied result ≡ sorts.meant items.now key.now }
{
    match bare_name(key) {
        Some(name) => named(name, items),
        None => None,
    }
}

fn bare_name(key: &Expr) -> Option<&Name>
    ensures { option_copied result ≡ sorts.bare_name (out-Expr key.now) }
{
    match key {
        Expr::Atom(Atom::Column(column)) => match &column.correlation {
            None => Some(&column.name),
            Some(_) => None,
        },
        _ => None,
    }
}

fn named<'a>(name: &Name, items: &'a [Item]) -> Option<&'a Expr>
    ensures { option_copied result ≡ sorts.named name.now items.now }
{
    for item in items {
        if let Some(value) = if_named(name, item) {
            return Some(value);
        }
    }
    None
}

fn if_named<'a>(name: &Name, item: &'a Item) -> Option<&'a Expr>
    ensures { option_copied result ≡ sorts.if_named name.now (out-Item item.now) }
{
    match item {
        Item::Value(value, Some(output)) if name.is(output) => Some(value),
        _ => None,
    }
}

/// The integer, where the key is an integer literal as a whole: it stands for the item with that number, counted from 1 (ORDER BY
/// clause of the select-statement).
pub fn position(key: &Expr) -> Option<i64>
    ensures { result ≡ sorts.position key.now }
{
    match key {
        Expr::Atom(Atom::Int(number)) => Some(*number),
        _ => None,
    }
}
