// What refuses CREATE TABLE for its elements: names, widths, keys, and columns that don't go together.
ghost use Rattle.std.specs.Prelude.{◌∷◌, [], false, length, nat_lt};
ghost use Rattle.lb_changed.specs.Given.{Passes};
ghost use Rattle.lb_cat.specs.declared.refusal.Refusal.TheVariants as refusals;
ghost use Rattle.lb_cat.specs.declared.refusal.LimitOf.TheVariants as limits;
ghost use Rattle.lb_alter.specs.ChangeTable as definitions;
ghost use Rattle.lb_alter.specs.ChangeTable.{columns_in, keys_in};
ghost use Rattle.lb_alter.specs.Refusing.{each_passes, earliest, when};

use crate::elements::{column_count, has_column_named, is_key};
use crate::types::{column_width_refusal, is_label_kind};
use lb_base::Name;
use lb_cat::{Flaw, LimitOf};
use lb_changed::{Stop, bad_table, exists, limit, unknown};
use lb_stmt::{ColumnDef, Element};
use std::alloc::Global;

/// There are at most 64 columns.
pub(crate) fn columns_are_few(elements: &[Element]) -> Result<(), Stop>
    ensures { Passes (when (nat_lt 64 (length (columns_in elements.now))) (refusals.Limit limits.Columns 64)) result }
{
    if column_count(elements) > 64 {
        return Err(limit(LimitOf::Columns, 64));
    }
    Ok(())
}

/// Each column has a name of its own, and a width that it may have.
pub(crate) fn columns_refusal(alloc: Global, elements: &[Element]) -> Result<(), Stop>
    ensures { Passes (definitions.columns_refusal [] (columns_in elements.now)) result }
{
    for place in 0..elements.len() {
        let Element::Column(column) = &elements[place] else {
            continue;
        };
        column_refusal(alloc, &elements[..place], column)?;
    }
    Ok(())
}

fn column_refusal(alloc: Global, before: &[Element], column: &ColumnDef) -> Result<(), Stop>
    ensures { Passes (earliest (when (definitions.has_column_named (columns_in before.now) column.now.name) (refusals.Exists column.now.name) ∷ definitions.column_width_refusal column.now.ty ∷ [])) result }
{
    if has_column_named(before, &column.name) {
        return Err(exists(alloc, &column.name));
    }
    column_width_refusal(column.ty)
}

/// Each PRIMARY KEY element names a column.
pub(crate) fn keys_refusal(alloc: Global, elements: &[Element]) -> Result<(), Stop>
    ensures { Passes (each_passes (definitions.key_refusal (columns_in elements.now)) (keys_in elements.now)) result }
{
    for element in elements {
        let Element::Key(name) = element else {
            continue;
        };
        key_refusal(alloc, elements, name)?;
    }
    Ok(())
}

fn key_refusal(alloc: Global, elements: &[Element], name: &Name) -> Result<(), Stop>
    ensures { Passes (definitions.key_refusal (columns_in elements.now) name.now) result }
{
    if has_column_named(elements, name) {
        return Ok(());
    }
    Err(unknown(alloc, name))
}

/// The columns go together, and with a table that has a policy or not.
pub(crate) fn flaws_refusal(
    alloc: Global,
    protected: bool,
    elements: &[Element],
) -> Result<(), Stop>
    ensures { Passes (definitions.flaws_refusal protected false false elements.now (columns_in elements.now)) result }
{
    let mut label_before = false;
    let mut key_before = false;
    for element in elements {
        let Element::Column(column) = element else {
            continue;
        };
        let key = is_key(elements, column);
        flaw_refusal(alloc, protected, label_before, key_before, key, column)?;
        label_before = label_before || is_label_kind(column.ty);
        key_before = key_before || key;
    }
    Ok(())
}

fn flaw_refusal(
    alloc: Global,
    protected: bool,
    label_before: bool,
    key_before: bool,
    key: bool,
    column: &ColumnDef,
) -> Result<(), Stop>
    ensures { Passes (definitions.flaw_refusal protected label_before key_before key column.now) result }
{
    let label = is_label_kind(column.ty);
    if (label || column.secured.is_some()) && !protected {
        return Err(bad_table(alloc, &column.name, Flaw::NoPolicy));
    }
    if label && label_before {
        return Err(bad_table(alloc, &column.name, Flaw::TwoLabels));
    }
    if key && key_before {
        return Err(bad_table(alloc, &column.name, Flaw::TwoKeys));
    }
    if label && (key || column.secured.is_some()) {
        return Err(bad_table(alloc, &column.name, Flaw::LabelKey));
    }
    Ok(())
}
