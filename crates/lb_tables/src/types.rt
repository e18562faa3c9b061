// The types of columns, as written and as the catalogue has them.
ghost use Rattle.std.specs.Prelude.{◌≡◌, true, is_some, not, ◌||◌, IfOk};
ghost use Rattle.lb_alter.specs.ChangeTable as definitions;
ghost use Rattle.lb_changed.specs.Given.{Passes};
ghost use Rattle.lb_tables.specs.Makeable.{has_column_width};

use lb_base::{Name, NoMemory, Ty};
use lb_cat::LimitOf;
use lb_changed::{Stop, limit};
use lb_stmt::{ColumnType, PlainType};

/// VARCHAR has a width of 1 to 254.
pub(crate) fn width_refusal(ty: PlainType) -> Result<(), Stop>
    ensures { Passes (definitions.width_refusal ty) result }
{
    if has_width(ty) {
        Ok(())
    } else {
        Err(limit(LimitOf::Width, 254))
    }
}

fn has_width(ty: PlainType) -> bool
    ensures { result ≡ definitions.has_width ty }
{
    match ty {
        PlainType::Int => true,
        PlainType::Text(width) => 1 <= width && width <= 254,
        PlainType::Date => true,
    }
}

/// The same of a column that may hold labels.
pub(crate) fn column_width_refusal(ty: ColumnType) -> Result<(), Stop>
    ensures { Passes (definitions.column_width_refusal ty) result }
{
    match ty {
        ColumnType::Plain(ty) => width_refusal(ty),
        ColumnType::Label => Ok(()),
    }
}

/// The type of a column that holds no label.
pub(crate) fn plain_type(ty: PlainType) -> Ty
    requires { definitions.has_width ty ≡ true }
    ensures { result ≡ definitions.plain_type ty }
{
    match ty {
        PlainType::Int => Ty::Int,
        PlainType::Text(width) => Ty::Text(width as u32),
        PlainType::Date => Ty::Date,
    }
}

/// The type of a column, where a label column is of the table's policy.
pub(crate) fn column_type(policy: &Option<Name>, ty: ColumnType) -> Result<Ty, NoMemory>
    requires width { has_column_width ty ≡ true }
    requires policy { (not (definitions.is_label_kind ty) || is_some policy.now) ≡ true }
    ensures { IfOk result (λ t. t ≡ definitions.column_type policy.now ty) }
{
    match ty {
        ColumnType::Plain(ty) => Ok(plain_type(ty)),
        ColumnType::Label => label_type(policy),
    }
}

fn label_type(policy: &Option<Name>) -> Result<Ty, NoMemory>
    requires { is_some policy.now ≡ true }
    ensures { IfOk result (λ t. t ≡ definitions.column_type policy.now ColumnType.Label) }
{
    match policy {
        Some(policy) => {
            let policy = policy.copy()?;
            Ok(Ty::Label(policy))
        }
        None => unreachable!(),
    }
}

/// DB2SECURITYLABEL is written.
pub(crate) fn is_label_kind(ty: ColumnType) -> bool
    ensures { result ≡ definitions.is_label_kind ty }
{
    match ty {
        ColumnType::Plain(_) => false,
        ColumnType::Label => true,
    }
}

/// The type is that of labels.
pub(crate) fn is_label_type(ty: &Ty) -> bool
    ensures { result ≡ definitions.is_label_type ty.now }
{
    match ty {
        Ty::Label(_) => true,
        _ => false,
    }
}
