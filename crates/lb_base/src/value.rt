// Values of columns and expressions, and rows of them. A value owns its memory; `copy` makes an equal one.
ghost use Rattle.std.specs.Prelude.{◌≡◌, IfOk};

use crate::{Listing, Name, NoMemory, Str};
use arrayvec::ArrayVec;
use sqlite_items::Boxed;
use std::alloc::Global;

/// The parts of a label, one for each component of its policy, in the policy's order, at most 16.
/// In a SET or TREE component bit i stands for the element with number i, counted from 0 in the order of adding;
/// in an ARRAY component a part is 0 for none, else the element's number plus one.
pub type Parts = ArrayVec<u64, 16>;

/// A value of a column or an expression.
#[derive(Drop)]
pub enum Value {
    /// The null value, which every type has.
    Null,
    /// A 64-bit integer.
    Int(i64),
    /// A text.
    Text(Str),
    /// A day, in days since 1970-01-01, from -719162 (0001-01-01) to 2932896 (9999-12-31).
    Date(i32),
    /// A security label.
    Label(Boxed<Parts>),
}

/// The values of a row, in the order of its table's columns or of the select list.
pub type Row = Listing<Value>;

/// Rows in order.
pub type RowList = Listing<Row>;

/// Names in order.
pub type Names = Listing<Name>;

impl Value {
    /// An equal value in memory of its own.
    pub fn copy(&self, alloc: Global) -> Result<Value, NoMemory>
        ensures { IfOk result (λ v. v ≡ self.now) }
    {
        match self {
            Value::Null => Ok(Value::Null),
            Value::Int(n) => Ok(Value::Int(*n)),
            Value::Text(text) => {
                let text = text.copy()?;
                Ok(Value::Text(text))
            }
            Value::Date(day) => Ok(Value::Date(*day)),
            Value::Label(parts) => {
                let parts = copy_parts(parts.get());
                let parts = Boxed::new(alloc, parts)?;
                Ok(Value::Label(parts))
            }
        }
    }
}

/// An equal label. It takes no memory.
pub fn copy_parts(parts: &Parts) -> Parts
    ensures { result ≡ parts.now }
{
    let mut copied = ArrayVec::new();
    for part in parts.as_slice() {
        copied.push(*part);
    }
    copied
}

impl Listing<Value> {
    /// An equal row in memory of its own.
    pub fn copy(&self, alloc: Global) -> Result<Row, NoMemory>
        ensures { IfOk result (λ r. r ≡ self.now) }
    {
        copy_row(alloc, self.as_slice())
    }
}

fn copy_row(alloc: Global, row: &[Value]) -> Result<Row, NoMemory>
    ensures { IfOk result (λ r. r ≡ row.now) }
{
    let mut copied = Listing::empty(alloc);
    for value in row {
        copied.push(value.copy(alloc)?)?;
    }
    Ok(copied)
}

impl Listing<Row> {
    /// Equal rows in memory of their own.
    pub fn copy(&self, alloc: Global) -> Result<RowList, NoMemory>
        ensures { IfOk result (λ r. r ≡ self.now) }
    {
        copy_rows(alloc, self.as_slice())
    }
}

fn copy_rows(alloc: Global, rows: &[Row]) -> Result<RowList, NoMemory>
    ensures { IfOk result (λ r. r ≡ rows.now) }
{
    let mut copied = Listing::empty(alloc);
    for row in rows {
        copied.push(row.copy(alloc)?)?;
    }
    Ok(copied)
}

impl Listing<Name> {
    /// Equal names in memory of their own.
    pub fn copy(&self, alloc: Global) -> Result<Names, NoMemory>
        ensures { IfOk result (λ n. n ≡ self.now) }
    {
        copy_names(alloc, self.as_slice())
    }
}

fn copy_names(alloc: Global, names: &[Name]) -> Result<Names, NoMemory>
    ensures { IfOk result (λ n. n ≡ names.now) }
{
    let mut copied = Listing::empty(alloc);
    for name in names {
        copied.push(name.copy()?)?;
    }
    Ok(copied)
}
