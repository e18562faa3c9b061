// Prints the rows of a query's reply, one line for each row.
ghost use Rattle.std.specs.Prelude.{◌≡◌, ◌++◌, OnOk, codes, flat_map, map, string_bytes};
ghost use Rattle.lb_model.specs.Out.{joined_by, row_line, value_text};

use crate::part::push_separator;
use lb_base::{NoMemory, Row, Value};
use lb_page::{push_date, push_quoted};

/// A line for each row.
pub fn push_rows(out: &mut String, rows: &[Row]) -> Result<(), NoMemory>
    ensures { OnOk result (string_bytes out.new ≡ string_bytes out.old ++ flat_map row_line rows.now) }
{
    for row in rows {
        push_row(out, row.as_slice())?;
    }
    Ok(())
}

fn push_row(out: &mut String, row: &[Value]) -> Result<(), NoMemory>
    ensures { OnOk result (string_bytes out.new ≡ string_bytes out.old ++ row_line row.now) }
{
    out.push_str("  ")?;
    push_values(out, row)?;
    out.push_str("\n")
}

fn push_values(out: &mut String, row: &[Value]) -> Result<(), NoMemory>
    ensures { OnOk result (string_bytes out.new ≡ string_bytes out.old ++ joined_by (codes ", ") (map value_text row.now)) }
{
    for (place, value) in row.iter().enumerate() {
        push_separator(out, ", ", place)?;
        push_value(out, value)?;
    }
    Ok(())
}

// A label gives nothing: it stands in no reply.
fn push_value(out: &mut String, value: &Value) -> Result<(), NoMemory>
    ensures { OnOk result (string_bytes out.new ≡ string_bytes out.old ++ value_text value.now) }
{
    match value {
        Value::Null => out.push_str("NULL"),
        Value::Int(n) => write!(out, "{n}"),
        Value::Text(text) => push_quoted(out, text.as_str()),
        Value::Date(day) => push_date(out, *day),
        Value::Label(_) => Ok(()),
    }
}
