// What is a name, and that rows are copied where there is memory.
use lb_base::{Listing, Name, NoMemory, Row, RowList, Str, Value};
use std::alloc::Global;

fn shows(alloc: Global, text: &str, want: Option<&str>) -> bool {
    match (Name::of(alloc, text), want) {
        (Ok(Some(name)), Some(want)) => name.as_str() == want,
        (Ok(None), None) => true,
        _ => false,
    }
}

#[test]
fn names_are_folded_and_other_texts_are_none(rt: HostRuntime) {
    let alloc = rt.alloc();
    let cases = [
        ("notes", Some("NOTES")),
        ("T_1", Some("T_1")),
        ("select", Some("SELECT")),
        (
            "A123456789A123456789A123456789A123456789A123456789A123456789A123",
            Some("A123456789A123456789A123456789A123456789A123456789A123456789A123"),
        ),
        (
            "A123456789A123456789A123456789A123456789A123456789A123456789A1234",
            None,
        ),
        ("", None),
        ("1A", None),
        ("_A", None),
        ("A B", None),
        ("A-B", None),
        ("É", None),
    ];
    for (text, want) in cases {
        assert!(rt; shows(alloc, text, want), "{text}");
    }
}

fn copied_rows(alloc: Global) -> Result<usize, NoMemory> {
    let mut row: Row = Listing::empty(alloc);
    row.push(Value::Null)?;
    row.push(Value::Int(-5))?;
    row.push(Value::Text(Str::of(alloc, "it's")?))?;
    row.push(Value::Date(19_000))?;
    let mut rows: RowList = Listing::empty(alloc);
    rows.push(row.copy(alloc)?)?;
    rows.push(row)?;
    Ok(rows.copy(alloc)?.len())
}

#[test]
fn rows_are_copied_where_there_is_memory(rt: HostRuntime) {
    assert!(rt; copied_rows(rt.alloc()) == Ok(2));
}
