// Statements that are read again from what is printed of them.
use lb_print::canonical;
use lb_read::{ReadFault, read};
use lb_readable::{read_back, readable};
use std::alloc::Global;
use std::test::Fail;

// The canonical text that stands beside a text's statement.
fn text_beside(alloc: Global, text: &[u8]) -> Result<String, ReadFault> {
    let text = readable(alloc, text)?.into_text();
    Ok(String::from_str(alloc, text.as_str())?)
}

// The canonical text of what is read back of a text's statement.
fn text_behind(alloc: Global, text: &[u8]) -> Result<String, ReadFault> {
    let stmt = read(alloc, text)?;
    let back = read_back(alloc, &stmt);
    drop(stmt);
    let stmt = back?;
    let text = canonical(alloc, &stmt);
    drop(stmt);
    Ok(String::from_str(alloc, text?.as_str())?)
}

// The text that was answered, or the byte.
fn told(alloc: Global, answer: Result<String, ReadFault>) -> Result<String, Fail> {
    match answer {
        Ok(text) => Ok(text),
        Err(ReadFault::Syntax(at)) => Ok(format!(in alloc; "at {at}")?),
        Err(ReadFault::NoMemory) => Err(Fail::from("no memory")),
    }
}

#[test]
fn what_is_printed_is_read_back(rt: HostRuntime) -> Result<(), Fail> {
    let alloc = rt.alloc();
    let cases = [
        ("select  *  from t", "SELECT * FROM T"),
        (
            "delete from t where a is not null",
            "DELETE FROM T WHERE NOT A IS NULL",
        ),
        (
            "insert into t values (1,'it''s')",
            "INSERT INTO T VALUES (1, 'it''s')",
        ),
        ("drop table t -- and all its rows", "DROP TABLE T"),
        ("SELECT FROM T", "at 7"),
    ];
    for (text, want) in cases {
        let beside = told(alloc, text_beside(alloc, text.as_bytes()))?;
        assert_eq!(rt; beside.as_str(), want, "beside {text}");
        let behind = told(alloc, text_behind(alloc, text.as_bytes()))?;
        assert_eq!(rt; behind.as_str(), want, "behind {text}");
    }
    Ok(())
}

#[test]
fn what_is_printed_may_have_4096_bytes(rt: HostRuntime) -> Result<(), Fail> {
    let alloc = rt.alloc();
    // What is printed has 14 bytes, those of the table's name, and 4 for each `+1`.
    for (table, want) in [("TU", "SELECT 1 + 1"), ("TUV", "at 4096")] {
        let mut text = String::from_str(alloc, "SELECT 1")?;
        for _ in 0..1020 {
            text.push_str("+1")?;
        }
        text.push_str(" FROM ")?;
        text.push_str(table)?;
        let beside = told(alloc, text_beside(alloc, text.as_bytes()))?;
        assert!(rt; beside.as_str().starts_with(want), "beside {table}");
        let behind = told(alloc, text_behind(alloc, text.as_bytes()))?;
        assert!(rt; behind.as_str().starts_with(want), "behind {table}");
    }
    Ok(())
}
