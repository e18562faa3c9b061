// Texts that are statements, and the bytes at which others go wrong.
use lb_read::{ReadFault, read};
use std::test::Fail;

// The byte that a reading answered; none where it answered a value.
fn syntax_of<T: Drop>(reading: Result<T, ReadFault>) -> Result<Option<u32>, Fail> {
    match reading {
        Ok(_) => Ok(None),
        Err(ReadFault::Syntax(at)) => Ok(Some(at)),
        Err(ReadFault::NoMemory) => Err(Fail::from("no memory")),
    }
}

// The byte at which a text goes wrong; none where it is a statement.
fn wrong_at(rt: &HostRuntime, text: &[u8]) -> Result<Option<u32>, Fail> {
    syntax_of(read(rt.alloc(), text))
}

#[test]
fn texts(rt: HostRuntime) -> Result<(), Fail> {
    let cases: [(&str, Option<u32>); 40] = [
        ("SELECT (A = 1) FROM T", Some(10)),
        ("SELECT A FROM T WHERE (A) AND B = 1", Some(26)),
        ("SELECT A FROM T WHERE ((A) = 1)", None),
        ("SELECT A FROM T WHERE ((A = 1) + 1 = 2)", Some(31)),
        ("SELECT A FROM T WHERE 1 + (A = 1) = 2", Some(29)),
        ("SELECT A FROM T WHERE (SELECT B FROM T) = 1", Some(23)),
        ("SELECT A FROM T WHERE A = ((SELECT B FROM T))", Some(28)),
        ("SELECT A FROM T WHERE A = (SELECT B FROM T) + 1", Some(44)),
        ("SELECT A FROM T WHERE NOT NOT A = 1", Some(26)),
        ("SELECT A FROM T WHERE A NOT = 1", Some(28)),
        ("SELECT DATE '2023-02-29' FROM T", Some(12)),
        ("SELECT DATE(A) FROM T", Some(12)),
        ("SELECT SUM(DISTINCT A) FROM T", Some(11)),
        ("SELECT COALESCE(A) FROM T", Some(17)),
        ("SELECT A FETCH FROM T", Some(9)),
        ("SELECT A FROM T FETCH FIRST 0 ROWS ONLY", Some(28)),
        ("ALTER TABLE T ADD COLUMN INT", None),
        ("ALTER TABLE T ADD COLUMN INT X", Some(29)),
        ("ALTER TABLE T ALTER COLUMN DROP COLUMN SECURITY", None),
        ("GRANT SELECT ON TABLE TO ANN BOB", Some(29)),
        ("GRANT SELECT ON TABLE TO TO", None),
        ("GRANT SELECT ON TABLE TO TO ANN", None),
        ("INSERT INTO T (SELECT A FROM T)", Some(15)),
        ("SELECT CASE WHEN (A) THEN 1 END FROM T", Some(21)),
        ("SELECT A FROM T WHERE EXISTS SELECT", Some(29)),
        ("SELECT A FROM T LEFT", Some(20)),
        ("SELECT A FROM T 'x", Some(16)),
        ("FOO", Some(0)),
        ("SELECT FROM T", Some(7)),
        ("SELECT 'a", Some(7)),
        ("SELECT 9223372036854775808 FROM NOTES", Some(7)),
        ("SELECT -9223372036854775808 FROM NOTES", None),
        ("DROP TABLE T", None),
        ("CREATE ROLE A", None),
        ("REVOKE SECADM ON DATABASE FROM USER ANN", None),
        ("ALTER MASK M", Some(12)),
        ("DELETE FROM T", None),
        ("UPDATE T SET A = 1", None),
        ("", Some(0)),
        ("SELECT A FROM T; ", Some(15)),
    ];
    for (text, want) in cases {
        let got = wrong_at(&rt, text.as_bytes())?;
        assert_eq!(rt; got, want, "{text}");
    }
    Ok(())
}

// A front, so many times a middle, and a back.
fn repeated(
    rt: &HostRuntime,
    front: &str,
    count: usize,
    middle: &str,
    back: &str,
) -> Result<String, Fail> {
    let mut text = String::from_str(rt.alloc(), front)?;
    for _ in 0..count {
        text.push_str(middle)?;
    }
    text.push_str(back)?;
    Ok(text)
}

#[test]
fn limits(rt: HostRuntime) -> Result<(), Fail> {
    for (count, want) in [(64usize, None), (65, Some(71u32)), (100, Some(71))] {
        let front = repeated(&rt, "SELECT ", count, "(", "1")?;
        let text = repeated(&rt, front.as_str(), count, ")", " FROM NOTES")?;
        let got = wrong_at(&rt, text.as_bytes())?;
        assert_eq!(rt; got, want, "{count} brackets");
    }
    let brackets = repeated(&rt, "SELECT A FROM T WHERE ", 64, "(", "A IN (1)")?;
    let got = wrong_at(&rt, brackets.as_bytes())?;
    assert_eq!(rt; got, Some(91), "a list behind 64 brackets");
    let sum = repeated(&rt, "SELECT 1", 1000, "+1", " FROM NOTES")?;
    let got = wrong_at(&rt, sum.as_bytes())?;
    assert_eq!(rt; got, None, "a sum");
    for (count, want) in [(4080usize, None), (4081, None), (4082, Some(4096u32))] {
        let text = repeated(&rt, "SELECT A FROM T", count, " ", "")?;
        let got = wrong_at(&rt, text.as_bytes())?;
        assert_eq!(rt; got, want, "{count} blanks");
    }
    Ok(())
}

#[test]
fn bytes_that_are_no_text(rt: HostRuntime) -> Result<(), Fail> {
    let got = wrong_at(&rt, &[83, 69, 76, 69, 67, 84, 32, 39, 97, 255, 39])?;
    assert_eq!(rt; got, Some(9));
    Ok(())
}
