// Scripts and their whole output, over a source, a sink and a clock in memory.
ghost use Rattle.std.specs.Prelude.{◌<◌, ◌^◌};

use lb_base::{Listing, NoMemory, Str};
use lb_front::{run_alone, run_within};
use lb_wire::{MemClock, MemSink, MemSource, Status};
use std::alloc::Global;

/// Runs a script over a journal that may have so many entries; true where it ends so and writes just this.
fn gives(
    alloc: Global,
    limit: u64,
    script: &str,
    status: Status,
    output: &str,
) -> Result<bool, NoMemory>
    requires bounded { limit < 2 ^ 32 }
{
    let mut source = MemSource::new(alloc, script.as_bytes(), &[])?;
    let mut sink = MemSink::new(alloc, &[])?;
    let mut clock = MemClock::new(20_000);
    let ended = run_within(alloc, limit, &mut source, &mut sink, &mut clock);
    Ok(ended == status && sink.bytes() == output.as_bytes())
}

/// The status and the output of a script over a source and a sink that fail at these calls, counted from 1.
fn faulty(
    alloc: Global,
    script: &[u8],
    reads: &[u32],
    puts: &[u32],
) -> Result<(Status, MemSink), NoMemory> {
    let mut source = MemSource::new(alloc, script, reads)?;
    let mut sink = MemSink::new(alloc, puts)?;
    let mut clock = MemClock::new(20_000);
    let status = run_within(alloc, 1_048_576, &mut source, &mut sink, &mut clock);
    Ok((status, sink))
}

/// Whether the script ends so and writes just this, over a source and a sink that fail at these calls.
fn stops(
    alloc: Global,
    script: &str,
    reads: &[u32],
    puts: &[u32],
    status: Status,
    output: &str,
) -> Result<bool, NoMemory> {
    let (ended, sink) = faulty(alloc, script.as_bytes(), reads, puts)?;
    Ok(ended == status && sink.bytes() == output.as_bytes())
}

/// Whether an input of the header and blanks, so many bytes in all, ends so and writes just this.
fn blanks_end(
    alloc: Global,
    len: usize,
    reads: &[u32],
    status: Status,
    output: &str,
) -> Result<bool, NoMemory> {
    let header = b"@SESSION SECADMIN\n";
    let mut input = vec![in alloc; b' '; len]?;
    if input.len() >= header.len() {
        input[..header.len()].copy_from_slice(header);
    }
    let (ended, sink) = faulty(alloc, input.as_slice(), reads, &[])?;
    Ok(ended == status && sink.bytes() == output.as_bytes())
}

/// Whether running with this one word ends so, on an input without bytes.
fn ends(alloc: Global, word: &str, status: Status) -> Result<bool, NoMemory> {
    let mut words = Listing::empty(alloc);
    words.push(Str::of(alloc, word)?)?;
    let mut source = MemSource::new(alloc, b"", &[])?;
    let mut sink = MemSink::new(alloc, &[])?;
    let mut clock = MemClock::new(0);
    let ended = run_alone(alloc, words.as_slice(), &mut source, &mut sink, &mut clock);
    Ok(ended == status && sink.bytes().is_empty())
}

/// A text, then another so many times, then a third.
fn around(
    alloc: Global,
    head: &str,
    part: &str,
    count: u32,
    tail: &str,
) -> Result<Vec<u8>, NoMemory> {
    let mut text = Vec::from_slice(alloc, head.as_bytes())?;
    for _ in 0..count {
        text.extend_from_slice(part.as_bytes())?;
    }
    text.extend_from_slice(tail.as_bytes())?;
    Ok(text)
}

/// A script that makes so many tables.
fn with_tables(alloc: Global, count: u32) -> Result<Vec<u8>, NoMemory> {
    let mut text = Vec::from_slice(alloc, b"@SESSION SECADMIN\n")?;
    for n in 0..count {
        let statement = format!(in alloc; "CREATE TABLE T{n} (A VARCHAR(1));\n")?;
        text.extend_from_slice(statement.as_bytes())?;
    }
    Ok(text)
}

/// A statement that inserts so many rows of 64 empty texts into T.
fn insert_rows(alloc: Global, rows: u32) -> Result<Vec<u8>, NoMemory> {
    let row = around(alloc, "(''", ",''", 63, ")")?;
    let mut text = Vec::from_slice(alloc, b"INSERT INTO T VALUES ")?;
    for n in 0..rows {
        if n > 0 {
            text.push(b',')?;
        }
        text.extend_from_slice(row.as_slice())?;
    }
    text.push(b';')?;
    Ok(text)
}

/// A script that fills a table of 64 columns with 2,048 rows, which are 131,072 cells, and then inserts so many rows more.
fn with_cells(alloc: Global, more: u32) -> Result<Vec<u8>, NoMemory> {
    let mut text = Vec::from_slice(alloc, b"@SESSION SECADMIN\nCREATE TABLE T (")?;
    for n in 0..63 {
        let column = format!(in alloc; "C{n} VARCHAR(1), ")?;
        text.extend_from_slice(column.as_bytes())?;
    }
    text.extend_from_slice(b"C63 VARCHAR(1));")?;
    let fifteen = insert_rows(alloc, 15)?;
    for _ in 0..136 {
        text.extend_from_slice(fifteen.as_slice())?;
    }
    text.extend_from_slice(insert_rows(alloc, 8)?.as_slice())?;
    text.extend_from_slice(insert_rows(alloc, more)?.as_slice())?;
    Ok(text)
}

/// Whether the script runs whole, and its output ends so.
fn closes(alloc: Global, script: Vec<u8>, end: &str) -> Result<bool, NoMemory> {
    let (status, sink) = faulty(alloc, script.as_slice(), &[], &[])?;
    Ok(status == Status::Done && sink.bytes().ends_with(end.as_bytes()))
}

const QUERY: &str = "@SESSION SECADMIN\nCREATE TABLE T (A VARCHAR(1));SELECT * FROM";

const INSERT: &str = "@SESSION SECADMIN\nCREATE TABLE T (A VARCHAR(1));INSERT INTO T VALUES('a')";

/// Whether each limit holds: what is within it is answered, and what is beyond it isn't built yet.
fn limits_hold(alloc: Global) -> Result<[bool; 8], NoMemory> {
    let syntax = "1 - DONE\n- - REFUSED 1 SYNTAX 4096\n";
    let mut no_text = around(alloc, INSERT, ",('", 1, "")?;
    no_text.push(0xff)?;
    no_text.extend_from_slice(b"');")?;
    Ok([
        // A statement of 4,096 bytes and one of 4,097.
        closes(
            alloc,
            around(alloc, QUERY, " ", 4_082, "T;")?,
            "2 plan=compiled ROWS 0\n",
        )?,
        closes(alloc, around(alloc, QUERY, " ", 4_083, "T;")?, syntax)?,
        // A byte that is no text.
        closes(alloc, no_text, "1 - DONE\n- - REFUSED 1 SYNTAX 28\n")?,
        // A text of 4,096 bytes or less whose canonical text is longer.
        closes(alloc, around(alloc, INSERT, ",('a')", 650, ";")?, syntax)?,
        // 64 tables and 65.
        closes(alloc, with_tables(alloc, 64)?, "64 - DONE\n")?,
        closes(
            alloc,
            with_tables(alloc, 65)?,
            "64 - DONE\n- - REFUSED 99 NOTYET\n",
        )?,
        // 131,072 cells, and more of them.
        closes(
            alloc,
            with_cells(alloc, 1)?,
            "138 plan=compiled INSERTED 8\n- - REFUSED 99 NOTYET\n",
        )?,
        closes(
            alloc,
            with_cells(alloc, 15)?,
            "138 plan=compiled INSERTED 8\n- - REFUSED 99 NOTYET\n",
        )?,
    ])
}

/// Whether an input breaks the form of a script at that line, and the output says so.
fn is_broken(alloc: Global, input: &str, line: u32) -> Result<bool, NoMemory> {
    let output = format!(in alloc; "BADSCRIPT {line}\n")?;
    gives(alloc, 9, input, Status::BadScript(line), output.as_str())
}

#[test]
fn scripts_give_their_whole_output(rt: HostRuntime) {
    let alloc = rt.alloc();
    let cases = [
        // No section, the header alone, and statements of nothing.
        ("", ""),
        (" -- nothing\n ; ;", ""),
        ("@SESSION SECADMIN", "0 - SESSION 0 SECADMIN\n"),
        ("@SESSION SECADMIN\n ; ;\n", "0 - SESSION 0 SECADMIN\n"),
        // Sections of several users: each has its own session, SETUP first; only SECADMIN's statements are built so far.
        (
            "-- a table\n@setup secadmin\nCREATE TABLE T (A VARCHAR(3)); INSERT INTO T VALUES ('a');\n@SESSION ANN GROUPS STAFF NIGHT\nSELECT * FROM T; SELECT FROM T;\n@SESSION SECADMIN\nSELECT * FROM T; QUIT; what follows isn't read\n@SESSION BOB\n",
            "0 - SESSION 0 SECADMIN\n1 - DONE\n2 plan=compiled INSERTED 1\n3 - SESSION 1 ANN\n- - REFUSED 99 NOTYET\n- - REFUSED 1 SYNTAX 7\n4 - SESSION 2 SECADMIN\n5 plan=compiled ROWS 1\n  'a'\n6 - SESSION 3 BOB\n",
        ),
        // A comment stands in a statement, and a `;` in it ends nothing; offsets count from the statement's first byte.
        (
            "@SESSION SECADMIN\nCREATE TABLE T -- of; one\n(A VARCHAR(3)); -- two\nSELECT FROM T;",
            "0 - SESSION 0 SECADMIN\n1 - DONE\n- - REFUSED 1 SYNTAX 14\n",
        ),
        // Several rows, quotes, empty texts, texts beyond ASCII.
        (
            "@SESSION SECADMIN\ncreate table t (a varchar(3), b varchar(8));insert into t values ('x', 'it''s'), ('', 'é');select * from t",
            "0 - SESSION 0 SECADMIN\n1 - DONE\n2 plan=compiled INSERTED 2\n3 plan=compiled ROWS 2\n  'x', 'it''s'\n  '', 'é'\n",
        ),
        // An unknown table, a taken name, an unknown column.
        (
            "@SESSION SECADMIN\nSELECT * FROM T; CREATE TABLE T (A VARCHAR(1)); CREATE TABLE T (B VARCHAR(1)); CREATE PERMISSION P ON T FOR ROWS WHERE C = SESSION_USER ENFORCED FOR ALL ACCESS ENABLE;",
            "0 - SESSION 0 SECADMIN\n1 plan=compiled REFUSED 2 UNKNOWN T\n2 - DONE\n3 - REFUSED 3 EXISTS T\n4 - REFUSED 2 UNKNOWN C\n",
        ),
        // Without an enabled permission nothing is visible and nothing is inserted.
        (
            "@SESSION SECADMIN\nCREATE TABLE T (A VARCHAR(9)); INSERT INTO T VALUES ('SECADMIN'); ALTER TABLE T ACTIVATE ROW ACCESS CONTROL; SELECT * FROM T; INSERT INTO T VALUES ('SECADMIN');",
            "0 - SESSION 0 SECADMIN\n1 - DONE\n2 plan=compiled INSERTED 1\n3 - DONE\n4 plan=compiled ROWS 0\n5 plan=compiled REFUSED 12 ROWPERMISSION T DEFAULT\n",
        ),
        // Two permissions are joined by OR, and both are named where neither allows a row.
        (
            "@SESSION SECADMIN\nCREATE TABLE T (A VARCHAR(9), B VARCHAR(9)); CREATE PERMISSION P ON T FOR ROWS WHERE A = SESSION_USER ENFORCED FOR ALL ACCESS ENABLE; CREATE PERMISSION Q ON T FOR ROWS WHERE B = SESSION_USER ENFORCED FOR ALL ACCESS ENABLE; ALTER TABLE T ACTIVATE ROW ACCESS CONTROL; INSERT INTO T VALUES ('x', 'SECADMIN'); INSERT INTO T VALUES ('x', 'y'); SELECT * FROM T",
            "0 - SESSION 0 SECADMIN\n1 - DONE\n2 - DONE\n3 - DONE\n4 - DONE\n5 plan=compiled INSERTED 1\n6 plan=compiled REFUSED 12 ROWPERMISSION T P,Q\n7 plan=compiled ROWS 1\n  'x', 'SECADMIN'\n",
        ),
        // Names that are taken or lacking, of permissions and in each kind of statement.
        (
            "@SESSION SECADMIN\nCREATE TABLE T (A VARCHAR(9)); CREATE PERMISSION P ON T FOR ROWS WHERE A = SESSION_USER ENFORCED FOR ALL ACCESS ENABLE; CREATE PERMISSION P ON T FOR ROWS WHERE A = SESSION_USER ENFORCED FOR ALL ACCESS ENABLE; CREATE PERMISSION Q ON U FOR ROWS WHERE A = SESSION_USER ENFORCED FOR ALL ACCESS ENABLE; ALTER TABLE U ACTIVATE ROW ACCESS CONTROL; INSERT INTO U VALUES ('a');",
            "0 - SESSION 0 SECADMIN\n1 - DONE\n2 - DONE\n3 - REFUSED 3 EXISTS P\n4 - REFUSED 2 UNKNOWN U\n5 - REFUSED 2 UNKNOWN U\n6 plan=compiled REFUSED 2 UNKNOWN U\n",
        ),
        // One row that may not be written refuses the whole statement.
        (
            "@SESSION SECADMIN\nCREATE TABLE T (A VARCHAR(9)); CREATE PERMISSION P ON T FOR ROWS WHERE A = SESSION_USER ENFORCED FOR ALL ACCESS ENABLE; ALTER TABLE T ACTIVATE ROW ACCESS CONTROL; INSERT INTO T VALUES ('SECADMIN'), ('ANN'); SELECT * FROM T; INSERT INTO T VALUES ('SECADMIN'), ('SECADMIN'); SELECT * FROM T;",
            "0 - SESSION 0 SECADMIN\n1 - DONE\n2 - DONE\n3 - DONE\n4 plan=compiled REFUSED 12 ROWPERMISSION T P\n5 plan=compiled ROWS 0\n6 plan=compiled INSERTED 2\n7 plan=compiled ROWS 2\n  'SECADMIN'\n  'SECADMIN'\n",
        ),
        // A `;` between quotes ends nothing, and a name in lower case is the same name; a user's name is none in lower case.
        (
            "@SESSION SECADMIN\nCREATE TABLE T (A VARCHAR(9));INSERT INTO t VALUES (';'), ('--'), ('secadmin');SELECT * FROM T;CREATE PERMISSION P ON T FOR ROWS WHERE A = SESSION_USER ENFORCED FOR ALL ACCESS ENABLE;ALTER TABLE T ACTIVATE ROW ACCESS CONTROL;SELECT * FROM T",
            "0 - SESSION 0 SECADMIN\n1 - DONE\n2 plan=compiled INSERTED 3\n3 plan=compiled ROWS 3\n  ';'\n  '--'\n  'secadmin'\n4 - DONE\n5 - DONE\n6 plan=compiled ROWS 0\n",
        ),
        // Not built yet: other forms, a wrong number of values, a text too long for its column.
        (
            "@SESSION SECADMIN\nCREATE TABLE T (A VARCHAR(1)); SELECT A FROM T; INSERT INTO T VALUES ('a', 'b'); INSERT INTO T VALUES ('ab'); INSERT INTO T VALUES ('é'); CREATE TABLE U (A BIGINT); SELECT",
            "0 - SESSION 0 SECADMIN\n1 - DONE\n- - REFUSED 99 NOTYET\n- - REFUSED 99 NOTYET\n- - REFUSED 99 NOTYET\n- - REFUSED 99 NOTYET\n- - REFUSED 99 NOTYET\n- - REFUSED 1 SYNTAX 6\n",
        ),
        // Not built yet even where the permission would refuse the row.
        (
            "@SESSION SECADMIN\nCREATE TABLE T (A VARCHAR(1)); ALTER TABLE T ACTIVATE ROW ACCESS CONTROL; INSERT INTO T VALUES ('ab'); INSERT INTO T VALUES ('a', 'b'); INSERT INTO T VALUES ('a');",
            "0 - SESSION 0 SECADMIN\n1 - DONE\n2 - DONE\n- - REFUSED 99 NOTYET\n- - REFUSED 99 NOTYET\n3 plan=compiled REFUSED 12 ROWPERMISSION T DEFAULT\n",
        ),
    ];
    for (script, output) in cases {
        let given = gives(alloc, 1_048_576, script, Status::Done, output);
        assert!(rt; given == Ok(true), "{script}");
    }
    assert!(rt; limits_hold(alloc) == Ok([true; 8]));
}

#[test]
fn inputs_of_another_form_write_their_line(rt: HostRuntime) {
    let alloc = rt.alloc();
    let inputs = [
        ("SELECT * FROM T;", 1),
        ("QUIT;", 1),
        ("\n\n-- a comment\n@SETUP", 4),
        ("@SESSION ANN\n; @SETUP SECADMIN\n", 2),
        ("@SESSION ANN\nSELECT * FROM T; @SESSION BOB GROUPS\n", 2),
        ("@SESSION ANN\rX\n", 1),
    ];
    for (input, line) in inputs {
        assert!(rt; is_broken(alloc, input, line) == Ok(true), "{input}");
    }
    assert!(rt; ends(alloc, "walk", Status::BadWords) == Ok(true));
    assert!(rt; ends(alloc, "run", Status::Done) == Ok(true));
}

#[test]
fn a_full_journal_refuses_what_is_built(rt: HostRuntime) {
    let alloc = rt.alloc();
    // The last section's session isn't opened: what can be read there is refused like its Open.
    let script =
        "@SESSION SECADMIN\nCREATE TABLE T (A VARCHAR(1)); SELECT * FROM T; SELECT * FROM T; SELECT A FROM T; SELECT;\n@SESSION ANN\nSELECT; SELECT A FROM T;";
    let output =
        "0 - SESSION 0 SECADMIN\n1 - DONE\n2 plan=compiled ROWS 0\n- - REFUSED 22 JOURNALFULL 3\n- - REFUSED 99 NOTYET\n- - REFUSED 1 SYNTAX 6\n- - REFUSED 22 JOURNALFULL 3\n- - REFUSED 1 SYNTAX 6\n- - REFUSED 22 JOURNALFULL 3\n";
    assert!(rt; gives(alloc, 3, script, Status::Done, output) == Ok(true));
    let none = "- - REFUSED 22 JOURNALFULL 0\n";
    assert!(rt; gives(alloc, 0, "@SESSION ANN\n", Status::Done, none) == Ok(true));
}

const NOTES: &str = "@SESSION SECADMIN
CREATE TABLE NOTES (OWNER VARCHAR(20), BODY VARCHAR(40));
INSERT INTO NOTES VALUES ('SECADMIN', 'a'), ('ANN', 'b');
CREATE PERMISSION P ON NOTES FOR ROWS WHERE OWNER = SESSION_USER ENFORCED FOR ALL ACCESS ENABLE;
ALTER TABLE NOTES ACTIVATE ROW ACCESS CONTROL;
SELECT * FROM NOTES;
";

#[test]
fn a_sink_that_fails_keeps_the_blocks_before(rt: HostRuntime) {
    let alloc = rt.alloc();
    let cases = [
        (1, ""),
        (2, "0 - SESSION 0 SECADMIN\n"),
        (3, "0 - SESSION 0 SECADMIN\n1 - DONE\n"),
        (
            4,
            "0 - SESSION 0 SECADMIN\n1 - DONE\n2 plan=compiled INSERTED 2\n",
        ),
        (
            5,
            "0 - SESSION 0 SECADMIN\n1 - DONE\n2 plan=compiled INSERTED 2\n3 - DONE\n",
        ),
        (
            6,
            "0 - SESSION 0 SECADMIN\n1 - DONE\n2 plan=compiled INSERTED 2\n3 - DONE\n4 - DONE\n",
        ),
    ];
    for (call, output) in cases {
        let given = stops(alloc, NOTES, &[], &[call], Status::WriteFault, output);
        assert!(rt; given == Ok(true), "call {call}");
    }
    let whole =
        "0 - SESSION 0 SECADMIN\n1 - DONE\n2 plan=compiled INSERTED 2\n3 - DONE\n4 - DONE\n5 plan=compiled ROWS 1\n  'SECADMIN', 'a'\n";
    assert!(rt; stops(alloc, NOTES, &[], &[7], Status::Done, whole) == Ok(true));
    // Where the line of a script that breaks the form can't be written, the status stays.
    let broken = stops(alloc, "QUIT", &[], &[1], Status::BadScript(1), "");
    assert!(rt; broken == Ok(true));
}

#[test]
fn a_source_that_fails_or_gives_too_much_writes_nothing(rt: HostRuntime) {
    let alloc = rt.alloc();
    let opened = "0 - SESSION 0 SECADMIN\n";
    let cases: [(usize, &[u32], Status, &str); 6] = [
        // At the first call, in mid-stream, and where the end would be told; one call gives up to 4,096 bytes.
        (10_000, &[1], Status::ReadFault, ""),
        (10_000, &[2], Status::ReadFault, ""),
        (10_000, &[4], Status::ReadFault, ""),
        (10_000, &[5], Status::Done, opened),
        (16_777_216, &[], Status::Done, opened),
        (16_777_217, &[], Status::TooLong, ""),
    ];
    for (len, reads, status, output) in cases {
        let given = blanks_end(alloc, len, reads, status, output);
        assert!(rt; given == Ok(true), "{len} bytes");
    }
}
