// Blocks of answers, one for each reply and each refusal, against texts that were written by hand.
use lb_base::{Listing, Name, NoMemory, Row, RowList, Rule, Str, Value};
use lb_block::{bad_script, block, header};
use lb_cat::{Answer, Flaw, LimitOf, Mark, NeededPrivilege, Refusal, Reply, Verb};
use std::alloc::{AllocError, Global};
use std::test::Fail;

fn text(alloc: Global, text: &str) -> Result<Str, NoMemory> {
    Str::of(alloc, text)
}

fn name(alloc: Global, text: &str) -> Result<Name, NoMemory> {
    Name::of(alloc, text)?.ok_or(AllocError)
}

// The row of these numbers, this text, this day and the null value.
fn row(alloc: Global, numbers: &[i64], of: &str, day: i32) -> Result<Row, NoMemory> {
    let mut row = Listing::empty(alloc);
    for n in numbers {
        row.push(Value::Int(*n))?;
    }
    row.push(Value::Text(text(alloc, of)?))?;
    row.push(Value::Date(day))?;
    row.push(Value::Null)?;
    Ok(row)
}

fn rows(alloc: Global) -> Result<Reply, NoMemory> {
    let mut rows: RowList = Listing::empty(alloc);
    rows.push(row(alloc, &[0, -7], "it's 'ü'", 0)?)?;
    rows.push(row(alloc, &[i64::MIN, i64::MAX], "", -719_162)?)?;
    rows.push(row(alloc, &[], ", ", 2_932_896)?)?;
    Ok(Reply::Rows(rows))
}

fn tried(alloc: Global, permissions: &[&str]) -> Result<Refusal, NoMemory> {
    let mut tried = Listing::empty(alloc);
    for one in permissions {
        tried.push(name(alloc, one)?)?;
    }
    Ok(Refusal::RowPermission(text(alloc, "T")?, tried))
}

// A refusal by its number.
fn refusal(alloc: Global, number: u8) -> Result<Refusal, NoMemory> {
    Ok(match number {
        1 => Refusal::Syntax(4096),
        2 => Refusal::Unknown(text(alloc, "p")?),
        3 => Refusal::Exists(text(alloc, "T")?),
        4 => Refusal::Types(0),
        5 => Refusal::Privilege(NeededPrivilege::Select, text(alloc, "T")?),
        6 => Refusal::NotSecadm,
        7 => Refusal::ColumnRead(text(alloc, "C")?, text(alloc, "K")?, Rule::ReadTree),
        8 => Refusal::ColumnWrite(text(alloc, "C")?, text(alloc, "K")?, Rule::WriteUp),
        9 => Refusal::RowWrite(text(alloc, "K")?, Rule::WriteDown),
        10 => Refusal::LabelWrite(text(alloc, "K")?, Rule::WriteSet),
        11 => Refusal::NoWriteLabel(text(alloc, "P")?),
        12 => tried(alloc, &["P", "Q"])?,
        13 => Refusal::MaskedSource(text(alloc, "M")?),
        14 => Refusal::MaskGroup(text(alloc, "M")?),
        15 => Refusal::DuplicateKey(text(alloc, "T")?),
        16 => Refusal::Overflow,
        17 => Refusal::ManyRows,
        18 => Refusal::InUse(text(alloc, "R")?, text(alloc, "ANN")?),
        19 => Refusal::BadLabel(7),
        20 => Refusal::GrantMismatch(text(alloc, "K")?),
        21 => Refusal::Limit(LimitOf::Width, 254),
        22 => Refusal::JournalFull(4096),
        23 => Refusal::NullValue(text(alloc, "T")?, text(alloc, "C")?),
        24 => Refusal::TooWide(text(alloc, "T")?, text(alloc, "C")?, 20),
        25 => Refusal::BadSource(text(alloc, "P")?, text(alloc, "U")?),
        26 => Refusal::BadTable(text(alloc, "C")?, Flaw::TwoKeys),
        _ => Refusal::NotYet,
    })
}

/// A reply to show.
#[derive(Clone, Copy)]
enum Sample {
    Rows,
    Wrote(Verb, u64),
    Done,
    /// By its number.
    Refused(u8),
    /// By a table without an enabled row permission.
    Untried,
    NoMemory,
}

fn reply(alloc: Global, sample: Sample) -> Result<Reply, NoMemory> {
    Ok(match sample {
        Sample::Rows => rows(alloc)?,
        Sample::Wrote(verb, count) => Reply::Wrote(verb, count),
        Sample::Done => Reply::Done,
        Sample::Refused(number) => Reply::Refused(refusal(alloc, number)?),
        Sample::Untried => Reply::Refused(tried(alloc, &[])?),
        Sample::NoMemory => Reply::NoMemory,
    })
}

// The block of a sample, which is made and let go here.
fn shown(alloc: Global, place: Option<u64>, mark: Mark, sample: Sample) -> Result<Str, NoMemory> {
    let reply = reply(alloc, sample)?;
    block(alloc, &Answer { place, mark, reply })
}

const REPLIES: [(Option<u64>, Mark, Sample, &str); 6] = [
    (None, Mark::Dash, Sample::NoMemory, "- - NOMEMORY\n"),
    (Some(0), Mark::Dash, Sample::Done, "0 - DONE\n"),
    (
        Some(1),
        Mark::Compiled,
        Sample::Wrote(Verb::Inserted, 2),
        "1 plan=compiled INSERTED 2\n",
    ),
    (
        Some(2),
        Mark::Cached,
        Sample::Wrote(Verb::Updated, 0),
        "2 plan=cached UPDATED 0\n",
    ),
    (
        Some(3),
        Mark::Unkept,
        Sample::Wrote(Verb::Deleted, u64::MAX),
        "3 plan=unkept DELETED 18446744073709551615\n",
    ),
    (
        Some(u64::MAX),
        Mark::Cached,
        Sample::Rows,
        "18446744073709551615 plan=cached ROWS 3\n  0, -7, 'it''s ''ü''', 1970-01-01, NULL\n  -9223372036854775808, 9223372036854775807, '', 0001-01-01, NULL\n  ', ', 9999-12-31, NULL\n",
    ),
];

const REFUSED: [(Sample, &str); 28] = [
    (Sample::Refused(1), "4 - REFUSED 1 SYNTAX 4096\n"),
    (Sample::Refused(2), "4 - REFUSED 2 UNKNOWN p\n"),
    (Sample::Refused(3), "4 - REFUSED 3 EXISTS T\n"),
    (Sample::Refused(4), "4 - REFUSED 4 TYPES 0\n"),
    (Sample::Refused(5), "4 - REFUSED 5 PRIVILEGE SELECT T\n"),
    (Sample::Refused(6), "4 - REFUSED 6 NOTSECADM\n"),
    (
        Sample::Refused(7),
        "4 - REFUSED 7 COLUMNREAD C K DB2LBACREADTREE\n",
    ),
    (
        Sample::Refused(8),
        "4 - REFUSED 8 COLUMNWRITE C K DB2LBACWRITEARRAY WRITEUP\n",
    ),
    (
        Sample::Refused(9),
        "4 - REFUSED 9 ROWWRITE K DB2LBACWRITEARRAY WRITEDOWN\n",
    ),
    (
        Sample::Refused(10),
        "4 - REFUSED 10 LABELWRITE K DB2LBACWRITESET\n",
    ),
    (Sample::Refused(11), "4 - REFUSED 11 NOWRITELABEL P\n"),
    (Sample::Refused(12), "4 - REFUSED 12 ROWPERMISSION T P,Q\n"),
    (Sample::Untried, "4 - REFUSED 12 ROWPERMISSION T DEFAULT\n"),
    (Sample::Refused(13), "4 - REFUSED 13 MASKEDSOURCE M\n"),
    (Sample::Refused(14), "4 - REFUSED 14 MASKGROUP M\n"),
    (Sample::Refused(15), "4 - REFUSED 15 DUPLICATEKEY T\n"),
    (Sample::Refused(16), "4 - REFUSED 16 OVERFLOW\n"),
    (Sample::Refused(17), "4 - REFUSED 17 MANYROWS\n"),
    (Sample::Refused(18), "4 - REFUSED 18 INUSE R ANN\n"),
    (Sample::Refused(19), "4 - REFUSED 19 BADLABEL 7\n"),
    (Sample::Refused(20), "4 - REFUSED 20 GRANTMISMATCH K\n"),
    (Sample::Refused(21), "4 - REFUSED 21 LIMIT WIDTH 254\n"),
    (Sample::Refused(22), "4 - REFUSED 22 JOURNALFULL 4096\n"),
    (Sample::Refused(23), "4 - REFUSED 23 NULLVALUE T C\n"),
    (Sample::Refused(24), "4 - REFUSED 24 TOOWIDE T C 20\n"),
    (Sample::Refused(25), "4 - REFUSED 25 BADSOURCE P U\n"),
    (Sample::Refused(26), "4 - REFUSED 26 BADTABLE C TWOKEYS\n"),
    (Sample::Refused(99), "4 - REFUSED 99 NOTYET\n"),
];

#[test]
fn each_answer_has_its_block(rt: HostRuntime) -> Result<(), Fail> {
    for (place, mark, sample, want) in REPLIES {
        let text = shown(rt.alloc(), place, mark, sample)?;
        assert_eq!(rt; text.as_str(), want);
    }
    for (sample, want) in REFUSED {
        let text = shown(rt.alloc(), Some(4), Mark::Dash, sample)?;
        assert_eq!(rt; text.as_str(), want);
    }
    Ok(())
}

#[test]
fn a_section_and_a_bad_script_have_their_line(rt: HostRuntime) -> Result<(), Fail> {
    let alloc = rt.alloc();
    let user = name(alloc, "ann_2")?;
    let line = header(alloc, 9, u32::MAX, &user)?;
    assert_eq!(rt; line.as_str(), "9 - SESSION 4294967295 ANN_2\n");
    let line = bad_script(alloc, 12)?;
    assert_eq!(rt; line.as_str(), "BADSCRIPT 12\n");
    Ok(())
}
