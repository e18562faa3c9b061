// The lines of a printed journal, against texts that were written by hand.
use lb_base::{Listing, Name, Names, NoMemory, Str};
use lb_block::{entry, journal};
use lb_cat::{Entry, Said};
use std::alloc::{AllocError, Global};
use std::test::Fail;

fn name(alloc: Global, text: &str) -> Result<Name, NoMemory> {
    Name::of(alloc, text)?.ok_or(AllocError)
}

fn groups(alloc: Global, texts: &[&str]) -> Result<Names, NoMemory> {
    let mut groups = Listing::empty(alloc);
    for text in texts {
        groups.push(name(alloc, text)?)?;
    }
    Ok(groups)
}

// The line of an Open at a place.
fn opened(alloc: Global, place: u64, session: u32, of: &[&str]) -> Result<Str, NoMemory> {
    let open = Entry::Open(name(alloc, "ann")?, groups(alloc, of)?);
    entry(alloc, place, session, &open)
}

// The line of the second statement of session 3.
fn said(alloc: Global, place: u64) -> Result<Str, NoMemory> {
    let said = Said {
        session: 3,
        number: 1,
        user: name(alloc, "ann")?,
        groups: groups(alloc, &["STAFF"])?,
        day: 0,
        text: Str::of(alloc, "SELECT * FROM T")?,
    };
    entry(alloc, place, 7, &Entry::Said(said))
}

#[test]
fn each_entry_has_its_line(rt: HostRuntime) -> Result<(), Fail> {
    let alloc = rt.alloc();
    let line = journal(alloc, 12)?;
    assert_eq!(rt; line.as_str(), "JOURNAL 12\n");
    let line = opened(alloc, 0, 0, &["STAFF", "NIGHT"])?;
    assert_eq!(rt; line.as_str(), "0 0 OPEN ANN STAFF NIGHT\n");
    let line = opened(alloc, 5, 2, &[])?;
    assert_eq!(rt; line.as_str(), "5 2 OPEN ANN\n");
    let line = said(alloc, 9)?;
    assert_eq!(rt; line.as_str(), "9 3 1 SELECT * FROM T\n");
    Ok(())
}
