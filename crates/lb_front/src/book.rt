// The journal of a run, its sessions, and the one call by which a session's statement is run.
ghost use Rattle.std.specs.Prelude.{◌≡◌, ◌<◌, ◌^◌, ℕ, List, [], length, IfOk, IfErr, OnOk, OnErr, Some};
ghost use Rattle.lb_base.specs.Days.{IsDay};
ghost use Rattle.lb_tok.specs.Syntax.{IsRepeatable};
ghost use Rattle.lb_cat.specs.declared.entry.Entry.TheVariants as entries;
ghost use Rattle.lb_model.specs.Answer.{is_query as reads_only};
ghost use Rattle.lb_model.specs.Journal.{opens};
ghost use Rattle.lb_model.specs.NotYet.{rows_given};
ghost use Rattle.lb_model.specs.Told.{mark_of as marked};
ghost use Rattle.lb_front.specs.Booked.{Stands, IsSessionOf, IsOpened, IsOpenRefused};
ghost use Rattle.lb_front.specs.Executed.{Executed, Added};
ghost use Rattle.lb_front.specs.Prepared.{IsReady, IsStopped, Did};

use crate::stop::{Stop, unplaced};
use lb_base::{Name, Names, NoMemory, RowList, Str};
use lb_cat::{Answer, Entry, Mark, Reply, Said};
use lb_readable::{Readable, readable};
use lb_refr::{Store, given_rows};
use lb_stmt::Stmt;
use std::alloc::{AllocError, Global};

/// A session that was opened.
#[derive(Drop)]
pub struct Session {
    /// The place of its Open in the journal, counted from 0.
    pub place: u64,
    /// The count of the sessions opened before it.
    pub number: u32,
    /// The count of its statements in the journal.
    pub said: u32,
    pub user: Name,
    pub groups: Names,
}

/// The journal, with the catalogue and the rows that it leaves.
#[derive(Drop)]
pub struct Book {
    pub journal: Vec<Entry>,
    /// The number of entries that the journal may have.
    pub limit: u64,
    /// The number of sessions opened.
    pub sessions: u32,
    pub store: Store,
}

/// A statement that is to be run: the rows that it gives, and its entry.
#[derive(Drop)]
pub struct Prepared {
    pub stmt: Stmt,
    pub rows: RowList,
    pub said: Said,
}

impl Book {
    /// The book of a journal without entries, which may have so many.
    pub fn empty(alloc: Global, limit: u64) -> Book
        requires bounded { limit < 2 ^ 32 }
        ensures journal { result.journal.items ≡ [] }
        ensures limit { result.limit ≡ limit }
        ensures sessions { result.sessions ≡ 0 }
        ensures stands { Stands result.journal.items result.limit result.store }
    {
        Book {
            journal: Vec::new(alloc),
            limit,
            sessions: 0,
            store: Store::empty(alloc),
        }
    }

    /// Opens a session of the user with these groups. Its Open is one entry more. `JournalFull` where the journal has as
    /// many entries as it may have. After an error nothing has changed.
    pub fn open(&mut self, alloc: Global, user: &Name, groups: &Names) -> Result<Session, Stop>
        requires stands { Stands self.old.journal.items self.old.limit self.old.store }
        requires counted { self.old.sessions ≡ opens self.old.journal.items }
        ensures opened { IfOk result (IsOpened self.old.journal.items self.new.journal.items user.now groups.now) }
        ensures session_of { IfOk result (IsSessionOf self.new.journal.items) }
        ensures shut { IfErr result (IsOpenRefused self.old.journal.items self.old.limit) }
        ensures same { OnErr result ((self.new.journal.items ≡ self.old.journal.items) × (self.new.store ≡ self.old.store)) }
        ensures counted { self.new.sessions ≡ opens self.new.journal.items }
        ensures limit { self.new.limit ≡ self.old.limit }
        ensures stands { Stands self.new.journal.items self.new.limit self.new.store }
    {
        let place = self.journal.len() as u64;
        if place >= self.limit {
            return Err(Stop::JournalFull(self.limit));
        }
        let session = Session {
            place,
            number: self.sessions,
            said: 0,
            user: user.copy()?,
            groups: groups.copy(alloc)?,
        };
        let user = user.copy()?;
        let groups = groups.copy(alloc)?;
        match self.journal.push(Entry::Open(user, groups)) {
            Ok(()) => {}
            Err(_) => return Err(Stop::NoMemory),
        }
        self.sessions += 1;
        Ok(session)
    }

    /// Runs one statement of a session on a day. The journal grows by at most one entry.
    pub fn execute(&mut self, alloc: Global, session: &mut Session, day: i32, text: &[u8]) -> Answer
        requires stands { Stands self.old.journal.items self.old.limit self.old.store }
        requires session_of { IsSessionOf self.old.journal.items session.old }
        requires today { IsDay day }
        ensures ran { Executed self.old.journal.items self.new.journal.items self.old.limit session.old session.new text.now day result }
        ensures stands { Stands self.new.journal.items self.new.limit self.new.store }
        ensures session_of { IsSessionOf self.new.journal.items session.new }
        ensures sessions { self.new.sessions ≡ self.old.sessions }
        ensures limit { self.new.limit ≡ self.old.limit }
    {
        match self.prepare(alloc, session, day, text) {
            Ok(prepared) => match self.commit(alloc, session, prepared) {
                Ok(answer) => answer,
                Err(_) => unplaced(Stop::NoMemory),
            },
            Err(stop) => unplaced(stop),
        }
    }

    /// Reads the statement and makes its entry, if it is built and the journal has room.
    fn prepare(
        &self,
        alloc: Global,
        session: &Session,
        day: i32,
        text: &[u8],
    ) -> Result<Prepared, Stop>
        requires stands { Stands self.now.journal.items self.now.limit self.now.store }
        ensures read { IfOk result (λ p. IsRepeatable text.now p.stmt) }
        ensures ready { IfOk result (λ p. IsReady self.now.journal.items self.now.limit self.now.store session.now day p) }
        ensures stopped { IfErr result (λ s. IsStopped self.now.journal.items self.now.limit self.now.store session.now.user text.now s) }
    {
        let Readable { stmt, text } = readable(alloc, text)?;
        let rows = given_rows(alloc, &stmt)?;
        if self.store.is_unbuilt(&session.user, &stmt, &rows) {
            return Err(Stop::NotYet);
        }
        if self.journal.len() as u64 >= self.limit {
            return Err(Stop::JournalFull(self.limit));
        }
        let said = entry(alloc, session, day, text)?;
        Ok(Prepared { stmt, rows, said })
    }

    /// Runs the statement and adds its entry; its answer is that of each text that is read as the statement. Where memory
    /// is refused nothing changes.
    fn commit(
        &mut self,
        alloc: Global,
        session: &mut Session,
        prepared: Prepared,
    ) -> Result<Answer, NoMemory>
        requires stands { Stands self.old.journal.items self.old.limit self.old.store }
        requires session_of { IsSessionOf self.old.journal.items session.old }
        requires ready { IsReady self.old.journal.items self.old.limit self.old.store session.old prepared.said.day prepared }
        requires today { IsDay prepared.said.day }
        ensures added { (text : List ℕ) → IsRepeatable text prepared.stmt → IfOk result (λ a. Added self.old.journal.items self.new.journal.items session.old session.new text prepared.said.day a) }
        ensures place { IfOk result (λ a. a.place ≡ Some (length self.old.journal.items)) }
        ensures stands { OnOk result (Stands self.new.journal.items self.new.limit self.new.store) }
        ensures session_of { OnOk result (IsSessionOf self.new.journal.items session.new) }
        ensures limit { self.new.limit ≡ self.old.limit }
        ensures sessions { self.new.sessions ≡ self.old.sessions }
        ensures err { OnErr result ((self.new.journal.items ≡ self.old.journal.items) × (self.new.store ≡ self.old.store) × (session.new ≡ session.old)) }
    {
        let Prepared { stmt, rows, said } = prepared;
        self.journal.reserve(1)?;
        let reply = run(alloc, &mut self.store, &session.user, &stmt, rows)?;
        let place = self.journal.len() as u64;
        let mark = mark_of(&stmt);
        match self.journal.push(Entry::Said(said)) {
            Ok(()) => {}
            Err(_) => unreachable!(),
        }
        session.said += 1;
        Ok(Answer {
            place: Some(place),
            mark,
            reply,
        })
    }
}

/// The entry of the session's next statement.
fn entry(alloc: Global, session: &Session, day: i32, text: Str) -> Result<Said, NoMemory>
    ensures { IfOk result (λ d. d ≡ record { session = session.now.number; number = session.now.said; user = session.now.user; groups = session.now.groups; day = day; text = text }) }
{
    let user = session.user.copy()?;
    let groups = session.groups.copy(alloc)?;
    Ok(Said {
        session: session.number,
        number: session.said,
        user,
        groups,
        day,
        text,
    })
}

/// Runs a statement of the user. Where memory is refused nothing changes, and a query is answered so.
fn run(
    alloc: Global,
    store: &mut Store,
    user: &Name,
    stmt: &Stmt,
    rows: RowList,
) -> Result<Reply, NoMemory>
    requires { rows ≡ rows_given stmt.now }
    ensures ok { IfOk result (λ r. Did store.old store.new user.now stmt.now r) }
    ensures err { OnErr result (store.new ≡ store.old) }
{
    match store.run(alloc, user, stmt, rows) {
        Ok(reply) => Ok(reply),
        Err(_) => {
            if is_query(stmt) {
                Ok(Reply::NoMemory)
            } else {
                Err(AllocError)
            }
        }
    }
}

fn is_query(stmt: &Stmt) -> bool
    ensures { result ≡ reads_only stmt.now }
{
    match stmt {
        Stmt::Select(_) => true,
        _ => false,
    }
}

/// The mark of a statement with a place: every plan is compiled so far.
fn mark_of(stmt: &Stmt) -> Mark
    ensures { result ≡ marked stmt.now }
{
    match stmt {
        Stmt::Change(_) => Mark::Dash,
        _ => Mark::Compiled,
    }
}
