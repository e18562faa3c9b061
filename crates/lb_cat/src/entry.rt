// The entries of the journal: the opening of a session, and a statement with its session, day and canonical text.
use lb_base::{Name, Names, Str};

/// A statement of a session.
#[derive(Drop)]
pub struct Said {
    /// The session's number: the count of Opens before its own.
    pub session: u32,
    /// The count of the session's statements before it in the journal.
    pub number: u32,
    pub user: Name,
    /// The groups that the session was opened with.
    pub groups: Names,
    /// The statement's day, in days since 1970-01-01, from -719162 to 2932896.
    pub day: i32,
    /// The statement's canonical text.
    pub text: Str,
}

/// One atomic step: the opening of a session by a user with groups, or a statement.
#[derive(Drop)]
pub enum Entry {
    Open(Name, Names),
    Said(Said),
}
