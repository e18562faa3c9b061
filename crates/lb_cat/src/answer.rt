// Answers: what a statement is answered, with its place in the journal and the mark of its plan.
use crate::reply::Reply;

/// Where the plan of a placed query or write came from.
#[derive(Clone, Copy, Debug, PartialEq, Eq)]
pub enum Mark {
    /// The statement has no plan, or no place.
    Dash,
    Cached,
    Compiled,
    /// It was made, and there was no memory to keep it.
    Unkept,
}

/// The answer to one statement.
#[derive(Drop)]
pub struct Answer {
    /// The place of its entry in the journal, counted from 0, where it has one.
    pub place: Option<u64>,
    pub mark: Mark,
    pub reply: Reply,
}
