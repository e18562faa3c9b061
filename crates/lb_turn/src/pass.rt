//! A seat at a turn, which a thread carries. What it knows of the history stands in contracts alone.
use crate::rule::View;
use atomic_table::Badge;

/// A seat at a turn, with what it has seen of the history and which of its places are its own.
#[derive(Drop)]
pub struct Pass<N> {
    pub(crate) badge: Badge<View<N>>,
}
