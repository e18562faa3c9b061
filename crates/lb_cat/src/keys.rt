// Keys of records and of rows, in order.
use lb_base::{Key, Listing};

/// The keys that a statement depends on or a change touches.
pub type Keys = Listing<Key>;
