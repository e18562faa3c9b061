// FROM items and columns as names are looked up among them.
use lb_base::Name;
use lb_tree::Tab;
use sqlite_items::Items;

/// A FROM item, or the target of a write, that is in sight.
#[derive(Drop)]
pub struct Seen {
    /// The number of queries that enclose its own query.
    pub level: usize,
    pub tab: Tab,
}

/// A column of a FROM item.
#[derive(Drop)]
pub struct Spot {
    /// The number of queries that enclose the item's query.
    pub level: usize,
    /// The name by which its query calls the item.
    pub correlation: Name,
    pub column: Name,
}

/// The grouping columns of a query.
#[derive(Drop)]
pub struct Group {
    /// The number of queries that enclose the query.
    pub level: usize,
    pub columns: Items<Spot>,
}
