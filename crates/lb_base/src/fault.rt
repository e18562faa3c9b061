// What ends an evaluation.

/// A fault of evaluation. A statement that meets one is refused.
#[derive(Clone, Copy, Debug, PartialEq, Eq)]
pub enum Fault {
    /// A sum, a difference, a product or a SUM outside 64 bits.
    Overflow,
    /// A scalar subquery of two or more rows.
    ManyRows,
    /// More than 1,048,576 rows kept by a subquery.
    Kept,
}
