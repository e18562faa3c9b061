// What a rule of DB2LBACRULES depends on beside the labels: the kind of the component, and the access that is asked for.

/// The kind of a security label component (CREATE SECURITY LABEL COMPONENT statement).
#[derive(Clone, Copy, Debug, PartialEq, Eq)]
pub enum ComponentKind {
    /// Elements without any order. A label may have any number of them.
    Set,
    /// Elements in an order, the first one the highest. A label has at most one of them.
    Array,
    /// A root, and elements that each stand under another. A label may have any number of them.
    Tree,
}

/// The access to a row or a column that the rules are asked about.
#[derive(Clone, Copy, Debug, PartialEq, Eq)]
pub enum Access {
    /// Reading a value that the label protects.
    Read,
    /// Writing a value that the label protects.
    Write,
}
