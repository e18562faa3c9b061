// The rules of the rule set DB2LBACRULES, which exemptions name and label tests follow.

/// A rule of the rule set (LBAC rule set: DB2LBACRULES), each of which speaks of one kind of component.
#[derive(Clone, Copy, Debug, PartialEq, Eq)]
pub enum Rule {
    /// DB2LBACREADARRAY.
    ReadArray,
    /// DB2LBACREADSET.
    ReadSet,
    /// DB2LBACREADTREE.
    ReadTree,
    /// DB2LBACWRITEARRAY WRITEDOWN.
    WriteDown,
    /// DB2LBACWRITEARRAY WRITEUP.
    WriteUp,
    /// DB2LBACWRITESET.
    WriteSet,
    /// DB2LBACWRITETREE.
    WriteTree,
}
