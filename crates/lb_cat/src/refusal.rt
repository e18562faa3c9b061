// Why statements are refused.
ghost use Rattle.std.specs.Prelude.{◌≡◌};
ghost use Rattle.lb_cat.specs.Numbers.{refusal_number};

use lb_base::{Names, Rule, Str};

/// A privilege on a table that a session lacks.
#[derive(Clone, Copy, Debug, PartialEq, Eq)]
pub enum NeededPrivilege {
    Select,
    Insert,
    Update,
    Delete,
    /// To change or drop the table and what belongs to it.
    Control,
}

/// What there may be only so many of.
#[derive(Clone, Copy, Debug, PartialEq, Eq)]
pub enum LimitOf {
    Tables,
    Columns,
    /// Rows of a table, times its columns.
    Cells,
    /// Bytes of a VARCHAR column.
    Width,
    /// Rows that a query keeps on the way.
    Kept,
    /// Elements of a component.
    Elements,
    /// Components of a policy.
    Components,
}

/// What is wrong with a column of a table (CREATE TABLE statement, ALTER TABLE statement).
#[derive(Clone, Copy, Debug, PartialEq, Eq)]
pub enum Flaw {
    /// A label column, or a secured one, in a table without a security policy.
    NoPolicy,
    TwoLabels,
    TwoKeys,
    /// A label column that is a key or secured.
    LabelKey,
}

/// Why a statement was refused.
#[derive(Drop)]
pub enum Refusal {
    /// The text is no statement: no statement goes on with what stands at this byte, counted from 0.
    Syntax(u32),
    /// There is nothing of that name.
    Unknown(Str),
    /// The name is taken.
    Exists(Str),
    /// The kinds of the operands don't fit the node with this number.
    Types(u32),
    /// The session lacks a privilege on the table.
    Privilege(NeededPrivilege, Str),
    /// The session has no SECADM authority.
    NotSecadm,
    /// A label rule blocks reading the column: the component and the rule (LBAC rule set: DB2LBACRULES).
    ColumnRead(Str, Str, Rule),
    /// A label rule blocks writing the column.
    ColumnWrite(Str, Str, Rule),
    /// A label rule blocks writing the row.
    RowWrite(Str, Rule),
    /// A label rule blocks writing this label.
    LabelWrite(Str, Rule),
    /// The session has no label for writing of the policy.
    NoWriteLabel(Str),
    /// No enabled row permission of the table allows the new row; the names are those of the permissions tried,
    /// none where none is enabled (CREATE PERMISSION statement).
    RowPermission(Str, Names),
    /// A value to be written comes from a column under this mask (CREATE MASK statement).
    MaskedSource(Str),
    /// A column under this mask is not grouped as the mask needs it.
    MaskGroup(Str),
    /// Two rows of the table would have one key.
    DuplicateKey(Str),
    Overflow,
    /// A query that has to give one value gives several rows.
    ManyRows,
    /// What is to be dropped is used: its name, and the name of what uses it.
    InUse(Str, Str),
    /// The text of a label goes wrong at this byte, counted from 0. Of CREATE SECURITY LABEL COMPONENT, the element with this
    /// number is no text of an element; of CREATE SECURITY LABEL, the component with this number would have two elements of
    /// an ARRAY; both counted from 0.
    BadLabel(u32),
    /// The labels for reading and writing don't agree in the component.
    GrantMismatch(Str),
    /// There may be at most so many.
    Limit(LimitOf, u64),
    /// The journal has as many entries as it may have.
    JournalFull(u64),
    /// The column of the table takes no null.
    NullValue(Str, Str),
    /// The column of the table takes at most so many bytes.
    TooWide(Str, Str, u32),
    /// A subquery of the permission or mask reads a table that it may not read, the protected table itself or one with a
    /// label column: the name of the permission or mask, and that of the table.
    BadSource(Str, Str),
    /// What is wrong with the column.
    BadTable(Str, Flaw),
    /// The statement can be read, and its form is not built yet.
    NotYet,
}

impl Refusal {
    /// The refusal's number, which its line shows.
    pub fn number(&self) -> u8
        ensures { result ≡ refusal_number self.now }
    {
        match self {
            Refusal::Syntax(_) => 1,
            Refusal::Unknown(_) => 2,
            Refusal::Exists(_) => 3,
            Refusal::Types(_) => 4,
            Refusal::Privilege(_, _) => 5,
            Refusal::NotSecadm => 6,
            Refusal::ColumnRead(_, _, _) => 7,
            Refusal::ColumnWrite(_, _, _) => 8,
            Refusal::RowWrite(_, _) => 9,
            Refusal::LabelWrite(_, _) => 10,
            Refusal::NoWriteLabel(_) => 11,
            Refusal::RowPermission(_, _) => 12,
            Refusal::MaskedSource(_) => 13,
            Refusal::MaskGroup(_) => 14,
            Refusal::DuplicateKey(_) => 15,
            Refusal::Overflow => 16,
            Refusal::ManyRows => 17,
            Refusal::InUse(_, _) => 18,
            Refusal::BadLabel(_) => 19,
            Refusal::GrantMismatch(_) => 20,
            Refusal::Limit(_, _) => 21,
            Refusal::JournalFull(_) => 22,
            Refusal::NullValue(_, _) => 23,
            Refusal::TooWide(_, _, _) => 24,
            Refusal::BadSource(_, _) => 25,
            Refusal::BadTable(_, _) => 26,
            Refusal::NotYet => 99,
        }
    }
}
