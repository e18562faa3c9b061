// Queries, conditions and expressions as written. Parentheses leave no node, and a list of one part is its part.
use lb_base::{Name, Str};
use sqlite_items::{Boxed, Items};

/// A comparison operator: `=`, `<>`, `<`, `<=`, `>`, `>=`. `!=` is `<>`.
#[derive(Clone, Copy, Debug, PartialEq, Eq)]
pub enum Comparison {
    Equal,
    NotEqual,
    Less,
    AtMost,
    Greater,
    AtLeast,
}

/// An aggregate over an expression. COUNT(*) is an atom of its own.
#[derive(Clone, Copy, Debug, PartialEq, Eq)]
pub enum Aggregate {
    Count,
    CountDistinct,
    Sum,
    Min,
    Max,
}

/// A function of one expression.
#[derive(Clone, Copy, Debug, PartialEq, Eq)]
pub enum Function {
    Length,
    Year,
    Month,
    Day,
}

/// A column, with the correlation name that is written before it, if one is.
#[derive(Drop)]
pub struct Column {
    pub correlation: Option<Name>,
    pub name: Name,
}

/// A table of FROM, or the target of a statement, with the correlation name that is written after it, if one is.
#[derive(Drop)]
pub struct Tab {
    pub table: Name,
    pub correlation: Option<Name>,
}

/// An expression without parts.
#[derive(Drop)]
pub enum Atom {
    /// NULL
    Null,
    /// An integer literal, with its minus if it has one.
    Int(i64),
    /// A text literal, without its outer quotes and with its inner quotes single.
    Text(Str),
    /// DATE 'yyyy-mm-dd', in days since 1970-01-01.
    Date(i32),
    /// CURRENT DATE
    CurrentDate,
    /// SESSION_USER
    SessionUser,
    Column(Column),
    /// COUNT(*)
    CountRows,
    /// VERIFY_ROLE_FOR_USER(SESSION_USER, role, ..)
    VerifyRole(Items<Str>),
    /// VERIFY_GROUP_FOR_USER(SESSION_USER, group, ..)
    VerifyGroup(Items<Str>),
    /// SECLABEL(policy, label text)
    SecLabel(Str, Str),
    /// SECLABEL_BY_NAME(policy, label)
    SecLabelByName(Str, Str),
    /// SECLABEL_TO_CHAR(policy, column)
    SecLabelToChar(Str, Column),
}

/// An expression.
#[cycle(tree)]
#[derive(Drop)]
pub enum Expr {
    Atom(Atom),
    /// Two or more parts joined by `+` and `-`.
    Sum(Items<Signed>),
    /// Two or more parts joined by `||`.
    Concat(Items<Expr>),
    /// Two or more parts joined by `*`.
    Product(Items<Expr>),
    /// CASE WHEN condition THEN .. ELSE .. END
    Case(Items<Arm>, Option<Boxed<Expr>>),
    /// CASE operand WHEN value THEN .. ELSE .. END
    Match(Boxed<Expr>, Items<Choice>, Option<Boxed<Expr>>),
    Aggregate(Aggregate, Boxed<Expr>),
    /// SUBSTR(text, start, length), the length being optional
    Substr(Boxed<Expr>, Boxed<Expr>, Option<Boxed<Expr>>),
    Apply(Function, Boxed<Expr>),
    /// COALESCE of two or more expressions
    Coalesce(Items<Expr>),
}

/// A part of a sum, and whether a `-` stands before it. None stands before the first part.
#[cycle(tree)]
#[derive(Drop)]
pub struct Signed {
    pub minus: bool,
    pub part: Expr,
}

/// WHEN condition THEN result
#[cycle(tree)]
#[derive(Drop)]
pub struct Arm {
    pub when: Cond,
    pub result: Expr,
}

/// WHEN value THEN result, of a CASE with an operand
#[cycle(tree)]
#[derive(Drop)]
pub struct Choice {
    pub when: Expr,
    pub result: Expr,
}

/// A condition. IS NOT NULL, NOT IN and NOT BETWEEN are `Not` over the plain form.
#[cycle(tree)]
#[derive(Drop)]
pub enum Cond {
    /// Two or more conditions joined by OR.
    Or(Items<Cond>),
    /// Two or more conditions joined by AND.
    And(Items<Cond>),
    Not(Boxed<Cond>),
    Exists(Boxed<Query>),
    Compare(Comparison, Boxed<Expr>, Boxed<Expr>),
    CompareQuery(Comparison, Boxed<Expr>, Boxed<Query>),
    IsNull(Boxed<Expr>),
    InQuery(Boxed<Expr>, Boxed<Query>),
    InList(Boxed<Expr>, Items<Expr>),
    /// The expression, the lower and the upper bound.
    Between(Boxed<Expr>, Boxed<Expr>, Boxed<Expr>),
}

/// An item of a select list.
#[cycle(tree)]
#[derive(Drop)]
pub enum Item {
    /// `*`, which is the only item then.
    Everything,
    /// `name.*`
    AllOf(Name),
    /// An expression with its output name, if one is written.
    Value(Expr, Option<Name>),
}

/// A join of a chain.
#[cycle(tree)]
#[derive(Drop)]
pub enum Join {
    Inner(Tab, Cond),
    Left(Tab, Cond),
    Cross(Tab),
}

/// A table of FROM and the joins after it.
#[cycle(tree)]
#[derive(Drop)]
pub struct Chain {
    pub first: Tab,
    pub joins: Items<Join>,
}

/// SELECT .. FROM .. WHERE .. GROUP BY .. HAVING ..
#[cycle(tree)]
#[derive(Drop)]
pub struct Query {
    pub distinct: bool,
    pub items: Items<Item>,
    pub from: Items<Chain>,
    pub filter: Option<Boxed<Cond>>,
    /// The columns of GROUP BY, none where it isn't written.
    pub group: Items<Column>,
    pub having: Option<Boxed<Cond>>,
}

/// The direction of a sort key. Ascending is the default.
#[derive(Clone, Copy, Debug, PartialEq, Eq)]
pub enum Direction {
    Ascending,
    Descending,
}

/// A key of ORDER BY.
#[derive(Drop)]
pub struct SortKey {
    pub by: Expr,
    pub direction: Direction,
}

/// A query with its ORDER BY and FETCH.
#[derive(Drop)]
pub struct Select {
    pub query: Query,
    /// The keys of ORDER BY, none where it isn't written.
    pub order: Items<SortKey>,
    /// The number of FETCH FIRST, from 1, where it is written.
    pub fetch: Option<i64>,
}
