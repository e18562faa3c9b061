// Which kinds go together, and the kind that some parts have in common.
ghost use Rattle.std.specs.Prelude.{◌≡◌};
ghost use Rattle.lb_names.specs.Kinds as kinds;
ghost use Rattle.lb_scope.specs.Found.{kind_in};
ghost use Rattle.lb_types.specs.Within.{common_in};

use lb_scope::Kind;
use lb_tree::{Aggregate, Comparison, Function};

/// The kind that some parts have in common.
#[derive(Clone, Copy)]
pub enum Common<'a> {
    One(Kind<'a>),
    /// Two of them differ.
    Differ,
}

/// Whether there is one.
pub fn is_one(kind: Common<'_>) -> bool
    ensures { result ≡ kinds.is_one (common_in kind.entry) }
{
    match kind {
        Common::One(_) => true,
        Common::Differ => false,
    }
}

/// Whether it is a label.
pub fn is_label(kind: Kind<'_>) -> bool
    ensures { result ≡ kinds.is_label (kind_in kind.entry) }
{
    match kind {
        Kind::Label(_) => true,
        _ => false,
    }
}

/// The kind that both have, a NULL literal taking the other's.
pub fn both<'a>(one: Kind<'a>, other: Kind<'a>) -> Common<'a>
    ensures { common_in result ≡ kinds.both (kind_in one.entry) (kind_in other.entry) }
{
    match one {
        Kind::Null => Common::One(other),
        Kind::Integer => match other {
            Kind::Null | Kind::Integer => Common::One(Kind::Integer),
            _ => Common::Differ,
        },
        Kind::Text => match other {
            Kind::Null | Kind::Text => Common::One(Kind::Text),
            _ => Common::Differ,
        },
        Kind::Date => match other {
            Kind::Null | Kind::Date => Common::One(Kind::Date),
            _ => Common::Differ,
        },
        Kind::Label(policy) => match other {
            Kind::Null => Common::One(Kind::Label(policy)),
            Kind::Label(another) => {
                if policy == another {
                    Common::One(Kind::Label(policy))
                } else {
                    Common::Differ
                }
            }
            _ => Common::Differ,
        },
    }
}

/// The kind so far with one more.
pub fn with_kind<'a>(so_far: Common<'a>, kind: Kind<'a>) -> Common<'a>
    ensures { common_in result ≡ kinds.with_kind (common_in so_far.entry) (kind_in kind.entry) }
{
    match so_far {
        Common::Differ => Common::Differ,
        Common::One(so_far) => both(so_far, kind),
    }
}

/// Whether it is an integer, a text or a date.
pub fn is_plain(kind: Common<'_>) -> bool
    ensures { result ≡ kinds.is_plain (common_in kind.entry) }
{
    match kind {
        Common::One(Kind::Integer) | Common::One(Kind::Text) | Common::One(Kind::Date) => true,
        _ => false,
    }
}

fn is_equality(by: Comparison) -> bool
    ensures { result ≡ kinds.is_equality by }
{
    match by {
        Comparison::Equal | Comparison::NotEqual => true,
        _ => false,
    }
}

/// Whether values of that kind may be compared so: labels of one policy by `=` and `<>` alone (Assignments and comparisons).
pub fn is_compared_by(by: Comparison, kind: Common<'_>) -> bool
    ensures { result ≡ kinds.is_compared_by by (common_in kind.entry) }
{
    match kind {
        Common::One(Kind::Label(_)) => is_equality(by),
        _ => is_plain(kind),
    }
}

/// Whether a column of the first kind takes a value of the second.
pub fn takes(wanted: Kind<'_>, kind: Kind<'_>) -> bool
    ensures { result ≡ kinds.takes (kind_in wanted.entry) (kind_in kind.entry) }
{
    is_one(both(wanted, kind))
}

fn or_integer(kind: Kind<'_>) -> Common<'_>
    ensures { common_in result ≡ kinds.or_integer (kind_in kind.entry) }
{
    match kind {
        Kind::Null => Common::One(Kind::Integer),
        Kind::Label(_) => Common::Differ,
        _ => Common::One(kind),
    }
}

/// The kind of an aggregate of an argument of that kind, none where it doesn't take it (Aggregate functions).
pub fn aggregated(aggregate: Aggregate, kind: Kind<'_>) -> Common<'_>
    ensures { common_in result ≡ kinds.aggregated aggregate (kind_in kind.entry) }
{
    match aggregate {
        Aggregate::Count => Common::One(Kind::Integer),
        Aggregate::CountDistinct => {
            if is_label(kind) {
                Common::Differ
            } else {
                Common::One(Kind::Integer)
            }
        }
        Aggregate::Sum => both(Kind::Integer, kind),
        Aggregate::Min | Aggregate::Max => or_integer(kind),
    }
}

/// The kind of a function's argument (LENGTH, YEAR, MONTH, DAY scalar functions).
pub fn argument(function: Function) -> Kind<'static>
    ensures { kind_in result ≡ kinds.argument function }
{
    match function {
        Function::Length => Kind::Text,
        Function::Year | Function::Month | Function::Day => Kind::Date,
    }
}
