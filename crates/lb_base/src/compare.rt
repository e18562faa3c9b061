// How values compare: in conditions, where a null makes the answer unknown, and in the one order in which they are sorted.
ghost use Rattle.std.specs.Prelude.{◌≡◌};
ghost use Rattle.lb_base.specs.Conditions.{is_null};
ghost use Rattle.lb_base.specs.Compare.{equal_of, less_of, order_of, rank_of, truth_of, OrderIsSortable, OrderIsTotal};

use crate::{Truth, Value};
use std::cmp::Ordering;

impl Truth {
    /// True where it holds, else False.
    pub fn of(holds: bool) -> Truth
        ensures { result ≡ truth_of holds }
    {
        if holds { Truth::True } else { Truth::False }
    }
}

/// `a = b`. Unknown where one of them is null, and where they are of two kinds, which no well-typed condition compares.
pub fn equal(a: &Value, b: &Value) -> Truth
    ensures { result ≡ equal_of a.now b.now }
{
    match (a, b) {
        (Value::Int(x), Value::Int(y)) => Truth::of(*x == *y),
        (Value::Text(x), Value::Text(y)) => Truth::of(x.is(y)),
        (Value::Date(x), Value::Date(y)) => Truth::of(*x == *y),
        (Value::Label(x), Value::Label(y)) => Truth::of(x.get().as_slice() == y.get().as_slice()),
        _ => Truth::Unknown,
    }
}

/// `a < b`, of integers and days by number, of texts byte by byte. Unknown where one of them is null, and for labels and
/// values of two kinds, which no well-typed condition compares so.
pub fn less(a: &Value, b: &Value) -> Truth
    ensures { result ≡ less_of a.now b.now }
{
    match (a, b) {
        (Value::Int(x), Value::Int(y)) => Truth::of(*x < *y),
        (Value::Text(x), Value::Text(y)) => Truth::of(x.as_str().cmp(y.as_str()).is_lt()),
        (Value::Date(x), Value::Date(y)) => Truth::of(*x < *y),
        _ => Truth::Unknown,
    }
}

/// The order in which values are sorted, which is one order over all of them: integers and days by number, texts byte by
/// byte, labels part by part; integers before texts, then days, then labels, and null last.
pub fn order(a: &Value, b: &Value) -> Ordering
    ensures { result ≡ order_of a.now b.now }
{
    match (a, b) {
        (Value::Int(x), Value::Int(y)) => x.cmp(y),
        (Value::Text(x), Value::Text(y)) => x.as_str().cmp(y.as_str()),
        (Value::Date(x), Value::Date(y)) => x.cmp(y),
        (Value::Label(x), Value::Label(y)) => x.get().as_slice().cmp(y.get().as_slice()),
        _ => rank(a).cmp(&rank(b)),
    }
}

/// Where a value stands among those of other kinds, from 0 for integers to 4 for null.
fn rank(value: &Value) -> u8
    ensures { result ≡ rank_of value.now }
{
    match value {
        Value::Int(_) => 0,
        Value::Text(_) => 1,
        Value::Date(_) => 2,
        Value::Label(_) => 3,
        Value::Null => 4,
    }
}

/// That `order` is a total order over all values, one that a sort accepts. It does nothing.
pub fn values_stand_in_one_order()
    ensures total { OrderIsTotal }
    ensures sortable { OrderIsSortable }
{}

impl Value {
    /// IS NULL.
    pub fn is_null(&self) -> bool
        ensures { result ≡ is_null self.now }
    {
        match self {
            Value::Null => true,
            _ => false,
        }
    }
}
