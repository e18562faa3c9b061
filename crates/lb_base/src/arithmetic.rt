// Sums and products of 64-bit integers, which fault where they leave 64 bits.
ghost use Rattle.std.specs.Prelude.{◌≡◌, ◌+ℤ◌, ◌-ℤ◌, ◌*ℤ◌};
ghost use Rattle.lb_base.specs.Arithmetic.{in_64_bits, product_of, sum_of};

use crate::{Fault, Value};

#[tactic(auto, unfolding(crate::specs::Arithmetic::in_64_bits))]
fn integer(number: i128) -> Result<Value, Fault>
    ensures { result ≡ in_64_bits number }
{
    if -9_223_372_036_854_775_808 <= number && number <= 9_223_372_036_854_775_807 {
        Ok(Value::Int(number as i64))
    } else {
        Err(Fault::Overflow)
    }
}

fn add(a: i64, b: i64) -> Result<Value, Fault>
    ensures { result ≡ in_64_bits (a +ℤ b) }
{
    integer(i128::from(a) + i128::from(b))
}

fn subtract(a: i64, b: i64) -> Result<Value, Fault>
    ensures { result ≡ in_64_bits (a -ℤ b) }
{
    integer(i128::from(a) - i128::from(b))
}

fn multiply(a: i64, b: i64) -> Result<Value, Fault>
    ensures { result ≡ in_64_bits (a *ℤ b) }
{
    integer(i128::from(a) * i128::from(b))
}

/// The sum so far and a further part, which is subtracted where `minus`. Null where one of them is no integer, as null.
///
/// Errors: `Overflow` where the result leaves 64 bits.
#[tactic(auto, unfolding(crate::specs::Arithmetic::sum_of))]
pub fn add_part(so_far: &Value, minus: bool, part: &Value) -> Result<Value, Fault>
    ensures { result ≡ sum_of so_far.now minus part.now }
{
    match (so_far, minus, part) {
        (Value::Int(a), true, Value::Int(b)) => subtract(*a, *b),
        (Value::Int(a), false, Value::Int(b)) => add(*a, *b),
        _ => Ok(Value::Null),
    }
}

/// The product so far and a further factor. Null where one of them is no integer, as null.
///
/// Errors: `Overflow` where the result leaves 64 bits.
#[tactic(auto, unfolding(crate::specs::Arithmetic::product_of))]
pub fn multiply_by(so_far: &Value, factor: &Value) -> Result<Value, Fault>
    ensures { result ≡ product_of so_far.now factor.now }
{
    match (so_far, factor) {
        (Value::Int(a), Value::Int(b)) => multiply(*a, *b),
        _ => Ok(Value::Null),
    }
}
