// `||`, which joins texts.
ghost use Rattle.std.specs.Prelude.{◌≡◌, ◌++◌, IfOk};
ghost use Rattle.lb_base.specs.Texts.{concatenated};

use crate::{NoMemory, Str, Value};
use std::alloc::Global;

/// The text so far and a further one joined. Null where one of them is no text, as null.
pub fn concatenate(alloc: Global, so_far: &Value, more: &Value) -> Result<Value, NoMemory>
    ensures { IfOk result (λ v. v ≡ concatenated so_far.now more.now) }
{
    match (so_far, more) {
        (Value::Text(a), Value::Text(b)) => Ok(Value::Text(join(alloc, a, b)?)),
        _ => Ok(Value::Null),
    }
}

fn join(alloc: Global, a: &Str, b: &Str) -> Result<Str, NoMemory>
    ensures { IfOk result (λ s. s ≡ a.now ++ b.now) }
{
    let mut text = String::new(alloc);
    text.push_str(a.as_str())?;
    text.push_str(b.as_str())?;
    Ok(Str::from_string(text))
}
