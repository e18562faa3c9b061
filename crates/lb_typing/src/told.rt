// What is told of a typing that ended.
ghost use Rattle.std.specs.Prelude.{◌≡◌, IfOk, Option, option_map};
ghost use Rattle.lb_alter.specs.Naming.{refusal_for};
ghost use Rattle.lb_names.specs.declared.refused.Refused.{Refused as AnyRefused};
ghost use Rattle.lb_typing.specs.Given.{Tells};

use lb_base::NoMemory;
use lb_cat::Refusal;
use lb_types::Stop;
use std::alloc::AllocError;

/// The refusal of a broken node.
pub fn told(typed: Result<u32, Stop>) -> Result<Option<Refusal>, NoMemory>
    ensures { (refused : Option AnyRefused) → Tells typed refused → IfOk result (λ r. r ≡ option_map refusal_for refused) }
{
    match typed {
        Ok(_) => Ok(None),
        Err(Stop::Broken(at)) => Ok(Some(Refusal::Types(at))),
        Err(Stop::NoMemory) => Err(AllocError),
    }
}
