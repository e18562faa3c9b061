// Refusals that name what they speak of.
ghost use Rattle.std.specs.Prelude.{◌≡◌, IfOk};
ghost use Rattle.lb_cat.specs.declared.reply.Reply.TheVariants as replies;
ghost use Rattle.lb_cat.specs.declared.refusal.Refusal.TheVariants as refusals;

use lb_base::{NoMemory, Str};
use lb_cat::{Refusal, Reply};
use std::alloc::Global;

/// There is nothing of that name.
pub fn unknown(alloc: Global, name: &str) -> Result<Reply, NoMemory>
    ensures { IfOk result (λ r. r ≡ replies.Refused (refusals.Unknown name.now)) }
{
    Ok(Reply::Refused(Refusal::Unknown(Str::of(alloc, name)?)))
}

/// The name is taken.
pub fn exists(alloc: Global, name: &str) -> Result<Reply, NoMemory>
    ensures { IfOk result (λ r. r ≡ replies.Refused (refusals.Exists name.now)) }
{
    Ok(Reply::Refused(Refusal::Exists(Str::of(alloc, name)?)))
}
