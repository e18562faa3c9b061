// What a user holds of a policy.
ghost use Rattle.std.specs.Prelude.{◌≡◌, IfOk};
ghost use Rattle.lb_cat.specs.Holdings as holdings;
ghost use Rattle.lb_cat.specs.Stamps.{bare_user};

use lb_base::{Name, NoMemory, Rule};
use lb_cat::{Copied, Holding, Holdings, UserRec};
use lb_changed::{entry_of, with_entry, without};
use lb_label::Exempt;
use std::alloc::Global;

/// A copy of what the user holds of the policy: nothing, where there is no entry.
pub fn holding_of(alloc: Global, user: &UserRec, policy: &Name) -> Result<Holding, NoMemory>
    ensures { IfOk result (λ h. h ≡ holdings.holding_of policy.now (bare_user user.now)) }
{
    match entry_of(user.held.as_slice(), policy) {
        Some(holding) => holding.copy(alloc),
        None => nothing_held(policy),
    }
}

fn nothing_held(policy: &Name) -> Result<Holding, NoMemory>
    ensures { IfOk result (λ h. h ≡ holdings.no_holding policy.now) }
{
    let policy = policy.copy()?;
    Ok(Holding {
        policy,
        read: None,
        write: None,
        exempt: Exempt::none(),
    })
}

/// The user with this entry in the place of the policy's. One that is empty is taken away.
pub fn hold(alloc: Global, user: UserRec, holding: Holding) -> Result<UserRec, NoMemory>
    ensures record { IfOk result (λ u. bare_user u ≡ holdings.with_holding holding (bare_user user)) }
    ensures stamp { IfOk result (λ u. u.stamp ≡ user.stamp) }
    ensures name { IfOk result (λ u. u.name ≡ user.name) }
{
    let mut user = user;
    user.held = kept_holdings(alloc, user.held.as_slice(), holding)?;
    Ok(user)
}

/// Copies of the entries with this one in the place of its policy's, or without where it is empty.
fn kept_holdings(alloc: Global, held: &[Holding], holding: Holding) -> Result<Holdings, NoMemory>
    ensures { IfOk result (λ hs. hs ≡ holdings.kept_holding holding held.now) }
{
    if is_empty(&holding) {
        without(alloc, held, &holding.policy)
    } else {
        with_entry(alloc, held, holding)
    }
}

/// Neither a label nor an exemption is held.
fn is_empty(holding: &Holding) -> bool
    ensures { result ≡ holdings.is_empty_holding holding.now }
{
    holding.read.is_none() && holding.write.is_none() && exempts_none(holding.exempt)
}

/// No rule is exempted.
fn exempts_none(exempt: Exempt) -> bool
    ensures { result ≡ holdings.exempts_none exempt }
{
    !(exempt.has(Rule::ReadArray)
        || exempt.has(Rule::ReadSet)
        || exempt.has(Rule::ReadTree)
        || exempt.has(Rule::WriteDown)
        || exempt.has(Rule::WriteUp)
        || exempt.has(Rule::WriteSet)
        || exempt.has(Rule::WriteTree))
}
