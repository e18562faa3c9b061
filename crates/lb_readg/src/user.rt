// Reads the names of users, grantees and labels, each in one place for all statements that have one.
ghost use Rattle.std.specs.Prelude.{◌≡◌};
ghost use Rattle.lb_readt.specs.Answering.{Gives};
ghost use Rattle.lb_readg.specs.Granting.{user_at, spelt_grantee_at, grantee_at, label_on, label_name_at};

use crate::word::means;
use lb_base::Name;
use lb_readt::{Read, name, next_is, noise, take};
use lb_stmt::{Grantee, LabelName};
use lb_tok::{Kind, Token};

/// A user: [USER] name
#[tactic(auto, unfolding(crate::specs::Granting::user_at))]
pub fn user<'a>(tokens: &'a [Token]) -> Read<'a, Name>
    ensures { Gives (λ r. (r.0, r.1.now)) result (user_at tokens.now) }
{
    let rest = noise(tokens, Kind::User);
    name(rest)
}

/// A grantee that no name alone spells: PUBLIC | USER name
#[tactic(auto, unfolding(crate::specs::Granting::spelt_grantee_at))]
pub fn spelt_grantee<'a>(tokens: &'a [Token]) -> Read<'a, Grantee>
    ensures { Gives (λ r. (r.0, r.1.now)) result (spelt_grantee_at tokens.now) }
{
    if next_is(tokens, Kind::Public) {
        means(tokens, Kind::Public, Grantee::Public)
    } else {
        let rest = take(tokens, Kind::User)?;
        let (user, rest) = name(rest)?;
        Ok((Grantee::User(user), rest))
    }
}

/// A grantee: [USER] name | PUBLIC
#[tactic(auto, unfolding(crate::specs::Granting::grantee_at))]
pub fn grantee<'a>(tokens: &'a [Token]) -> Read<'a, Grantee>
    ensures { Gives (λ r. (r.0, r.1.now)) result (grantee_at tokens.now) }
{
    if next_is(tokens, Kind::Public) {
        means(tokens, Kind::Public, Grantee::Public)
    } else {
        let (user, rest) = user(tokens)?;
        Ok((Grantee::User(user), rest))
    }
}

/// The rest of a label's name, after the policy's name: . name
#[tactic(auto, unfolding(crate::specs::Granting::label_on))]
pub fn label_behind<'a>(policy: Name, tokens: &'a [Token]) -> Read<'a, LabelName>
    ensures { Gives (λ r. (r.0, r.1.now)) result (label_on policy tokens.now) }
{
    let rest = take(tokens, Kind::Dot)?;
    let (label, rest) = name(rest)?;
    Ok((LabelName { policy, label }, rest))
}

/// A label's name: name . name
#[tactic(auto, unfolding(crate::specs::Granting::label_name_at))]
pub fn label_name<'a>(tokens: &'a [Token]) -> Read<'a, LabelName>
    ensures { Gives (λ r. (r.0, r.1.now)) result (label_name_at tokens.now) }
{
    let (policy, rest) = name(tokens)?;
    label_behind(policy, rest)
}
