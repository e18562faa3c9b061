// Functions, and the words that name them.
ghost use Rattle.std.specs.Prelude.{◌≡◌};
ghost use Rattle.lb_tok.specs.Words.{call_of, comparison_of, is_date};

use crate::Kind;
use lb_tree::{Aggregate, Comparison, Function};

/// What a function's name stands for. `DATE` is one of them, since a literal may follow it.
#[derive(Clone, Copy, Debug, PartialEq, Eq)]
pub enum Call {
    Count,
    /// SUM, MIN and MAX
    Total(Aggregate),
    Substr,
    Apply(Function),
    Coalesce,
    VerifyRole,
    VerifyGroup,
    SecLabel,
    SecLabelByName,
    SecLabelToChar,
    Date,
}

impl Call {
    /// Whether it is `DATE`.
    #[tactic(auto, unfolding(crate::specs::Words::is_date))]
    pub fn is_date(self) -> bool
        ensures { result ≡ is_date self }
    {
        match self {
            Call::Date => true,
            Call::Count => false,
            Call::Total(_) => false,
            Call::Substr => false,
            Call::Apply(_) => false,
            Call::Coalesce => false,
            Call::VerifyRole => false,
            Call::VerifyGroup => false,
            Call::SecLabel => false,
            Call::SecLabelByName => false,
            Call::SecLabelToChar => false,
        }
    }
}

impl Kind {
    /// The function that the word names. None exactly where it names none.
    #[tactic(auto, unfolding(crate::specs::Words::call_of))]
    pub fn call(self) -> Option<Call>
        ensures { result ≡ call_of self }
    {
        match self {
            Kind::Count => Some(Call::Count),
            Kind::Sum => Some(Call::Total(Aggregate::Sum)),
            Kind::Min => Some(Call::Total(Aggregate::Min)),
            Kind::Max => Some(Call::Total(Aggregate::Max)),
            Kind::Substr => Some(Call::Substr),
            Kind::Length => Some(Call::Apply(Function::Length)),
            Kind::Coalesce => Some(Call::Coalesce),
            Kind::Year => Some(Call::Apply(Function::Year)),
            Kind::Month => Some(Call::Apply(Function::Month)),
            Kind::Day => Some(Call::Apply(Function::Day)),
            Kind::VerifyRoleForUser => Some(Call::VerifyRole),
            Kind::VerifyGroupForUser => Some(Call::VerifyGroup),
            Kind::SecLabel => Some(Call::SecLabel),
            Kind::SecLabelByName => Some(Call::SecLabelByName),
            Kind::SecLabelToChar => Some(Call::SecLabelToChar),
            Kind::Date => Some(Call::Date),
            _ => None,
        }
    }

    /// The comparison that the symbol stands for. None exactly where it is none.
    #[tactic(auto, unfolding(crate::specs::Words::comparison_of))]
    pub fn comparison(self) -> Option<Comparison>
        ensures { result ≡ comparison_of self }
    {
        match self {
            Kind::Equal => Some(Comparison::Equal),
            Kind::NotEqual => Some(Comparison::NotEqual),
            Kind::Less => Some(Comparison::Less),
            Kind::AtMost => Some(Comparison::AtMost),
            Kind::Greater => Some(Comparison::Greater),
            Kind::AtLeast => Some(Comparison::AtLeast),
            _ => None,
        }
    }
}
