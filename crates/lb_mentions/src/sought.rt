// What is looked for among the mentions of a condition.
ghost use Rattle.std.specs.Prelude.{◌≡◌};
ghost use Rattle.std.specs.List.{list_any};
ghost use Rattle.lb_names.specs.Mentions as mentions;
ghost use Rattle.lb_mentions.specs.Seeking.{is_sought};

use lb_base::{Name, Str};
use lb_tree::Atom;

/// What is looked for.
#[derive(Clone, Copy)]
pub enum Sought<'a> {
    /// This table in FROM.
    Table(&'a Name),
    /// This policy in a call of SECLABEL, SECLABEL_BY_NAME or SECLABEL_TO_CHAR.
    Policy(&'a Name),
    /// This label of this policy in a call of SECLABEL_BY_NAME.
    Label(&'a Name, &'a Name),
}

impl Sought<'_> {
    /// Whether it is a table of this name.
    pub fn is_table(&self, table: &Name) -> bool
        ensures { result ≡ is_sought self.now (mentions.table table.now) }
    {
        match self {
            Sought::Table(name) => table.is(name),
            Sought::Policy(_) | Sought::Label(_, _) => false,
        }
    }

    /// Whether a leaf calls it.
    #[tactic(auto, using(crate::proofs::Parts::one_is))]
    pub fn is_called(&self, atom: &Atom) -> bool
        ensures { result ≡ list_any (is_sought self.now) (mentions.in_atom atom.now) }
    {
        match atom {
            Atom::SecLabel(policy, _) => self.is_policy(policy),
            Atom::SecLabelByName(policy, label) => self.is_label(policy, label),
            Atom::SecLabelToChar(policy, _) => self.is_policy(policy),
            _ => false,
        }
    }

    fn is_policy(&self, policy: &Str) -> bool
        ensures { result ≡ is_sought self.now (mentions.policy policy.now) }
    {
        match self {
            Sought::Policy(name) => policy.as_str() == name.as_str(),
            Sought::Table(_) | Sought::Label(_, _) => false,
        }
    }

    fn is_label(&self, policy: &Str, label: &Str) -> bool
        ensures { result ≡ is_sought self.now (mentions.label policy.now label.now) }
    {
        match self {
            Sought::Table(_) => false,
            Sought::Policy(name) => policy.as_str() == name.as_str(),
            Sought::Label(name, of) => {
                policy.as_str() == name.as_str() && label.as_str() == of.as_str()
            }
        }
    }
}
