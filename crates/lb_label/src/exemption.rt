// Exemptions from rules: the set of rules that a user is exempt from in one policy.
ghost use Rattle.std.specs.Prelude.{◌≡◌, ◌≢◌, IsTrue, false};

use lb_base::Rule;

/// The rules of one policy that a user is exempt from (GRANT (exemption) statement).
#[derive(Clone, Copy, Debug, PartialEq, Eq)]
pub struct Exempt {
    read_array: bool,
    read_set: bool,
    read_tree: bool,
    write_down: bool,
    write_up: bool,
    write_set: bool,
    write_tree: bool,
}

impl Exempt {
    ghost use Rattle.lb_label.specs.Exemption.{is_exempt, no_exemption, with_exemption};

    /// No exemption at all.
    pub fn none() -> Exempt
        ensures made { result ≡ no_exemption }
        ensures empty { (rule : Rule) → is_exempt result rule ≡ false }
    {
        Exempt {
            read_array: false,
            read_set: false,
            read_tree: false,
            write_down: false,
            write_up: false,
            write_set: false,
            write_tree: false,
        }
    }

    /// These exemptions and that from `rule`.
    pub fn with(self, rule: Rule) -> Exempt
        ensures made { result ≡ with_exemption self rule }
        ensures added { IsTrue (is_exempt result rule) }
        ensures others { (other : Rule) → other ≢ rule → is_exempt result other ≡ is_exempt self other }
    {
        match rule {
            Rule::ReadArray => Exempt {
                read_array: true,
                ..self
            },
            Rule::ReadSet => Exempt {
                read_set: true,
                ..self
            },
            Rule::ReadTree => Exempt {
                read_tree: true,
                ..self
            },
            Rule::WriteDown => Exempt {
                write_down: true,
                ..self
            },
            Rule::WriteUp => Exempt {
                write_up: true,
                ..self
            },
            Rule::WriteSet => Exempt {
                write_set: true,
                ..self
            },
            Rule::WriteTree => Exempt {
                write_tree: true,
                ..self
            },
        }
    }

    /// Whether `rule` is among the exemptions.
    pub fn has(&self, rule: Rule) -> bool
        ensures { result ≡ is_exempt self.now rule }
    {
        match rule {
            Rule::ReadArray => self.read_array,
            Rule::ReadSet => self.read_set,
            Rule::ReadTree => self.read_tree,
            Rule::WriteDown => self.write_down,
            Rule::WriteUp => self.write_up,
            Rule::WriteSet => self.write_set,
            Rule::WriteTree => self.write_tree,
        }
    }
}
