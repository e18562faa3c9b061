// Texts and names, which contracts see as the list of their bytes.
ghost use Rattle.std.specs.Prelude.{◌≡◌, ◌↔◌, IfOk, IsTrue, string_bytes};
ghost use Rattle.std.specs.Str.{bytes_eq};
ghost use Rattle.std.specs.List.{list_all};
ghost use Rattle.lb_base.specs.Names.{IsFolded, is_name, is_name_byte, name_of};

use std::alloc::{AllocError, Global};
use std::marker::Model;

/// Out of memory. Each call says what it leaves then.
pub type NoMemory = AllocError;

/// A UTF-8 text, such as a literal or a canonical text. Contracts see its bytes.
#[derive(Debug, Drop)]
pub struct Str {
    text: String,
}

impl Model for Str {
    ghost use Rattle.std.specs.Prelude.{List, ℕ, string_bytes};

    ghost Value = { List ℕ };

    ghost view = { λ s. string_bytes s.text };
}

impl Str {
    /// A copy of the text.
    pub fn of(alloc: Global, text: &str) -> Result<Str, NoMemory>
        ensures { IfOk result (λ s. s ≡ text.now) }
    {
        let text = String::from_str(alloc, text)?;
        Ok(Str { text })
    }

    /// The text of a string, which is moved and not copied.
    pub fn from_string(text: String) -> Str
        ensures { result ≡ string_bytes text }
    {
        Str { text }
    }

    /// Lends the text.
    pub fn as_str(&self) -> &str
        ensures { result.now ≡ self.now }
    {
        self.text.as_str()
    }

    /// Whether both are the same text, byte by byte.
    pub fn is(&self, other: &Str) -> bool
        ensures same { IsTrue result ↔ (self.now ≡ other.now) }
        ensures tests { result ≡ bytes_eq self.now other.now }
    {
        self.text.as_str() == other.text.as_str()
    }

    /// An equal text in memory of its own.
    pub fn copy(&self) -> Result<Str, NoMemory>
        ensures { IfOk result (λ s. s ≡ self.now) }
    {
        let text = self.text.clone()?;
        Ok(Str { text })
    }
}

/// A name in upper case: a letter, then letters, digits and `_`, at most 64 bytes, all ASCII.
/// A reserved word is a name here; the grammar says where it may not stand.
#[derive(Debug, Drop)]
pub struct Name {
    text: String,
}

impl Model for Name {
    ghost use Rattle.std.specs.Prelude.{List, ℕ, string_bytes};
    ghost use Rattle.lb_base.specs.Names.{IsFolded};

    ghost Value = { List ℕ };

    ghost view = { λ s. string_bytes s.text };

    ghost invariant = { λ s. IsFolded (string_bytes s.text) };
}

impl Name {
    /// The name that the text spells in any case, folded to upper case.
    /// None exactly where the text is no name: where it is empty, does not begin with an ASCII letter,
    /// has a byte other than ASCII letters, digits and `_`, or has more than 64 bytes.
    pub fn of(alloc: Global, text: &str) -> Result<Option<Name>, NoMemory>
        ensures { IfOk result (λ n. n ≡ name_of text.now) }
    {
        if !spells_name(text.as_bytes()) {
            return Ok(None);
        }
        let mut text = String::from_str(alloc, text)?;
        text.make_ascii_uppercase();
        Ok(Some(Name { text }))
    }

    /// Lends the name.
    pub fn as_str(&self) -> &str
        ensures same { result.now ≡ self.now }
        ensures name { IsFolded self.now }
    {
        self.text.as_str()
    }

    /// Whether both are the same name.
    pub fn is(&self, other: &Name) -> bool
        ensures same { IsTrue result ↔ (self.now ≡ other.now) }
        ensures tests { result ≡ bytes_eq self.now other.now }
    {
        self.text.as_str() == other.text.as_str()
    }

    /// An equal name in memory of its own.
    pub fn copy(&self) -> Result<Name, NoMemory>
        ensures { IfOk result (λ s. s ≡ self.now) }
    {
        let text = self.text.clone()?;
        Ok(Name { text })
    }
}

/// Whether the bytes are a name in any case.
fn spells_name(text: &[u8]) -> bool
    ensures { result ≡ is_name text.now }
{
    match text {
        [] => false,
        [first, ..] => first.is_ascii_alphabetic() && text.len() <= 64 && has_name_bytes(text),
    }
}

fn has_name_bytes(text: &[u8]) -> bool
    ensures { result ≡ list_all is_name_byte text.now }
{
    text.iter().all(|b| b.is_ascii_alphanumeric() || *b == b'_')
}
