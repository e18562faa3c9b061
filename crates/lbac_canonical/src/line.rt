// What is said of one statement of a script.
ghost use Rattle.std.specs.Prelude.{◌≡◌, ◌++◌, IfOk, codes};
ghost use Rattle.std.specs.Fmt.{decimal};
ghost use Rattle.lbac_canonical.specs.Lines.{IsLineOf, line_text};

use lb_base::{NoMemory, Str};
use lb_readable::{ReadFault, readable};
use std::alloc::{AllocError, Global};

/// What is said of a text.
#[derive(Drop)]
pub enum Line {
    /// The canonical text of its statement, which is read as that statement again.
    Canonical(Str),
    /// The text goes wrong at this byte, counted from 0. Where its canonical text goes beyond 4,096 bytes or 64 open
    /// brackets, it is 4096.
    Syntax(u32),
}

/// The line of a text. The only error is that memory was refused.
pub fn line_of(alloc: Global, text: &[u8]) -> Result<Line, NoMemory>
    ensures { IfOk result (IsLineOf text.now) }
{
    match readable(alloc, text) {
        Ok(found) => Ok(Line::Canonical(found.into_text())),
        Err(ReadFault::Syntax(at)) => Ok(Line::Syntax(at)),
        Err(ReadFault::NoMemory) => Err(AllocError),
    }
}

impl Line {
    /// The line as it is printed, without its end. The only error is that memory was refused.
    pub fn text(self, alloc: Global) -> Result<Str, NoMemory>
        ensures { IfOk result (λ t. t ≡ line_text self) }
    {
        match self {
            Line::Canonical(text) => Ok(text),
            Line::Syntax(at) => syntax_text(alloc, at),
        }
    }
}

fn syntax_text(alloc: Global, at: u32) -> Result<Str, NoMemory>
    ensures { IfOk result (λ t. t ≡ codes "SYNTAX " ++ decimal at) }
{
    let mut text = String::new(alloc);
    write!(text, "SYNTAX {at}")?;
    Ok(Str::from_string(text))
}
