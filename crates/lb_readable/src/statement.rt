// A statement that can be read again.
ghost use Rattle.std.specs.Prelude.{◌≡◌};

use lb_base::Str;
use lb_stmt::Stmt;

/// A statement, and its canonical text.
#[derive(Drop)]
pub struct Readable {
    pub stmt: Stmt,
    pub text: Str,
}

impl Readable {
    /// The canonical text alone.
    pub fn into_text(self) -> Str
        ensures { result ≡ self.text }
    {
        let Readable { stmt, text } = self;
        drop(stmt);
        text
    }
}
