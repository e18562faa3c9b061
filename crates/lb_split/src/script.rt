// Takes a whole script apart into its sections, or finds the line at which it breaks the form.
ghost use Rattle.std.specs.Prelude.{◌≡◌, ◌<◌, ◌≤◌, ◌^◌, ◌∷◌, ◌++◌, [], length, IfOk, slice_range};
ghost use Rattle.lb_split.specs.declared.script.ScriptFault.TheVariants as faults;
ghost use Rattle.lb_split.specs.Pieces.{IsSpan, pieces_from};
ghost use Rattle.lb_split.specs.Sections.{HeaderAnswers, IsNextWithin, added, empty_script, from_header, headed};
ghost use Rattle.lb_split.specs.Scripts.{Answers, script_of, script_by, header_at as header_in, text_in, section_statements, line_of};

use crate::header::{Header, SectionKind};
use crate::piece::{Piece, resume, split};
use lb_base::{Listing, Name, Names, NoMemory};
use std::alloc::{AllocError, Global};

/// The offset of a statement's first byte, and the offset after its last one.
pub type Span = (u32, u32);

/// Statements in order.
pub type Spans = Listing<Span>;

/// A section of a script.
#[derive(Drop)]
pub struct Section {
    /// The user who runs it.
    pub user: Name,
    /// The user's groups, as written, at most 16.
    pub groups: Names,
    /// Its statements, without those of white space and comments alone and without QUIT.
    pub statements: Spans,
}

/// The sections of a script.
#[derive(Drop)]
pub struct Script {
    /// The section of SETUP, if there is one.
    pub setup: Option<Section>,
    /// The sections of the sessions, in order.
    pub sessions: Listing<Section>,
}

/// Why a script was not read.
#[derive(Clone, Copy, Debug, PartialEq, Eq)]
pub enum ScriptFault {
    /// What begins on this line, counted from 1, breaks the form of a script before anything else does: a statement
    /// before the first header, a malformed header, or a SETUP that doesn't come first.
    BadScript(u32),
    /// Memory was refused.
    NoMemory,
}

impl From<AllocError> for ScriptFault {
    ghost from_gives = { λ _ e. e ≡ faults.NoMemory };

    fn from(_: AllocError) -> Self {
        ScriptFault::NoMemory
    }
}

/// The sections of a script: one of SETUP, if there is one, and those of the sessions.
/// BadScript exactly where the form of a script is broken, with the line on which the first piece begins that breaks it;
/// NoMemory where memory is refused.
pub fn sections(alloc: Global, bytes: &[u8]) -> Result<Script, ScriptFault>
    requires { length bytes.now < 2 ^ 32 }
    ensures { Answers (script_of bytes.now) result }
{
    match split(bytes, 0) {
        Piece::End => Ok(Script::empty(alloc)),
        Piece::Header(from, to) => script_from(alloc, bytes, (from, to)),
        Piece::Statement(from, _) => Err(ScriptFault::BadScript(line_at(bytes, from))),
        Piece::Quit(from, _) => Err(ScriptFault::BadScript(line_at(bytes, from))),
    }
}

/// What stands between two offsets of the bytes. Offsets past their end are those of the end, and where the second is
/// less than the first nothing stands between them.
pub fn text_at(bytes: &[u8], span: Span) -> &[u8]
    ensures { result.now ≡ text_in bytes.now span }
{
    let to = (span.1 as usize).min(bytes.len());
    let from = (span.0 as usize).min(to);
    &bytes[from..to]
}

/// The sections of the pieces that begin with this header.
fn script_from(alloc: Global, bytes: &[u8], first: Span) -> Result<Script, ScriptFault>
    requires short { length bytes.now < 2 ^ 32 }
    requires within { IsSpan bytes.now first.0 first.1 }
    ensures { Answers (script_by bytes.now (headed bytes.now (Some first))) result }
{
    let mut script = Script::empty(alloc);
    let mut next = Some(first);
    let mut is_first = true;
    'sections: while let Some(span) = next {
        let header = header_at(alloc, bytes, span, is_first)?;
        let from = resume(bytes, Piece::Header(span.0, span.1));
        let body = statements(alloc, bytes, from)?;
        script = script.with(header, body.statements)?;
        next = body.next;
        is_first = false;
    }
    Ok(script)
}

/// The header of a section that comes first or not. BadScript where it is malformed, or is one of SETUP that doesn't
/// come first.
fn header_at(alloc: Global, bytes: &[u8], span: Span, is_first: bool) -> Result<Header, ScriptFault>
    requires short { length bytes.now < 2 ^ 32 }
    requires within { IsSpan bytes.now span.0 span.1 }
    ensures { HeaderAnswers bytes.now span.0 (header_in bytes.now span.0 span.1) is_first result }
{
    match Header::of(alloc, text_at(bytes, span))? {
        None => Err(ScriptFault::BadScript(line_at(bytes, span.0))),
        Some(header) => {
            if is_first || !header.kind.is_setup() {
                Ok(header)
            } else {
                Err(ScriptFault::BadScript(line_at(bytes, span.0)))
            }
        }
    }
}

/// The line of an offset, counted from 1.
fn line_at(bytes: &[u8], at: u32) -> u32
    requires short { length bytes.now < 2 ^ 32 }
    requires within { at < length bytes.now }
    ensures { result ≡ line_of bytes.now at }
{
    let before = &bytes[..at as usize];
    before.iter().filter(|b| **b == b'\n').count() as u32 + 1
}

/// What follows a header: its statements, and where the next header stands.
#[derive(Drop)]
struct Body {
    statements: Spans,
    next: Option<Span>,
}

/// The statements from an offset on up to the next header or the end.
fn statements(alloc: Global, bytes: &[u8], from: u32) -> Result<Body, NoMemory>
    requires short { length bytes.now < 2 ^ 32 }
    requires within { from ≤ length bytes.now }
    ensures statements { IfOk result (λ b. b.statements ≡ section_statements (pieces_from bytes.now from)) }
    ensures next { IfOk result (λ b. from_header (pieces_from bytes.now from) ≡ headed bytes.now b.next) }
    ensures within { IfOk result (λ b. IsNextWithin bytes.now b.next) }
{
    let mut statements = Listing::empty(alloc);
    let mut at = from;
    'pieces: loop {
        let piece = split(bytes, at);
        match piece {
            Piece::Header(from, to) => {
                return Ok(Body {
                    statements,
                    next: Some((from, to)),
                });
            }
            Piece::Statement(from, to) => statements.push((from, to))?,
            Piece::Quit(_, _) => {}
            Piece::End => {
                return Ok(Body {
                    statements,
                    next: None,
                });
            }
        }
        at = resume(bytes, piece);
    }
}

impl Script {
    /// The script without sections. It takes no memory yet.
    fn empty(alloc: Global) -> Script
        ensures { result ≡ empty_script }
    {
        Script {
            setup: None,
            sessions: Listing::empty(alloc),
        }
    }

    /// The script with one section more after the others.
    fn with(self, header: Header, statements: Spans) -> Result<Script, NoMemory>
        ensures { IfOk result (λ s. s ≡ added self header statements) }
    {
        let Script {
            setup,
            mut sessions,
        } = self;
        let Header { kind, user, groups } = header;
        let section = Section {
            user,
            groups,
            statements,
        };
        match kind {
            SectionKind::Setup => Ok(Script {
                setup: Some(section),
                sessions,
            }),
            SectionKind::Session => {
                sessions.push(section)?;
                Ok(Script { setup, sessions })
            }
        }
    }
}
