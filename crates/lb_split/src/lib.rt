//! The pieces of a script: its headers, its statements and QUIT, and the sections that they make.
#![tactic(auto)]

mod header;
mod laws;
mod piece;
mod scan;
mod script;

pub use header::{Header, SectionKind};
pub use laws::a_piece_that_has_ended_stays;
pub use piece::{Piece, resume, split};
pub use script::{Script, ScriptFault, Section, Span, Spans, sections, text_at};
