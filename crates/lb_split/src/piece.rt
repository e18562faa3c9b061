// The pieces of a script, one after the other.
ghost use Rattle.std.specs.Prelude.{◌≡◌, ◌<◌, ◌≤◌, ◌+◌, ◌^◌, IfSome, length};
ghost use Rattle.lb_split.specs.Pieces.{piece_kind as piece_kind_of, piece_at, pieces_from, first_of, before, resumed, start_of, IsWithin};

use crate::scan::{
    PieceKind, gap_len, line_len, next_header_line, next_line, statement_len, tail, white_len,
};

/// A piece of a script. Its first number is the offset of its first byte, its second one the offset after its last
/// byte. A `;` and a line's end don't belong to it.
#[derive(Clone, Copy, Debug, PartialEq, Eq)]
pub enum Piece {
    /// A line from its `@` on.
    Header(u32, u32),
    /// A statement from its first byte that isn't white space on.
    Statement(u32, u32),
    /// A statement whose one word is QUIT.
    Quit(u32, u32),
    /// Nothing but blank statements.
    End,
}

/// The first piece from an offset on, at which a statement starts. Statements of white space and comments alone are
/// passed over. It takes no memory.
pub fn split(bytes: &[u8], from: u32) -> Piece
    requires short { length bytes.now < 2 ^ 32 }
    requires within { from ≤ length bytes.now }
    ensures first { result ≡ first_of (pieces_from bytes.now from) }
    ensures others { pieces_from bytes.now from ≡ before result (pieces_from bytes.now (resumed bytes.now result)) }
    ensures within { IsWithin bytes.now result }
    ensures behind { from ≤ start_of bytes.now result }
{
    let mut at = from as usize;
    'blanks: while at < bytes.len() {
        let text = tail(bytes, at);
        match first_piece(text, at as u32) {
            Some(piece) => return piece,
            None => at = (at + statement_len(text) + 1).min(bytes.len()),
        }
    }
    Piece::End
}

/// The piece that a text begins with, where the text stands at this offset. None where a blank statement stands there.
fn first_piece(text: &[u8], at: u32) -> Option<Piece>
    requires { at + length text.now < 2 ^ 32 }
    ensures { result ≡ piece_at (piece_kind_of text.now) at text.now }
{
    match PieceKind::of(text) {
        PieceKind::Header => {
            let gap = gap_len(text);
            let len = line_len(tail(text, gap));
            Some(Piece::Header(at + gap as u32, at + gap as u32 + len as u32))
        }
        PieceKind::Blank => None,
        PieceKind::Quit => {
            let white = white_len(text);
            let len = statement_len(text);
            Some(Piece::Quit(at + white as u32, at + len as u32))
        }
        PieceKind::Statement => {
            let white = white_len(text);
            let len = statement_len(text);
            Some(Piece::Statement(at + white as u32, at + len as u32))
        }
    }
}

/// The offset at which `split` goes on after a piece: after the line of a header, after the `;` of a statement, and
/// for QUIT the next line whose first byte is `@`. Where nothing is left it is the number of bytes.
pub fn resume(bytes: &[u8], piece: Piece) -> u32
    requires short { length bytes.now < 2 ^ 32 }
    requires within { IsWithin bytes.now piece }
    ensures value { result ≡ resumed bytes.now piece }
    ensures within { result ≤ length bytes.now }
{
    match piece {
        Piece::Header(_, to) => to + next_line(tail(bytes, to as usize)) as u32,
        Piece::Statement(_, to) => (to as usize + 1).min(bytes.len()) as u32,
        Piece::Quit(_, to) => to + next_header_line(tail(bytes, to as usize)) as u32,
        Piece::End => bytes.len() as u32,
    }
}
