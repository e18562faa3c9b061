// White space, comments and texts between quotes, and how far each goes.
ghost use Rattle.std.specs.Prelude.{◌≡◌, ◌≤◌, ◌==◌, ◌&&◌, ◌||◌, drop, length, take};
ghost use Rattle.lb_split.specs.Lexing.{is_white as white, begins, behind as place_behind, is_gap as gap, is_inside as inside, gap_len as gap_of, statement_len as statement_length, is_blank as blank, white_len as white_of, is_quit as quits, line_len as line_of, next_line as to_next_line, next_header_line as to_next_header};
ghost use Rattle.lb_split.specs.Pieces.{piece_kind as piece_kind_of};

/// Where the reading of a script is.
#[derive(Clone, Copy)]
pub enum Place {
    /// Outside texts and comments.
    Open,
    /// In a text between quotes.
    Quoted,
    /// In a `--` comment.
    Comment,
}

impl Place {
    /// The place after a byte, before the bytes that follow it.
    fn behind(self, b: u8, rest: &[u8]) -> Place
        ensures { result ≡ place_behind self b rest.now }
    {
        match self {
            Place::Open => {
                if b == b'\'' {
                    Place::Quoted
                } else if b == b'-' && begins_with(rest, b'-') {
                    Place::Comment
                } else {
                    Place::Open
                }
            }
            Place::Quoted => {
                if b == b'\'' {
                    Place::Open
                } else {
                    Place::Quoted
                }
            }
            Place::Comment => {
                if b == b'\n' {
                    Place::Open
                } else {
                    Place::Comment
                }
            }
        }
    }

    /// Whether a byte before this place is white space or a byte of a comment.
    fn is_gap(self, b: u8) -> bool
        ensures { result ≡ gap self b }
    {
        match self {
            Place::Open => is_white(b),
            Place::Quoted => false,
            Place::Comment => true,
        }
    }

    /// Whether a byte before this place is no `;` that ends a statement.
    fn is_inside(self, b: u8) -> bool
        ensures { result ≡ inside self b }
    {
        match self {
            Place::Open => b != b';',
            Place::Quoted => true,
            Place::Comment => true,
        }
    }
}

fn is_white(b: u8) -> bool
    ensures { result ≡ white b }
{
    b == b' ' || b == b'\t' || b == b'\r' || b == b'\n'
}

/// Whether the text begins with this byte.
pub fn begins_with(text: &[u8], b: u8) -> bool
    ensures { result ≡ begins b text.now }
{
    match text {
        [] => false,
        [first, ..] => *first == b,
    }
}

/// The bytes from an offset on.
pub fn tail(text: &[u8], from: usize) -> &[u8]
    requires { from ≤ length text.now }
    ensures { result.now ≡ drop from text.now }
{
    &text[from..]
}

/// The bytes before an offset.
fn front(text: &[u8], to: usize) -> &[u8]
    requires { to ≤ length text.now }
    ensures { result.now ≡ take to text.now }
{
    &text[..to]
}

/// How many bytes of white space and comments a text begins with.
pub fn gap_len(text: &[u8]) -> usize
    ensures value { result ≡ gap_of text.now }
    ensures within { result ≤ length text.now }
{
    let mut place = Place::Open;
    for i in 0..text.len() {
        place = place.behind(text[i], tail(text, i + 1));
        if !place.is_gap(text[i]) {
            return i;
        }
    }
    text.len()
}

/// How many bytes stand before the first `;` outside texts and comments, or in all.
pub fn statement_len(text: &[u8]) -> usize
    ensures value { result ≡ statement_length text.now }
    ensures within { result ≤ length text.now }
{
    let mut place = Place::Open;
    for i in 0..text.len() {
        place = place.behind(text[i], tail(text, i + 1));
        if !place.is_inside(text[i]) {
            return i;
        }
    }
    text.len()
}

/// How many bytes of white space a text begins with.
pub fn white_len(text: &[u8]) -> usize
    ensures value { result ≡ white_of text.now }
    ensures within { result ≤ length text.now }
{
    text.iter().take_while(|b| is_white(**b)).count()
}

/// Whether the text is white space and comments alone.
fn is_blank(text: &[u8]) -> bool
    ensures { result ≡ blank text.now }
{
    gap_len(text) == text.len()
}

fn is_quit(text: &[u8]) -> bool
    ensures { result ≡ quits text.now }
{
    let from = gap_len(text);
    match tail(text, from) {
        [q, u, i, t, rest @ ..] => {
            q.to_ascii_uppercase() == b'Q'
                && u.to_ascii_uppercase() == b'U'
                && i.to_ascii_uppercase() == b'I'
                && t.to_ascii_uppercase() == b'T'
                && is_blank(rest)
        }
        _ => false,
    }
}

/// What begins at the start of a statement.
#[derive(Clone, Copy)]
pub enum PieceKind {
    /// A header line, after white space and comments.
    Header,
    /// A statement of white space and comments alone.
    Blank,
    /// A statement that ends its section.
    Quit,
    /// Another statement.
    Statement,
}

impl PieceKind {
    /// What the text begins with.
    pub fn of(text: &[u8]) -> PieceKind
        ensures { result ≡ piece_kind_of text.now }
    {
        let gap = gap_len(text);
        if begins_with(tail(text, gap), b'@') {
            return PieceKind::Header;
        }
        let len = statement_len(text);
        let statement = front(text, len);
        if is_blank(statement) {
            PieceKind::Blank
        } else if is_quit(statement) {
            PieceKind::Quit
        } else {
            PieceKind::Statement
        }
    }
}

/// How many bytes the first line of a text has: those before its line feed, or before a carriage return and its
/// line feed, or before the end.
pub fn line_len(text: &[u8]) -> usize
    ensures value { result ≡ line_of text.now }
    ensures within { result ≤ length text.now }
{
    for i in 0..text.len() {
        if ends_line(text[i], tail(text, i + 1)) {
            return i;
        }
    }
    text.len()
}

fn ends_line(b: u8, rest: &[u8]) -> bool
    ensures { result ≡ (b == 10 || b == 13 && begins 10 rest.now) }
{
    b == b'\n' || b == b'\r' && begins_with(rest, b'\n')
}

/// How many bytes stand before the next line, or before the end.
pub fn next_line(text: &[u8]) -> usize
    ensures value { result ≡ to_next_line text.now }
    ensures within { result ≤ length text.now }
{
    for i in 0..text.len() {
        if text[i] == b'\n' {
            return i + 1;
        }
    }
    text.len()
}

/// How many bytes stand before the next line that begins with `@`, or before the end.
pub fn next_header_line(text: &[u8]) -> usize
    ensures value { result ≡ to_next_header text.now }
    ensures within { result ≤ length text.now }
{
    for i in 0..text.len() {
        if text[i] == b'\n' && begins_with(tail(text, i + 1), b'@') {
            return i + 1;
        }
    }
    text.len()
}
