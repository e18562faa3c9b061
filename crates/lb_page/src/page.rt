// The page on which the pieces of a text are laid.
ghost use Rattle.std.specs.Prelude.{◌≡◌, ◌++◌, OnOk, string_bytes, encode_utf8};
ghost use Rattle.std.specs.Fmt.{signed_decimal};
ghost use Rattle.lb_tok.specs.Kinds.{has};
ghost use Rattle.lb_tok.specs.Lexing.{doubled};
ghost use Rattle.lb_tok.specs.QueryPieces.{int_piece};
ghost use Rattle.lb_tok.specs.Dates.{date_text};
ghost use Rattle.lb_tok.specs.Spacing.{mark as mark_piece, name as name_piece, dotted as dotted_piece, all_of as all_of_piece, opening as opening_piece, literal as literal_piece, openings, closings, gap, lay, start, quoted};

use crate::day::push_date;
use lb_base::{Name, NoMemory, Str};
use lb_tok::Kind;
use std::alloc::Global;
use std::marker::Model;

/// A text that grows by pieces. A blank stands before a piece, but none at the beginning, after `( [ {` and before `, ) ] }`.
/// The only error of its methods is out of memory; the page then may hold a part of what was to be laid on it.
#[derive(Debug, Drop)]
pub struct Page {
    text: String,
    // No blank follows the text.
    fresh: bool,
}

impl Model for Page {
    ghost use Rattle.std.specs.Prelude.{string_bytes};
    ghost use Rattle.lb_tok.specs.Spacing.{Layout};

    ghost Value = { Layout };

    ghost view = { λ p. record { text = string_bytes p.text; fresh = p.fresh } };
}

impl Page {
    /// The page without pieces.
    pub fn empty(alloc: Global) -> Page
        ensures { result ≡ start }
    {
        Page {
            text: String::new(alloc),
            fresh: true,
        }
    }

    /// The text of the page.
    pub fn into_text(self) -> Str
        ensures { result ≡ self.text }
    {
        let Page { text, fresh: _ } = self;
        Str::from_string(text)
    }

    /// Lays a keyword or a symbol.
    pub fn mark(&mut self, kind: Kind) -> Result<(), NoMemory>
        ensures { OnOk result (self.new ≡ lay self.old (mark_piece kind)) }
    {
        push_gap(&mut self.text, self.fresh, closes(kind))?;
        self.text.push_str(kind.spelling())?;
        self.fresh = opens(kind);
        Ok(())
    }

    /// Lays the name of a function, or VARCHAR, with its `(`.
    pub fn opening(&mut self, kind: Kind) -> Result<(), NoMemory>
        ensures { OnOk result (self.new ≡ lay self.old (opening_piece kind)) }
    {
        push_gap(&mut self.text, self.fresh, closes(kind))?;
        self.text.push_str(kind.spelling())?;
        self.text.push_str("(")?;
        self.fresh = true;
        Ok(())
    }

    /// Lays a name.
    pub fn name(&mut self, name: &Name) -> Result<(), NoMemory>
        ensures { OnOk result (self.new ≡ lay self.old (name_piece name.now)) }
    {
        push_gap(&mut self.text, self.fresh, false)?;
        self.text.push_str(name.as_str())?;
        self.fresh = false;
        Ok(())
    }

    /// Lays two names with a dot between them.
    pub fn dotted(&mut self, of: &Name, name: &Name) -> Result<(), NoMemory>
        ensures { OnOk result (self.new ≡ lay self.old (dotted_piece of.now name.now)) }
    {
        push_gap(&mut self.text, self.fresh, false)?;
        self.text.push_str(of.as_str())?;
        self.text.push_str(".")?;
        self.text.push_str(name.as_str())?;
        self.fresh = false;
        Ok(())
    }

    /// Lays a name with `.*` after it.
    pub fn all_of(&mut self, name: &Name) -> Result<(), NoMemory>
        ensures { OnOk result (self.new ≡ lay self.old (all_of_piece name.now)) }
    {
        push_gap(&mut self.text, self.fresh, false)?;
        self.text.push_str(name.as_str())?;
        self.text.push_str(".*")?;
        self.fresh = false;
        Ok(())
    }

    /// Lays a text as a literal: between quotes, with each quote inside it twice.
    pub fn literal(&mut self, text: &Str) -> Result<(), NoMemory>
        ensures { OnOk result (self.new ≡ lay self.old (literal_piece text.now)) }
    {
        push_gap(&mut self.text, self.fresh, false)?;
        push_quoted(&mut self.text, text.as_str())?;
        self.fresh = false;
        Ok(())
    }

    /// Lays an integer literal, with its minus if it is negative.
    pub fn int(&mut self, n: i64) -> Result<(), NoMemory>
        ensures { OnOk result (self.new ≡ lay self.old (int_piece n)) }
    {
        push_gap(&mut self.text, self.fresh, false)?;
        push_int(&mut self.text, n)?;
        self.fresh = false;
        Ok(())
    }

    /// Lays a day, in days since 1970-01-01, as a literal 'yyyy-mm-dd'. A number that is no day of the years 0001 to
    /// 9999 gives the empty literal.
    pub fn date(&mut self, day: i32) -> Result<(), NoMemory>
        ensures { OnOk result (self.new ≡ lay self.old (literal_piece (date_text day))) }
    {
        push_gap(&mut self.text, self.fresh, false)?;
        self.text.push_str("'")?;
        push_date(&mut self.text, day)?;
        self.text.push_str("'")?;
        self.fresh = false;
        Ok(())
    }
}

// Whether no blank stands before the symbol.
#[tactic(auto, unfolding(lb_tok::specs::Kinds::has))]
fn closes(kind: Kind) -> bool
    ensures { result ≡ has closings kind }
{
    kind.is(Kind::Comma)
        || kind.is(Kind::Close)
        || kind.is(Kind::RightBracket)
        || kind.is(Kind::RightBrace)
}

// Whether no blank stands after the symbol.
#[tactic(auto, unfolding(lb_tok::specs::Kinds::has))]
fn opens(kind: Kind) -> bool
    ensures { result ≡ has openings kind }
{
    kind.is(Kind::Open) || kind.is(Kind::LeftBracket) || kind.is(Kind::LeftBrace)
}

fn push_gap(out: &mut String, fresh: bool, closing: bool) -> Result<(), NoMemory>
    ensures { OnOk result (string_bytes out.new ≡ string_bytes out.old ++ gap fresh closing) }
{
    if fresh || closing {
        Ok(())
    } else {
        out.push_str(" ")
    }
}

fn push_int(out: &mut String, n: i64) -> Result<(), NoMemory>
    ensures { OnOk result (string_bytes out.new ≡ string_bytes out.old ++ signed_decimal n) }
{
    write!(out, "{n}")
}

/// A text between single quotes, with each quote inside it twice, goes to the end of `out`. The only error is out of memory.
pub fn push_quoted(out: &mut String, text: &str) -> Result<(), NoMemory>
    ensures { OnOk result (string_bytes out.new ≡ string_bytes out.old ++ quoted text.now) }
{
    out.push_str("'")?;
    push_doubled(out, text)?;
    out.push_str("'")
}

fn push_doubled(out: &mut String, text: &str) -> Result<(), NoMemory>
    ensures { OnOk result (string_bytes out.new ≡ string_bytes out.old ++ doubled text.now) }
{
    for c in text.chars() {
        push_char(out, c)?;
    }
    Ok(())
}

// A character, and a quote twice.
fn push_char(out: &mut String, c: char) -> Result<(), NoMemory>
    ensures { OnOk result (string_bytes out.new ≡ string_bytes out.old ++ doubled (encode_utf8 c)) }
{
    if c == '\'' {
        out.push_str("''")
    } else {
        out.push(c)
    }
}
