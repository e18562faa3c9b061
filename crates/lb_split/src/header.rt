// Reads a header line, `@SESSION` or `@SETUP`.
ghost use Rattle.std.specs.Prelude.{◌≡◌, ◌∷◌, [], IfOk, MatchOption, codes, not, length, ◌≤◌, drop};
ghost use Rattle.std.specs.List.{prefix_len};
ghost use Rattle.lb_base.specs.Names.{name_of};
ghost use Rattle.lb_split.specs.Headers.{is_space as space, spells as spelled, kind_of, groups_of, some_names, header_of, is_setup as setup_kind, words};

use crate::scan::tail;
use lb_base::{Listing, Name, Names, NoMemory};
use std::alloc::Global;
use std::marker::Model;

/// How many groups a header may name.
const MOST_GROUPS: usize = 16;

/// The kind of a section.
#[derive(Clone, Copy, Debug, PartialEq, Eq)]
pub enum SectionKind {
    /// The section that comes before all others and is run alone.
    Setup,
    /// A session's section.
    Session,
}

/// What a header line says.
#[derive(Drop)]
pub struct Header {
    /// The kind of the section that follows.
    pub kind: SectionKind,
    /// The user who runs it.
    pub user: Name,
    /// The user's groups, as written, at most 16.
    pub groups: Names,
}

impl Header {
    /// What the line says: `@SETUP` or `@SESSION` and a name, and then nothing or GROUPS and 1 to 16 names. None exactly
    /// where it is malformed.
    pub fn of(alloc: Global, line: &[u8]) -> Result<Option<Header>, NoMemory>
        ensures { IfOk result (λ h. h ≡ header_of line.now) }
    {
        let mut words = Words::of(line);
        let Some(kind) = words.next() else {
            return Ok(None);
        };
        let Some(user) = words.next() else {
            return Ok(None);
        };
        let Some(kind) = SectionKind::of(kind) else {
            return Ok(None);
        };
        let Some(user) = name(alloc, user)? else {
            return Ok(None);
        };
        let Some(groups) = groups(alloc, words)? else {
            return Ok(None);
        };
        Ok(Some(Header { kind, user, groups }))
    }
}

impl SectionKind {
    /// Whether it is the kind that comes before all others.
    pub fn is_setup(self) -> bool
        ensures { result ≡ setup_kind self }
    {
        match self {
            SectionKind::Setup => true,
            SectionKind::Session => false,
        }
    }

    /// The kind that a header's first word says, in any case.
    fn of(word: &[u8]) -> Option<SectionKind>
        ensures { result ≡ kind_of word.now }
    {
        if spells(word, b"@SETUP") {
            Some(SectionKind::Setup)
        } else if spells(word, b"@SESSION") {
            Some(SectionKind::Session)
        } else {
            None
        }
    }
}

/// Whether the word in upper case is this one.
fn spells(word: &[u8], want: &[u8]) -> bool
    ensures { result ≡ spelled want.now word.now }
{
    if word.len() != want.len() {
        return false;
    }
    for i in 0..word.len() {
        if word[i].to_ascii_uppercase() != want[i] {
            return false;
        }
    }
    true
}

/// The name that a word spells. None exactly where it spells none.
fn name(alloc: Global, word: &[u8]) -> Result<Option<Name>, NoMemory>
    ensures { IfOk result (λ n. n ≡ name_of word.now) }
{
    match std::str::from_utf8(word) {
        Ok(text) => Name::of(alloc, text),
        Err(_) => Ok(None),
    }
}

/// The groups that the words after the user say: none where no word is left, else GROUPS and 1 to 16 names.
fn groups(alloc: Global, words: Words) -> Result<Option<Names>, NoMemory>
    ensures { IfOk result (λ g. g ≡ groups_of words.entry) }
{
    let mut words = words;
    match words.next() {
        None => Ok(Some(Listing::empty(alloc))),
        Some(word) => {
            if spells(word, b"GROUPS") {
                names(alloc, words)
            } else {
                Ok(None)
            }
        }
    }
}

/// The names that the words spell. None where there are none or more than 16, or one of them spells no name.
fn names(alloc: Global, words: Words) -> Result<Option<Names>, NoMemory>
    ensures { IfOk result (λ g. g ≡ some_names words.entry) }
{
    let mut words = words;
    let mut names = Listing::empty(alloc);
    'words: while let Some(word) = words.next() {
        if names.len() == MOST_GROUPS {
            return Ok(None);
        }
        match name(alloc, word)? {
            Some(name) => names.push(name)?,
            None => return Ok(None),
        }
    }
    if names.len() == 0 {
        return Ok(None);
    }
    Ok(Some(names))
}

fn is_space(b: u8) -> bool
    ensures { result ≡ space b }
{
    b == b' ' || b == b'\t'
}

/// The words of a line that are left, between spaces and tabs.
#[derive(Drop)]
struct Words<'a> {
    rest: &'a [u8],
}

impl<'a> Model for Words<'a> {
    ghost use Rattle.std.specs.Prelude.{List, ℕ};
    ghost use Rattle.lb_split.specs.Headers.{words};

    ghost Value = { List (List ℕ) };

    ghost view = { λ s. words s.rest.now };
}

impl<'a> Words<'a> {
    /// The words of the line.
    fn of(line: &'a [u8]) -> Words<'a>
        ensures { result ≡ words line.now }
    {
        Words { rest: line }
    }

    /// The next word. None where none is left.
    fn next(&mut self) -> Option<&'a [u8]>
        ensures { MatchOption result ((self.old ≡ []) × (self.new ≡ [])) (λ w. self.old ≡ w.now ∷ self.new) }
    {
        let text = tail(self.rest, space_len(self.rest));
        let len = word_len(text);
        let (word, rest) = text.split_at(len);
        self.rest = rest;
        if word.is_empty() {
            return None;
        }
        Some(word)
    }
}

fn space_len(text: &[u8]) -> usize
    ensures value { result ≡ prefix_len space text.now }
    ensures within { result ≤ length text.now }
{
    text.iter().take_while(|b| is_space(**b)).count()
}

fn word_len(text: &[u8]) -> usize
    ensures value { result ≡ prefix_len (λ b. not (space b)) text.now }
    ensures within { result ≤ length text.now }
{
    text.iter().take_while(|b| !is_space(**b)).count()
}
