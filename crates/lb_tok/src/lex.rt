// The lexer: the tokens of a text with their spans, or the byte that begins none.
ghost use Rattle.std.specs.Prelude.{◌≡◌, ◌==◌, ◌&&◌, ◌≤◌, ◌<◌, ◌^◌, ◌+◌, ◌-◌, ◌∷◌, ◌++◌, [], length, IfOk, IfErr, IfSome, MatchOption, MatchResult, Some, None, List, ℕ, true, false, IsUtf8, string_bytes, OnErr, OnOk};
ghost use Rattle.std.specs.Char.{is_ascii_digit};
ghost use Rattle.std.specs.List.{list_all};
ghost use Rattle.std.specs.Str.{IsValidUpTo};
ghost use Rattle.std.specs.Option.{option_map, option_and_then};
ghost use Rattle.lb_base.specs.Names.{is_name_byte, name_of};
ghost use Rattle.lb_tok.specs.Faults.{IsTextFault};
ghost use Rattle.lb_tok.specs.Limit.{most_statement_bytes};
ghost use Rattle.lb_tok.specs.Lexing.{begins, is_blank, is_line, is_quoteless, symbol_token, word_token, Lexed, number_token, text_token};
ghost use Rattle.lb_tok.specs.Scanning.{NoneBegins, past_gap, past_gap_in, split_run, value_more, value_on, quoted_from, single, double, symbol_from, word_from, number_from, token_from};
ghost use Rattle.lb_tok.specs.declared.lex.ReadFault.TheVariants.{Syntax, NoMemory};

use crate::{Content, Kind, Span, Token, Tokens};
use lb_base::{Listing, Name, Str};
use std::alloc::{AllocError, AllocFailed, Global};
use std::str;

/// The most bytes that a statement may have: `most_statement_bytes` of the definitions.
pub const MOST_STATEMENT_BYTES: usize = 4096;

/// Why a text is not read.
#[derive(Clone, Copy, Debug, PartialEq, Eq)]
pub enum ReadFault {
    /// The text is no statement; with the offset in bytes at which it goes wrong.
    Syntax(u32),
    /// Out of memory.
    NoMemory,
}

impl From<AllocError> for ReadFault {
    ghost from_gives = { λ _ e. e ≡ NoMemory };

    fn from(_: AllocError) -> Self {
        ReadFault::NoMemory
    }
}

impl<T: Drop> From<AllocFailed<T>> for ReadFault {
    ghost from_gives = { λ _ e. e ≡ NoMemory };

    fn from(_: AllocFailed<T>) -> Self {
        ReadFault::NoMemory
    }
}

// The first byte where it is ASCII, and what follows it.
#[tactic(auto, using(crate::proofs::Gaps::high_first))]
fn ascii<'a>(text: &'a str) -> Option<(u8, &'a str)>
    ensures { MatchOption result ((b : ℕ) (bs : List ℕ) → text.now ≡ b ∷ bs → 128 ≤ b) (λ r. (text.now ≡ r.0 ∷ r.1.now) × (r.0 < 128)) }
{
    let mut chars = text.chars();
    match chars.next() {
        None => None,
        Some(c) => {
            if c.is_ascii() {
                Some((c as u8, chars.as_str()))
            } else {
                None
            }
        }
    }
}

fn is_blank(b: u8) -> bool
    ensures { result ≡ is_blank b }
{
    b == b' ' || b == b'\t' || b == b'\r' || b == b'\n'
}

fn is_name_byte(b: u8) -> bool
    ensures { result ≡ is_name_byte b }
{
    b.is_ascii_alphanumeric() || b == b'_'
}

// Whether the text begins with a minus.
fn begins_with_minus(text: &str) -> bool
    ensures { result ≡ begins (λ c. c == 45) text.now }
{
    match ascii(text) {
        Some((b, _)) => b == b'-',
        None => false,
    }
}

// The text up to the next line feed, and what follows that.
fn cut_line<'a>(text: &'a str) -> Option<(&'a str, &'a str)>
    ensures { MatchOption result (is_line text.now ≡ true) (λ r. (text.now ≡ r.0.now ++ 10 ∷ r.1.now) × (is_line r.0.now ≡ true)) }
{
    text.split_once('\n')
}

// What follows the rest of the line.
#[tactic(auto, using(crate::proofs::Gaps::line_passed, crate::proofs::Gaps::past_last_line))]
fn next_line<'a>(text: &'a str) -> &'a str
    ensures value { past_gap_in true text.now ≡ past_gap_in false result.now }
    ensures within { length result.now ≤ length text.now }
{
    match cut_line(text) {
        Some((_, after)) => after,
        None => "",
    }
}

// Whether a comment begins with the byte and what follows it.
fn begins_comment(b: u8, after: &str) -> bool
    ensures { result ≡ (b == 45 && begins (λ c. c == 45) after.now) }
{
    b == b'-' && begins_with_minus(after)
}

// What follows one blank or one comment in front. None where neither stands there.
#[tactic(auto, using(crate::proofs::Gaps::past_blank, crate::proofs::Gaps::past_comment, crate::proofs::Gaps::past_none, crate::proofs::Gaps::past_high))]
fn past_piece<'a>(text: &'a str) -> Option<&'a str>
    ensures { MatchOption result (past_gap text.now ≡ text.now) (λ r. (past_gap text.now ≡ past_gap r.now) × (length r.now < length text.now)) }
{
    let (b, after) = ascii(text)?;
    if is_blank(b) {
        Some(after)
    } else if begins_comment(b, after) {
        Some(next_line(after))
    } else {
        None
    }
}

// What follows the blanks and comments in front.
fn after_gap<'a>(text: &'a str) -> &'a str
    ensures { result.now ≡ past_gap text.now }
{
    let mut rest = text;
    while let Some(after) = past_piece(rest) {
        rest = after;
    }
    rest
}

// The first byte where a name may have it, and what follows it.
fn name_byte<'a>(text: &'a str) -> Option<(u8, &'a str)>
    ensures { MatchOption result (NoneBegins is_name_byte text.now) (λ r. (text.now ≡ r.0 ∷ r.1.now) × (is_name_byte r.0 ≡ true) × (r.0 < 128)) }
{
    let (b, after) = ascii(text)?;
    if is_name_byte(b) {
        Some((b, after))
    } else {
        None
    }
}

// The word in front, and what follows it.
#[tactic(auto, using(crate::proofs::Runs::run_begins, crate::proofs::Runs::run_goes_on, crate::proofs::Runs::run_ends))]
fn word_run<'a>(alloc: Global, text: &'a str) -> Result<(String, &'a str), AllocError>
    ensures { IfOk result (λ r. (string_bytes r.0, r.1.now) ≡ split_run is_name_byte text.now) }
{
    let mut word = String::new(alloc);
    let mut rest = text;
    while let Some((b, after)) = name_byte(rest) {
        word.push(char::from(b))?;
        rest = after;
    }
    Ok((word, rest))
}

// The first byte where it is a digit, and what follows it.
fn digit<'a>(text: &'a str) -> Option<(u8, &'a str)>
    ensures { MatchOption result (NoneBegins is_ascii_digit text.now) (λ r. (text.now ≡ r.0 ∷ r.1.now) × (is_ascii_digit r.0 ≡ true)) }
{
    let (b, after) = ascii(text)?;
    if b.is_ascii_digit() {
        Some((b, after))
    } else {
        None
    }
}

// The digits in front as a number of at most 2^63, and what follows them. No number where it would be larger.
#[tactic(auto, using(crate::proofs::Runs::value_begins, crate::proofs::Runs::value_goes_on, crate::proofs::Runs::value_ends, crate::proofs::Runs::value_rests))]
fn digits<'a>(text: &'a str) -> (Option<u64>, &'a str)
    ensures value { result.0 ≡ value_on (Some 0) (split_run is_ascii_digit text.now).0 }
    ensures rest { result.1.now ≡ (split_run is_ascii_digit text.now).1 }
{
    let mut value = Some(0);
    let mut rest = text;
    while let Some((b, after)) = digit(rest) {
        value = with_digit(value, b);
        rest = after;
    }
    (value, rest)
}

fn with_digit(value: Option<u64>, digit: u8) -> Option<u64>
    requires { is_ascii_digit digit ≡ true }
    ensures { result ≡ option_and_then (λ n. value_more n digit) value }
{
    let value = value?
        .checked_mul(10)?
        .checked_add(u64::from(digit - b'0'))?;
    if value <= 9223372036854775808 {
        Some(value)
    } else {
        None
    }
}

// The text up to the next quote, and what follows that quote.
fn cut<'a>(text: &'a str) -> Option<(&'a str, &'a str)>
    ensures { MatchOption result (is_quoteless text.now ≡ true) (λ r. (text.now ≡ r.0.now ++ 39 ∷ r.1.now) × (is_quoteless r.0.now ≡ true)) }
{
    text.split_once('\'')
}

// What follows a quote in front.
fn past_quote<'a>(text: &'a str) -> Option<&'a str>
    ensures { MatchOption result ((rest : List ℕ) → text.now ≡ 39 ∷ rest → ⊥) (λ r. text.now ≡ 39 ∷ r.now) }
{
    text.strip_prefix('\'')
}

// The text after an opening quote, and what follows its closing one. None where it is not closed.
#[tactic(auto, using(crate::proofs::Gaps::quoted_piece, crate::proofs::Gaps::quoted_doubled, crate::proofs::Gaps::quoted_ends, crate::proofs::Gaps::quoted_none))]
fn quoted<'a>(alloc: Global, text: &'a str) -> Result<Option<(Str, &'a str)>, AllocError>
    ensures { IfOk result (λ o. option_map (λ r. (r.0, r.1.now)) o ≡ quoted_from [] text.now) }
{
    let mut content = String::new(alloc);
    let mut rest = text;
    while let Some((piece, after)) = cut(rest) {
        content.push_str(piece)?;
        match past_quote(after) {
            Some(more) => {
                content.push('\'')?;
                rest = more;
            }
            None => return Ok(Some((Str::from_string(content), after))),
        }
    }
    Ok(None)
}

fn single(b: u8) -> Option<Kind>
    ensures { result ≡ single b }
{
    match b {
        b'(' => Some(Kind::Open),
        b')' => Some(Kind::Close),
        b',' => Some(Kind::Comma),
        b'.' => Some(Kind::Dot),
        b'=' => Some(Kind::Equal),
        b'<' => Some(Kind::Less),
        b'>' => Some(Kind::Greater),
        b'+' => Some(Kind::Plus),
        b'-' => Some(Kind::Minus),
        b'*' => Some(Kind::Star),
        b'[' => Some(Kind::LeftBracket),
        b']' => Some(Kind::RightBracket),
        b'{' => Some(Kind::LeftBrace),
        b'}' => Some(Kind::RightBrace),
        _ => None,
    }
}

fn double(b: u8, c: u8) -> Option<Kind>
    ensures { result ≡ double b c }
{
    if b == b'<' && c == b'>' || b == b'!' && c == b'=' {
        Some(Kind::NotEqual)
    } else if b == b'<' && c == b'=' {
        Some(Kind::AtMost)
    } else if b == b'>' && c == b'=' {
        Some(Kind::AtLeast)
    } else if b == b'|' && c == b'|' {
        Some(Kind::Bars)
    } else {
        None
    }
}

fn symbol_token(kind: Kind) -> Token
    ensures { result ≡ symbol_token kind }
{
    Token {
        kind,
        content: Content::Nothing,
    }
}

// The symbol that begins with the byte, the longer one first.
#[tactic(auto, using(crate::proofs::Runs::no_double), unfolding(crate::specs::Scanning::symbol_from))]
fn symbol<'a>(b: u8, after: &'a str) -> Option<(Token, &'a str)>
    ensures { option_map (λ r. (r.0, r.1.now)) result ≡ symbol_from b after.now }
{
    if let Some((c, rest)) = ascii(after) {
        if let Some(kind) = double(b, c) {
            return Some((symbol_token(kind), rest));
        }
    }
    match single(b) {
        Some(kind) => Some((symbol_token(kind), after)),
        None => None,
    }
}

// The token of a word in any case. None where the word is too long.
fn word_token(alloc: Global, word: &str) -> Result<Option<Token>, AllocError>
    ensures { IfOk result (λ o. o ≡ option_map word_token (name_of word.now)) }
{
    match Name::of(alloc, word)? {
        None => Ok(None),
        Some(name) => {
            let kind = Kind::of_word(name.as_str());
            let content = if kind.may_be_name() {
                Content::Word(name)
            } else {
                Content::Nothing
            };
            Ok(Some(Token { kind, content }))
        }
    }
}

// The token that begins with the byte, which stands at the front of the text before the rest of it.
#[tactic(auto, unfolding(crate::specs::Scanning::token_from))]
fn token_on<'a>(
    alloc: Global,
    text: &'a str,
    b: u8,
    after: &'a str,
) -> Result<Option<(Token, &'a str)>, AllocError>
    requires { text.now ≡ b ∷ after.now }
    ensures { IfOk result (λ o. option_map (λ r. (r.0, r.1.now)) o ≡ token_from text.now) }
{
    if b == b'\'' {
        return match quoted(alloc, after)? {
            Some((text, rest)) => Ok(Some((
                Token {
                    kind: Kind::Text,
                    content: Content::Text(text),
                },
                rest,
            ))),
            None => Ok(None),
        };
    }
    if b.is_ascii_alphabetic() {
        let (word, rest) = word_run(alloc, text)?;
        return match word_token(alloc, word.as_str())? {
            Some(token) => Ok(Some((token, rest))),
            None => Ok(None),
        };
    }
    if b.is_ascii_digit() {
        return match digits(text) {
            (Some(value), rest) => Ok(Some((
                Token {
                    kind: Kind::Numeral,
                    content: Content::Number(value),
                },
                rest,
            ))),
            (None, _) => Ok(None),
        };
    }
    Ok(symbol(b, after))
}

// The token in front, and what follows it. None where the first byte begins no token.
fn token_at<'a>(alloc: Global, text: &'a str) -> Result<Option<(Token, &'a str)>, AllocError>
    ensures { IfOk result (λ o. option_map (λ r. (r.0, r.1.now)) o ≡ token_from text.now) }
{
    match ascii(text) {
        None => Ok(None),
        Some((b, after)) => token_on(alloc, text, b, after),
    }
}

// The tokens of a text with their spans.
#[tactic(auto, using(crate::proofs::Texts::begun, crate::proofs::Texts::one_more, crate::proofs::Texts::all_found, crate::proofs::Texts::stopped))]
fn scan(alloc: Global, text: &str) -> Result<Tokens, AllocError>
    requires { length text.now < 2 ^ 32 }
    ensures { IfOk result (λ found. Lexed text.now found) }
{
    let mut tokens = Listing::empty(alloc);
    let mut spans = Listing::empty(alloc);
    let mut rest = after_gap(text);
    while !rest.is_empty() {
        let from = (text.len() - rest.len()) as u32;
        match token_at(alloc, rest)? {
            None => {
                return Ok(Tokens {
                    tokens,
                    spans,
                    stop: Some(from),
                    length: text.len() as u32,
                });
            }
            Some((token, after)) => {
                let to = (text.len() - after.len()) as u32;
                tokens.push(token)?;
                spans.push(Span { from, to })?;
                rest = after_gap(after);
            }
        }
    }
    Ok(Tokens {
        tokens,
        spans,
        stop: None,
        length: text.len() as u32,
    })
}

/// The tokens of a text, before the first byte that begins no token.
pub fn tokens(alloc: Global, text: &[u8]) -> Result<Tokens, ReadFault>
    ensures read { IfOk result (λ found. (length text.now ≤ most_statement_bytes) × IsUtf8 text.now × Lexed text.now found) }
    ensures paired { IfOk result (λ found. length found.spans ≡ length found.tokens) }
    // A text that is too long goes wrong at 4096, and one that is not UTF-8 after its longest front that is.
    ensures fault { IfErr result (IsTextFault text.now) }
{
    if text.len() > MOST_STATEMENT_BYTES {
        return Err(ReadFault::Syntax(MOST_STATEMENT_BYTES as u32));
    }
    match str::from_utf8(text) {
        Ok(text) => Ok(scan(alloc, text)?),
        Err(fault) => Err(ReadFault::Syntax(fault.valid_up_to() as u32)),
    }
}
