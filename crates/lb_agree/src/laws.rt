// Laws over the definitions. Each is the contract of a function that does nothing.
ghost use Rattle.std.specs.Prelude.{◌≡◌, ◌+◌, ◌↔◌, ℕ, true, false, List, [], ◌∷◌, None, Some, drop, length};
ghost use Rattle.lb_stmt.specs.declared.write.Stmt.{Stmt};
ghost use Rattle.lb_split.specs.Lexing.{begins, gap_len, statement_len, is_blank, is_quit};
ghost use Rattle.lb_tok.specs.declared.token.Span.{Span};
ghost use Rattle.lb_tok.specs.declared.token.Tokens.{Tokens};
ghost use Rattle.lb_tok.specs.Lexing.{Lexed};
ghost use Rattle.lb_tok.specs.Spelled.{AreTokens};
ghost use Rattle.lb_tok.specs.Syntax.{IsTextOf};
ghost use Rattle.lb_agree.specs.Agreeing.{quit_token};

/// Tokens read quotes and comments as pieces do.
pub fn pieces_and_tokens_agree()
    // Where all of a text is tokens, no `;` in it ends a statement.
    ensures whole { (text : List ℕ) (found : Tokens) → Lexed text found → found.stop ≡ None → statement_len text ≡ length text }
    // Where a byte begins no token, no `;` before it ends a statement, and it stands outside quotes and comments: what
    // begins there is read as at the start of a statement. So where it is a `;`, the statement ends there.
    ensures stop { (text : List ℕ) (found : Tokens) (at : ℕ) → Lexed text found → found.stop ≡ Some at → statement_len text ≡ at + statement_len (drop at text) }
    // In a text that is one statement no token is missed at a `;`.
    ensures no_end { (text : List ℕ) (found : Tokens) (at : ℕ) → Lexed text found → found.stop ≡ Some at → statement_len text ≡ length text → begins 59 (drop at text) ≡ false }
{}

/// The gap that pieces pass over, to see whether a `@` follows, is the one before the first token.
pub fn the_first_token_stands_after_the_gap()
    // A text that has a token has its first one there.
    ensures first { (text : List ℕ) (found : Tokens) (s : Span) (ss : List Span) → Lexed text found → found.spans ≡ s ∷ ss → s.from ≡ gap_len text }
    // A text that has none, for a byte that begins no token, as `@`, has that byte there.
    ensures stopped { (text : List ℕ) (found : Tokens) (at : ℕ) → Lexed text found → found.tokens ≡ [] → found.stop ≡ Some at → at ≡ gap_len text }
{}

/// No `;` in a text that is read as a statement ends a statement, so the text is not cut.
pub fn a_statement_that_is_read_is_cut_nowhere()
    ensures { (text : List ℕ) (s : Stmt) → IsTextOf text s → statement_len text ≡ length text }
{}

/// A statement is blank exactly where it has no tokens.
pub fn a_blank_statement_has_no_tokens()
    ensures { (text : List ℕ) → (is_blank text ≡ true) ↔ AreTokens text [] }
{}

/// A statement is QUIT exactly where its one token is the word QUIT.
pub fn quit_is_its_one_token()
    ensures { (text : List ℕ) → (is_quit text ≡ true) ↔ AreTokens text (quit_token ∷ []) }
{}
