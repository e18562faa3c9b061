// What holds of texts and their statements.
ghost use Rattle.std.specs.Prelude.{◌≡◌, ℕ, List, IsUtf8};
ghost use Rattle.lb_stmt.specs.declared.write.Stmt.{Stmt};
ghost use Rattle.lb_tok.specs.declared.token.Token.{Token};
ghost use Rattle.lb_tok.specs.Canonical.{canonical};
ghost use Rattle.lb_tok.specs.Changes.{IsStatement};
ghost use Rattle.lb_tok.specs.Spelled.{IsSpoken};
ghost use Rattle.lb_tok.specs.Syntax.{IsTextOf, GoesWrong, IsBeyond};

/// No list of tokens spells two statements.
pub fn no_tokens_spell_two_statements()
    ensures { (tokens : List Token) (some other : Stmt) → IsStatement tokens some → IsStatement tokens other → some ≡ other }
{}

/// No text is read as two statements.
pub fn no_text_is_two_statements()
    ensures { (text : List ℕ) (some other : Stmt) → IsTextOf text some → IsTextOf text other → some ≡ other }
{}

/// A text that is read as a statement goes wrong nowhere.
pub fn a_text_that_goes_wrong_is_no_statement()
    ensures { (text : List ℕ) (at : ℕ) (s : Stmt) → GoesWrong text at → IsTextOf text s → ⊥ }
{}

/// A text goes wrong at one byte, if at any.
pub fn a_text_goes_wrong_at_one_byte()
    ensures { (text : List ℕ) (some other : ℕ) → GoesWrong text some → GoesWrong text other → some ≡ other }
{}

/// Two statements that texts spell have one canonical text only where they are equal.
pub fn canonical_texts_tell_statements_apart()
    ensures { (some other : Stmt) → IsSpoken some → IsSpoken other → canonical some ≡ canonical other → some ≡ other }
{}

/// The canonical text of a statement that a text spells is read as that statement, unless it goes beyond a limit.
pub fn a_canonical_text_is_read_again()
    // What is read is the statement, and then its canonical text keeps both limits.
    ensures keeps { (s t : Stmt) → IsSpoken s → IsTextOf (canonical s) t → (t ≡ s) × (IsBeyond s → ⊥) }
    // Within both limits, the canonical text is read as the statement, if it is UTF-8.
    ensures within { (s : Stmt) → IsSpoken s → IsUtf8 (canonical s) → (IsBeyond s → ⊥) → IsTextOf (canonical s) s }
    // Where the canonical text goes wrong, it goes beyond a limit.
    ensures beyond { (s : Stmt) (at : ℕ) → IsSpoken s → IsUtf8 (canonical s) → GoesWrong (canonical s) at → IsBeyond s }
{}
