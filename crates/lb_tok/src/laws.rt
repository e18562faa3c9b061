// What holds of texts and their tokens.
ghost use Rattle.std.specs.Prelude.{◌≡◌, ℕ, List};
ghost use Rattle.lb_stmt.specs.declared.write.Stmt.{Stmt};
ghost use Rattle.lb_tok.specs.declared.token.Token.{Token};
ghost use Rattle.lb_tok.specs.Canonical.{canonical, tokens_of};
ghost use Rattle.lb_tok.specs.Spelled.{AreTokens, IsSpoken, Spelled};

/// No text has two lists of tokens.
pub fn no_text_has_two_token_lists()
    ensures { (text : List ℕ) (some other : List Token) → AreTokens text some → AreTokens text other → some ≡ other }
{}

/// The canonical text of a statement that some text spells has the statement's tokens, which spell it.
pub fn canonical_text_spells_its_statement()
    ensures tokens { (s : Stmt) → IsSpoken s → AreTokens (canonical s) (tokens_of s) }
    ensures spells { (s : Stmt) → IsSpoken s → Spelled (canonical s) s }
{}
