// What holds of reading, of every token list.
ghost use Rattle.std.specs.Prelude.{ℕ, List, true, false};
ghost use Rattle.lb_tok.specs.Grammar.{IsQueryOrWrite};
ghost use Rattle.lb_tok.specs.Changes.{IsDefinition};
ghost use Rattle.lb_tok.specs.declared.token.Token.{Token};
ghost use Rattle.lb_readq.specs.Judging.{Judged, Unique, Complete};
ghost use Rattle.lb_readd.specs.Choosing.{definers, BeginsWith, AreApart, AreAll, Decides};
ghost use Rattle.lb_readd.specs.Defining.{whole_at};

/// Reading a definition is exact, with any number of brackets that may be open: see the clauses.
pub fn defining_is_exact()
    // What is read is spelled by all of the tokens, which keep the limit. Where reading stops, the tokens before go on
    // to a definition, and no definition begins with those through the next one, or that one opens a bracket too many.
    ensures judged { (depth : ℕ) (tokens : List Token) → Judged IsDefinition depth tokens (whole_at depth tokens) }
    // A definition that keeps the limit is read.
    ensures complete { Complete IsDefinition whole_at }
{}

/// No tokens spell two definitions.
pub fn no_tokens_have_two_definitions()
    ensures { Unique IsDefinition }
{}

/// Definitions, and queries and writes, are all statements, and the first token tells which it is.
pub fn first_token_decides()
    // A definition begins with CREATE, ALTER, DROP, GRANT or REVOKE.
    ensures begins { BeginsWith definers IsDefinition }
    // No tokens spell a definition and a query or write too.
    ensures apart { AreApart IsQueryOrWrite IsDefinition }
    // There are no other statements.
    ensures all { AreAll IsQueryOrWrite IsDefinition }
    // Where the first token begins a definition, what is read, or refused, as a definition is so as any statement.
    ensures definitions { Decides true IsDefinition }
    // Where it does not, what is read, or refused, as a query or write is so as any statement.
    ensures others { Decides false IsQueryOrWrite }
{}
