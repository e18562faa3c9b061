// Laws of reading, for every list of tokens and any number of brackets that may be open.
ghost use Rattle.std.specs.Prelude.{ℕ, List};
ghost use Rattle.lb_tok.specs.Grammar.{IsQueryOrWrite};
ghost use Rattle.lb_tok.specs.declared.token.Token.{Token};
ghost use Rattle.lb_readq.specs.Judging.{Judged, Unique, Complete, StartsSo};
ghost use Rattle.lb_readq.specs.Queries.{statement_at};

/// Reading is exact, with any number of brackets that may be open. It runs nothing: its clauses are laws of the definitions
/// that the contracts of the readers cite.
pub fn reading_is_exact()
    // What is read is spelled by all of the tokens, which keep the limit. Where reading stops, the tokens before that
    // place go on to a statement, and no statement begins with those through the next token, or that one opens one bracket
    // too many.
    ensures judged { (depth : ℕ) (tokens : List Token) → Judged IsQueryOrWrite depth tokens (statement_at depth tokens) }
    // A statement that keeps the limit is read.
    ensures complete { Complete IsQueryOrWrite statement_at }
    // A query or a write begins with SELECT, INSERT, UPDATE or DELETE.
    ensures starts { StartsSo IsQueryOrWrite }
{}

/// No list of tokens spells two queries or writes. It runs nothing.
pub fn no_tokens_spell_two_queries_or_writes()
    ensures { Unique IsQueryOrWrite }
{}
