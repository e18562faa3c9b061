// The keywords and symbols that stand for what a tree holds.

ghost use Rattle.std.specs.Prelude.{◌≡◌};
ghost use Rattle.lb_tok.specs.QueryPieces.{comparison_kind, function_kind, sign_kind};

use lb_tok::Kind;
use lb_tree::{Comparison, Function};

/// The symbol of a comparison.
pub fn comparison(by: Comparison) -> Kind
    ensures { result ≡ comparison_kind by }
{
    match by {
        Comparison::Equal => Kind::Equal,
        Comparison::NotEqual => Kind::NotEqual,
        Comparison::Less => Kind::Less,
        Comparison::AtMost => Kind::AtMost,
        Comparison::Greater => Kind::Greater,
        Comparison::AtLeast => Kind::AtLeast,
    }
}

/// The name of a function.
pub fn function(function: Function) -> Kind
    ensures { result ≡ function_kind function }
{
    match function {
        Function::Length => Kind::Length,
        Function::Year => Kind::Year,
        Function::Month => Kind::Month,
        Function::Day => Kind::Day,
    }
}

/// The sign before a part of a sum.
pub fn sign(minus: bool) -> Kind
    ensures { result ≡ sign_kind minus }
{
    if minus { Kind::Minus } else { Kind::Plus }
}
