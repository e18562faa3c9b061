// The kinds of columns, as names and types ask for them.
ghost use Rattle.std.specs.Prelude.{◌≡◌};
ghost use Rattle.lb_names.specs.Kinds as kinds;
ghost use Rattle.lb_scope.specs.Found.{kind_in};

use lb_base::Ty;

/// The kind of an expression. A label's kind lends the name of its policy.
#[derive(Clone, Copy)]
pub enum Kind<'a> {
    /// A NULL literal, which takes the kind of the others.
    Null,
    Integer,
    Text,
    Date,
    /// A label of the policy with that name, as it is written.
    Label(&'a str),
}

/// The kind of the values of a type.
pub fn kind_of(ty: &Ty) -> Kind<'_>
    ensures { kind_in result ≡ kinds.kind_of ty.now }
{
    match ty {
        Ty::Int => Kind::Integer,
        Ty::Text(_) => Kind::Text,
        Ty::Date => Kind::Date,
        Ty::Label(policy) => Kind::Label(policy.as_str()),
    }
}
