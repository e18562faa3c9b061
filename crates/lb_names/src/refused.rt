// Why a statement is refused for its names or types.
use lb_base::Str;

/// A refusal for names or types.
#[derive(Drop)]
pub enum Refused {
    /// There is nothing of that name.
    Unknown(Str),
    /// The name is taken.
    Exists(Str),
    /// The text of a label goes wrong at this byte.
    BadLabel(u32),
    /// The node with this number breaks a type rule.
    Types(u32),
}
