// The types of the catalogue, and the keys that a statement depends on and a change touches.
ghost use Rattle.std.specs.Prelude.{◌≡◌, IfOk};

use crate::{Name, NoMemory};

/// The type of a column in the catalogue.
#[derive(Drop)]
pub enum Ty {
    Int,
    /// A text of at most so many bytes, from 1 to 254.
    Text(u32),
    Date,
    /// A label of the policy with this name.
    Label(Name),
}

/// A part of the catalogue or of the tables that has a stamp.
#[derive(Drop)]
pub enum Key {
    /// The record of a table.
    Table(Name),
    /// The rows of a table.
    Rows(Name),
    Policy(Name),
    Component(Name),
    User(Name),
}

impl Ty {
    /// An equal type in memory of its own.
    pub fn copy(&self) -> Result<Ty, NoMemory>
        ensures { IfOk result (λ c. c ≡ self.now) }
    {
        match self {
            Ty::Int => Ok(Ty::Int),
            Ty::Text(width) => Ok(Ty::Text(*width)),
            Ty::Date => Ok(Ty::Date),
            Ty::Label(policy) => {
                let policy = policy.copy()?;
                Ok(Ty::Label(policy))
            }
        }
    }
}

impl Key {
    /// An equal key in memory of its own.
    pub fn copy(&self) -> Result<Key, NoMemory>
        ensures { IfOk result (λ c. c ≡ self.now) }
    {
        match self {
            Key::Table(name) => {
                let name = name.copy()?;
                Ok(Key::Table(name))
            }
            Key::Rows(name) => {
                let name = name.copy()?;
                Ok(Key::Rows(name))
            }
            Key::Policy(name) => {
                let name = name.copy()?;
                Ok(Key::Policy(name))
            }
            Key::Component(name) => {
                let name = name.copy()?;
                Ok(Key::Component(name))
            }
            Key::User(name) => {
                let name = name.copy()?;
                Ok(Key::User(name))
            }
        }
    }
}
