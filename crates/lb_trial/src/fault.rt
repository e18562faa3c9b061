// Why a statement isn't tried.
use lb_readable::ReadFault;
use std::alloc::AllocError;
use thiserror::Error;

/// Why a statement isn't tried. It changes nothing then.
#[derive(Debug, Drop, Error)]
pub enum Fault {
    /// The text is no statement: it goes wrong at this byte, counted from 0.
    #[error("the text goes wrong at byte {0}")]
    Syntax(u32),
    /// The statement is no change of the catalogue.
    #[error("the statement changes no catalogue")]
    NoChange,
    /// There are rows of 64 tables, and this would be one more.
    #[error("there are rows of 64 tables")]
    ManyTables,
    /// The rows are too many to be counted.
    #[error("the table has too many rows")]
    ManyRows,
    /// Memory was refused.
    #[error("NOMEMORY")]
    NoMemory,
}

impl From<AllocError> for Fault {
    fn from(_error: AllocError) -> Fault {
        Fault::NoMemory
    }
}

impl From<ReadFault> for Fault {
    fn from(fault: ReadFault) -> Fault {
        match fault {
            ReadFault::Syntax(at) => Fault::Syntax(at),
            ReadFault::NoMemory => Fault::NoMemory,
        }
    }
}
