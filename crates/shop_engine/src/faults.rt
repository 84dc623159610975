// Why an engine refuses.
ghost use Rattle.std.specs.Prelude.{◌≡◌};
ghost use Rattle.shop_engine.specs.{Faults.fault_of, declared.faults.Fault.TheVariants.NoMemory};

use shop_text::ReadFault;
use std::alloc::{AllocError, AllocFailed};
use thiserror::Error;

/// Why an engine refuses: memory ran out, a text is refused, or a device failed. Lines count from 1.
#[derive(Clone, Copy, Debug, PartialEq, Eq, Error)]
pub enum Fault {
    #[error("error 1: out of memory")]
    NoMemory,
    #[error("error 3: text too long")]
    TooLong,
    #[error("error 4: no instance")]
    NoInstance,
    #[error("error 5: line {line}: bad shape of size line")]
    BadShape { line: usize },
    #[error("error 6: line {line}: size out of range")]
    BadSize { line: usize },
    #[error("error 7: line {line}: bad row")]
    BadRow { line: usize },
    #[error("error 8: line {line}: text ends inside an instance")]
    Truncated { line: usize },
    #[error("error 9: line {line}: no such machine")]
    BadMachine { line: usize },
    #[error("error 10: line {line}: time out of range")]
    BadTime { line: usize },
    #[error("error 11: no instance of that name")]
    NoSuchName,
    #[error("error 12: line {line}: bad schedule")]
    BadTable { line: usize },
    #[error("error 13: read failed")]
    ReadFailed,
    #[error("error 14: write failed")]
    WriteFailed,
}

impl From<ReadFault> for Fault {
    ghost from_gives = { λ fault e. e ≡ fault_of fault };

    fn from(fault: ReadFault) -> Fault {
        match fault {
            ReadFault::NoMemory => Fault::NoMemory,
            ReadFault::TooLong => Fault::TooLong,
            ReadFault::NoInstance => Fault::NoInstance,
            ReadFault::BadShape { line } => Fault::BadShape { line },
            ReadFault::BadSize { line } => Fault::BadSize { line },
            ReadFault::BadRow { line } => Fault::BadRow { line },
            ReadFault::Truncated { line } => Fault::Truncated { line },
            ReadFault::BadMachine { line } => Fault::BadMachine { line },
            ReadFault::BadTime { line } => Fault::BadTime { line },
            ReadFault::NoSuchName => Fault::NoSuchName,
            ReadFault::BadTable { line } => Fault::BadTable { line },
        }
    }
}

impl From<AllocError> for Fault {
    ghost from_gives = { λ _ e. e ≡ NoMemory };

    fn from(_e: AllocError) -> Fault {
        Fault::NoMemory
    }
}

impl<T: Drop> From<AllocFailed<T>> for Fault {
    ghost from_gives = { λ _ e. e ≡ NoMemory };

    fn from(_e: AllocFailed<T>) -> Fault {
        Fault::NoMemory
    }
}
