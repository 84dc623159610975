// Why a text is refused.
ghost use Rattle.std.specs.Prelude.{◌≡◌};
ghost use Rattle.shop_text.specs.declared.faults.ReadFault.TheVariants.{NoMemory};

use std::alloc::{AllocError, AllocFailed};
use thiserror::Error;

/// Why a text is refused. Lines count from 1.
#[derive(Clone, Copy, Debug, PartialEq, Eq, Error)]
pub enum ReadFault {
    #[error("error 1: out of memory")]
    NoMemory,
    #[error("error 3: text too long")]
    TooLong,
    #[error("error 4: no instance")]
    NoInstance,
    #[error("error 5: line {line}: bad shape of size line")]
    BadShape { line: usize },
    #[error("error 6: line {line}: size out of range")]
    BadSize { line: usize },
    #[error("error 7: line {line}: bad row")]
    BadRow { line: usize },
    #[error("error 8: line {line}: text ends inside an instance")]
    Truncated { line: usize },
    #[error("error 9: line {line}: no such machine")]
    BadMachine { line: usize },
    #[error("error 10: line {line}: time out of range")]
    BadTime { line: usize },
    #[error("error 11: no instance of that name")]
    NoSuchName,
    #[error("error 12: line {line}: bad schedule")]
    BadTable { line: usize },
}

impl From<AllocError> for ReadFault {
    ghost from_gives = { λ _ e. e ≡ NoMemory };

    fn from(_e: AllocError) -> ReadFault {
        ReadFault::NoMemory
    }
}

impl<T: Drop> From<AllocFailed<T>> for ReadFault {
    ghost from_gives = { λ _ e. e ≡ NoMemory };

    fn from(_e: AllocFailed<T>) -> ReadFault {
        ReadFault::NoMemory
    }
}
