// Why a command line is refused.
ghost use Rattle.std.specs.Prelude.{◌≡◌};
ghost use Rattle.shop_program.specs.{LineFaults.line_fault_of, declared.line_faults.LineFault.TheVariants.NoMemory};

use clap::error::ErrorKind;
use clap::{Command, Error};
use std::alloc::{AllocError, AllocFailed, Global};

/// Why a command line is refused: memory ran out, or clap's fault (a call for help is one).
#[derive(Drop)]
pub enum LineFault {
    NoMemory,
    Usage(Error),
}

impl From<Error> for LineFault {
    ghost from_gives = { λ fault e. e ≡ line_fault_of fault };

    fn from(fault: Error) -> LineFault {
        if fault.kind() == ErrorKind::OutOfMemory {
            LineFault::NoMemory
        } else {
            LineFault::Usage(fault)
        }
    }
}

impl From<AllocError> for LineFault {
    ghost from_gives = { λ _ e. e ≡ NoMemory };

    fn from(_fault: AllocError) -> LineFault {
        LineFault::NoMemory
    }
}

impl<T: Drop> From<AllocFailed<T>> for LineFault {
    ghost from_gives = { λ _ e. e ≡ NoMemory };

    fn from(_fault: AllocFailed<T>) -> LineFault {
        LineFault::NoMemory
    }
}

/// Makes the fault of matches that lack what the command asks for.
pub fn misread(alloc: Global) -> LineFault {
    match Command::new(alloc, "jobshop").error(ErrorKind::InvalidValue, "a value is missing") {
        Ok(fault) => LineFault::Usage(fault),
        Err(_) => LineFault::NoMemory,
    }
}
