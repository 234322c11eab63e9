use hex::FromHexError;
use std::alloc::{AllocError, AllocFailed};
use std::io;
use std::num::ParseIntError;

/// Why a line is not performed.
#[derive(Clone, Copy)]
pub(crate) enum Fault {
    Memory,
    Unreadable,
}

impl From<AllocError> for Fault {
    fn from(_error: AllocError) -> Fault {
        Fault::Memory
    }
}

impl<T: Drop> From<AllocFailed<T>> for Fault {
    fn from(_error: AllocFailed<T>) -> Fault {
        Fault::Memory
    }
}

// a vector of bytes fails to be written to only for want of memory
impl From<io::Error> for Fault {
    fn from(_error: io::Error) -> Fault {
        Fault::Memory
    }
}

impl From<ParseIntError> for Fault {
    fn from(_error: ParseIntError) -> Fault {
        Fault::Unreadable
    }
}

impl From<FromHexError> for Fault {
    fn from(_error: FromHexError) -> Fault {
        Fault::Unreadable
    }
}
