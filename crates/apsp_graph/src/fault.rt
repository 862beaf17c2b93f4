//! Why a text is no matrix.

ghost use Rattle.std.specs.Prelude.{◌≡◌};
ghost use Rattle.apsp_graph.specs.declared.fault.MatrixFault.TheVariants.{OutOfMemory};

use std::alloc::{AllocError, AllocFailed};

/// The first fault. Lines count from 1.
#[derive(Clone, Copy, Debug, PartialEq, Eq)]
pub enum MatrixFault {
    /// The first line isn't two numbers.
    Head,
    /// There are no, or too many, vertices, or the tiles have a wrong side.
    Size,
    /// The line is missing, or has another item than a weight, or too few or too many items.
    Line { line: u32 },
    /// The line has a weight above 2^31 - 1.
    Weight { line: u32 },
    /// The line is no strike, or the strike is one too many.
    Fault { line: u32 },
    OutOfMemory,
}

impl From<AllocError> for MatrixFault {
    ghost from_gives = { λ _ e. e ≡ OutOfMemory };

    fn from(_e: AllocError) -> MatrixFault {
        MatrixFault::OutOfMemory
    }
}

impl<T: Drop> From<AllocFailed<T>> for MatrixFault {
    ghost from_gives = { λ _ e. e ≡ OutOfMemory };

    fn from(_e: AllocFailed<T>) -> MatrixFault {
        MatrixFault::OutOfMemory
    }
}
