ghost use Rattle.std.specs.Prelude.{◌≡◌};
ghost use Rattle.tqd_base.specs.declared.memory.Stop.TheVariants.{Memory as NoMemory};

use std::alloc::{AllocError, AllocFailed};

/// The want of memory: an allocation was refused.
#[derive(Clone, Copy, Debug, PartialEq, Eq)]
pub struct Memory;

impl From<AllocError> for Memory {
    fn from(_error: AllocError) -> Memory {
        Memory
    }
}

impl<T: Drop> From<AllocFailed<T>> for Memory {
    fn from(_error: AllocFailed<T>) -> Memory {
        Memory
    }
}

/// Why a call on input ended without its result: the input was refused, or memory was wanting.
#[derive(Clone, Copy, Debug, PartialEq, Eq)]
pub enum Stop<F> {
    Refused(F),
    Memory,
}

impl<F> From<Memory> for Stop<F> {
    ghost from_gives = { λ _ e. e ≡ NoMemory };

    fn from(_error: Memory) -> Stop<F> {
        Stop::Memory
    }
}

impl<F> From<AllocError> for Stop<F> {
    ghost from_gives = { λ _ e. e ≡ NoMemory };

    fn from(_error: AllocError) -> Stop<F> {
        Stop::Memory
    }
}

impl<F, T: Drop> From<AllocFailed<T>> for Stop<F> {
    ghost from_gives = { λ _ e. e ≡ NoMemory };

    fn from(_error: AllocFailed<T>) -> Stop<F> {
        Stop::Memory
    }
}
