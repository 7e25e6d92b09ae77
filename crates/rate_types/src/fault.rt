use crate::OutOfMemory;
use std::alloc::{AllocError, AllocFailed};
use std::fmt::Display;
use thiserror::Error;

/// Why a value isn't made.
#[derive(Debug, Drop, Error)]
#[error_bound(E: Display)]
pub enum Fault<E> {
    /// It is refused, for this cause.
    #[error("{0}")]
    Refused(E),
    /// There was no memory to read or to make it.
    #[error("out of memory")]
    OutOfMemory,
}

impl<E: Drop> From<AllocError> for Fault<E> {
    ghost use Rattle.std.specs.Prelude.{◌≡◌};
    ghost use Rattle.rate_types.specs.declared.fault.Fault.TheVariants as fault;

    ghost from_gives = { λ _ e. e ≡ fault.OutOfMemory };

    fn from(_: AllocError) -> Self {
        Fault::OutOfMemory
    }
}

impl<E: Drop, T: Drop> From<AllocFailed<T>> for Fault<E> {
    ghost use Rattle.std.specs.Prelude.{◌≡◌};
    ghost use Rattle.rate_types.specs.declared.fault.Fault.TheVariants as fault;

    ghost from_gives = { λ _ e. e ≡ fault.OutOfMemory };

    fn from(_: AllocFailed<T>) -> Self {
        Fault::OutOfMemory
    }
}

impl<E: Drop> From<OutOfMemory> for Fault<E> {
    ghost use Rattle.std.specs.Prelude.{◌≡◌};
    ghost use Rattle.rate_types.specs.declared.fault.Fault.TheVariants as fault;

    ghost from_gives = { λ _ e. e ≡ fault.OutOfMemory };

    fn from(_: OutOfMemory) -> Self {
        Fault::OutOfMemory
    }
}
