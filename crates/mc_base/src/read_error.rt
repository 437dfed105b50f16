//! Why a reader of a text stops.

ghost use Rattle.std.specs.Prelude.{◌≡◌};
ghost use Rattle.mc_base.specs.declared.read_error.ReadError.TheVariants as errors;

use std::alloc::{AllocError, AllocFailed};

/// A rule of a grammar that a text breaks, by its number (7 of `h7`), and the byte at which it does.
#[derive(Clone, Copy)]
pub struct Fault {
    pub at: u64,
    pub rule: u8,
}

/// Out of memory, or a fault of the text.
#[derive(Drop)]
pub enum ReadError<F> {
    Memory,
    Fault(F),
}

impl<F> From<AllocError> for ReadError<F> {
    ghost use Rattle.std.specs.Prelude.{◌≡◌};
    ghost use Rattle.mc_base.specs.declared.read_error.ReadError.TheVariants.{Memory};

    ghost from_gives = { λ _ e. e ≡ Memory };

    fn from(_error: AllocError) -> Self {
        ReadError::Memory
    }
}

impl<F, T: Drop> From<AllocFailed<T>> for ReadError<F> {
    ghost use Rattle.std.specs.Prelude.{◌≡◌};
    ghost use Rattle.mc_base.specs.declared.read_error.ReadError.TheVariants.{Memory};

    ghost from_gives = { λ _ e. e ≡ Memory };

    fn from(_error: AllocFailed<T>) -> Self {
        ReadError::Memory
    }
}

/// The fault at this byte.
pub fn fault_at(at: u64, rule: u8) -> ReadError<Fault>
    ensures { result ≡ errors.Fault (record { at = at; rule = rule }) }
{
    ReadError::Fault(Fault { at, rule })
}
