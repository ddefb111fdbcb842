//! Why a text is refused.

ghost use Rattle.std.specs.Prelude.{◌≡◌};
ghost use Rattle.lu_text.specs.declared.fault.Fault.TheVariants.{Memory};

use std::alloc::{AllocError, AllocFailed};
use std::fmt::Display;
use thiserror::Error;

/// Why a text that is read by lines is refused: what is wrong, of a kind `K`, or that memory ran
/// out.
///
/// Shown, it is the kind's code and the line, as in `L2 line 3`, or `memory`.
#[derive(Clone, Copy, Debug, Drop, PartialEq, Eq, Error)]
#[error_bound(K: Display)]
pub enum Fault<K> {
    /// The first fault is of this kind, on this line, counted from 1.
    #[error("{0} line {1}")]
    At(K, usize),

    /// There was no memory to read the text with.
    #[error("memory")]
    Memory,
}

impl<K> From<AllocError> for Fault<K> {
    ghost from_gives = { λ _ e. e ≡ Memory };

    fn from(_e: AllocError) -> Fault<K> {
        Fault::Memory
    }
}

impl<K, T: Drop> From<AllocFailed<T>> for Fault<K> {
    ghost from_gives = { λ _ e. e ≡ Memory };

    fn from(_e: AllocFailed<T>) -> Fault<K> {
        Fault::Memory
    }
}
