//! Why a text was not read: it has a bad line, or there is no memory. An error type names what its call can meet, and
//! no more, so a caller's match has no arm that can't be.
use mh_model::memory::NoMemory;
use std::alloc::AllocFailed;
use thiserror::Error;

/// Why a text was not read.
#[derive(Clone, Copy, Debug, PartialEq, Eq, Error)]
pub enum TextError {
    /// The first bad line, counted from 1. Line 0 is that of a text that is too long.
    #[error("bad line {0}")]
    Line(u64),
    #[error("no memory")]
    NoMemory,
}

impl<T: Drop> From<AllocFailed<T>> for TextError {
    ghost use Rattle.std.specs.Prelude.{◌≡◌};
    ghost use Rattle.mh_text.specs.declared.text_error.TextError.TheVariants.{NoMemory};

    ghost from_gives = { λ _ error. error ≡ NoMemory };

    fn from(_error: AllocFailed<T>) -> TextError {
        TextError::NoMemory
    }
}

impl From<NoMemory> for TextError {
    ghost use Rattle.std.specs.Prelude.{◌≡◌};
    ghost use Rattle.mh_text.specs.declared.text_error.TextError.TheVariants.{NoMemory};

    ghost from_gives = { λ _ error. error ≡ NoMemory };

    fn from(_error: NoMemory) -> TextError {
        TextError::NoMemory
    }
}
