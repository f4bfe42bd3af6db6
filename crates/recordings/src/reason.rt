ghost use Rattle.std.specs.Prelude.{◌≡◌};
ghost use Rattle.recordings.specs.declared.reason.Reason.TheVariants.{BadNumber, NoMemory};

use std::alloc::AllocFailed;
use std::num::ParseIntError;
use thiserror::Error;

// Why a line is no call that can be carried out.
#[derive(Clone, Copy, Debug, Error)]
pub enum Reason {
    #[error("no word '=>'")]
    NoAnswer,
    #[error("no such call")]
    UnknownCall,
    #[error("no such task")]
    UnknownTask,
    #[error("a word is missing")]
    MissingWord,
    #[error("a word too many")]
    ExtraWord,
    #[error("a number cannot be read")]
    BadNumber,
    #[error("no such kind")]
    UnknownKind,
    #[error("a key that this kind does not have")]
    UnknownKey,
    #[error("a key stands twice")]
    RepeatedKey,
    #[error("a key is missing")]
    MissingKey,
    #[error("no memory")]
    NoMemory,
    #[error("no set was made")]
    NoSet,
    #[error("this kind has no such call")]
    OtherKind,
}

impl From<ParseIntError> for Reason {
    ghost from_gives = { λ _ r. r ≡ BadNumber };

    fn from(_error: ParseIntError) -> Reason {
        Reason::BadNumber
    }
}

impl<T: Drop> From<AllocFailed<T>> for Reason {
    ghost from_gives = { λ _ r. r ≡ NoMemory };

    fn from(_error: AllocFailed<T>) -> Reason {
        Reason::NoMemory
    }
}
