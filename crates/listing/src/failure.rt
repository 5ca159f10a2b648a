ghost use Rattle.std.specs.Prelude.{◌≡◌, Some};
ghost use Rattle.listing.specs.declared.failure.Failure.TheVariants.{Refused, NoMemory};
ghost use Rattle.listing.specs.Failures.{words_of};

use geometry::Refusal;
use std::alloc::AllocError;
use std::error::Error;
use std::fmt;

// Why a call that allocates did not end with its result.
#[derive(Clone, Copy, Debug, PartialEq, Eq)]
pub enum Failure {
    Refused(Refusal),
    NoMemory,
}

impl From<Refusal> for Failure {
    ghost from_gives = { λ e r. r ≡ Refused e };

    fn from(e: Refusal) -> Failure {
        Failure::Refused(e)
    }
}

impl From<AllocError> for Failure {
    ghost from_gives = { λ _ r. r ≡ NoMemory };

    fn from(_e: AllocError) -> Failure {
        Failure::NoMemory
    }
}

impl<T: Drop> From<std::alloc::AllocFailed<T>> for Failure {
    ghost from_gives = { λ _ r. r ≡ NoMemory };

    fn from(_e: std::alloc::AllocFailed<T>) -> Failure {
        Failure::NoMemory
    }
}

impl fmt::Display for Failure {
    ghost output = { λ failure. Some (words_of failure) };

    fn fmt<W: fmt::Write>(&self, f: &mut fmt::Formatter<W>) -> fmt::Result {
        match *self {
            Failure::Refused(refusal) => write!(f, "{refusal}"),
            Failure::NoMemory => f.write_str("out of memory"),
        }
    }
}

impl Error for Failure {}
