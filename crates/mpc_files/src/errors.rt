//! Why nothing is found of a controller's file.

ghost use Rattle.std.specs.Prelude.{◌≡◌};
ghost use Rattle.mpc_files.specs.FileAnswers.{of_reader, of_checker};

use mpc_check::CheckError;
use mpc_file::{FileError, FileKind};
use mpc_rows::Place;
use thiserror::Error;

/// Why nothing is found of a controller's file.
#[derive(Clone, Copy, Debug, Drop, Error)]
pub enum CheckFileError {
    /// The line with this number, from 1, is the first that fails.
    #[error("line {1} isn't that of a controller's file")]
    BadFile(FileKind, u64),
    /// The cost isn't positive definite: this pivot is the first that isn't positive.
    #[error("the cost isn't positive definite: pivot {0} isn't positive")]
    NotDefinite(u32),
    /// The first condition that isn't met needs more than 128 bits, at this place.
    #[error("a number of the check needs more than 128 bits")]
    TooWide(Place),
    /// There is no more memory.
    #[error("out of memory")]
    NoMemory,
}

impl From<FileError> for CheckFileError {
    ghost from_gives = { λ error e. e ≡ of_reader error };

    fn from(error: FileError) -> CheckFileError {
        match error {
            FileError::Bad(kind, number) => CheckFileError::BadFile(kind, number),
            FileError::NoMemory => CheckFileError::NoMemory,
        }
    }
}

impl From<CheckError> for CheckFileError {
    ghost from_gives = { λ error e. e ≡ of_checker error };

    fn from(error: CheckError) -> CheckFileError {
        match error {
            CheckError::TooWide(place) => CheckFileError::TooWide(place),
            CheckError::NotDefinite(pivot) => CheckFileError::NotDefinite(pivot),
            CheckError::NoMemory => CheckFileError::NoMemory,
        }
    }
}
