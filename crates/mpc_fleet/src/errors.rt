//! Why a pool has no registries.

use thiserror::Error;

/// Why a pool has no registries.
#[derive(Clone, Copy, Debug, PartialEq, Eq, Drop, Error)]
pub enum FleetError {
    #[error("out of memory")]
    NoMemory,
    /// A pool has from 1 to 32 workers.
    #[error("a pool has from 1 to 32 workers")]
    BadWorkers,
}
