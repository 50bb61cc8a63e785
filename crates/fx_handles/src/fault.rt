use thiserror::Error;

/// Why a value was not inserted. Each fault hands the value back.
#[derive(Debug, Drop, Error)]
pub enum InsertFault<T> {
    /// So many slots are in use or retired that no more may be.
    #[error("the arena is full")]
    Full(T),
    /// There was no memory for the value.
    #[error("out of memory")]
    OutOfMemory(T),
}
