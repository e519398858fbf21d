//! What the program reads and writes.

use crate::{Done, Failure};

/// What the program reads, where it tells of its work, and where it writes what came of it.
#[derive(Drop)]
pub struct Streams<I: Drop, E: Drop, W: Drop> {
    pub reader: I,
    pub errors: E,
    pub writer: W,
}

/// How the program ended, and its streams as they are then.
#[derive(Drop)]
pub struct Ended<I: Drop, E: Drop, W: Drop> {
    pub ended: Result<Done, Failure>,
    pub streams: Streams<I, E, W>,
}
