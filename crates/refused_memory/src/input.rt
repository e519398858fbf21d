//! What is read, into room that takes no memory.

use std::io::{self, Read};

/// More than is read.
pub const ROOM: usize = 16384;

/// Reads to the end or until the room is full, and tells how many bytes it read.
pub fn fill<I: Read>(reader: &mut I, room: &mut [u8]) -> io::Result<usize> {
    let mut at: usize = 0;
    for _ in 0..ROOM {
        let Some(rest) = room.get_mut(at..) else {
            break;
        };
        let count = reader.read(rest)?;
        if count == 0 {
            break;
        }
        at = at.saturating_add(count);
    }
    Ok(at)
}
