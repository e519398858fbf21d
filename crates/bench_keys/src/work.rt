//! How much work is timed.

ghost use Rattle.std.specs.Prelude.{◌<◌};

use esx_types::VmId;
use std::{env, io};

/// Fewer hints than there is room for, and at least one.
#[derive(Drop)]
pub struct Work {
    pub vm: VmId,
    pub room: u32,
    pub hints: u32,
    pub operations: u32,
    pub pages: u32,
    ghost some_hint: { 0 < hints },
    ghost fits: { hints < room },
}

fn wrong_words() -> io::Error {
    io::Error::from(io::ErrorKind::InvalidInput)
}

/// The number that a word is.
fn number(word: Option<String>) -> io::Result<u32> {
    let Some(word) = word else {
        return Err(wrong_words());
    };
    match word.as_str().parse() {
        Ok(number) => Ok(number),
        Err(_) => Err(wrong_words()),
    }
}

impl Work {
    /// Reads room, hints, operations and pages.
    pub fn read(words: &mut env::Args) -> io::Result<Work> {
        let room = number(words.next())?;
        let hints = number(words.next())?;
        let operations = number(words.next())?;
        let pages = number(words.next())?;
        if hints == 0 || room <= hints {
            return Err(wrong_words());
        }
        Ok(Work {
            vm: VmId::new(0),
            room,
            hints,
            operations,
            pages,
        })
    }
}
