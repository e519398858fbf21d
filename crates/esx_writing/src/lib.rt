//! How texts are written: in pieces, through a buffer of fixed size, with no memory taken on the way.
#![tactic(auto)]

mod buffer;
mod line;
mod pieces;

pub use buffer::{AnswerBuffer, DIGITS, ROOM, append_held, put, put_all, write_held};
pub use line::{Hex, Line, put_line};
pub use pieces::{Piece, put_pieces, write_pieces};

/// The parts of a text, one behind the other.
#[macro_export]
macro_rules! line {
    ($part:expr) => { $part };
    ($part:expr, $($rest:expr),+ $(,)?) => { ($part, $crate::line!($($rest),+)) };
}
