//! How texts are read: whole, by the fields of a line, and by the numbers and bytes among them; and how
//! texts are refused.
#![tactic(auto)]

mod digits;
mod fault;
mod fields;
mod hex_digits;
mod space;
mod whole;
mod written;

pub use fault::TextFault;
pub use fields::{Fields, number_of};
pub use whole::{CHUNK, MAX_FILE, MAX_SESSION, READS, read_text, read_text_within, read_whole};
pub use written::{MAX_DIGITS, small_written_bytes, written_bytes};
