//! Lines as they are written, word by word.

use itoa::Buffer;
use std::alloc::{AllocError, Global};

/// Lines that were written so far.
#[derive(Drop)]
pub struct LineText {
    bytes: Vec<u8>,
}

impl LineText {
    pub fn new(alloc: Global) -> LineText {
        LineText {
            bytes: Vec::new(alloc),
        }
    }

    pub fn bytes(&self) -> &[u8] {
        self.bytes.as_slice()
    }

    pub fn clear(&mut self) {
        self.bytes.clear();
    }

    /// A word, with what stands before it.
    pub fn word(&mut self, word: &str) -> Result<(), AllocError> {
        self.bytes.extend_from_slice(word.as_bytes())
    }

    /// A space and a number.
    pub fn number(&mut self, number: u64) -> Result<(), AllocError> {
        let mut digits = Buffer::new();
        self.bytes.extend_from_slice(b" ")?;
        self.bytes
            .extend_from_slice(digits.format(number).as_bytes())
    }

    /// Numbers, a space before each.
    pub fn numbers(&mut self, numbers: &[u64]) -> Result<(), AllocError> {
        for number in numbers {
            self.number(*number)?;
        }
        Ok(())
    }

    /// A word and numbers behind it, without the line's end.
    pub fn words(&mut self, word: &str, numbers: &[u64]) -> Result<(), AllocError> {
        self.word(word)?;
        self.numbers(numbers)
    }

    /// A whole line of a word and numbers.
    pub fn line(&mut self, word: &str, numbers: &[u64]) -> Result<(), AllocError> {
        self.words(word, numbers)?;
        self.end()
    }

    /// A space and eight bytes, in digits of base 16.
    pub fn hex(&mut self, word: u64) -> Result<(), AllocError> {
        self.bytes.extend_from_slice(b" ")?;
        self.more_hex(word)
    }

    /// Eight bytes more, in digits of base 16.
    pub fn more_hex(&mut self, word: u64) -> Result<(), AllocError> {
        let mut digits = [0u8; 16];
        let mut rest = word;
        for digit in &mut digits {
            let value = (rest & 15) as u8;
            *digit = if value < 10 {
                b'0' + value
            } else {
                b'a' + (value - 10)
            };
            rest >>= 4;
        }
        self.bytes.extend_from_slice(&digits)
    }

    pub fn end(&mut self) -> Result<(), AllocError> {
        self.bytes.extend_from_slice(b"\n")
    }
}
