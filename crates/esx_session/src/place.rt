//! Where a reader is in the lines of a text.

ghost use Rattle.std.specs.Prelude.{◌≡◌, ◌∷◌, ◌++◌, ◌+◌, ◌≤◌, ◌^◌, [], ℕ, List, MatchOption, IfSome, IfNone, get_or, false};
ghost use Rattle.std.specs.List.{All};
ghost use Rattle.std.specs.Str.Lines.{lines};
ghost use Rattle.esx_session.specs.Reading.{HasNoFeed, Quotes, LeavesReply};

use crate::line::reply_of;
use memchr::memchr;
use std::marker::Model;

/// The text before the first line feed, and the text behind it.
fn split_at_feed<'a>(text: &'a str) -> Option<(&'a str, &'a str)>
    ensures { MatchOption result (All (λ b. b ≡ 10 → ⊥) text.now) (λ p. All (λ b. b ≡ 10 → ⊥) p.0.now × (text.now ≡ p.0.now ++ 10 ∷ p.1.now)) }
{
    let at = memchr(b'\n', text.as_bytes())?;
    Some((&text[..at], &text[at + 1..]))
}

/// Whether a text begins with the first byte of a reply's line.
fn begins_reply(text: &str) -> bool
    ensures { result ≡ false → get_or text.now 0 0 ≡ 61 → ⊥ }
{
    match text.as_bytes() {
        [] => false,
        [first, ..] => *first == b'=',
    }
}

/// The text that is left, and how many lines were passed.
#[derive(Drop)]
pub struct Place<'a> {
    rest: &'a str,
    passed: u64,
}

impl<'a> Model for Place<'a> {
    ghost use Rattle.std.specs.Prelude.{◌≤◌, ◌+◌, ◌^◌, length};
    ghost use Rattle.std.specs.Str.Lines.{lines};
    ghost use Rattle.esx_session.specs.Reading.{Place as Lines};

    ghost Value = { Lines };

    ghost view = { λ p. record { passed = p.passed; left = lines p.rest.now } };

    ghost invariant = { λ p. p.passed + length p.rest.now ≤ 2 ^ 63 };
}

impl<'a> Place<'a> {
    pub fn start(text: &'a str) -> Place<'a>
        ensures passed { result.passed ≡ 0 }
        ensures left { result.left ≡ lines text.now }
    {
        Place {
            rest: text,
            passed: 0,
        }
    }

    /// How many lines were passed.
    pub fn passed(&self) -> u64
        ensures value { result ≡ self.now.passed }
        ensures bound { result ≤ 2 ^ 63 }
    {
        self.passed
    }

    /// The same place, to look ahead from.
    pub fn ahead(&self) -> Place<'a>
        ensures value { result ≡ self.now }
        ensures bound { self.now.passed ≤ 2 ^ 63 }
    {
        Place {
            rest: self.rest,
            passed: self.passed,
        }
    }

    /// The next line, which is passed.
    pub fn next(&mut self) -> Option<&'a str>
        ensures left { MatchOption result ((self.old.left ≡ []) × (self.new ≡ self.old)) (λ line. self.old.left ≡ line.now ∷ self.new.left) }
        ensures passed { IfSome result (λ line. self.new.passed ≡ self.old.passed + 1) }
        ensures line { IfSome result (λ line. HasNoFeed line.now) }
    {
        if self.rest.is_empty() {
            return None;
        }
        self.passed += 1;
        match split_at_feed(self.rest) {
            Some((line, later)) => {
                self.rest = later;
                Some(line.strip_suffix('\r').unwrap_or(line))
            }
            None => {
                let line = self.rest;
                self.rest = "";
                Some(line)
            }
        }
    }

    /// What the next line says of a reply, where it is one of a reply and is passed.
    pub fn next_reply(&mut self) -> Option<&'a str>
        ensures some { IfSome result (λ text. (line : List ℕ) × (self.old.left ≡ line ∷ self.new.left) × Quotes line text.now × HasNoFeed line) }
        ensures passed { IfSome result (λ text. self.new.passed ≡ self.old.passed + 1) }
        ensures none { IfNone result ((self.new ≡ self.old) × LeavesReply self.old.left) }
    {
        if !begins_reply(self.rest) {
            return None;
        }
        let mut ahead = self.ahead();
        let text = reply_of(ahead.next()?)?;
        *self = ahead;
        Some(text)
    }
}
