//! Texts that are compared while they are written, so that no second text is made.

ghost use Rattle.std.specs.Prelude.{◌≡◌, ◌≢◌, ◌+◌, ◌<◌, ◌≤◌, ◌↔◌, ◌++◌, [], ℕ, List, Some, IsTrue, length, take, slice_get};
ghost use Rattle.esx_types.specs.Ends.{no_calls};
ghost use Rattle.esx_replies.specs.Replies.{reply_text};

use esx_events::Reply;
use esx_replies::write_reply;
use esx_types::{Counts, Sink, SinkFailed};
use esx_writing::AnswerBuffer;
use std::marker::{Brand, Model, PhantomData};
use std::sync::ledger::{Blank, Ledger};

/// How many bytes two texts begin with alike.
fn common_front(text: &[u8], other: &[u8]) -> usize
    ensures within { (result ≤ length text.now) × (result ≤ length other.now) }
    ensures same { take result other.now ≡ take result text.now }
    ensures differ { result < length other.now → slice_get other.now result ≢ slice_get text.now result }
{
    if text.starts_with(other) {
        return other.len();
    }
    let shorter = text.len().min(other.len());
    for i in 0..shorter {
        if text[i] != other[i] {
            return i;
        }
    }
    shorter
}

/// A text that is wanted. `Brand` stands for any: the proof of a call picks it.
pub trait Wanted {
    ghost text: { List ℕ };
}

impl Wanted for Brand {
    ghost text = { [] };
}

/// A sink for the text that is wanted, which takes bytes up to and with the first that the text has not
/// there. After that it fails.
#[derive(Drop)]
pub struct Comparing<'a, T: Wanted, L: Ledger> {
    text: &'a [u8],
    count: usize,
    other: Option<u8>,
    counts: Counts<L>,
    wanted: PhantomData<T>,
}

impl<'a, T: Wanted, L: Ledger> Model for Comparing<'a, T, L> {
    ghost use Rattle.std.specs.Prelude.{◌≡◌, ◌≢◌, ◌<◌, ◌≤◌, Some, length, slice_get, IfSome, IsSome};
    ghost use Rattle.esx_check.specs.Comparing.{Written, front_and_other};

    ghost Value = { Written };

    ghost view = { λ s. record { bytes = front_and_other T.text s.count s.other; tally = s.counts } };

    ghost invariant = { λ s. (s.text.now ≡ T.text) × (s.count ≤ length T.text)
        × IfSome s.other (λ byte. slice_get T.text s.count ≢ Some byte) × (0 < s.counts.failures → IsSome s.other) };
}

impl<'a, T: Wanted, L: Ledger> Comparing<'a, T, L> {
    pub fn new(text: &'a [u8], blank: Blank) -> Comparing<'a, T, L>
        requires wanted { text.now ≡ T.text }
        requires name { blank.name ≡ L.name }
        requires parts { blank.parts ≡ L.parts }
        requires four { 4 ≤ blank.parts }
        ensures { result ≡ record { bytes = []; tally = no_calls } }
    {
        Comparing {
            text,
            count: 0,
            other: None,
            counts: Counts::new(blank),
            wanted: PhantomData,
        }
    }

    /// Whether the whole text was written, and nothing else.
    pub fn is_same(&self) -> bool
        ensures same { IsTrue result ↔ (self.now.bytes ≡ T.text) }
        ensures failed { 0 < self.now.tally.failures → (rest : List ℕ) → T.text ≡ self.now.bytes ++ rest → ⊥ }
    {
        self.other.is_none() && self.count == self.text.len()
    }
}

impl<'a, T: Wanted, L: Ledger> Sink for Comparing<'a, T, L> {
    ghost contents = { λ s. Some s.bytes };

    ghost waiting = { λ _. [] };

    ghost calls = { λ s. s.tally.calls };

    ghost failures = { λ s. s.tally.failures };

    ghost flushes = { λ s. s.tally.noted };

    fn write(&mut self, bytes: &[u8]) -> Result<usize, SinkFailed> {
        if self.other.is_some() {
            self.counts.count_failed();
            return Err(SinkFailed);
        }
        let (_, rest) = self.text.split_at(self.count);
        let same = common_front(rest, bytes);
        self.count += same;
        self.counts.count_done();
        if same == bytes.len() {
            return Ok(same);
        }
        self.other = Some(bytes[same]);
        Ok(same + 1)
    }

    fn flush(&mut self) -> Result<(), SinkFailed> {
        self.counts.count_noted();
        Ok(())
    }
}

fn compared<T: Wanted, L: Ledger>(
    held: &mut AnswerBuffer,
    reply: &Reply,
    text: &[u8],
    blank: Blank,
) -> bool
    requires wanted { text.now ≡ T.text }
    requires empty { held.old ≡ [] }
    requires name { blank.name ≡ L.name }
    requires parts { blank.parts ≡ L.parts }
    requires four { 4 ≤ blank.parts }
    ensures same { IsTrue result ↔ (reply_text reply.now ≡ text.now) }
    ensures empty { IsTrue result → held.new ≡ [] }
{
    let mut sink = Comparing::<T, L>::new(text, blank);
    let _ = write_reply(&mut sink, held, reply);
    sink.is_same()
}

/// Whether a reply has this text, over an empty buffer. It takes no memory.
pub fn has_text(held: &mut AnswerBuffer, reply: &Reply, text: &[u8]) -> bool
    requires { held.old ≡ [] }
    ensures same { IsTrue result ↔ (reply_text reply.now ≡ text.now) }
    ensures empty { IsTrue result → held.new ≡ [] }
{
    compared::<Brand, Brand>(held, reply, text, Blank::new(4))
}
