//! Where served answers go: all of them to a writer, or to a sink that tells the questions alone. Both are one type, and wait in
//! one kind of buffer.

ghost use Rattle.std.specs.Prelude.{◌≡◌, Bool, true, false};
ghost use Rattle.esx_program.specs.Behind.{of_end};
ghost use Rattle.esx_program.specs.declared.behind.End.TheVariants.{Writer, Questions};

use esx_types::{Sink, SinkFailed};
use std::marker::{Brand, Model, PhantomData};

/// Whether the questions are told alone. `Brand` stands for either: the proof of a call picks it.
pub trait Telling {
    ghost questions: { Bool };
}

impl Telling for Brand {
    ghost questions = { false };
}

/// A writer, or a sink that tells the questions alone.
#[derive(Drop)]
pub enum End<W: Drop, Q: Drop> {
    Writer(W),
    Questions(Q),
}

/// The one of the two that stands behind answers, and stays there.
#[derive(Drop)]
pub struct Behind<W: Sink + Drop, Q: Sink + Drop, T: Telling> {
    end: End<W, Q>,
    telling: PhantomData<T>,
}

impl<W: Sink + Drop, Q: Sink + Drop, T: Telling> Model for Behind<W, Q, T> {
    ghost use Rattle.std.specs.Prelude.{◌≡◌};
    ghost use Rattle.esx_program.specs.Behind.{is_questions};
    ghost use Rattle.esx_program.specs.declared.behind.End.{End};

    ghost Value = { End W Q };

    ghost view = { λ b. b.end };

    ghost invariant = { λ b. is_questions b.end ≡ T.questions };
}

impl<W: Sink + Drop, Q: Sink + Drop, T: Telling> Behind<W, Q, T> {
    pub fn writer(writer: W) -> Behind<W, Q, T>
        requires { T.questions ≡ false }
        ensures { result ≡ Writer writer }
    {
        Behind {
            end: End::Writer(writer),
            telling: PhantomData,
        }
    }

    pub fn questions(questions: Q) -> Behind<W, Q, T>
        requires { T.questions ≡ true }
        ensures { result ≡ Questions questions }
    {
        Behind {
            end: End::Questions(questions),
            telling: PhantomData,
        }
    }

    pub fn into_writer(self) -> W
        requires { T.questions ≡ false }
        ensures { self ≡ Writer result }
    {
        match self.end {
            End::Writer(writer) => writer,
            End::Questions(_) => unreachable!(),
        }
    }

    pub fn into_questions(self) -> Q
        requires { T.questions ≡ true }
        ensures { self ≡ Questions result }
    {
        match self.end {
            End::Writer(_) => unreachable!(),
            End::Questions(questions) => questions,
        }
    }
}

impl<W: Sink + Drop, Q: Sink + Drop, T: Telling> Sink for Behind<W, Q, T> {
    ghost contents = { of_end W.contents Q.contents };

    ghost waiting = { of_end W.waiting Q.waiting };

    ghost calls = { of_end W.calls Q.calls };

    ghost failures = { of_end W.failures Q.failures };

    ghost flushes = { of_end W.flushes Q.flushes };

    fn write(&mut self, bytes: &[u8]) -> Result<usize, SinkFailed> {
        match &mut self.end {
            End::Writer(writer) => writer.write(bytes),
            End::Questions(questions) => questions.write(bytes),
        }
    }

    fn flush(&mut self) -> Result<(), SinkFailed> {
        match &mut self.end {
            End::Writer(writer) => writer.flush(),
            End::Questions(questions) => questions.flush(),
        }
    }
}
