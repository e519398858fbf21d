//! A log that is kept as the text of its session.

ghost use Rattle.std.specs.Prelude.{◌≡◌, ◌++◌, [], IfOk, flat_map, length};
ghost use Rattle.esx_session.specs.Printing.{line_text};
ghost use Rattle.esx_told.specs.Told.{IsLatest, IsLatest-prop, pending};

use crate::adding::add_line;
use crate::latest::Latest;
use crate::listed::Listed;
use crate::spelled::add_spelled;
use esx_console::Log;
use esx_events::Line;
use esx_writing::AnswerBuffer;
use std::alloc::{AllocError, Global};
use std::mem::replace;
use std::snapshot::Snapshot;

/// The lines of a console as the text that a session has of them: a line takes as many bytes as it has to say. The
/// last line may wait for its text, so that one that has no room yet is not lost.
#[derive(Drop)]
pub struct TextLog {
    listed: Snapshot<Listed>,
    text: Vec<u8>,
    held: AnswerBuffer,
    latest: Latest,
    count: usize,
    ghost told: { text.items ≡ flat_map line_text listed.value },
    ghost nothing_held: { held ≡ [] },
    ghost last: { IsLatest listed.value text.items latest } by { IsLatest-prop listed.value text.items latest },
    ghost counted: { count ≡ length (listed.value ++ pending latest) },
}

impl TextLog {
    ghost use Rattle.esx_told.specs.Lines.{lines_of};

    /// No lines.
    pub fn new(alloc: Global) -> Result<TextLog, AllocError>
        ensures { IfOk result (λ log. lines_of log ≡ []) }
    {
        Ok(TextLog {
            listed: Listed::none(),
            text: Vec::new(alloc),
            held: AnswerBuffer::new(alloc)?,
            latest: Latest::Nothing,
            count: 0,
        })
    }

    /// The text of the lines, but for one that waits for it.
    pub(crate) fn text(&self) -> &[u8]
        ensures { result.now ≡ flat_map line_text self.now.listed.value }
    {
        self.text.as_slice()
    }

    /// How many lines there are.
    pub fn count(&self) -> usize
        ensures { result ≡ length (lines_of self.now) }
    {
        self.count
    }

    /// What there is of the last line.
    pub(crate) fn latest(&self) -> &Latest
        ensures value { result.now ≡ self.now.latest }
        ensures is { IsLatest self.now.listed.value (flat_map line_text self.now.listed.value) result.now }
    {
        &self.latest
    }
}

impl Log for TextLog {
    ghost use Rattle.esx_told.specs.Told.{Spells};
    ghost use Rattle.esx_told.specs.Lines.{lines_of};

    ghost lines = { lines_of };

    ghost has_room = { λ log. pending log.latest ≡ [] };

    ghost spells = { Spells };

    fn take_room(&mut self) -> Result<(), AllocError> {
        if let Latest::Kept { line } = &self.latest {
            add_line(&mut self.text, &mut self.held, line)?;
            self.listed = Listed::longer(replace(&mut self.listed, Listed::none()), line);
            self.latest = replace(&mut self.latest, Latest::Nothing).settled();
        }
        Ok(())
    }

    fn note(&mut self, line: Line, spelled: &[u8]) {
        self.count += 1;
        match add_spelled(&mut self.text, &mut self.held, &line, spelled) {
            Some(at) => {
                self.listed = Listed::longer(replace(&mut self.listed, Listed::none()), &line);
                self.latest.say(at);
            }
            None => self.latest = Latest::Kept { line },
        }
    }

    ghost use Rattle.std.proofs.Common.{inl, refl};

    ghost spells_nothing = { λ _. inl refl };
}
