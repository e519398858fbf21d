//! What a log has of its last line beside the text of its lines.

ghost use Rattle.std.specs.Prelude.{◌≡◌};

use esx_events::Line;

/// Where the last reply is, and the last line where its text is not made yet.
#[derive(Drop)]
pub enum Latest {
    /// There is no line.
    Nothing,
    /// The text is made, and its end is the reply, which is one line, from here on.
    Said { at: usize },
    /// The text is made of this line.
    Told { line: Line },
    /// No text is made of this line.
    Kept { line: Line },
}

impl Latest {
    ghost use Rattle.esx_told.specs.Told.{settled};
    ghost use Rattle.esx_told.specs.declared.latest.Latest.TheVariants.{Said};

    /// The reply of the last line stands from here on. Where the line before was told so too, only the place is written.
    pub fn say(&mut self, place: usize)
        ensures { self.new ≡ Said place }
    {
        match self {
            Latest::Said { at } => *at = place,
            other => *other = Latest::Said { at: place },
        }
    }

    /// The same, where the text is made.
    pub fn settled(self) -> Latest
        ensures { result ≡ settled self }
    {
        match self {
            Latest::Kept { line } => Latest::Told { line },
            other => other,
        }
    }
}
