//! Where in a line a byte stands.

ghost use Rattle.std.specs.Prelude.{◌≡◌};
ghost use Rattle.esx_recording.specs.Questions.{behind, within};

/// Where in a line the next byte stands: at its start, in one that begins with a question mark, or in any other.
#[derive(Clone, Copy, PartialEq, Eq)]
pub enum Place {
    Start,
    Question,
    Other,
}

impl Place {
    /// The line in which a byte stands that comes here.
    pub fn within(self, byte: u8) -> Place
        ensures { result ≡ within self byte }
    {
        match self {
            Place::Start => {
                if byte == b'?' {
                    Place::Question
                } else {
                    Place::Other
                }
            }
            Place::Question => Place::Question,
            Place::Other => Place::Other,
        }
    }

    /// The place behind that byte.
    pub fn behind(self, byte: u8) -> Place
        ensures { result ≡ behind self byte }
    {
        if byte == b'\n' {
            Place::Start
        } else {
            self.within(byte)
        }
    }
}
