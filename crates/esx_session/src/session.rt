//! What a session tells.

ghost use Rattle.std.specs.Prelude.{◌≡◌};
ghost use Rattle.esx_types.specs.Ranges.{IsConfig};

use esx_events::Call;
use esx_types::{Bytes, Config, Rows};
use std::marker::Model;

/// A call of a session: who made it, and the text of its reply, which is at least one line, each ended by a
/// line feed.
#[derive(Debug, Drop)]
pub struct Entry {
    pub caller: u16,
    pub call: Call,
    pub reply: Bytes,
}

/// A call of a session without its reply: who made it, and the call.
#[derive(Debug, Drop)]
pub struct Request {
    pub caller: u16,
    pub call: Call,
}

/// The site that a console was opened with, and the calls that were made of it without their replies, in their order.
#[derive(Debug, Drop)]
pub struct Script {
    pub site: Config,
    pub requests: Rows<Request>,
}

/// The site that a console was opened with, and the calls that were made of it, in their order. The numbers of the
/// site are in their ranges.
#[derive(Debug, Drop)]
pub struct Session {
    site: Config,
    entries: Rows<Entry>,
}

impl Model for Session {
    ghost use Rattle.esx_types.specs.Ranges.{IsConfig};
    ghost use Rattle.esx_session.specs.Recorded.{Recorded};

    ghost Value = { Recorded };

    ghost view = { λ s. record { site = s.site; entries = s.entries } };

    ghost invariant = { λ s. IsConfig s.site };
}

impl Session {
    /// The session of a site whose numbers are in their ranges.
    pub fn new(site: Config, entries: Rows<Entry>) -> Session
        requires { IsConfig site }
        ensures site { result.site ≡ site }
        ensures entries { result.entries ≡ entries }
    {
        Session { site, entries }
    }

    pub fn site(&self) -> Config
        ensures value { result ≡ self.now.site }
        ensures good { IsConfig result }
    {
        self.site
    }

    pub fn entries(&self) -> &[Entry]
        ensures { result.now ≡ self.now.entries }
    {
        self.entries.as_slice()
    }

    /// The site and the calls, for a caller that is done with the session.
    pub fn into_parts(self) -> (Config, Rows<Entry>)
        ensures site { result.0 ≡ self.site }
        ensures entries { result.1 ≡ self.entries }
        ensures good { IsConfig result.0 }
    {
        (self.site, self.entries)
    }
}
