//! The ends of the next lines, each of which is found once.

ghost use Rattle.std.specs.Prelude.{◌≡◌, ◌↔◌, ◌+◌, ◌++◌, ◌∷◌, [], drop, IfSome, IsTrue, MatchOption};
ghost use Rattle.esx_text.specs.Lines.{EndsAt, HasLines, HasNoFeed};

use crate::line::line_end;
use std::marker::Model;

/// How many ends are found at once at most, and for how many lines a site with little in use is not asked again.
pub const LINES: usize = 16;

/// The lines whose ends were found, seen as the list of their lengths.
#[derive(Drop)]
pub struct LineEnds {
    lengths: [usize; LINES],
    next: usize,
    found: usize,
}

impl Model for LineEnds {
    ghost use Rattle.std.specs.Prelude.{◌≤◌, List, ℕ, drop, take};
    ghost use Rattle.esx_text.specs.declared.ends.TheConstants.{LINES};

    ghost Value = { List ℕ };

    ghost view = { λ e. drop e.next (take e.found e.lengths) };

    ghost invariant = { λ e. (e.next ≤ e.found) × (e.found ≤ LINES) };
}

impl LineEnds {
    pub fn new() -> LineEnds
        ensures { result ≡ [] }
    {
        LineEnds {
            lengths: [0; LINES],
            next: 0,
            found: 0,
        }
    }

    /// Forgets the ends that wait.
    pub fn clear(&mut self)
        ensures { self.new ≡ [] }
    {
        self.next = 0;
        self.found = 0;
    }

    #[inline]
    pub fn is_empty(&self) -> bool
        ensures { IsTrue result ↔ (self.now ≡ []) }
    {
        self.next == self.found
    }

    /// Finds the end of the first line of a rest, and lets it wait behind the others. None where `LINES` were found since
    /// `clear`, or where there is no line feed.
    pub fn find(&mut self, rest: &[u8]) -> Option<usize>
        ensures { MatchOption result (self.new ≡ self.old) (λ at. EndsAt rest.now at × (self.new ≡ self.old ++ at ∷ [])) }
    {
        if self.found == LINES {
            return None;
        }
        let at = line_end(rest)?;
        self.lengths[self.found] = at;
        self.found += 1;
        Some(at)
    }

    /// The end of the first line of a text: the first of those that wait, or else one that is looked for now.
    #[inline]
    pub fn next(&mut self, text: &[u8]) -> Option<usize>
        requires { HasLines text.now self.old }
        ensures end { MatchOption result (HasNoFeed text.now) (λ at. EndsAt text.now at) }
        ensures later { IfSome result (λ at. HasLines (drop (at + 1) text.now) self.new) }
    {
        if self.next < self.found {
            let at = self.lengths[self.next];
            self.next += 1;
            return Some(at);
        }
        line_end(text)
    }
}
