//! Accesses that are looked at before they are answered, so that what they read is near by then. Where little is in use
//! nothing is looked at, nor for a while where a look gave little.

ghost use Rattle.esx_text.specs.Lines.{HasLines};

use crate::ends::{LINES, LineEnds};
use esx_console::{Console, Log};
use esx_types::VmId;

/// Where the frames in use take more bytes than this, an access often waits for memory.
const NEAR: u64 = 1 << 22;

/// What a frame takes beside the bytes of its page, about.
const BESIDE: u64 = 64;

/// How many of the frames that were looked at last are kept in mind, at most.
const RECENT: usize = 256;

/// Where fewer than one access in so many reads a frame that is new, a look gave little.
const FEW: usize = 4;

/// How many lines are passed over at once, at most.
const MOST: usize = 64 * LINES;

/// What was looked at. It is a hint: no answer rests on it. The ends of the lines that were found on the way are
/// handed on.
#[derive(Drop)]
pub struct Ahead {
    // How many of the next lines are passed over.
    passing: usize,
    // How many are passed over after the next look that gives little: twice as many each time.
    next: usize,
    // What was read, so that nobody leaves the reads out.
    seen: u8,
    // Frames that were looked at last, each at its number modulo `RECENT`.
    recent: [u32; RECENT],
}

/// What an access names: a machine, its page, and a place in that.
#[derive(Clone, Copy)]
struct Access {
    vm: VmId,
    page: u32,
    at: u32,
}

/// The next lines, and what those of them name that are accesses.
#[derive(Drop)]
struct Accesses {
    named: [Option<Access>; LINES],
    lines: usize,
}

impl Accesses {
    fn new() -> Accesses {
        Accesses {
            named: [None; LINES],
            lines: 0,
        }
    }

    /// Adds a line, while there is room.
    #[inline(always)]
    fn add(&mut self, line: &[u8]) {
        if self.lines < LINES {
            self.named[self.lines] = access_of(line);
            self.lines += 1;
        }
    }
}

impl Ahead {
    pub fn new() -> Ahead {
        Ahead {
            passing: 0,
            next: LINES,
            seen: 0,
            recent: [u32::MAX; RECENT],
        }
    }

    /// A text is to be answered, as far as it has lines. Unless ends wait, and where it begins with an access, the accesses
    /// among its next lines are looked at, and the ends of these lines wait from then on. Where little is in use nothing is
    /// looked at, and lines that are passed over are not.
    #[inline]
    pub fn look<L: Log>(&mut self, console: &Console<L>, ends: &mut LineEnds, text: &[u8])
        requires { HasLines text.now ends.old }
        ensures { HasLines text.now ends.new }
    {
        if !ends.is_empty() {
            return;
        }
        if self.passing > 0 {
            self.passing -= 1;
        } else if !waits(console) {
            self.passing = LINES;
        } else if operands(text).is_some() {
            self.look_on(console, ends, text);
        }
    }

    /// Finds the ends of the next lines of a text, and looks at the accesses among these.
    fn look_on<L: Log>(&mut self, console: &Console<L>, ends: &mut LineEnds, text: &[u8])
        ensures { HasLines text.now ends.new }
    {
        ends.clear();
        let mut accesses = Accesses::new();
        let mut rest = text;
        while let Some(at) = ends.find(rest) {
            let (piece, ended) = rest.split_at(at);
            let (_, later) = ended.split_at(1);
            accesses.add(piece);
            rest = later;
        }
        self.look_at_all(console, &accesses.named);
    }

    /// Looks at what accesses read: first where all their pages are, so that these waits overlap, and then at what stands
    /// there.
    fn look_at_all<L: Log>(&mut self, console: &Console<L>, accesses: &[Option<Access>; LINES]) {
        let mut places = [(u32::MAX, 0); LINES];
        let mut count = 0usize;
        let mut new = 0usize;
        for i in 0..LINES {
            if let Some(access) = accesses[i] {
                let frame = console.look_for(access.vm, access.page);
                places[i] = (frame, access.at);
                count = count.wrapping_add(1);
                new = new.wrapping_add(usize::from(self.is_new(frame)));
            }
        }
        for i in 0..LINES {
            let (frame, at) = places[i];
            self.seen ^= console.look_at(frame, at);
        }
        self.pass_over(count, new);
    }

    /// Keeps a frame in mind. Was it not among those looked at last?
    #[inline(always)]
    fn is_new(&mut self, frame: u32) -> bool {
        let place = frame as usize % RECENT;
        let is_new = (self.recent[place] != frame) & (frame != u32::MAX);
        self.recent[place] = frame;
        is_new
    }

    /// So many accesses were looked at, and so many of them read a frame that is new.
    fn pass_over(&mut self, count: usize, new: usize) {
        if count == 0 {
            return;
        }
        if new.wrapping_mul(FEW) < count {
            self.passing = self.next;
            self.next = MOST.min(self.next.wrapping_mul(2));
        } else {
            self.next = LINES;
        }
    }
}

/// Does an access of this site often wait for memory?
fn waits<L: Log>(console: &Console<L>) -> bool {
    let (free, _) = console.gauge();
    let site = console.site();
    let used = u64::from(site.frames.saturating_sub(free));
    used.saturating_mul(BESIDE + u64::from(site.page)) > NEAR
}

/// What an access names that a line asks for.
fn access_of(line: &[u8]) -> Option<Access> {
    let (vm, behind) = number(operands(line)?)?;
    let (page, behind) = number(behind)?;
    let (at, _) = number(behind)?;
    let vm = VmId::new(u8::try_from(vm).ok()?);
    Some(Access { vm, page, at })
}

/// What stands behind the word of an access.
fn operands(text: &[u8]) -> Option<&[u8]> {
    if text.starts_with(b"read ") {
        Some(&text[5..])
    } else if text.starts_with(b"write ") {
        Some(&text[6..])
    } else {
        None
    }
}

/// A number of up to seven digits before a space, and what stands behind the space.
#[inline(always)]
fn number(text: &[u8]) -> Option<(u32, &[u8])> {
    let mut value: u32 = 0;
    for (at, byte) in text.iter().enumerate().take(8) {
        match byte {
            b'0'..=b'9' => {
                value = value.wrapping_mul(10).wrapping_add(u32::from(*byte - b'0'));
            }
            b' ' => return Some((value, &text[at + 1..])),
            _ => return None,
        }
    }
    None
}
