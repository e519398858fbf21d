//! Who waits for the lock: one thread watches it, and the others sleep until the watch comes to them.
//!
//! Who watches looks at the lock and naps by turns, so that no give has to wake anybody for its sake. Once it has had the
//! lock it gives the watch on, to one of those who sleep: `docs/lock.md` says why none of them sleeps for ever.

ghost use Rattle.std.specs.Prelude.{◌≡◌, ◌+◌, ◌≤◌, ◌<◌};

use std::hint::spin_loop;
use std::sync::Wait;
use std::sync::atomic::{AtomicU64, Ordering};
use std::time::Duration;

/// How many times who watches looks at the lock before it naps: a value is mostly given back sooner than a thread falls
/// asleep.
const LOOKS: u32 = 100;

/// How long a nap is, in microseconds. Meanwhile the others go on with no call of the system.
const NAP: u64 = 400;

/// A thread watches, or holds the lock and will give the watch on.
const WATCHED: u64 = 1;

/// Some thread sleeps, or is about to.
const SLEEPS: u64 = 2;

/// Who watched has the lock now: the next give gives the watch on.
const DUE: u64 = 4;

/// What a thread is to a lock that it waits for.
#[derive(Clone, Copy)]
pub(crate) enum Part {
    /// It has come, or was woken where another watches.
    Comes,
    /// It watches, and has looked so many times since its last nap.
    Watches { looks: u32 },
}

/// Who waits: whether somebody watches, whether somebody sleeps, and whether the watch is to be given on.
#[derive(Drop)]
pub(crate) struct Waiting {
    state: AtomicU64,
    // never changed: naps end by time alone
    still: AtomicU64,
}

impl Waiting {
    pub(crate) fn nobody() -> Waiting {
        Waiting {
            state: AtomicU64::new(0),
            still: AtomicU64::new(0),
        }
    }

    /// Waits a while for a lock that is held, and tells what the thread is then.
    pub(crate) fn wait<R: Wait>(&self, rt: &R, part: Part) -> Part {
        match part {
            Part::Comes => self.come(rt),
            Part::Watches { looks } => Part::Watches {
                looks: self.watch(rt, looks),
            },
        }
    }

    // Watches, where nobody does. Else it sleeps until the watch is given on, and takes it unless another one was faster.
    // It sleeps only while somebody watches, and says for those who sleep still that they do.
    fn come<R: Wait>(&self, rt: &R) -> Part {
        if self.takes_watch(WATCHED) {
            return Part::Watches { looks: 0 };
        }
        let state = self.state.fetch_or(SLEEPS, Ordering::SeqCst) | SLEEPS;
        if state & WATCHED != 0 {
            self.state.park(rt, (state & 7) as u32);
            if self.takes_watch(WATCHED | SLEEPS) {
                return Part::Watches { looks: LOOKS };
            }
        }
        Part::Comes
    }

    // Sets bits, and tells whether nobody watched before.
    fn takes_watch(&self, bits: u64) -> bool {
        self.state.fetch_or(bits, Ordering::SeqCst) & WATCHED == 0
    }

    // Tells how many looks there were now. After the last of them it naps, and then they begin anew.
    fn watch<R: Wait>(&self, rt: &R, looks: u32) -> u32
        ensures look { looks < LOOKS → result ≡ looks + 1 }
        ensures nap { LOOKS ≤ looks → result ≡ 0 }
    {
        match next_look(looks) {
            Some(next) => next,
            None => {
                self.still.park_timeout(rt, 0, Duration::from_micros(NAP));
                0
            }
        }
    }

    /// Says that a thread has taken the lock: where it watched, its give is to give the watch on.
    pub(crate) fn taken(&self, part: Part) {
        match part {
            Part::Comes => {}
            Part::Watches { .. } => {
                self.state.fetch_or(DUE, Ordering::SeqCst);
            }
        }
    }

    /// Says that the lock was given back: where the watch is due, it goes to one of those who sleep.
    pub(crate) fn given(&self) {
        if self.state.load(Ordering::SeqCst) & DUE != 0
            && self.state.swap(0, Ordering::SeqCst) & SLEEPS != 0
        {
            self.state.wake_one();
        }
    }
}

// Lets a moment pass, and tells how many looks there were now; or nothing after the last look.
fn next_look(looks: u32) -> Option<u32>
    ensures more { looks < LOOKS → result ≡ Some (looks + 1) }
    ensures none { LOOKS ≤ looks → result ≡ None }
{
    if looks < LOOKS {
        spin_loop();
        return Some(looks + 1);
    }
    None
}
