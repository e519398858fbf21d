//! One path: its calls are made at a console and at a plain one, and what comes of them is compared.

use crate::answering::PlainConsole;
use crate::books::same_book;
use crate::draws::Draws;
use crate::fault::{Fault, expect};
use crate::guide::{asked, guided};
use crate::readings::page_state;
use crate::same::same_reply;
use crate::site::Shape;
use crate::tally::Tally;
use esx_console::Console;
use esx_events::{Call, Event, PageState, Said};
use esx_steps::free_count;
use std::alloc::{AllocError, Global};

/// So many events are drawn, of which the first is made that the plain program accepts.
const TRIES: u32 = 3;

#[derive(Drop)]
pub struct Play {
    alloc: Global,
    shape: Shape,
    console: Console,
    plain: PlainConsole,
    /// How many calls were made, the present one included.
    pub calls: u32,
}

impl Play {
    pub fn open(alloc: Global, shape: Shape) -> Result<Play, Fault> {
        let Ok(console) = Console::open(alloc, shape.site) else {
            return Err(Fault::Site);
        };
        Ok(Play {
            alloc,
            shape,
            console,
            plain: PlainConsole::open(alloc, shape.site)?,
            calls: 0,
        })
    }

    /// Makes the calls of a path.
    pub fn go(&mut self, draws: &mut Draws, tally: &mut Tally) -> Result<(), Fault> {
        self.begin(draws, tally)?;
        for _ in 0..self.shape.calls {
            let call = self.drawn(draws)?;
            self.make(call, tally)?;
        }
        self.compare(tally)
    }

    /// Makes the calls that open a path: machines come, and fill the first frames.
    fn begin(&mut self, draws: &mut Draws, tally: &mut Tally) -> Result<(), Fault> {
        for place in 0..self.shape.machines {
            let event = draws.admission(place);
            self.make(Call::Do { event }, tally)?;
            for _ in 0..self.shape.spec.overhead {
                let event = draws.start(place);
                self.make(Call::Do { event }, tally)?;
            }
        }
        for number in 0..self.shape.fill {
            let event = draws.filling(number)?;
            self.make(Call::Do { event }, tally)?;
        }
        for _ in 0..3 {
            let call = draws.question();
            self.make(call, tally)?;
        }
        let event = Event::Rebalance;
        self.make(Call::Do { event }, tally)
    }

    fn drawn(&self, draws: &mut Draws) -> Result<Call, AllocError> {
        if draws.wants_event() {
            let event = self.drawn_event(draws)?;
            Ok(Call::Do { event })
        } else if draws.below(4) == 0 {
            self.question(draws)
        } else {
            draws.other(self.plain.tree.made())
        }
    }

    /// Mostly a question for a page in a certain place.
    fn question(&self, draws: &mut Draws) -> Result<Call, AllocError> {
        match asked(&self.plain.plain, draws) {
            Some(call) => Ok(call),
            None => Ok(draws.question()),
        }
    }

    /// Two of three times an event that the scene calls for, if there is one.
    fn draw_event(&self, draws: &mut Draws) -> Result<Event, AllocError> {
        if draws.below(3) != 0 {
            if let Some(event) = guided(&self.plain.plain, draws)? {
                return Ok(event);
            }
        }
        draws.event()
    }

    /// Mostly an event that the plain program accepts.
    fn drawn_event(&self, draws: &mut Draws) -> Result<Event, AllocError> {
        let mut event = self.draw_event(draws)?;
        if draws.below(4) == 0 {
            return Ok(event);
        }
        for _ in 1..TRIES {
            if self.plain.plain.after(&event)?.is_ok() {
                break;
            }
            event = self.draw_event(draws)?;
        }
        Ok(event)
    }

    /// Whether a call writes to a page whose frame has others too.
    fn is_copying(&self, call: &Call) -> bool {
        match call {
            Call::Do {
                event: Event::Write { vm, page, .. },
            } => match page_state(&self.plain.plain, *vm, *page) {
                Ok(PageState::Shared { count, .. }) => 1 < count,
                _ => false,
            },
            _ => false,
        }
    }

    /// Makes one call.
    fn make(&mut self, call: Call, tally: &mut Tally) -> Result<(), Fault> {
        self.calls = self.calls.saturating_add(1);
        let copies = self.is_copying(&call);
        let fault = Fault::of(&call);
        let wanted = self.plain.call(&call)?;
        tally.hear(&call, &wanted.said, self.shape.site.page, copies);
        let reply = self.console.call(0, call)?;
        expect(same_reply(&reply, &wanted), fault)?;
        self.compare_gauge()?;
        let moved = matches!(wanted.said, Said::Stand { .. });
        let is_due = self.calls.checked_rem(self.shape.between) == Some(0);
        if moved || is_due {
            self.compare(tally)?;
        }
        Ok(())
    }

    fn compare_gauge(&self) -> Result<(), Fault> {
        let plain = &self.plain.plain;
        let (free, level) = self.console.gauge();
        let frames = free_count(plain.site(), self.shape.site.frames);
        expect(
            free as usize == frames && level == plain.level(),
            Fault::Gauge,
        )
    }

    /// The console's book is the one that the plain program makes of the events on the path.
    fn compare(&self, tally: &mut Tally) -> Result<(), Fault> {
        tally.compare();
        expect(self.console.log().len() == self.calls as usize, Fault::Log)?;
        let plain = self.plain.book()?;
        let shown = self.console.book()?;
        expect(same_book(&shown, &plain), Fault::Book)
    }
}
