//! Calls that are drawn.

use crate::contents::content;
use crate::site::Shape;
use esx_events::{Boxed, Call, Event, Events, Name};
use esx_types::{MAX_TAU, Rows, VM_NUMBERS, VmId, VmSpec};
use rand_core::SeedableRng;
use rand_core::utils::NextWord;
use rand_pcg::Pcg64;
use std::alloc::{AllocError, Global};

/// A generator, and what is drawn from.
#[derive(Drop)]
pub struct Draws {
    alloc: Global,
    rng: Pcg64,
    shape: Shape,
}

/// The numbers of machines where there are few.
const FEW: [u32; 4] = [0, 1, 40, 255];

const NAMES: [&str; 5] = ["bare", "full", "x-1", "y_2", "none"];

impl Draws {
    /// The draws of a path, by its seed.
    pub fn new(alloc: Global, shape: Shape, seed: u64) -> Draws {
        Draws {
            alloc,
            rng: Pcg64::seed_from_u64(seed),
            shape,
        }
    }

    pub fn word(&mut self) -> u64 {
        self.rng.next_word()
    }

    /// A number below `n`, and 0 if there is none.
    pub fn below(&mut self, n: u32) -> u32 {
        let word = self.word();
        word.checked_rem(u64::from(n))
            .and_then(|rest| u32::try_from(rest).ok())
            .unwrap_or(0)
    }

    /// How many machines the shape has.
    pub fn machines(&self) -> u32 {
        self.shape.machines
    }

    /// The machine at a place among those of the shape.
    pub fn machine_at(&self, place: u32) -> VmId {
        let number = match FEW.get(place as usize) {
            Some(number) if self.shape.machines <= 4 => *number,
            _ => place,
        };
        VmId::new(u8::try_from(number).unwrap_or(0))
    }

    /// Mostly one of the shape's machines.
    pub fn machine(&mut self) -> VmId {
        let of = match self.below(12) {
            0 => VM_NUMBERS as u32,
            _ => self.shape.machines,
        };
        let place = self.below(of);
        self.machine_at(place)
    }

    /// Mostly one of a machine's first pages, seldom one that there is not.
    fn page(&mut self) -> u32 {
        let max = self.shape.spec.max;
        match self.below(20) {
            0 => max,
            1..=4 => self.below(max),
            _ => self.below(max.min(40)),
        }
    }

    /// A tax in its range mostly, or above it.
    fn tax(&mut self) -> u32 {
        self.below(MAX_TAU + 10)
    }

    /// What a machine asks for that comes later: what those of the shape do, or nearly so.
    pub fn spec(&mut self) -> VmSpec {
        let spec = VmSpec {
            tau: self.own_tax(),
            ..self.shape.spec
        };
        match self.below(10) {
            0 => VmSpec {
                balloon_max: 0,
                ..spec
            },
            1 => VmSpec {
                shares: 3000,
                ..spec
            },
            2 => VmSpec {
                min: spec.max,
                balloon_max: 0,
                ..spec
            },
            3 => VmSpec {
                max: spec.max.saturating_mul(2),
                ..spec
            },
            4 => VmSpec {
                max: spec.max.saturating_mul(8),
                ..spec
            },
            5 => VmSpec { shares: 0, ..spec },
            6 => VmSpec {
                tau: Some(self.tax()),
                ..spec
            },
            _ => spec,
        }
    }

    /// A tax of a machine's own, mostly none.
    fn own_tax(&mut self) -> Option<u32> {
        match self.below(4) {
            0 => Some(self.below(MAX_TAU + 1)),
            _ => None,
        }
    }

    /// A machine of the shape, as it is admitted at the beginning; some have a tax of their own.
    pub fn admission(&mut self, place: u32) -> Event {
        Event::Admit {
            vm: self.machine_at(place),
            spec: VmSpec {
                tau: self.own_tax(),
                ..self.shape.spec
            },
        }
    }

    pub fn start(&self, place: u32) -> Event {
        Event::Start {
            vm: self.machine_at(place),
        }
    }

    /// One of the writes that fill the first frames, by its number: a page of one machine after a page of another.
    pub fn filling(&mut self, number: u32) -> Result<Event, AllocError> {
        let machines = self.shape.machines;
        let place = number.checked_rem(machines).unwrap_or(0);
        let page = number.checked_div(machines).unwrap_or(0);
        Ok(Event::Write {
            vm: self.machine_at(place),
            page,
            at: 0,
            bytes: content(self.alloc, self.shape.site.page, self)?,
        })
    }

    fn words(&mut self) -> Result<Boxed<Rows<u64>>, AllocError> {
        let count = match self.below(24) {
            0 => 0,
            1 => 101,
            2 => 100,
            many => many,
        };
        let mut words = Vec::new(self.alloc);
        for _ in 0..count {
            words.push(self.word())?;
        }
        Boxed::new(self.alloc, Rows::from_vec(words))
    }

    /// Where an access begins: mostly at the first byte.
    fn place_in_page(&mut self) -> u32 {
        match self.below(8) {
            0 => {
                let page = self.shape.site.page;
                self.below(page.saturating_add(2))
            }
            _ => 0,
        }
    }

    fn read(&mut self) -> Event {
        let (vm, page, at) = (self.machine(), self.page(), self.place_in_page());
        let most = self.shape.site.page.saturating_add(2);
        let len = match self.below(4) {
            0 => self.below(most),
            _ => 2,
        };
        Event::Read { vm, page, at, len }
    }

    fn write(&mut self) -> Result<Event, AllocError> {
        let (vm, page, at) = (self.machine(), self.page(), self.place_in_page());
        Ok(Event::Write {
            vm,
            page,
            at,
            bytes: content(self.alloc, self.shape.site.page, self)?,
        })
    }

    fn sample(&mut self) -> Result<Event, AllocError> {
        let vm = self.machine();
        Ok(Event::Sample {
            vm,
            length: self.below(5),
            words: self.words()?,
        })
    }

    fn set_shares(&mut self) -> Event {
        let vm = self.machine();
        let shares = self.below(8).saturating_mul(300);
        Event::SetShares { vm, shares }
    }

    /// A page of a machine leaves a frame, or comes to one.
    fn paging(&mut self, kind: u32) -> Event {
        let (vm, page, word) = (self.machine(), self.page(), self.word());
        match kind {
            0..=7 => Event::Scan { vm, page },
            8..=17 => Event::SwapOut { vm, word },
            18..=27 => Event::Replace { vm, page, word },
            28..=35 => Event::Lend { vm, page },
            _ => Event::TakeBack { vm, page },
        }
    }

    /// A machine comes, goes, or is asked for something.
    fn standing(&mut self, kind: u32) -> Event {
        let (vm, page) = (self.machine(), self.page());
        match kind {
            0..=5 => Event::Ask { vm },
            6..=11 => Event::Rebalance,
            12..=16 => Event::SetTax { tau: self.tax() },
            17..=20 => Event::SetVmTax {
                vm,
                tau: self.tax(),
            },
            21 | 22 => Event::Stop { vm },
            23..=25 => Event::DropPage { vm, page },
            26..=28 => Event::Gone { vm },
            29..=31 => Event::Admit {
                vm,
                spec: self.spec(),
            },
            _ => Event::Start { vm },
        }
    }

    /// An event of any kind.
    pub fn event(&mut self) -> Result<Event, AllocError> {
        match self.below(100) {
            0..=19 => self.write(),
            20..=27 => Ok(self.read()),
            28..=37 => self.sample(),
            38..=44 => Ok(self.set_shares()),
            45..=69 => {
                let kind = self.below(44);
                Ok(self.paging(kind))
            }
            _ => {
                let kind = self.below(36);
                Ok(self.standing(kind))
            }
        }
    }

    fn name(&mut self) -> Result<Option<Name>, AllocError> {
        let at = self.below(6) as usize;
        match NAMES.get(at) {
            Some(text) => Name::new(self.alloc, text),
            None => Ok(None),
        }
    }

    fn tried(&mut self) -> Result<Option<Events>, AllocError> {
        let mut events = Vec::new(self.alloc);
        for _ in 0..self.below(6) {
            events.push(self.event()?)?;
        }
        Ok(Events::new(events))
    }

    /// One of the last nodes mostly, or any, or one that was not made.
    fn node(&mut self, nodes: u32) -> u32 {
        let behind = nodes.saturating_add(1);
        match self.below(3) {
            0 => self.below(behind),
            _ => behind.saturating_sub(self.below(8)),
        }
    }

    fn back(&mut self) -> u32 {
        match self.below(8) {
            0 => 200,
            1 | 2 => self.below(12),
            _ => self.below(4),
        }
    }

    /// Whether an event is to be drawn next.
    pub fn wants_event(&mut self) -> bool {
        self.below(100) < self.shape.events
    }

    fn naming(&mut self) -> Result<Call, AllocError> {
        let visits = self.below(2) == 0;
        Ok(match self.name()? {
            Some(name) if visits => Call::Visit { name },
            Some(name) => Call::Mark { name },
            None => Call::Marks,
        })
    }

    pub fn question(&mut self) -> Call {
        let (vm, page) = (self.machine(), self.page());
        match self.below(20) {
            0..=2 => Call::Sum,
            3 | 4 => Call::Table,
            5..=7 => Call::OfVm { vm },
            8..=12 => Call::OfPage { vm, page },
            13..=17 => Call::Advise { vm, page },
            18 => Call::Marks,
            _ => Call::Stand,
        }
    }

    /// A call that is no event; `nodes` is how many nodes there are.
    pub fn other(&mut self, nodes: u32) -> Result<Call, AllocError> {
        Ok(match self.below(50) {
            0..=6 => Call::Undo { count: self.back() },
            7..=12 => Call::Redo {
                count: self.below(3),
            },
            13..=16 => Call::Goto {
                node: self.node(nodes),
            },
            17..=21 => Call::Prune {
                node: self.node(nodes),
            },
            22..=29 => self.naming()?,
            30..=34 => match self.tried()? {
                Some(events) => Call::WhatIf { events },
                None => Call::Table,
            },
            _ => self.question(),
        })
    }
}
