//! The journal: one row for each node, at its number.

ghost use Rattle.std.specs.Prelude.{◌≡◌, ◌≢◌, ◌<◌, ◌≤◌, ◌+◌, ◌∷◌, ℕ, List, length, IfOk, IfErr, is_some, true, Some, None, Ok, if◌then◌else◌};
ghost use Rattle.esx_events.specs.declared.events.TheConstants.{MAX_EVENTS};
ghost use Rattle.esx_types.specs.Ranges.{IsConfig};
ghost use Rattle.esx_model.specs.Replay.{replay_of};
ghost use Rattle.esx_model.specs.Tree.{Move, Down, parent, last_descent};
ghost use Rattle.esx_model.specs.History.{History, cursor, here, up_once, down_to, if_alive, redone, undo, redo, opened, do_event, scene_at, book_at};
ghost use Rattle.esx_model.specs.Branching.{stands, is_on_path, goto, visit, mark, prune};
ghost use Rattle.esx_model.specs.WhatIf.{what_if};
ghost use Rattle.esx_machine.specs.Machine.{Shows, book_in};
ghost use Rattle.esx_journal.specs.Journal.{Aims, Holds, Moves, Goes, Names, Prunes, Does, DoesOnce, DoesWith, stand_at, kept_at};
ghost use Rattle.esx_journal.specs.Ways.{Climbed};

use crate::marks::Marks;
use crate::row::{add_child, child_of, drop_below, revert};
use crate::rows::Rows;
use crate::trial::try_events;
use esx_events::{Answer, Event, Name, Refusal, Sides, Stand};
use esx_machine::Machine;
use esx_types::Config;
use std::alloc::{AllocError, Global};
use std::marker::Model;

/// A machine, the tree of its events and a cursor on it.
///
/// Nodes are numbered in order of making from 1 on; node 0 is the opening. A number is never used again,
/// and at most `nodes` of the `Config` are made.
#[derive(Drop)]
pub struct Journal {
    alloc: Global,
    machine: Machine,
    rows: Rows,
    cursor: u32,
    depth: u32,
    nodes: u32,
    marks: Marks,
}

impl Model for Journal {
    ghost use Rattle.esx_journal.specs.Journal.{Kept, IsKept};

    ghost Value = { Kept };

    ghost view = { λ a. record { machine = a.machine; rows = a.rows; cursor = a.cursor; depth = a.depth; nodes = a.nodes; marks = a.marks } };

    ghost invariant = { λ a. IsKept (record { machine = a.machine; rows = a.rows; cursor = a.cursor; depth = a.depth; nodes = a.nodes; marks = a.marks }) };
}

impl Journal {
    /// A journal with no event. `BadSpec` where a number of the site is out of its range.
    pub fn open(alloc: Global, config: Config) -> Result<Journal, Refusal>
        ensures opens { IfOk result (λ j. Holds j (opened config)) }
        ensures checked { IfOk result (λ j. IsConfig config) }
        ensures refused { IfErr result (λ e. e ≢ Refusal.OutOfMemory → (e ≡ Refusal.BadSpec) × (¬ IsConfig config)) }
        ensures late { IfErr result (λ e. e ≡ Refusal.OutOfMemory → IsConfig config) }
    {
        let machine = Machine::open(alloc, config)?;
        let rows = Rows::opening(alloc)?;
        Ok(Journal {
            alloc,
            machine,
            rows,
            cursor: 0,
            depth: 0,
            nodes: config.nodes,
            marks: Marks::new(alloc),
        })
    }

    /// Takes room for so many events to come, or for as many as a journal of its limit may have. Where it is refused, each
    /// takes its own as it comes.
    pub fn make_room(&mut self, events: usize)
        ensures { self.new ≡ self.old }
    {
        self.rows.make_room(events.min(self.nodes as usize));
    }

    /// Makes an event, and gives its answer twice, once for a log.
    ///
    /// The event becomes a child of the cursor's node, and the cursor goes there. `Full` comes where all
    /// numbers were made, before the refusals of the event itself.
    pub fn apply(&mut self, event: &Event) -> Result<(Answer, Answer), Refusal>
        ensures { (h : History) → Holds self.old h → Does result self.old self.new (do_event event.now h) }
    {
        let (answer, copy) = self.make(event, true)?;
        Ok((answer, copy.unwrap()))
    }

    /// Makes an event as `apply` does, and gives its answer, of which it makes no copy.
    pub fn apply_once(&mut self, event: &Event) -> Result<Answer, Refusal>
        ensures { (h : History) → Holds self.old h → DoesOnce result self.old self.new (do_event event.now h) }
    {
        let (answer, _) = self.make(event, false)?;
        Ok(answer)
    }

    /// Makes an event, and gives its answer, with a copy where one is wanted.
    #[inline(always)]
    fn make(&mut self, event: &Event, with_copy: bool) -> Result<(Answer, Option<Answer>), Refusal>
        ensures does { (h : History) → Holds self.old h → DoesWith result self.old self.new (do_event event.now h) }
        ensures copy { IfOk result (λ told. told.1 ≡ (if with_copy then Some told.0 else None)) }
    {
        let made = self.rows.len();
        if made > self.nodes as usize {
            return Err(Refusal::Full);
        }
        let (answer, back) = self.machine.apply(event)?;
        match add_child(
            &mut self.rows,
            self.cursor,
            made as u32,
            back,
            answer,
            with_copy,
        ) {
            Ok(told) => {
                self.cursor = made as u32;
                self.depth += 1;
                Ok(told)
            }
            Err(back) => {
                revert(&mut self.machine, back);
                Err(Refusal::OutOfMemory)
            }
        }
    }

    /// The machine, for questions. Its tables are those of the cursor's path.
    pub fn machine(&self) -> &Machine
        ensures tables { (h : History) → Holds self.now h → result.now ≡ kept_at h }
        ensures shows { (h : History) → Holds self.now h → Shows result.now (scene_at h) }
        ensures book { (h : History) → Holds self.now h → book_in result.now ≡ book_at h }
        ensures replay { (h : History) → Holds self.now h → replay_of h.config (here h) ≡ Ok (book_in result.now) }
    {
        &self.machine
    }

    /// Where the cursor is.
    pub fn stand(&self) -> Stand
        ensures { (h : History) → Holds self.now h → result ≡ stand_at h }
    {
        Stand {
            node: self.cursor,
            depth: self.depth,
        }
    }

    /// The names that were given to nodes, in order of making.
    pub fn marks(&self) -> &Marks
        ensures { (h : History) → Holds self.now h → result.now ≡ h.marks }
    {
        &self.marks
    }

    fn step_up(&mut self)
        requires { 0 < self.old.depth }
        ensures depth { self.new.depth + 1 ≡ self.old.depth }
        ensures size { length self.new.rows ≡ length self.old.rows }
        ensures older { self.new.cursor < self.old.cursor }
        ensures holds { (h : History) (aim : List Move) → Aims self.old h aim → Aims self.new (up_once h) aim }
    {
        let at = self.cursor as usize;
        self.rows.flip(at, &mut self.machine);
        self.cursor = self.rows.parent(at);
        self.depth -= 1;
    }

    /// Goes so many events back. `NothingToUndo` where fewer lead to the cursor's node; then nothing moves.
    pub fn undo(&mut self, count: u32) -> Result<Stand, Refusal>
        ensures { (h : History) → Holds self.old h → Moves Refusal.NothingToUndo result self.old self.new (undo count h) }
    {
        if self.depth < count {
            return Err(Refusal::NothingToUndo);
        }
        'climb: for _gone in 0..count {
            self.step_up();
        }
        Ok(self.stand())
    }

    fn step_down(&mut self)
        ensures { (h : History) (aim : List Move) (n : ℕ) → Aims self.old h aim → if_alive h.nodes (last_descent h.nodes aim (cursor h)) ≡ Some n
            → Aims self.new (down_to h n) aim }
    {
        if let Some(next) = child_of(&self.rows, self.cursor as usize) {
            self.rows.flip(next as usize, &mut self.machine);
            self.cursor = next;
            self.depth += 1;
        }
    }

    fn may_redo(&self, count: u32) -> bool
        ensures { (h : History) → Holds self.now h → result ≡ is_some (redone count h) }
    {
        let mut at = self.cursor;
        'look: for _gone in 0..count {
            match child_of(&self.rows, at as usize) {
                Some(next) => at = next,
                None => return false,
            }
        }
        true
    }

    /// Goes so many events forward, each time to the child through which the cursor last went.
    /// `NothingToRedo` where there are not so many; then nothing moves.
    pub fn redo(&mut self, count: u32) -> Result<Stand, Refusal>
        ensures { (h : History) → Holds self.old h → Moves Refusal.NothingToRedo result self.old self.new (redo count h) }
    {
        if !self.may_redo(count) {
            return Err(Refusal::NothingToRedo);
        }
        'descend: for _gone in 0..count {
            self.step_down();
        }
        Ok(self.stand())
    }

    fn stands(&self, node: u32) -> bool
        ensures told { (h : History) (aim : List Move) → Aims self.now h aim → result ≡ stands h node }
        ensures within { result ≡ true → node < length self.now.rows }
    {
        let at = node as usize;
        node == 0 || (at < self.rows.len() && self.rows.has_record(at))
    }

    /// Makes a node the last child of its parent, which it answers.
    fn aim_at(&mut self, node: u32) -> u32
        requires some { 0 < node }
        requires within { node < length self.old.rows }
        ensures older { result < node }
        ensures size { length self.new.rows ≡ length self.old.rows }
        ensures place { self.new.cursor ≡ self.old.cursor }
        ensures holds { (h : History) (aim : List Move) → Aims self.old h aim → (result ≡ parent h.nodes node) × Aims self.new h (Down node ∷ aim) }
    {
        let parent = self.rows.parent(node as usize);
        self.rows.set_last(parent as usize, node);
        parent
    }

    /// Goes up to where the way to a node leaves the cursor's, and makes that way the one of the last
    /// children. Answers how many nodes it still is to go down.
    fn climb(&mut self, node: u32) -> u32
        requires { node < length self.old.rows }
        ensures { (h : History) → Holds self.old h → Climbed h node self.new result }
    {
        let mut at = node;
        let mut down = 0;
        'climb: while self.cursor != at {
            if self.cursor > at {
                self.step_up();
            } else {
                at = self.aim_at(at);
                down += 1;
            }
        }
        down
    }

    /// Goes to a node the shortest way. `NoSuchNode` where it was never made or was pruned; then nothing
    /// moves. It crosses only the nodes between here and there.
    pub fn goto(&mut self, node: u32) -> Result<Stand, Refusal>
        ensures { (h : History) → Holds self.old h → Goes result self.old self.new (goto node h) }
    {
        if !self.stands(node) {
            return Err(Refusal::NoSuchNode);
        }
        let down = self.climb(node);
        'descend: for _gone in 0..down {
            self.step_down();
        }
        Ok(self.stand())
    }

    /// Goes to the node that has a name, as `goto`. `NoSuchName` where no node was given it.
    pub fn visit(&mut self, name: &Name) -> Result<Stand, Refusal>
        ensures { (h : History) → Holds self.old h → Goes result self.old self.new (visit name.now h) }
    {
        match self.marks.node_at(name.as_str()) {
            Some(node) => self.goto(node),
            None => Err(Refusal::NoSuchName),
        }
    }

    /// Gives the cursor's node a name, and answers the node. `NameTaken` where the name was given, also
    /// to a node that was pruned since.
    pub fn mark(&mut self, name: &Name) -> Result<u32, Refusal>
        ensures { (h : History) → Holds self.old h → Names result self.old self.new (mark name.now h) }
    {
        if self.marks.node_at(name.as_str()).is_some() {
            return Err(Refusal::NameTaken);
        }
        self.marks.add(name, self.cursor)?;
        Ok(self.cursor)
    }

    fn is_on_path(&self, node: u32) -> bool
        ensures { (h : History) (aim : List Move) → Aims self.now h aim → result ≡ is_on_path h node }
    {
        let mut at = self.cursor;
        'climb: while at > node {
            at = self.rows.parent(at as usize);
        }
        at == node
    }

    /// Drops a node and all below it, and answers how many there were. `NoSuchNode` where it was never
    /// made or was pruned, `OnPath` where the cursor stands on it or below it. Their numbers are not used again.
    /// It costs the cursor's depth, and the nodes that go with the children of theirs that were dropped before,
    /// or, where these are many, a look at each node that was made later.
    pub fn prune(&mut self, node: u32) -> Result<u32, Refusal>
        ensures { (h : History) → Holds self.old h → Prunes result self.old self.new (prune node h) }
    {
        if !self.stands(node) {
            return Err(Refusal::NoSuchNode);
        }
        if self.is_on_path(node) {
            return Err(Refusal::OnPath);
        }
        Ok(drop_below(&mut self.rows, node))
    }

    /// What would come of events at the cursor: they are tried in order up to the first that is refused,
    /// and all of them are taken back.
    pub fn what_if(&mut self, events: &[Event]) -> Result<Sides, AllocError>
        requires { length events.now ≤ MAX_EVENTS }
        ensures same { self.new ≡ self.old }
        ensures sides { (h : History) → Holds self.old h → IfOk result (λ sides. sides ≡ what_if events.now h) }
    {
        let before = self.machine.sum();
        let mut replies = Vec::new(self.alloc);
        let after = try_events(&mut self.machine, events, 0, &mut replies)?;
        Ok(Sides {
            given: events.len() as u32,
            before,
            replies: esx_types::Rows::from_vec(replies),
            after,
        })
    }
}
