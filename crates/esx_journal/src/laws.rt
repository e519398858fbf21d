//! Laws of the histories that events, moves, names and prunes lead to. A function here does nothing: its
//! contract is the law.

ghost use Rattle.std.specs.Prelude.{◌≡◌, ◌≢◌, ◌<◌, ◌≤◌, ◌+◌, ◌++◌, ◌∷◌, [], ℕ, List, length, sum_by, All, Some, None, Ok, Err, IfOk, IsOk, true, false};
ghost use Rattle.esx_types.specs.declared.config.Config.{Config};
ghost use Rattle.esx_events.specs.declared.event.Answer.{Answer};
ghost use Rattle.esx_events.specs.declared.event.Event.{Event};
ghost use Rattle.esx_events.specs.declared.event.Refusal.{Refusal};
ghost use Rattle.esx_events.specs.declared.call.NameRow.{NameRow};
ghost use Rattle.esx_model.specs.Replay.{run, replay_of};
ghost use Rattle.esx_model.specs.Tree.{alive, on_way};
ghost use Rattle.esx_model.specs.History.{History, cursor, here, done, do_event, undo, redo, scene_at, book_at};
ghost use Rattle.esx_events.specs.declared.event.Refusal.TheVariants.{Full, NoSuchNode, NameTaken, NoSuchName, OnPath};
ghost use Rattle.esx_model.specs.Branching.{stands, is_on_path, goto, visit, mark, prune};
ghost use Rattle.esx_model.specs.Readings.{sum_of};
ghost use Rattle.esx_model.specs.WhatIf.{what_if};
ghost use Rattle.esx_machine.specs.Machine.{book_in};
ghost use Rattle.esx_journal.specs.Journal.{Holds};
ghost use Rattle.esx_journal.specs.Reached.{IsReached};
ghost use Rattle.esx_journal.specs.Turns.{Turn, turned, back, forward, OnlyMoves, IsSamePlace, Shortens, Lengthens, LeadsTo};
ghost use Rattle.esx_journal.specs.Visits.{Visits, TakesOff};

use crate::journal::Journal;

/// Any number of events that there are can be undone, and no more.
pub fn undo_shortens()
    ensures accepted { (c : Config) (h : History) (count : ℕ) → IsReached c h → count ≤ length (here h) → Shortens h count }
    ensures refused { (h : History) (count : ℕ) → length (here h) < count → undo count h ≡ None }
{}

/// A redo lengthens the path.
pub fn redo_lengthens()
    ensures { (c : Config) (h after : History) (count : ℕ) → IsReached c h → redo count h ≡ Some after → Lengthens h after count }
{}

/// What was undone can be redone, and then the cursor is where it was.
pub fn there_and_back()
    ensures { (c : Config) (h after : History) (count : ℕ) → IsReached c h → undo count h ≡ Some after → LeadsTo (redo count after) h }
{}

/// Undos and redos change nothing but the walk, so the depth by each event that they cross, and the
/// jumps by one each.
pub fn turns_add_up()
    ensures rest { (c : Config) (h after : History) (turns : List Turn) → IsReached c h → turned turns h ≡ Some after → OnlyMoves h after }
    ensures jumps { (c : Config) (h after : History) (turns : List Turn) → IsReached c h → turned turns h ≡ Some after
        → after.jumps ≡ h.jumps + length turns }
    ensures depth { (c : Config) (h after : History) (turns : List Turn) → IsReached c h → turned turns h ≡ Some after
        → length (here after) + sum_by back turns ≡ length (here h) + sum_by forward turns }
{}

/// Undos and redos that go as far back as forward lead to where they began.
pub fn turns_cancel()
    ensures { (c : Config) (h after : History) (turns : List Turn) → IsReached c h → turned turns h ≡ Some after
        → sum_by back turns ≡ sum_by forward turns → IsSamePlace h after }
{}

/// Lists of undos and redos from one history that lead equally deep lead to one place.
pub fn turns_meet()
    ensures { (c : Config) (h after other : History) (turns others : List Turn) → IsReached c h
        → turned turns h ≡ Some after → turned others h ≡ Some other → length (here after) ≡ length (here other) → IsSamePlace after other }
{}

/// After any undos and redos one redo, or one undo, of the events by which they differ leads back.
pub fn turns_lead_back()
    ensures by_redo { (c : Config) (h after : History) (turns : List Turn) (count : ℕ) → IsReached c h → turned turns h ≡ Some after
        → sum_by back turns ≡ sum_by forward turns + count → LeadsTo (redo count after) h }
    ensures by_undo { (c : Config) (h after : History) (turns : List Turn) (count : ℕ) → IsReached c h → turned turns h ≡ Some after
        → sum_by forward turns ≡ sum_by back turns + count → LeadsTo (undo count after) h }
{}

/// Where a node stands, each node on its way stands; and each node on the cursor's way stands.
pub fn ways_stand()
    ensures cursor { (c : Config) (h : History) (node : ℕ) → IsReached c h → on_way h.nodes (cursor h) node ≡ true → alive h.nodes node ≡ true }
    ensures each { (c : Config) (h : History) (node above : ℕ) → IsReached c h → alive h.nodes node ≡ true → on_way h.nodes node above ≡ true
        → alive h.nodes above ≡ true }
{}

/// The tables are those of a replay of the cursor's path, and no event of it is refused.
pub fn path_runs(journal: &Journal)
    ensures scene { (h : History) → Holds journal.now h → run h.config (here h) ≡ Ok (scene_at h) }
    ensures book { (h : History) → Holds journal.now h → replay_of h.config (here h) ≡ Ok (book_in journal.now.machine) }
{}

/// An accepted event stands last on the cursor's path.
pub fn event_lengthens()
    ensures { (event : Event) (h : History) → here (done event h) ≡ here h ++ event ∷ [] }
{}

/// After an accepted event nothing is left to redo: what was undone before it is dropped.
pub fn event_drops_undone()
    ensures { (c : Config) (h : History) (event : Event) (count : ℕ) → IsReached c h → 0 < count → redo count (done event h) ≡ None }
{}

/// To whatever history calls lead, no event on the cursor's path is refused.
pub fn reached_path_runs()
    ensures site { (c : Config) (h : History) → IsReached c h → h.config ≡ c }
    ensures scene { (c : Config) (h : History) → IsReached c h → run c (here h) ≡ Ok (scene_at h) }
{}

/// Where a node stands a goto is accepted, and leads there by the fewest moves; elsewhere it is refused.
pub fn goto_leads_there()
    ensures accepted { (c : Config) (h : History) (node : ℕ) → IsReached c h → stands h node ≡ true → IfOk (goto node h) (λ after. Visits h after node) }
    ensures refused { (h : History) (node : ℕ) → stands h node ≡ false → goto node h ≡ Err NoSuchNode }
{}

/// A visit is a goto to the node that was named first; where no node was named so, it is refused. Each name that is listed leads to
/// its node.
pub fn visit_is_a_goto()
    ensures named { (h after : History) (name : List ℕ) → mark name h ≡ Ok after → visit name after ≡ goto (cursor h) after }
    ensures unnamed { (h : History) (name : List ℕ) → visit name h ≡ Err NoSuchName → IsOk (mark name h) }
    ensures listed { (c : Config) (h : History) → IsReached c h → All (λ (row : NameRow). visit row.name h ≡ goto row.node h) h.marks }
{}

/// A name is given to the cursor's node, and nothing else changes. It is refused from then on, also where its node was pruned.
pub fn names_stay_taken()
    ensures added { (h after : History) (name : List ℕ) → mark name h ≡ Ok after
        → after ≡ record h { marks = h.marks ++ record { name = name; node = cursor h } ∷ [] } }
    ensures given { (h after : History) (name : List ℕ) → mark name h ≡ Ok after → mark name after ≡ Err NameTaken }
    ensures pruned { (h after : History) (node count : ℕ) → prune node h ≡ Ok (count, after) → after.marks ≡ h.marks }
{}

/// A prune drops a node and all below it, and nothing else: paths, tables, names and numbers stay. It is refused where the node does
/// not stand, and where it is on the cursor's path.
pub fn prune_takes_off()
    ensures missing { (h : History) (node : ℕ) → stands h node ≡ false → prune node h ≡ Err NoSuchNode }
    ensures above { (h : History) (node : ℕ) → stands h node ≡ true → is_on_path h node ≡ true → prune node h ≡ Err OnPath }
    ensures accepted { (h : History) (node : ℕ) → stands h node ≡ true → is_on_path h node ≡ false → IsOk (prune node h) }
    ensures rest { (h after : History) (node count : ℕ) → prune node h ≡ Ok (count, after) → TakesOff h after node count }
{}

/// What a try of events tells is what making them would tell: their answers, one after another, up to the first refusal, and the
/// sums before and after them. Nothing is said of nodes that are all made, where no event can be.
pub fn try_foretells()
    ensures none { (h : History) → what_if [] h ≡ record { given = 0; before = sum_of (book_at h); replies = []; after = sum_of (book_at h) } }
    ensures accepted { (c : Config) (h after : History) (event : Event) (events : List Event) (answer : Answer) → IsReached c h
        → do_event event h ≡ Ok (answer, after)
        → what_if (event ∷ events) h ≡ record (what_if events after) { given = length (event ∷ events); before = sum_of (book_at h); replies = Ok answer ∷ (what_if events after).replies } }
    ensures refused { (h : History) (event : Event) (events : List Event) (e : Refusal) → do_event event h ≡ Err e → e ≢ Full
        → what_if (event ∷ events) h ≡ record (what_if [] h) { given = length (event ∷ events); replies = Err e ∷ [] } }
{}
