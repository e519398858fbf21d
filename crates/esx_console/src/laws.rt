//! Laws of whole lists of calls. A function here does nothing: its contract is the law.

ghost use Rattle.std.specs.Prelude.{◌≡◌, ◌≢◌, ◌<◌, ◌≤◌, ◌+◌, ◌++◌, ◌∷◌, [], ℕ, List, All, Ok, true, false};
ghost use Rattle.esx_types.specs.declared.config.Config.{Config};
ghost use Rattle.esx_events.specs.declared.event.Event.{Event};
ghost use Rattle.esx_events.specs.declared.event.Answer.{Answer};
ghost use Rattle.esx_events.specs.declared.event.Refusal.{Refusal};
ghost use Rattle.esx_events.specs.declared.event.Refusal.TheVariants.{NothingToUndo, NothingToRedo, NoSuchNode};
ghost use Rattle.esx_events.specs.declared.call.Call.{Call};
ghost use Rattle.esx_events.specs.declared.call.NameRow.{NameRow};
ghost use Rattle.esx_events.specs.declared.call.Call.TheVariants.{Do, Undo, Redo, Goto, Visit, Mark, Prune};
ghost use Rattle.esx_events.specs.declared.call.Said.TheVariants.{Done, Marked, Pruned, Refused};
ghost use Rattle.esx_model.specs.Replay.{replay_of};
ghost use Rattle.esx_model.specs.History.{cursor, here, book_at};
ghost use Rattle.esx_model.specs.Branching.{stands};
ghost use Rattle.esx_model.specs.Console.{Session, IsLegal, history, next_reply, lined, stand_of};
ghost use Rattle.esx_isolation.specs.Beside.{IsGuestAlone, IsGuestWhole};
ghost use Rattle.esx_journal.specs.Turns.{IsSamePlace, Lengthens};
ghost use Rattle.esx_journal.specs.Visits.{Visits, TakesOff};
ghost use Rattle.esx_console.specs.Calls.{Asked, opened_session, lined_all, history_of, depth_of, said_next, TurnsOrAsks, OnlyAsks, UndidLine};

use crate::console::Console;
use esx_journal::laws::{
    event_lengthens, goto_leads_there, names_stay_taken, prune_takes_off, reached_path_runs,
    redo_lengthens, there_and_back, turns_add_up, turns_lead_back, turns_meet, undo_shortens,
    visit_is_a_goto,
};

/// After every list of calls, by any callers, the tables are those of replaying from the opening the
/// events on the cursor's path, and none of these events is refused.
pub fn calls_lead_to_a_replay()
    ensures calls { (site : Config) (asked : List Asked) → replay_of site (here (history_of site asked)) ≡ Ok (book_at (history_of site asked)) }
    ensures sessions { (s : Session) → replay_of s.site (here (history s)) ≡ Ok (book_at (history s)) }
{
    reached_path_runs();
}

/// The same of a console: its log is a list of calls.
pub fn console_is_a_replay(console: &Console)
    ensures { replay_of console.now.site (here (history console.now)) ≡ Ok (book_at (history console.now)) }
{
    let _ = console;
    calls_lead_to_a_replay();
}

/// Legal logs are those of lists of calls, each with its reply.
pub fn logs_are_calls()
    ensures made { (site : Config) (asked : List Asked) → IsLegal (lined_all (opened_session site) asked) }
    ensures all { (s : Session) → IsLegal s → (asked : List Asked) × (lined_all (opened_session s.site) asked ≡ s) }
{}

/// An undo of as many events as there are leads to the tables of the shorter path; one of more is refused
/// and changes nothing.
pub fn undo_line_shortens()
    ensures accepted { (s : Session) (caller count : ℕ) → count ≤ depth_of s → UndidLine s (lined s caller (Undo count)) count }
    ensures told { (s : Session) (count : ℕ) → depth_of s < count → said_next s (Undo count) ≡ Refused NothingToUndo }
    ensures refused { (s : Session) (caller count : ℕ) → depth_of s < count → history (lined s caller (Undo count)) ≡ history s }
{
    undo_shortens();
}

/// A redo leads to the tables of the longer path and tells where the cursor is, or it is refused and
/// changes nothing.
pub fn redo_line_lengthens()
    ensures accepted { (s : Session) (caller count : ℕ) → said_next s (Redo count) ≢ Refused NothingToRedo
        → Lengthens (history s) (history (lined s caller (Redo count))) count }
    ensures told { (s : Session) (caller count : ℕ) → said_next s (Redo count) ≢ Refused NothingToRedo
        → said_next s (Redo count) ≡ stand_of (history (lined s caller (Redo count))) }
    ensures refused { (s : Session) (caller count : ℕ) → said_next s (Redo count) ≡ Refused NothingToRedo
        → history (lined s caller (Redo count)) ≡ history s }
{
    redo_lengthens();
}

/// An undo and then as much redo lead back to the same node, path and tables, and the redo tells so.
pub fn undo_and_redo_lines()
    ensures place { (s : Session) (caller other count : ℕ) → count ≤ depth_of s
        → IsSamePlace (history s) (history (lined (lined s caller (Undo count)) other (Redo count))) }
    ensures told { (s : Session) (caller other count : ℕ) → count ≤ depth_of s
        → said_next (lined s caller (Undo count)) (Redo count) ≡ stand_of (history s) }
{
    undo_shortens();
    there_and_back();
}

/// Undos, redos, questions and tries of events, by any callers, that leave the cursor as deep as it was leave
/// it at the same node, with the same path and tables.
pub fn calls_that_cancel()
    ensures { (s : Session) (asked : List Asked) → All (λ x. TurnsOrAsks x.call) asked → depth_of (lined_all s asked) ≡ depth_of s
        → IsSamePlace (history s) (history (lined_all s asked)) }
{
    turns_meet();
}

/// After such calls one redo, or one undo, of the events by which the depth differs leads back.
pub fn calls_then_back()
    ensures by_redo { (s : Session) (asked : List Asked) (caller count : ℕ) → All (λ x. TurnsOrAsks x.call) asked
        → depth_of (lined_all s asked) + count ≡ depth_of s → IsSamePlace (history s) (history (lined (lined_all s asked) caller (Redo count))) }
    ensures by_undo { (s : Session) (asked : List Asked) (caller count : ℕ) → All (λ x. TurnsOrAsks x.call) asked
        → depth_of (lined_all s asked) ≡ depth_of s + count → IsSamePlace (history s) (history (lined (lined_all s asked) caller (Undo count))) }
{
    turns_add_up();
    turns_lead_back();
}

/// A call that is refused changes nothing but the log; nor does a question or a try of events.
pub fn refused_changes_nothing()
    ensures refused { (s : Session) (caller : ℕ) (call : Call) (refusal : Refusal) → said_next s call ≡ Refused refusal
        → history (lined s caller call) ≡ history s }
    ensures asked { (s : Session) (caller : ℕ) (call : Call) → OnlyAsks call → history (lined s caller call) ≡ history s }
{}

/// An event that is accepted stands last on the cursor's path.
pub fn event_line_lengthens()
    ensures { (s : Session) (caller : ℕ) (event : Event) (answer : Answer) → said_next s (Do event) ≡ Done answer
        → here (history (lined s caller (Do event))) ≡ here (history s) ++ event ∷ [] }
{
    event_lengthens();
}

/// A goto leads to its node by the fewest moves and tells where the cursor is, where the node stands; elsewhere it is refused.
pub fn goto_line_leads_there()
    ensures accepted { (s : Session) (caller node : ℕ) → stands (history s) node ≡ true → Visits (history s) (history (lined s caller (Goto node))) node }
    ensures told { (s : Session) (caller node : ℕ) → stands (history s) node ≡ true → said_next s (Goto node) ≡ stand_of (history (lined s caller (Goto node))) }
    ensures missing { (s : Session) (node : ℕ) → stands (history s) node ≡ false → said_next s (Goto node) ≡ Refused NoSuchNode }
{
    goto_leads_there();
}

/// A visit of a name that is listed is a goto to its node, with the same reply.
pub fn visit_line_is_a_goto()
    ensures told { (s : Session) → All (λ (row : NameRow). next_reply s (Visit row.name) ≡ next_reply s (Goto row.node)) (history s).marks }
    ensures place { (s : Session) (caller other : ℕ)
        → All (λ (row : NameRow). history (lined s caller (Visit row.name)) ≡ history (lined s other (Goto row.node))) (history s).marks }
{
    visit_is_a_goto();
}

/// A mark that is accepted names the cursor's node, tells so, and changes nothing else.
pub fn mark_line_names()
    ensures told { (s : Session) (name told : List ℕ) (node : ℕ) → said_next s (Mark name) ≡ Marked told node → (told ≡ name) × (node ≡ cursor (history s)) }
    ensures added { (s : Session) (caller node : ℕ) (name told : List ℕ) → said_next s (Mark name) ≡ Marked told node
        → history (lined s caller (Mark name)) ≡ record (history s) { marks = (history s).marks ++ record { name = name; node = cursor (history s) } ∷ [] } }
{
    names_stay_taken();
}

/// A prune that is accepted drops a node and all below it, tells how many there were, and changes nothing else.
pub fn prune_line_takes_off()
    ensures { (s : Session) (caller node count : ℕ) → said_next s (Prune node) ≡ Pruned count
        → TakesOff (history s) (history (lined s caller (Prune node))) node count }
{
    prune_takes_off();
}

/// The reads of a guest answer what they answer alone, on a log that opens with admissions and starts and then has
/// events and questions alone. Its trace is tidy, and of its machine the others' lines name no more than scans, swap
/// outs, samples and shares. If its machine ran when the opening was over, it went through its trace, and no node
/// number was wanting, all of its reads did.
pub fn guest_reads_alone()
    ensures prefix { IsGuestAlone }
    ensures whole { IsGuestWhole }
{
    esx_isolation::laws::guest_reads_alone();
}
