//! Laws of the tree of events.

ghost use Rattle.std.specs.Prelude.{◌≡◌, ℕ, ◌+◌, length, Some, None, true, false};
ghost use Rattle.esx_events.specs.declared.event.Event.{Event};
ghost use Rattle.esx_model.specs.Tree.{parent, alive};
ghost use Rattle.esx_model.specs.History.{History, cursor, child, done, up_once, down_to};

/// After the cursor went down to a node and up again, a redo goes to that node; where it was pruned, nowhere.
#[tactic(auto, unfolding(esx_model::specs::History::child, esx_model::specs::History::up_once, esx_model::specs::Tree::at, esx_model::specs::Tree::last_descent))]
pub fn redo_goes_where_the_cursor_came_from()
    ensures standing { (h : History) (node : ℕ) → alive h.nodes node ≡ true → child (up_once (down_to h node)) ≡ Some node }
    ensures pruned { (h : History) (node : ℕ) → alive h.nodes node ≡ false → child (up_once (down_to h node)) ≡ None }
{}

/// An accepted event is a new node under the cursor's, and the cursor goes there; one step up leads back.
#[tactic(auto, unfolding(esx_model::specs::History::done, esx_model::specs::History::child, esx_model::specs::History::up_once, esx_model::specs::Tree::at, esx_model::specs::Tree::parent, esx_model::specs::Tree::alive, esx_model::specs::Tree::last_descent))]
pub fn event_is_a_child()
    ensures node { (event : Event) (h : History) → cursor (done event h) ≡ length h.nodes + 1 }
    ensures parent { (event : Event) (h : History) → parent (done event h).nodes (cursor (done event h)) ≡ cursor h }
    ensures stands { (event : Event) (h : History) → alive (done event h).nodes (cursor (done event h)) ≡ true }
    ensures redone { (event : Event) (h : History) → child (up_once (done event h)) ≡ Some (cursor (done event h)) }
{}
