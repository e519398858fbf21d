//! Laws of paths.

ghost use Rattle.std.specs.Prelude.{◌≡◌, ℕ, List, [], ◌∷◌, ◌++◌, length, take, Ok, Err};
ghost use Rattle.esx_types.specs.declared.config.Config.{Config};
ghost use Rattle.esx_events.specs.declared.event.Event.{Event};
ghost use Rattle.esx_events.specs.declared.event.Answer.{Answer};
ghost use Rattle.esx_events.specs.declared.event.Refusal.{Refusal};
ghost use Rattle.esx_formulas.specs.Level.{level_of};
ghost use Rattle.esx_model.specs.declared.scene.Scene.{Scene};
ghost use Rattle.esx_model.specs.Replay.{next, run, frees};

/// The level after a path is its rule, folded over the numbers of free frames after each event.
#[tactic(auto, using(crate::proofs::PathLemmas::level_of_run))]
pub fn level_is_fold()
    ensures { (c : Config) (path : List Event) (t : Scene) → run c path ≡ Ok t → t.level ≡ level_of c (frees c path) }
{}

/// An accepted event leads a path on.
#[tactic(auto, using(crate::proofs::PathLemmas::run_accepted))]
pub fn path_goes_on()
    ensures { (c : Config) (path : List Event) (event : Event) (t : Scene) (r : Answer × Scene)
        → run c path ≡ Ok t → next c t event ≡ Ok r → run c (path ++ event ∷ []) ≡ Ok r.1 }
{}

/// A refused event ends a path, at its place.
#[tactic(auto, using(crate::proofs::PathLemmas::run_refused))]
pub fn path_ends()
    ensures { (c : Config) (path : List Event) (event : Event) (t : Scene) (e : Refusal)
        → run c path ≡ Ok t → next c t event ≡ Err e → run c (path ++ event ∷ []) ≡ Err (length path, e) }
{}

/// The first events of a path are a path.
pub fn path_begins()
    ensures { (c : Config) (path : List Event) (count : ℕ) (t : Scene) → run c path ≡ Ok t
        → (u : Scene) × (run c (take count path) ≡ Ok u) }
{}
