//! Laws of the reserves (Waldspurger, "Admission Control"): what a site promises its machines is there. A function here does nothing:
//! its contract is the law.

ghost use Rattle.std.specs.Prelude.{◌≡◌, ℕ, ◌≤◌, false, List, Some, Ok};
ghost use Rattle.std.specs.List.{list_any, AllByRecursion};
ghost use Rattle.esx_types.specs.declared.config.Config.{Config};
ghost use Rattle.esx_types.specs.Ranges.{IsConfig};
ghost use Rattle.esx_types.specs.declared.level.Level.{Level};
ghost use Rattle.esx_events.specs.declared.event.Answer.{Answer};
ghost use Rattle.esx_events.specs.declared.event.Answer.TheVariants.{Replaced};
ghost use Rattle.esx_events.specs.declared.event.Event.{Event};
ghost use Rattle.esx_model.specs.declared.scene.Scene.{Scene};
ghost use Rattle.esx_model.specs.declared.scene.Vm.{Vm};
ghost use Rattle.esx_model.specs.declared.scene.Site.{Site};
ghost use Rattle.esx_model.specs.Places.{is_here, is_out};
ghost use Rattle.esx_model.specs.Site.{vm_at, place_at, paged_out, pages_at, least_slot, free_count, swap_reserve};
ghost use Rattle.esx_model.specs.event.Outcome.{Passes, standing};
ghost use Rattle.esx_model.specs.event.Paging.{swap_out_gate, swap_out, is_above_min, replace_gate, replace};
ghost use Rattle.esx_model.specs.Replay.{run};
ghost use Rattle.esx_model.specs.sound.Sound.{IsSound};

/// A machine has at most as many pages out as it has slots reserved, on each path.
pub fn out_is_reserved()
    ensures site { (c : Config) (s : Site) (n : ℕ) (v : Vm) → IsSound c s → vm_at s n ≡ Some v
        → paged_out v ≤ swap_reserve (Some v) }
    ensures path { (c : Config) (path : List Event) (t : Scene) (n : ℕ) (v : Vm) → IsConfig c
        → run c path ≡ Ok t → vm_at t.site n ≡ Some v
        → paged_out v ≤ swap_reserve (Some v) }
{}

/// A slot is free whenever a page that leaves its frame is to have one.
pub fn slot_is_free()
    ensures swap_out { (c : Config) (s : Site) (level : Level) (n : ℕ) (v : Vm) → IsSound c s → vm_at s n ≡ Some v
        → Passes (swap_out_gate level (standing v))
        → (i : ℕ) × (least_slot c.slots s ≡ Some i) }
    ensures replace { (c : Config) (s : Site) (n page : ℕ) (v : Vm) → IsSound c s → vm_at s n ≡ Some v
        → Passes (replace_gate (standing v) page (is_here (place_at v page)) (free_count c.frames s) (list_any is_above_min s.vms))
        → is_out (place_at v page) ≡ false
        → (i : ℕ) × (least_slot c.slots s ≡ Some i) }
{}

/// A machine that the level and its target let page out does so with any word: neither a page nor a slot is wanting.
pub fn swap_out_goes()
    ensures { (c : Config) (s : Site) (level : Level) (n word : ℕ) (v : Vm) → IsSound c s → vm_at s n ≡ Some v
        → Passes (swap_out_gate level (standing v))
        → (r : Answer × Site) × (swap_out c s level n word ≡ Ok r) }
{}

/// Where no frame is free and no machine has more than its least, a running machine's page that is in no frame comes to one
/// with any word: neither a page that makes room nor a slot for it is wanting.
pub fn replace_goes()
    ensures { (c : Config) (s : Site) (n page word : ℕ) (v : Vm) → IsSound c s → vm_at s n ≡ Some v
        → Passes (replace_gate (standing v) page (is_here (place_at v page)) (free_count c.frames s) (list_any is_above_min s.vms))
        → (r : Answer × Site) × (replace c s n page word ≡ Ok r) }
{}

/// A page that makes room is alone in its frame.
pub fn replaced_page_is_alone()
    ensures { (c : Config) (s : Site) (n page word q slot f : ℕ) (t : Site) → IsSound c s
        → replace c s n page word ≡ Ok (Replaced q slot f, t)
        → pages_at f s ≡ 1 }
{}
