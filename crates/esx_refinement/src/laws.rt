//! Laws of plans. A function here does nothing: its contract is the law.

ghost use Rattle.std.specs.Prelude.{◌≡◌, ℕ, ◌<◌, List, length, Bool, Some};
ghost use Rattle.esx_types.specs.declared.config.Config.{Config};
ghost use Rattle.esx_types.specs.declared.config.TheConstants.{VM_NUMBERS};
ghost use Rattle.esx_types.specs.declared.level.Level.{Level};
ghost use Rattle.esx_types.specs.declared.vm.VmSpec.{VmSpec};
ghost use Rattle.esx_types.specs.Frames.{frame_at};
ghost use Rattle.esx_model.specs.declared.scene.Place.TheVariants.{Here};
ghost use Rattle.esx_model.specs.declared.scene.Vm.{Vm};
ghost use Rattle.esx_model.specs.declared.scene.Site.{Site};
ghost use Rattle.esx_model.specs.Site.{vm_at, place_at};
ghost use Rattle.esx_model.specs.Tables.{vm_table, standing_of, tables_of};
ghost use Rattle.esx_model.specs.event.Outcome.{standing};
ghost use Rattle.esx_model.specs.event.Admission.{admit};
ghost use Rattle.esx_model.specs.event.Leaving.{stop, drop_page, gone};
ghost use Rattle.esx_model.specs.event.Rebalancing.{rebalance, set_tax, set_vm_tax, set_shares};
ghost use Rattle.esx_model.specs.event.Sampling.{sample};
ghost use Rattle.esx_model.specs.event.Starting.{start};
ghost use Rattle.esx_model.specs.event.Access.{read, write};
ghost use Rattle.esx_model.specs.event.Paging.{replace, swap_out};
ghost use Rattle.esx_model.specs.event.Sharing.{look, scan};
ghost use Rattle.esx_model.specs.sound.Sound.{IsSound, NamesVm};
ghost use Rattle.esx_model.specs.Step.{step};
ghost use Rattle.esx_events.specs.declared.event.Event.{Event};
ghost use Rattle.esx_types.specs.Ranges.{IsConfig};
ghost use Rattle.esx_plans.specs.plan.Event.{ArePlannable, plan_of};
ghost use Rattle.esx_refinement.specs.Refinement.{Refines};
ghost use Rattle.esx_plans.specs.plan.Admission.{admit_plan};
ghost use Rattle.esx_plans.specs.plan.Leaving.{stop_plan, drop_plan, gone_plan};
ghost use Rattle.esx_plans.specs.plan.Ratios.{HaveRatios};
ghost use Rattle.esx_plans.specs.plan.Rebalancing.{rebalance_plan, tax_plan, vm_tax_plan, shares_plan};
ghost use Rattle.esx_plans.specs.plan.Sampling.{sample_plan};
ghost use Rattle.esx_model.specs.event.Balloon.{ask, lend, take_back};
ghost use Rattle.esx_plans.specs.plan.Balloon.{ask_plan, lend_plan, take_back_plan};
ghost use Rattle.esx_plans.specs.plan.Starting.{start_plan};
ghost use Rattle.esx_changes.specs.Counted.{ArePeriodsOpen};
ghost use Rattle.esx_access.specs.Access.{read_plan, write_plan};
ghost use Rattle.esx_access.specs.Replacing.{replace_plan};
ghost use Rattle.esx_sharing.specs.Sharing.{look_in, scan_plan, HasCounts};
ghost use Rattle.esx_sharing.specs.Paging.{swap_out_plan};

/// What gates read of a machine's row is what they read of the machine.
#[tactic(auto, using(crate::proofs::Refining::standing_shown))]
pub fn rows_stand_as_machines()
    ensures { (v : Vm) → standing_of (vm_table v) ≡ standing v }
{}

/// The plan of a tax, of a machine's own tax, of shares and of a stop does to the tables what the event does to the site.
pub fn settings_refine()
    ensures tax { (c : Config) (s : Site) (tau : ℕ) → Refines c s (tax_plan tau) (set_tax s tau) }
    ensures own { (c : Config) (s : Site) (n tau : ℕ) → Refines c s (vm_tax_plan (tables_of c s) n tau) (set_vm_tax s n tau) }
    ensures shares { (c : Config) (s : Site) (n shares : ℕ) → Refines c s (shares_plan (tables_of c s) n shares) (set_shares s n shares) }
    ensures stop { (c : Config) (s : Site) (n : ℕ) → Refines c s (stop_plan (tables_of c s) n) (stop s n) }
{}

/// The plan of a start does to the tables of a sound site what the event does to the site.
pub fn start_refines()
    ensures { (c : Config) (s : Site) (n : ℕ) → IsSound c s → Refines c s (start_plan (tables_of c s) n) (start c s n) }
{}

/// The plan of an admission does to the tables of a sound site what the event does to the site, and such
/// tables have a place for each machine.
pub fn admit_refines()
    ensures places { (c : Config) (s : Site) → IsSound c s → length (tables_of c s).vms ≡ VM_NUMBERS }
    ensures plan { (c : Config) (s : Site) (n : ℕ) (spec : VmSpec) → IsSound c s → n < VM_NUMBERS → Refines c s (admit_plan c (tables_of c s) n spec) (admit c s n spec) }
{}

/// The plan of a sample period that opens does to the tables what the event does to the site.
pub fn sample_refines()
    ensures { (c : Config) (s : Site) (n len : ℕ) (words : List ℕ) → Refines c s (sample_plan (tables_of c s) n len words) (sample s n len words) }
{}

/// The plan of new targets does to the tables what the event does to the site, and the tables of a sound
/// site have all that it needs.
pub fn rebalance_refines()
    ensures ratios { (c : Config) (s : Site) → IsSound c s → HaveRatios (tables_of c s) }
    ensures plan { (c : Config) (s : Site) (level : Level) → Refines c s (rebalance_plan c (tables_of c s) level) (rebalance c s level) }
{}

/// The plan of a drop, and of an overhead frame that is given back, does to the tables of a sound site what
/// the event does to the site.
pub fn leaving_refines()
    ensures drop_page { (c : Config) (s : Site) (n page : ℕ) → IsSound c s → Refines c s (drop_plan (tables_of c s) n page) (drop_page s n page) }
    ensures gone { (c : Config) (s : Site) (n : ℕ) → IsSound c s → Refines c s (gone_plan (tables_of c s) n) (gone s n) }
{}

/// The plan of what a balloon driver asks, of a loan and of its end does to the tables what the event does
/// to the site.
pub fn balloon_refines()
    ensures ask { (c : Config) (s : Site) (n : ℕ) → Refines c s (ask_plan (tables_of c s) n) (ask s n) }
    ensures lend { (c : Config) (s : Site) (n page : ℕ) → IsSound c s → Refines c s (lend_plan (tables_of c s) n page) (lend s n page) }
    ensures take_back { (c : Config) (s : Site) (n page : ℕ) → IsSound c s → Refines c s (take_back_plan (tables_of c s) n page) (take_back s n page) }
{}

/// The plan of a read and of a write does to the tables of a sound site what the event does to the site.
pub fn access_refines()
    ensures read { (c : Config) (s : Site) (level : Level) (n page at len : ℕ) → IsSound c s → Refines c s (read_plan c (tables_of c s) level n page at len) (read c s level n page at len) }
    ensures write { (c : Config) (s : Site) (level : Level) (n page at : ℕ) (new : List ℕ) → IsSound c s → Refines c s (write_plan c (tables_of c s) level n page at new) (write c s level n page at new) }
{}

/// Each open period in the tables of a sound site has accesses left, and 1 to `MAX_SAMPLE` pages.
pub fn periods_are_open()
    ensures { (c : Config) (s : Site) → IsSound c s → ArePeriodsOpen (tables_of c s) }
{}

/// The plan of a replacement does to the tables of a sound site what the event does to the site.
pub fn replace_refines()
    ensures { (c : Config) (s : Site) (n page word : ℕ) → IsSound c s → Refines c s (replace_plan c (tables_of c s) n page word) (replace c s n page word) }
{}

/// A look by the row of a page's frame, in the tables of a sound site, finds what a look at the page finds.
pub fn looks_meet()
    ensures { (c : Config) (s : Site) (n page : ℕ) (v : Vm) (bytes : List ℕ) (f : ℕ) (shared : Bool) → IsSound c s
        → vm_at s n ≡ Some v → place_at v page ≡ Here bytes f shared
        → look_in (tables_of c s) n page (frame_at (tables_of c s).frames f) ≡ look s n page (Here bytes f shared) }
{}

/// In the tables of a sound site one page more can be counted in each shared frame.
pub fn counts_fit()
    ensures { (c : Config) (s : Site) → IsSound c s → HasCounts (tables_of c s) }
{}

/// The plan of a scan does to the tables of a sound site what the event does to the site.
pub fn scan_refines()
    ensures { (c : Config) (s : Site) (n page : ℕ) → IsSound c s → Refines c s (scan_plan (tables_of c s) n page) (scan c s n page) }
{}

/// The plan of a page that is paged out does to the tables of a sound site what the event does to the site.
pub fn swap_out_refines()
    ensures { (c : Config) (s : Site) (level : Level) (n word : ℕ) → IsSound c s → Refines c s (swap_out_plan (tables_of c s) level n word) (swap_out c s level n word) }
{}

/// The plan of each event does to the tables of a sound site what the event does to the site, and such
/// tables have all that plans rest on.
pub fn events_refine()
    ensures whole { (c : Config) (s : Site) → IsConfig c → IsSound c s → ArePlannable c (tables_of c s) }
    ensures plan { (c : Config) (s : Site) (level : Level) (event : Event) → IsSound c s → NamesVm event → Refines c s (plan_of c (tables_of c s) level event) (step c s level event) }
{}
