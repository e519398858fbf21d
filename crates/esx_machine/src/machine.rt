//! The machine: one event, one flip, and questions.

use crate::advice::advise;
use crate::equal::equal_page;
use crate::planning::plan;
use crate::reading::{activity, numbers_of, page_state, spec_of, standing_of_vm, target_of};
use crate::record::Record;
use crate::rows::target_rows;
use crate::table::table_of;
use esx_events::{Activity, Answer, Event, Help, PageState, Refusal, Sum, TableRow};
use esx_formulas::Row;
use esx_level::Thresholds;
use esx_model::{Book, Standing};
use esx_plans::Plan;
use esx_tables::SiteTables;
use esx_types::{Config, Level, Rows, VmId, VmSpec};
use std::alloc::{AllocError, Global};
use std::marker::Model;

/// A site's numbers, how scarce its frames are, and its tables.
#[derive(Drop)]
pub struct Machine {
    alloc: Global,
    // The site's numbers, with the thresholds that follow from them.
    thresholds: Thresholds,
    level: Level,
    tables: SiteTables,
}

impl Model for Machine {
    ghost use Rattle.esx_machine.specs.Machine.{Kept, IsKept};

    ghost Value = { Kept };

    ghost view = { λ a. record { config = a.thresholds; level = a.level; tables = a.tables } };

    ghost invariant = { λ a. IsKept (record { config = a.thresholds; level = a.level; tables = a.tables }) };
}

impl Machine {
    ghost use Rattle.std.specs.Prelude.{◌≡◌, ◌≢◌, ◌≤◌, ◌+◌, ℕ, true, None, is_some, count_by, option_map, IfOk, IfErr};
    ghost use Rattle.esx_types.specs.declared.config.TheConstants.{VM_NUMBERS};
    ghost use Rattle.esx_types.specs.Ranges.{IsConfig};
    ghost use Rattle.esx_types.specs.Frames.{is_free};
    ghost use Rattle.esx_model.specs.declared.scene.Scene.{Scene};
    ghost use Rattle.esx_model.specs.Site.{free_count, vm_at};
    ghost use Rattle.esx_model.specs.Readings.{sum_of, page_state, activity, table_of};
    ghost use Rattle.esx_model.specs.Advice.{advice, target_of};
    ghost use Rattle.esx_model.specs.event.Outcome.{standing};
    ghost use Rattle.esx_model.specs.event.Paging.{compared};
    ghost use Rattle.esx_model.specs.event.Rebalancing.{rows_of};
    ghost use Rattle.esx_model.specs.event.Sharing.{found_by};
    ghost use Rattle.esx_model.specs.Replay.{next, opening};
    ghost use Rattle.esx_model.specs.sound.Sound.{NamesVm};
    ghost use Rattle.esx_changes.specs.Planned.{Plans};
    ghost use Rattle.esx_plans.specs.plan.Balloon.{CanEpochsRise};
    ghost use Rattle.esx_plans.specs.plan.Event.{plan_of};
    ghost use Rattle.esx_machine.specs.Machine.{Kept, Shows, Trades, turned, Applies, Exchanges, book_in};

    /// A site with no virtual machines. `BadSpec` where one of its numbers is out of its range.
    pub fn open(alloc: Global, config: Config) -> Result<Machine, Refusal>
        ensures shows { IfOk result (λ m. (m.config ≡ config) × Shows m (opening config)) }
        ensures checked { IfOk result (λ m. IsConfig config) }
        ensures refused { IfErr result (λ e. e ≢ Refusal.OutOfMemory → (e ≡ Refusal.BadSpec) × (¬ IsConfig config)) }
        ensures late { IfErr result (λ e. e ≡ Refusal.OutOfMemory → IsConfig config) }
    {
        let Ok(config) = config.check() else {
            return Err(Refusal::BadSpec);
        };
        let tables = SiteTables::open(alloc, &config)?;
        Ok(Machine {
            alloc,
            thresholds: Thresholds::of(config),
            level: Level::High,
            tables,
        })
    }

    /// One event: its answer, and the record that leads back, which holds what the changes of the event's
    /// plan left and nothing else. A refusal is the first that applies, and changes nothing; neither does
    /// want of memory.
    ///
    /// condition: each machine's epoch can rise
    #[inline(always)]
    pub fn apply(&mut self, event: &Event) -> Result<(Answer, Record), Refusal>
        requires rise { CanEpochsRise self.old.tables }
        ensures event { (scene : Scene) → Shows self.old scene → Applies result self.old self.new (next self.old.config scene event.now) }
        ensures exchanges { IfOk result (λ r. Exchanges self.old self.new event.now r.1) }
    {
        let plan = match self.plan(event) {
            Ok(plan) => plan,
            Err(refusal) => return Err(refusal),
        };
        let mut changes = plan.changes;
        let level = self.level;
        self.tables.exchange_from(&mut changes, false);
        let free = self.tables.counts().free;
        self.level = self.thresholds.next(level, free);
        Ok((plan.answer, Record::leading_back(level, changes)))
    }

    /// The plan of an event. What is kept while it is made is seen in no table.
    #[inline(always)]
    fn plan(&mut self, event: &Event) -> Result<Plan, Refusal>
        requires { CanEpochsRise self.old.tables }
        ensures plans { Plans result (plan_of self.old.config self.old.tables self.old.level event.now) }
        ensures named { NamesVm event.now }
        ensures same { self.new ≡ self.old }
    {
        plan(
            &mut self.tables,
            self.alloc,
            self.thresholds.config(),
            self.level,
            event,
        )
    }

    /// Trades the record's changes and level with the machine's tables and level.
    pub fn flip(&mut self, back: &mut Record)
        requires fits { (there : Kept) × Trades back.old self.old there }
        ensures { (there : Kept) → Trades back.old self.old there
            → (self.new ≡ there) × Trades back.new there self.old × (back.new ≡ turned back.old self.old) }
    {
        back.trade(&mut self.tables, &mut self.level);
    }

    /// The site's numbers, as it was opened.
    pub fn config(&self) -> Config
        ensures { result ≡ self.now.config }
    {
        *self.thresholds.config()
    }

    /// How scarce frames are.
    pub fn level(&self) -> Level
        ensures { result ≡ self.now.level }
    {
        self.level
    }

    /// How many frames are free.
    pub fn free(&self) -> u32
        ensures rows { result ≡ count_by is_free self.now.tables.frames }
        ensures shown { (scene : Scene) → Shows self.now scene → result ≡ free_count self.now.config.frames scene.site }
    {
        self.tables.counts().free
    }

    /// How many frames are of each kind, and the level.
    #[tactic(auto, unfolding(esx_model::specs::Readings::sum_of))]
    pub fn sum(&self) -> Sum
        ensures value { result ≡ sum_of (book_in self.now) }
        ensures adds_up { result.overhead + result.private + result.shared + result.free ≡ self.now.config.frames }
    {
        let counts = self.tables.counts();
        Sum {
            overhead: counts.overhead,
            private: counts.private,
            shared: counts.shared,
            free: counts.free,
            level: self.level,
        }
    }

    /// A copy of every table, as it is read.
    pub fn book(&self) -> Result<Book, AllocError>
        ensures { IfOk result (λ book. book ≡ book_in self.now) }
    {
        self.tables.book(self.alloc, self.level)
    }

    /// A line for each virtual machine, in order of number.
    pub fn table(&self) -> Result<Rows<TableRow>, AllocError>
        ensures { IfOk result (λ rows. rows ≡ table_of (book_in self.now)) }
    {
        table_of(self.alloc, &self.tables)
    }

    /// Where a page is. `NoVm` where there is no such virtual machine, `OutOfRange` where it has no such page.
    pub fn of_page(&self, vm: VmId, page: u32) -> Result<PageState, Refusal>
        ensures { result ≡ page_state (book_in self.now) vm page }
    {
        page_state(&self.tables, vm, page)
    }

    /// A virtual machine's averages and open period. `NoVm` where there is no such virtual machine.
    pub fn of_vm(&self, vm: VmId) -> Result<Activity, Refusal>
        ensures { result ≡ activity (book_in self.now) vm }
    {
        activity(&self.tables, vm)
    }

    /// The idle memory tax of the site, in percent.
    pub fn tau(&self) -> u32
        ensures { (scene : Scene) → Shows self.now scene → result ≡ scene.site.tau }
    {
        self.tables.tau()
    }

    /// What a virtual machine asked for, with its present shares and its present tax, if there is such a machine.
    pub fn spec(&self, vm: VmId) -> Option<VmSpec>
        ensures { (scene : Scene) → Shows self.now scene → result ≡ option_map (λ v. v.spec) (vm_at scene.site vm) }
    {
        spec_of(&self.tables, vm)
    }

    /// What a virtual machine asked for, its state and its target, and how many of its pages are in frames, in slots and
    /// lent, if there is such a machine.
    pub fn standing(&self, vm: VmId) -> Option<Standing>
        ensures { (scene : Scene) → Shows self.now scene → result ≡ option_map standing (vm_at scene.site vm) }
    {
        standing_of_vm(&self.tables, vm)
    }

    /// How many pages a virtual machine is to have, if there is such a machine.
    pub fn target(&self, vm: VmId) -> Option<u32>
        ensures { (scene : Scene) → Shows self.now scene → result ≡ option_map (λ v. v.target) (vm_at scene.site vm) }
    {
        target_of(&self.tables, vm)
    }

    /// The number behind that of the last virtual machine that stands, 0 where there is none.
    pub fn numbers(&self) -> usize
        ensures few { result ≤ VM_NUMBERS }
        ensures past { (scene : Scene) (n : ℕ) → Shows self.now scene → result ≤ n → vm_at scene.site n ≡ None }
        ensures last { (scene : Scene) (n : ℕ) → Shows self.now scene → n + 1 ≡ result → is_some (vm_at scene.site n) ≡ true }
    {
        numbers_of(&self.tables)
    }

    /// What each virtual machine has for the taxed ratio, in order of number, with its target for a floor. It looks at
    /// each machine once.
    pub fn rows(&self) -> Result<Vec<Row>, AllocError>
        ensures { (scene : Scene) → Shows self.now scene → IfOk result (λ rows. rows.items ≡ rows_of target_of scene.site) }
    {
        target_rows(self.alloc, &self.tables)
    }

    /// The page that a scan, or a swap-out of the page that it draws, would find to be equal to its own and alone in its
    /// frame. Other events find none, nor does one that would be refused need to.
    pub fn equal_page(&self, event: &Event) -> Option<(VmId, u32)>
        ensures { (scene : Scene) → Shows self.now scene → result ≡ found_by scene.site (compared scene.site event.now) }
    {
        equal_page(&self.tables, event)
    }

    /// Reads where a page is, any page of any number, so that this is near when an access comes. What it gives is for
    /// `look_at` alone: the page's frame, or `u32::MAX` where it is in none.
    #[inline(always)]
    pub fn look_for(&self, vm: VmId, page: u32) -> u32 {
        self.tables.look_for(vm, page)
    }

    /// Reads a frame's row and the byte of its page that stands so many bytes behind its first, or 0 where there is none,
    /// as an access is to: any numbers may be asked for. What it gives means nothing.
    #[inline(always)]
    pub fn look_at(&self, frame: u32, at: u32) -> u8 {
        self.tables.look_at(frame, at)
    }

    /// What lets a write to a page go on, or why its virtual machine can make none.
    pub fn advise(&self, vm: VmId, page: u32) -> Result<Help, Refusal>
        ensures { (scene : Scene) → Shows self.now scene → result ≡ advice self.now.config scene vm page }
    {
        advise(&self.tables, self.level, vm, page)
    }
}
