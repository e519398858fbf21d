//! Laws of records, as an event gives them and after any number of flips.

ghost use Rattle.std.specs.Prelude.{◌≡◌, ◌+◌, ◌≤◌, ◌<◌, ℕ, List, [], ◌∷◌, length, Some, None};
ghost use Rattle.esx_types.specs.declared.config.Config.{Config};
ghost use Rattle.esx_types.specs.declared.config.TheConstants.{VM_NUMBERS};
ghost use Rattle.esx_types.specs.declared.vm.VmSpec.{VmSpec};
ghost use Rattle.esx_types.specs.Ranges.{IsConfig};
ghost use Rattle.esx_events.specs.declared.event.Event.{Event};
ghost use Rattle.esx_events.specs.declared.event.Event.TheVariants.{Admit, Write, Gone};
ghost use Rattle.esx_model.specs.declared.book.VmRow.{VmRow};
ghost use Rattle.esx_tables.specs.declared.change.Change.{Change};
ghost use Rattle.esx_tables.specs.declared.change.Change.TheVariants.{VmAt};
ghost use Rattle.esx_tables.specs.Readings.{row_at};
ghost use Rattle.esx_tables.specs.Sizes.{size_of, capped};
ghost use Rattle.esx_machine.specs.Machine.{Kept, IsKept, Back, Exchanges, flipped, turned};
ghost use Rattle.esx_records.specs.Small.{places_in, machines_moved, IsSmall};
ghost use Rattle.esx_records.specs.Forms.{after_flips, IsIn};
ghost use Rattle.esx_records.specs.Moves.{bytes_in, marks_in};

/// The record of an event holds one page of bytes at most, 10 rows, `MAX_SAMPLE` sample marks and a target of
/// each machine; and no machine with its page map, but for one in an admission and where a machine gives back
/// an overhead frame.
pub fn records_are_small()
    ensures { (old new : Kept) (event : Event) (r : Back) → IsKept old → Exchanges old new event r
        → (k : ℕ) → IsSmall old.config (machines_moved event) (after_flips k r new old).changes }
{}

/// The record of a write into a frame that stays its page's holds as many bytes as were written.
pub fn written_bytes_alone()
    ensures { (old new : Kept) (n page at f : ℕ) (bytes : List ℕ) (r : Back) → IsKept old → Exchanges old new (Write n page at bytes) r
        → IsIn old.tables n page f → IsIn new.tables n page f → (k : ℕ) → (size_of (after_flips k r new old).changes).bytes ≡ length bytes }
{}

/// The record of an admission is the machine's place, which is empty, and nothing else; flipped it is the
/// place with the machine, which was moved there.
pub fn admitted_machine_moves()
    ensures given { (old new : Kept) (n : ℕ) (spec : VmSpec) (r : Back) → IsKept old → n < VM_NUMBERS → Exchanges old new (Admit n spec) r → r.changes ≡ VmAt n None ∷ [] }
    ensures flipped { (old new : Kept) (n : ℕ) (spec : VmSpec) (r : Back) → IsKept old → n < VM_NUMBERS → Exchanges old new (Admit n spec) r
        → (turned r new).changes ≡ VmAt n (row_at new.tables n) ∷ [] }
{}

/// The record of a machine that goes holds its row with the page map; flipped it holds an empty place.
pub fn gone_machine_moves()
    ensures given { (old new : Kept) (n : ℕ) (v : VmRow) (r : Back) → Exchanges old new (Gone n) r → row_at old.tables n ≡ Some v → row_at new.tables n ≡ None
        → places_in r.changes ≡ Some v ∷ [] }
    ensures flipped { (old new : Kept) (n : ℕ) (v : VmRow) (r : Back) → Exchanges old new (Gone n) r → row_at old.tables n ≡ Some v → row_at new.tables n ≡ None
        → places_in (turned r new).changes ≡ None ∷ [] }
{}

/// The sizes that a small record tells are its own: none is cut off at the greatest number of 64 bits.
pub fn sizes_are_told()
    ensures { (c : Config) (most : ℕ) (changes : List Change) → IsConfig c → IsSmall c most changes → capped (size_of changes) ≡ size_of changes }
{}

/// A flip moves bytes of pages and sample marks between the tables and the record, and makes none: both
/// together have as many as before.
pub fn flips_make_nothing()
    ensures bytes { (here : Kept) (r : Back) → bytes_in (flipped here r).0.tables + (size_of (flipped here r).1.changes).bytes
        ≡ bytes_in here.tables + (size_of r.changes).bytes }
    ensures marks { (here : Kept) (r : Back) → marks_in (flipped here r).0.tables + (size_of (flipped here r).1.changes).marks
        ≡ marks_in here.tables + (size_of r.changes).marks }
{}

/// Each change of a record counts: as a row, as a target or as a sample mark.
pub fn each_change_counts()
    ensures { (changes : List Change) → length changes ≤ (size_of changes).rows + (size_of changes).marks + (size_of changes).targets }
{}
