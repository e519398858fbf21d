//! Laws of changes. A function here does nothing: its contract is the law.

ghost use Rattle.std.specs.Prelude.{◌≡◌, List};
ghost use Rattle.esx_lists.specs.Trades.{LeadsBack};
ghost use Rattle.esx_model.specs.declared.tables.Tables.{Tables};
ghost use Rattle.esx_tables.specs.declared.change.Change.{Change};
ghost use Rattle.esx_tables.specs.Changes.{traded, exchanged};
ghost use Rattle.esx_tables.specs.Kept.{SameSizes, IsPast};

/// A change, made again with what came out, leaves the tables and the change as they were; and so do
/// changes made in turn.
#[tactic(auto, using(crate::proofs::Back::traded_back, crate::proofs::Back::exchanged_back))]
pub fn there_and_back()
    ensures one { LeadsBack traded }
    ensures all { LeadsBack exchanged }
{}

/// Changes leave as many frames, slots, places of machines and listings.
pub fn sizes_stay()
    ensures one { (t : Tables) (change : Change) → SameSizes t (traded t change).0 }
    ensures all { (t : Tables) (changes : List Change) → SameSizes t (exchanged t changes).0 }
{}

/// Where there is no such place a change changes nothing, and stays what it is.
#[tactic(auto, using(crate::proofs::Kept::past_end))]
pub fn nothing_past_the_end()
    ensures { (t : Tables) (change : Change) → IsPast t change → traded t change ≡ (t, change) }
{}
