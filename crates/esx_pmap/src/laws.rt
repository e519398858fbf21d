//! Laws of trades with the map. A function here does nothing: its contract is the law.

ghost use Rattle.std.specs.Prelude.{ℕ, List};
ghost use Rattle.esx_types.specs.declared.table.MapRow.{MapRow};
ghost use Rattle.esx_lists.specs.Trades.{LeadsBack, row_traded};

/// A row that is traded and traded back leaves the map and the row as they were.
#[tactic(auto, using(esx_lists::proofs::Trades::row_back))]
pub fn there_and_back()
    ensures { (page : ℕ) → LeadsBack (λ (rows : List MapRow) (row : MapRow). row_traded rows page row) }
{}
